//! The symbols of bytes.

ghost use Rattle.std.specs.Prelude.{◌≡◌, length};
ghost use Rattle.dtx_receiver.specs.Bytes.{symbols_of};

/// Sets each symbol to the byte at its place, read as a signed number in two's complement.
pub fn to_symbols(bytes: &[u8], symbols: &mut [i8])
    requires { length symbols.old ≡ length bytes.now }
    ensures { symbols.new ≡ symbols_of bytes.now }
{
    for i in 0..bytes.len() {
        symbols[i] = bytes[i].cast_signed();
    }
}
