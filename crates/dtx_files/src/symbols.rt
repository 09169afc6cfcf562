// Symbols as the bytes of a file: one signed byte each, in two's complement.
ghost use Rattle.std.specs.Prelude.{◌≡◌, ◌*◌, ◌≤◌, map, take};
ghost use Rattle.dtx_files.specs.Symbols.{byte_of_symbol};

use dtx_coder::{AIR_SYMBOLS, Air};
use dtx_sizes::SEGMENT;

/// Sets the first bytes to the symbols of the segments in `air`, in two's complement. Returns how many bytes they are.
pub fn bring(air: &Air, bytes: &mut [u8; AIR_SYMBOLS]) -> usize
    requires { air.now.segments ≤ 5 }
    ensures count { result ≡ SEGMENT * air.now.segments }
    ensures bound { result ≤ AIR_SYMBOLS }
    ensures bytes { take result bytes.new ≡ map byte_of_symbol (take result air.now.symbols) }
{
    if air.segments == 0 {
        return 0;
    }
    to_bytes(&air.symbols, bytes);
    SEGMENT * air.segments as usize
}

/// Sets each byte to the symbol at its place, in two's complement.
pub fn to_bytes(symbols: &[i8; AIR_SYMBOLS], bytes: &mut [u8; AIR_SYMBOLS])
    ensures { bytes.new ≡ map byte_of_symbol symbols.now }
{
    for i in 0..AIR_SYMBOLS {
        bytes[i] = symbols[i].cast_unsigned();
    }
}
