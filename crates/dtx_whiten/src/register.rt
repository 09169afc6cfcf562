//! The randomizer's shift register. Bit 0 to bit 15 are X1 to X16.

ghost use Rattle.std.specs.Prelude.{◌≡◌, ◌*◌, ◌<◌, ◌^◌};
ghost use Rattle.dtx_galois.specs.Field.{remainder};
ghost use Rattle.dtx_whiten.specs.Randomizer.{polynomial, tapped};

/// The generator polynomial, coefficient of X^i as bit i.
const POLYNOMIAL: u32 = 0x1_38CB;

/// What the register holds before a field's first byte: X16, X15, X14, X13, X9 and X8 are set.
pub const PRELOAD: u32 = 0xF180;

/// The register after one shift: its polynomial times X, modulo the generator polynomial.
pub fn shifted(register: u32) -> u32
    requires { register < 2 ^ 16 }
    ensures { result ≡ remainder 16 polynomial 1 (register * 2) }
{
    let double = register * 2;
    if (double >> 16) & 1 == 1 {
        double ^ POLYNOMIAL
    } else {
        double
    }
}

/// The byte at the register's taps, X1, X3, X4, X7, X11, X12, X13 and X14 as its bits 0 to 7.
pub fn tapped(register: u32) -> u8
    requires { register < 2 ^ 16 }
    ensures { result ≡ tapped register }
{
    let low = (register & 1)
        + 2 * ((register >> 2) & 1)
        + 4 * ((register >> 3) & 1)
        + 8 * ((register >> 6) & 1);
    let high = 16 * ((register >> 10) & 1)
        + 32 * ((register >> 11) & 1)
        + 64 * ((register >> 12) & 1)
        + 128 * ((register >> 13) & 1);
    (low + high) as u8
}
