//! An element of the field, and its arithmetic.

ghost use Rattle.std.specs.Prelude.{◌≡◌, ◌≢◌, ◌<◌};
ghost use Rattle.std.specs.Int.RustNames.{bit_xor};
ghost use Rattle.dtx_galois.specs.Field.{mul, pow};
ghost use Rattle.dtx_galois.specs.declared.tables.TheConstants.{ORDER};

use crate::tables::{ORDER, logarithm, power};

/// The polynomial x^8 + x^4 + x^3 + x^2 + 1, bit i as the coefficient of x^i. Products of bytes are taken modulo it
/// (ATSC A/53 Part 2, Reed-Solomon encoder).
pub const FIELD_POLYNOMIAL: u16 = 0x11D;

/// The element α. Its powers are all elements but 0.
pub const ALPHA: Gf = Gf(2);

/// An element of the field: a byte.
#[derive(Clone, Copy, Debug, PartialEq, Eq)]
pub struct Gf(pub u8);

impl Gf {
    /// The sum, which is the exclusive or. It is the difference too.
    pub fn add(self, other: Gf) -> Gf
        ensures { result.0 ≡ bit_xor self.0 other.0 }
    {
        Gf(self.0 ^ other.0)
    }

    /// The product: the polynomials' product modulo the field's polynomial.
    pub fn mul(self, other: Gf) -> Gf
        ensures { result.0 ≡ mul self.0 other.0 }
    {
        if self.0 == 0 || other.0 == 0 {
            return Gf(0);
        }
        Gf(power(logarithm(self.0) + logarithm(other.0)))
    }

    /// The element whose product with this one is 1.
    pub fn inv(self) -> Gf
        requires { self.0 ≢ 0 }
        ensures { mul self.0 result.0 ≡ 1 }
    {
        Gf(power(ORDER - logarithm(self.0)))
    }

    /// The exponent, below 255, of the power of α that this element is. It is 0 for the element 0, which is no power.
    pub fn log(self) -> u8
        ensures small { result < ORDER }
        ensures power { self.0 ≢ 0 → pow 2 result ≡ self.0 }
        ensures zero { self.0 ≡ 0 → result ≡ 0 }
    {
        if self.0 == 0 {
            return 0;
        }
        logarithm(self.0) as u8
    }

    /// The product of `times` factors of this element, which is 1 where there are none.
    pub fn pow(self, times: u32) -> Gf
        ensures { result.0 ≡ pow self.0 times }
    {
        if times == 0 {
            return Gf(1);
        }
        if self.0 == 0 {
            return self;
        }
        Gf(power(logarithm(self.0) * times as usize % ORDER))
    }
}
