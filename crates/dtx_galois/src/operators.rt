//! The operators of elements.

ghost use Rattle.std.specs.Prelude.{◌≡◌};
ghost use Rattle.std.specs.Int.RustNames.{bit_xor};
ghost use Rattle.dtx_galois.specs.Field.{mul};

use crate::element::Gf;
use std::ops::{Add, Mul};

impl Add for Gf {
    type Output = Gf;

    ghost add_gives = { λ a b sum. sum.0 ≡ bit_xor a.0 b.0 };

    fn add(self, other: Gf) -> Gf {
        Gf::add(self, other)
    }
}

impl Mul for Gf {
    type Output = Gf;

    ghost mul_gives = { λ a b product. product.0 ≡ mul a.0 b.0 };

    fn mul(self, other: Gf) -> Gf {
        Gf::mul(self, other)
    }
}
