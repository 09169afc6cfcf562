//! Values of polynomials.

ghost use Rattle.std.specs.Prelude.{◌≡◌};
ghost use Rattle.dtx_galois.specs.Field.{value};

use crate::element::Gf;

/// The value at `at` of the polynomial with these coefficients, the highest first; an empty word gives 0.
pub fn eval(word: &[u8], at: Gf) -> Gf
    ensures { result.0 ≡ value word.now at.0 }
{
    let mut sum = Gf(0);
    for byte in word {
        sum = sum.mul(at).add(Gf(*byte));
    }
    sum
}
