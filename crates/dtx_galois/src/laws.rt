//! The laws of a field. They are laws of the definitions, and hold of all numbers where no bytes are asked for.

ghost use Rattle.std.specs.Prelude.{◌≡◌, ◌≢◌, ◌⊎◌, ℕ, List, ◌+◌, ◌<◌, ◌^◌, length};
ghost use Rattle.std.specs.Int.RustNames.{bit_xor};
ghost use Rattle.dtx_galois.specs.Field.{product, remainder, AreBytes, mul, pow, value, AreDifferent, IsZero};
ghost use Rattle.dtx_galois.specs.Field.{VanishesAt, scaled, sums};

use crate::element::{ALPHA, FIELD_POLYNOMIAL};

/// The field's polynomial is x^8 + x^4 + x^3 + x^2 + 1.
pub fn polynomial()
    ensures { FIELD_POLYNOMIAL ≡ 2 ^ 8 + 2 ^ 4 + 2 ^ 3 + 2 ^ 2 + 1 }
{}

/// The remainder of a long division has a lower degree than the divisor. It differs from the dividend by a multiple of
/// the divisor.
pub fn division()
    ensures small { (d low n p : ℕ) → low < 2 ^ d → p < 2 ^ (d + n) → remainder d (2 ^ d + low) n p < 2 ^ d }
    ensures multiple { (d g n p : ℕ) → (q : ℕ) × (q < 2 ^ n) × (p ≡ bit_xor (product n q g) (remainder d g n p)) }
{}

/// A sum of bytes is a byte, and so are a product, a power and a value.
pub fn closed()
    ensures sum { (a b : ℕ) → a < 256 → b < 256 → bit_xor a b < 256 }
    ensures product { (a b : ℕ) → mul a b < 256 }
    ensures power { (a n : ℕ) → pow a n < 256 }
    ensures value { (word : List ℕ) (x : ℕ) → value word x < 256 }
{}

/// Sums and products don't depend on the order of their terms and factors.
pub fn commutative()
    ensures sum { (a b : ℕ) → bit_xor a b ≡ bit_xor b a }
    ensures product { (a b : ℕ) → mul a b ≡ mul b a }
{}

/// Sums and products don't depend on the grouping of their terms and factors.
pub fn associative()
    ensures sum { (a b c : ℕ) → bit_xor (bit_xor a b) c ≡ bit_xor a (bit_xor b c) }
    ensures product { (a b c : ℕ) → mul (mul a b) c ≡ mul a (mul b c) }
{}

/// A product with a sum is the sum of the products.
pub fn distributive()
    ensures { (a b c : ℕ) → mul a (bit_xor b c) ≡ bit_xor (mul a b) (mul a c) }
{}

/// 0 is neutral for sums, and 1 for products.
pub fn neutral()
    ensures zero { (a : ℕ) → bit_xor a 0 ≡ a }
    ensures one { (a : ℕ) → a < 256 → mul a 1 ≡ a }
{}

/// Each element is its own opposite, and each but 0 has an inverse.
pub fn inverse()
    ensures sum { (a : ℕ) → bit_xor a a ≡ 0 }
    ensures product { (a : ℕ) → a ≢ 0 → a < 256 → (b : ℕ) × (b < 256) × (mul a b ≡ 1) }
{}

/// A product is 0 only where a factor is.
pub fn no_zero_divisors()
    ensures { (a b : ℕ) → a < 256 → b < 256 → mul a b ≡ 0 → (a ≡ 0) ⊎ (b ≡ 0) }
{}

/// The product of two powers of an element is the power by the sum of their exponents.
pub fn powers()
    ensures { (a i j : ℕ) → pow a (i + j) ≡ mul (pow a i) (pow a j) }
{}

/// The powers 0 to 254 of α differ, power 255 is 1, and each element but 0 is one of them.
pub fn alpha()
    ensures element { ALPHA.0 ≡ 2 }
    ensures differ { (i j : ℕ) → i < j → j < 255 → pow 2 i ≢ pow 2 j }
    ensures cycle { pow 2 255 ≡ 1 }
    ensures all { (a : ℕ) → a ≢ 0 → a < 256 → (i : ℕ) × (i < 255) × (pow 2 i ≡ a) }
{}

/// The value of a sum of words is the sum of their values, and that of a multiple is the multiple of the value.
pub fn linear()
    ensures sum { (xs ys : List ℕ) (x : ℕ) → length xs ≡ length ys
        → value (sums xs ys) x ≡ bit_xor (value xs x) (value ys x) }
    ensures multiple { (f : ℕ) (word : List ℕ) (x : ℕ) → value (scaled f word) x ≡ mul f (value word x) }
{}

/// A polynomial that isn't 0 vanishes at fewer different elements than it has coefficients.
pub fn few_roots()
    ensures { (word xs : List ℕ) → AreBytes word → AreBytes xs → AreDifferent xs → VanishesAt word xs
        → (IsZero word → ⊥) → length xs < length word }
{}
