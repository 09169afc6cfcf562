//! The places at which a recurrence of the syndromes vanishes, and the errors there.

ghost use Rattle.std.specs.Prelude.{◌≡◌, ◌≢◌, ℕ, ◌+◌, ◌-◌, ◌<◌, ◌≤◌, IsFalse, length, slice_index};
ghost use Rattle.dtx_galois.specs.Field.{mul, pow};
ghost use Rattle.dtx_fast.specs.Recurrence.{error_value, inverse_at, repaired_at, walked};

use crate::recurrence::Recurrence;
use dtx_galois::{ALPHA, Gf};
use dtx_laws::correcting::{ROOM, power_at};

/// How many values of a walk are looked at together.
const BLOCK: usize = 16;

/// The values of the recurrence's polynomial, the first coefficient lowest, at the first `len` powers of the inverse
/// of α.
pub fn walk(found: &Recurrence, len: usize) -> [u8; ROOM]
    requires { len ≤ 255 }
    ensures long { length result ≡ ROOM }
    ensures values { (q : ℕ) → q < len → slice_index result q
        ≡ walked (found.now.order + 1) (slice_index found.now.coefficients) (pow (pow 2 254) q) }
{
    let inverse = ALPHA.pow(254);
    let mut values = [0; ROOM];
    for exponent in 0..len {
        values[exponent] = value_at(found, inverse.pow(exponent as u32)).0;
    }
    values
}

/// The value at `at` of the recurrence's polynomial, the first coefficient lowest.
fn value_at(found: &Recurrence, at: Gf) -> Gf
    ensures { result.0 ≡ walked (found.now.order + 1) (slice_index found.now.coefficients) at.0 }
{
    let mut sum = Gf(0);
    let mut power = Gf(1);
    for k in 0..found.order + 1 {
        sum = sum.add(Gf(found.coefficients[k]).mul(power));
        power = at.mul(power);
    }
    sum
}

/// Takes away the errors at the places where the walk came to 0.
#[inline(never)]
pub fn patch(word: &mut [u8], walk: &[u8; ROOM], found: &Recurrence, syndromes: &[u8; ROOM])
    requires few { length word.old ≤ 255 }
    requires walk { (p : ℕ) → p < length word.old → slice_index walk.now (length word.old - 1 - p)
        ≡ walked (found.now.order + 1) (slice_index found.now.coefficients) (inverse_at (length word.old) p) }
    ensures long { length word.new ≡ length word.old }
    ensures repaired { (p : ℕ) → p < length word.old → slice_index word.new p
        ≡ repaired_at (length word.old) found.now.order (slice_index found.now.coefficients)
        (slice_index syndromes.now) word.old p }
{
    let len = word.len();
    let mut exponent = next_zero(walk, 0, len);
    while exponent < len {
        let place = len - 1 - exponent;
        let coefficients = &found.coefficients[..];
        word[place] ^= error_value(coefficients, found.order, syndromes, power_at(len, place)).0;
        exponent = next_zero(walk, exponent + 1, len);
    }
}

/// The next place, from `from` on, at which the walk came to 0, or `len` where there is none.
fn next_zero(walk: &[u8; ROOM], from: usize, len: usize) -> usize
    requires few { len ≤ 255 }
    requires within { from ≤ len }
    ensures from { from ≤ result }
    ensures upto { result ≤ len }
    ensures zero { result < len → slice_index walk.now result ≡ 0 }
    ensures passed { (q : ℕ) → from ≤ q → q < result → q < len → slice_index walk.now q ≢ 0 }
{
    let mut at = from;
    while at + BLOCK <= len && !has_zero(walk, at) {
        at += BLOCK;
    }
    while at < len && walk[at] != 0 {
        at += 1;
    }
    at
}

/// Whether the walk may have come to 0 in a block. If the answer is false, it did at no place of the block.
#[inline(always)]
fn has_zero(walk: &[u8; ROOM], start: usize) -> bool
    requires { start + BLOCK ≤ ROOM }
    ensures { IsFalse result → (q : ℕ) → start ≤ q → q < start + BLOCK → slice_index walk.now q ≢ 0 }
{
    let mut any = false;
    for i in 0..BLOCK {
        any |= walk[start + i] == 0;
    }
    any
}

/// The value of the error at the place of the power `at`. The polynomial of degree `order`, the highest coefficient
/// first, vanishes at the powers of all wrong places. The value is a combination of the syndromes by the polynomial's
/// quotient by `X - at`, divided by the quotient's value at `at`. The power 254 of an element is its inverse.
#[inline(never)]
pub fn error_value(coefficients: &[u8], order: usize, syndromes: &[u8; ROOM], at: Gf) -> Gf
    requires coefficients { order < length coefficients.now }
    requires syndromes { order ≤ ROOM }
    ensures { result.0 ≡ error_value order (slice_index coefficients.now) (slice_index syndromes.now) at.0 }
{
    let mut sum = Gf(0);
    let mut value = Gf(0);
    let mut quotient = Gf(coefficients[0]);
    for k in 0..order {
        sum = sum.add(quotient.mul(Gf(syndromes[order - 1 - k])));
        value = quotient.add(at.mul(value));
        quotient = quotient.mul(at).add(Gf(coefficients[k + 1]));
    }
    sum.mul(value.pow(254))
}
