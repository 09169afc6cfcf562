//! The places of a word, and those at which a locator vanishes.

ghost use Rattle.std.specs.Prelude.{◌≡◌, ℕ, ◌<◌, ◌≤◌, length};
ghost use Rattle.dtx_laws.specs.Locator.{is_marked, low_value, power_at, vanishes_at};

use crate::correcting::ROOM;
use dtx_galois::{ALPHA, Gf};

/// The power of α whose coefficient stands at a place of a word of `len` bytes.
#[tactic(auto, unfolding(crate::specs::Locator::power_at))]
pub fn power_at(len: usize, place: usize) -> Gf
    requires some { place < len }
    requires few { len ≤ 255 }
    ensures { result.0 ≡ power_at len place }
{
    ALPHA.pow((len - 1 - place) as u32)
}

/// The value at `at` of the polynomial with these coefficients, the lowest first.
fn low_value(locator: &[u8], at: Gf) -> Gf
    ensures { result.0 ≡ low_value locator.now at.0 }
{
    let mut sum = Gf(0);
    for i in (0..locator.len()).rev() {
        sum = Gf(locator[i]).add(at.mul(sum));
    }
    sum
}

/// Marks the places of a word of `len` bytes at which the locator vanishes.
pub fn marks_of(locator: &[u8], len: usize) -> [bool; ROOM]
    requires { len ≤ 255 }
    ensures long { length result ≡ ROOM }
    ensures marks { (p : ℕ) → p < len → is_marked result p ≡ vanishes_at len locator.now p }
{
    let mut marks = [false; ROOM];
    for place in 0..len {
        marks[place] = low_value(locator, power_at(len, place)).0 == 0;
    }
    marks
}
