//! The values of the errors at marked places.

ghost use Rattle.std.specs.Prelude.{◌≡◌, ℕ, ◌+◌, ◌<◌, ◌≤◌, ◌==◌, ◌&&◌, not, length, slice_index};
ghost use Rattle.std.specs.Int.RustNames.{bit_xor};
ghost use Rattle.dtx_galois.specs.Field.{mul};
ghost use Rattle.dtx_laws.specs.Locator.{error_at, others, patched_at, is_marked};

use crate::correcting::{ROOM, power_at};
use dtx_galois::Gf;

/// Takes away the errors at the marked places, from the first `count` syndromes. The byte at a place is right where
/// `count` is more than the number of other marked places.
pub fn patch(word: &mut [u8], marks: &[bool; ROOM], syndromes: &[u8; ROOM], count: usize)
    requires few { length word.old ≤ 255 }
    requires syndromes { count ≤ 255 }
    ensures { (p : ℕ) → p < length word.old
        → length (others (length word.old) (is_marked marks.now) p (length word.old)) < count
        → slice_index word.new p ≡ patched_at (length word.old) (is_marked marks.now)
        (slice_index syndromes.now) word.old p }
{
    let len = word.len();
    for place in 0..len {
        if marks[place] {
            word[place] ^= error_at(len, marks, syndromes, count, place);
        }
    }
}

/// The value of the error at a place of a word of `len` bytes. The power 254 of an element is its inverse.
fn error_at(
    len: usize,
    marks: &[bool; ROOM],
    syndromes: &[u8; ROOM],
    count: usize,
    place: usize,
) -> u8
    requires some { place < len }
    requires few { len ≤ 255 }
    requires syndromes { count ≤ 255 }
    ensures { length (others len (is_marked marks.now) place len) < count
        → result ≡ error_at len (is_marked marks.now) (slice_index syndromes.now) place }
{
    let mut rest = *syndromes;
    let own = power_at(len, place);
    let mut weight = Gf(1);
    for other in 0..len {
        if is_other(marks, other, place) {
            let power = power_at(len, other);
            cancel(&mut rest, count, power);
            weight = own.add(power).mul(weight);
        }
    }
    Gf(rest[0]).mul(weight.pow(254)).0
}

/// Whether a place is marked and is not this one.
fn is_other(marks: &[bool; ROOM], other: usize, place: usize) -> bool
    requires { other < ROOM }
    ensures { result ≡ (is_marked marks.now other && not (other == place)) }
{
    marks[other] && other != place
}

/// Cancels a power from the first `count` entries of a sequence. The last of them is then of no use.
pub fn cancel(sequence: &mut [u8; ROOM], count: usize, power: Gf)
    requires { count ≤ 255 }
    ensures long { length sequence.new ≡ ROOM }
    ensures values { (i : ℕ) → i + 1 < count
        → slice_index sequence.new i ≡ bit_xor (slice_index sequence.old (i + 1))
        (mul power.0 (slice_index sequence.old i)) }
{
    for i in 1..count {
        sequence[i - 1] = Gf(sequence[i]).add(power.mul(Gf(sequence[i - 1]))).0;
    }
}
