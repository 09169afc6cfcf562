//! Marked places of a word: their number, how two words differ elsewhere, and the syndromes without them.

ghost use Rattle.std.specs.Prelude.{◌≡◌, ℕ, ◌+◌, ◌-◌, ◌<◌, ◌≤◌, ◌==◌, ◌&&◌, ◌||◌, not, if◌then◌else◌};
ghost use Rattle.std.specs.Prelude.{IsTrue, length, slice_index, take};
ghost use Rattle.dtx_galois.specs.Field.{AreBytes, value};
ghost use Rattle.dtx_laws.specs.Locator.{others, without, is_marked, power_at};
ghost use Rattle.dtx_erase.specs.Mending.{lost, unmarked_distance};

use dtx_galois::eval;
use dtx_laws::correcting::{ROOM, cancel, power_at};

/// The number of marked places.
pub fn lost(marks: &[bool]) -> usize
    ensures count { result ≡ lost marks.now }
    ensures few { result ≤ length marks.now }
{
    let mut count = 0;
    for i in 0..marks.len() {
        if marks[i] {
            count += 1;
        }
    }
    count
}

/// The number of unmarked places in which two words of one length differ.
pub fn unmarked_distance(marks: &[bool], word: &[u8], other: &[u8]) -> u8
    requires marks { length marks.now ≡ length word.now }
    requires same { length word.now ≡ length other.now }
    requires few { length word.now ≤ 255 }
    ensures { result ≡ unmarked_distance marks.now word.now other.now }
{
    let mut count = 0;
    for i in 0..word.len() {
        if differ(marks[i], word[i], other[i]) {
            count += 1;
        }
    }
    count
}

/// Whether a place is unmarked and two bytes differ there.
#[inline(always)]
fn differ(mark: bool, byte: u8, other: u8) -> bool
    ensures { result ≡ not (mark || byte == other) }
{
    !mark && byte != other
}

/// Cancels the marked places from the first `count` syndromes. The first `wanted` entries of the result count, and the
/// others are unspecified. Where `wanted` is 0, nothing is done.
pub fn first_left(syndromes: &[u8; ROOM], marks: &[bool], count: usize, wanted: usize) -> [u8; ROOM]
    requires few { length marks.now ≤ 255 }
    requires syndromes { count ≤ 255 }
    requires known { wanted + lost marks.now ≤ count }
    ensures long { length result ≡ ROOM }
    ensures rest { (i : ℕ) → i < wanted → slice_index result i ≡ without
        (others (length marks.now) (is_marked marks.now) (length marks.now) (length marks.now))
        (slice_index syndromes.now) i }
{
    if wanted == 0 {
        return *syndromes;
    }
    cancelled(syndromes, marks, count)
}

/// Cancels the marked places from the first `count` syndromes of a word. Each marked place uses up one syndrome: as
/// many of the last ones are of no use then.
fn cancelled(syndromes: &[u8; ROOM], marks: &[bool], count: usize) -> [u8; ROOM]
    requires few { length marks.now ≤ 255 }
    requires syndromes { count ≤ 255 }
    ensures long { length result ≡ ROOM }
    ensures rest { (i : ℕ)
        → i + length (others (length marks.now) (is_marked marks.now) (length marks.now) (length marks.now)) < count
        → slice_index result i ≡ without
        (others (length marks.now) (is_marked marks.now) (length marks.now) (length marks.now))
        (slice_index syndromes.now) i }
{
    let mut rest = *syndromes;
    for place in 0..marks.len() {
        if marks[place] {
            cancel(&mut rest, count, power_at(marks.len(), place));
        }
    }
    rest
}

/// The suspect places: those that are marked, and those at which the polynomial vanishes. The polynomial has the first
/// `order + 1` coefficients, the highest first. It has at most `order` zeros, so the search ends with the last of them.
pub fn suspects(marks: &[bool], coefficients: &[u8], order: usize) -> [bool; ROOM]
    requires few { length marks.now ≤ 255 }
    requires room { order < length coefficients.now }
    requires highest { slice_index coefficients.now 0 ≡ 1 }
    ensures long { length result ≡ ROOM }
    ensures bytes { AreBytes coefficients.now }
    ensures marks { (p : ℕ) → p < length marks.now → is_marked result p ≡ (is_marked marks.now p
        || value (take (order + 1) coefficients.now) (power_at (length marks.now) p) == 0) }
{
    let mut all = [false; ROOM];
    let mut left = order;
    for place in 0..marks.len() {
        let zero = is_zero(&coefficients[..order + 1], left, marks.len(), place);
        all[place] = marks[place] || zero;
        left = left_after(left, zero);
    }
    all
}

/// Whether a polynomial vanishes at a place. `left` is the number of zeros not yet found; where it is 0, the answer is
/// false.
fn is_zero(coefficients: &[u8], left: usize, len: usize, place: usize) -> bool
    requires few { len ≤ 255 }
    requires some { place < len }
    ensures { result ≡ (not (left == 0) && value coefficients.now (power_at len place) == 0) }
{
    left != 0 && eval(coefficients, power_at(len, place)).0 == 0
}

/// The number of zeros that are left behind a place.
fn left_after(left: usize, zero: bool) -> usize
    requires { IsTrue zero → 0 < left }
    ensures { result ≡ left - (if zero then 1 else 0) }
{
    if zero { left - 1 } else { left }
}
