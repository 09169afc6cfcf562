//! Finds the least place at which a test of field syncs passes.

ghost use Rattle.std.specs.Prelude.{◌≡◌, ℕ, ℤ, ◌+◌, ◌<◌, ◌≤◌, Bool, List, length};
ghost use Rattle.std.specs.List.{find, range_with_len};
ghost use Rattle.dtx_acquire.specs.Agreement.{unlike, NeedsSegment, first_place};

use crate::signs::{WORD, unlike_in, window_at};
use dtx_sizes::SEGMENT;

/// How many of the first 515 symbols of a field sync may have another sign. Of random symbols 257 do on average, with a
/// standard deviation of 11 (the profile's own).
pub const MAY_BE_UNLIKE: u32 = 128;

/// A test of the places of a capture: whether a field sync stands there.
pub trait SyncTest {
    /// Whether a place of these symbols passes.
    ghost passes: { List ℤ → ℕ → Bool };

    /// Whether a place passes. `count` of the 515 symbols from there on have another sign than the first ones of a
    /// field sync.
    fn passes(&self, symbols: &[i8], place: usize, count: u32) -> bool
        requires room { place + SEGMENT ≤ length symbols.now }
        requires count { count ≡ unlike symbols.now place 0 515 }
        ensures { result ≡ passes symbols.now place };
}

/// Whether a place passes the test.
pub fn is_sync_at<T: SyncTest>(test: &T, symbols: &[i8], place: usize) -> bool
    requires { place + SEGMENT ≤ length symbols.now }
    ensures { result ≡ T.passes symbols.now place }
{
    let count = unlike_in(&window_at(symbols, place), 0);
    test.passes(symbols, place, count)
}

/// The least place from `from` on that passes the test.
#[inline]
pub fn search<T: SyncTest>(test: &T, symbols: &[i8], from: usize) -> Option<usize>
    requires within { from ≤ length symbols.now }
    requires whole { NeedsSegment T.passes }
    ensures { result ≡ first_place T.passes symbols.now from }
{
    if symbols.len() - from < SEGMENT {
        return None;
    }
    let places = symbols.len() - from - (SEGMENT - 1);
    for k in 0..places.div_ceil(WORD) {
        let first = WORD * k;
        match search_word(test, symbols, from + first, (places - first).min(WORD)) {
            Some(place) => return Some(place),
            None => {}
        }
    }
    None
}

/// The least of `count` places from `first` on that passes the test.
#[inline]
fn search_word<T: SyncTest>(test: &T, symbols: &[i8], first: usize, count: usize) -> Option<usize>
    requires some { 0 < count }
    requires few { count ≤ WORD }
    requires room { first + count + 831 ≤ length symbols.now }
    ensures { result ≡ find (T.passes symbols.now) (range_with_len first count) }
{
    let words = window_at(symbols, first);
    for k in 0..count {
        if test.passes(symbols, first + k, unlike_in(&words, k)) {
            return Some(first + k);
        }
    }
    None
}
