//! The first 515 symbols of a field sync, and what symbols of a capture show when they are compared with them.

ghost use Rattle.std.specs.Prelude.{◌≡◌, ℕ, pos, ◌+◌, ◌*◌, ◌<◌, ◌≤◌, ◌-ℤ◌, ◌*ℤ◌, true, false};
ghost use Rattle.std.specs.Prelude.{if◌then◌else◌, length, nat_abs, slice_index_or};
ghost use Rattle.dtx_acquire.specs.Agreement.{are_unlike, is_plus};
ghost use Rattle.dtx_frame.specs.Segments.{sync_symbols};
ghost use Rattle.dtx_level.specs.Shown.{IsBounded, constant, gain, sum_where};
ghost use Rattle.dtx_level.specs.Measures.{noise};

use dtx_frame::field_sync;
use dtx_sizes::{PRECODE, SEGMENT};

/// How many symbols of a sync are compared: those of the segment sync and of the long sequence.
pub(crate) const COMPARED: usize = 515;

/// How many of these symbols are +5, and how many are -5.
const PLUSES: i64 = 258;

const MINUSES: i64 = 257;

/// The sync of a first field.
#[derive(Drop)]
pub(crate) struct Pattern {
    sync: [i8; SEGMENT],
    ghost is: { (i : ℕ) → i < 820 → slice_index_or sync i (pos 0) ≡ slice_index_or (sync_symbols false) i (pos 0) },
}

/// The gain and the constant that a place shows. A gain of one step a unit is 10 * 258 * 257 here, and a constant of
/// one step is 2 * 258 * 257.
#[derive(Clone, Copy, Drop)]
pub(crate) struct Standing {
    pub(crate) gain: i64,
    pub(crate) constant: i64,
}

impl Pattern {
    /// The pattern of a first field's sync.
    pub(crate) fn new() -> Pattern {
        let mut sync = [0; SEGMENT];
        field_sync(false, &[0; PRECODE], &mut sync);
        Pattern { sync }
    }

    /// The gain and the constant that the symbols from a place on show.
    pub(crate) fn standing(&self, symbols: &[i8], place: usize) -> Standing
        requires { place + COMPARED ≤ length symbols.now }
        ensures gain { result.gain ≡ gain symbols.now place }
        ensures constant { result.constant ≡ constant symbols.now place }
        ensures small_gain { IsBounded result.gain }
        ensures small_constant { IsBounded result.constant }
    {
        let pluses = MINUSES * self.sum_where(true, symbols, place);
        let minuses = PLUSES * self.sum_where(false, symbols, place);
        Standing {
            gain: pluses - minuses,
            constant: pluses + minuses,
        }
    }

    /// The sum of those of the 515 symbols from a place on that stand where the sync has this sign.
    fn sum_where(&self, plus: bool, symbols: &[i8], place: usize) -> i64
        requires { place + COMPARED ≤ length symbols.now }
        ensures sum { result ≡ sum_where plus symbols.now place COMPARED }
        ensures small { nat_abs result ≤ 128 * COMPARED }
    {
        let mut sum = 0;
        for i in 0..COMPARED {
            sum += counted(is_plus(self.sync[i]), plus, symbols[place + i]);
        }
        sum
    }

    /// How far the first 515 symbols of a levelled sync are from the standard's at eight steps a unit: the sum of the
    /// squares of the differences.
    pub(crate) fn noise(&self, segment: &[i8]) -> u64
        requires { SEGMENT ≤ length segment.now }
        ensures { result ≡ noise segment.now COMPARED }
    {
        let mut sum = 0;
        for i in 0..COMPARED {
            sum += square(segment[i], self.sync[i]);
        }
        sum
    }
}

/// Whether a symbol has the sign plus.
#[inline(always)]
fn is_plus(symbol: i8) -> bool
    ensures { result ≡ is_plus symbol }
{
    symbol > 0
}

/// The symbol where the two signs are equal, else 0.
#[inline(always)]
fn counted(sign: bool, plus: bool, symbol: i8) -> i64
    ensures value { result ≡ (if are_unlike sign plus then pos 0 else symbol) }
    ensures small { nat_abs result ≤ 128 }
{
    if sign == plus { symbol as i64 } else { 0 }
}

/// The square of the difference between a levelled symbol and a sync's symbol at eight steps a unit.
#[inline(always)]
fn square(levelled: i8, symbol: i8) -> u64
    ensures value { result ≡ nat_abs (levelled -ℤ pos 8 *ℤ symbol) * nat_abs (levelled -ℤ pos 8 *ℤ symbol) }
    ensures small { result ≤ 1327104 }
{
    let apart = (levelled as i64 - 8 * symbol as i64).unsigned_abs();
    apart * apart
}
