//! Whether symbols are so near 0 that differences of costs fit bytes.

ghost use Rattle.std.specs.Prelude.{◌≡◌, ◌↔◌, ℕ, pos, ◌<◌, ◌≤◌, IsTrue, [], length, slice_index, slice_index_or};
ghost use Rattle.dtx_soft.specs.Gaps.{gap_at};
ghost use Rattle.dtx_soft.specs.Bounds.{FitBytes, IsNear};

use crate::gaps::{Gap, Gaps, LANES, lane, put_lane};

/// The greatest scale at which the walk is in bytes.
const MAX_NEAR_SCALE: u8 = 4;

/// The greatest absolute value of a symbol near 0. The walk in bytes takes no other symbols.
const MAX_NEAR: i8 = 28;

/// Whether bytes are wide enough: at this scale, and with each symbol near 0.
pub(crate) fn are_near(scale: u8, rounds: &[[i8; LANES]]) -> bool
    ensures { IsTrue result ↔ FitBytes scale rounds.now }
{
    if scale == 0 || scale > MAX_NEAR_SCALE {
        return false;
    }
    let far = far_lanes(rounds);
    sum_of(&far) == 0
}

/// A count for each lane: 0 exactly where each of its symbols is near 0.
#[inline(never)]
fn far_lanes(rounds: &[[i8; LANES]]) -> [u8; LANES]
    ensures { (n : ℕ) → n < LANES → (slice_index result n ≡ 0) ↔ ((t : ℕ) → t < length rounds.now
        → IsNear (slice_index_or (slice_index_or rounds.now t []) n (pos 0))) }
{
    let mut far = [0; LANES];
    for t in 0..rounds.len() {
        add_far(&rounds[t], &mut far);
    }
    far
}

/// Adds the symbols of one more round that are not near 0 to the counts.
#[inline(always)]
fn add_far(symbols: &[i8; LANES], far: &mut [u8; LANES])
    ensures { (n : ℕ) → n < LANES → (slice_index far.new n ≡ 0)
        ↔ ((slice_index far.old n ≡ 0) × IsNear (slice_index_or symbols.now n (pos 0))) }
{
    for n in 0..LANES {
        far[n] = one_more(far[n], symbols[n]);
    }
}

/// A count, with one more where a symbol is not near 0, but at most 255. It is 0 exactly where it was 0 before and the
/// symbol is near 0.
#[inline(always)]
fn one_more(far: u8, symbol: i8) -> u8
    ensures { (result ≡ 0) ↔ ((far ≡ 0) × IsNear symbol) }
{
    far.saturating_add(is_far(symbol))
}

/// The sum of the lanes' counts: 0 exactly where each of them is.
fn sum_of(far: &[u8; LANES]) -> u16
    ensures { (result ≡ 0) ↔ ((n : ℕ) → n < LANES → slice_index far.now n ≡ 0) }
{
    let mut sum = 0;
    for n in 0..LANES {
        sum += far[n] as u16;
    }
    sum
}

/// 1 where a symbol is not near 0, and else 0.
#[inline(always)]
fn is_far(symbol: i8) -> u8
    ensures near { (result ≡ 0) ↔ IsNear symbol }
    ensures small { result ≤ 1 }
{
    (symbol > MAX_NEAR || symbol < -MAX_NEAR) as u8
}

/// The gaps in numbers of 16 bits.
pub(crate) fn widened(gaps: &Gaps<i8>) -> Gaps<i16>
    ensures { (n : ℕ) → n < LANES → gap_at result n ≡ gap_at gaps.now n }
{
    let mut wide = Gaps {
        even: [0; LANES],
        odd: [0; LANES],
        across: [0; LANES],
    };
    for n in 0..LANES {
        put_lane(wide_gap(lane(gaps, n)), n, &mut wide);
    }
    wide
}

/// A gap in numbers of 16 bits.
fn wide_gap(gap: Gap<i8>) -> Gap<i16>
    ensures { result ≡ gap }
{
    Gap {
        even: gap.even as i16,
        odd: gap.odd as i16,
        across: gap.across as i16,
    }
}
