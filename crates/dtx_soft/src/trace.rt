//! The walk from the beginning of the symbols to their end, for all lanes side by side. It follows the marks, and
//! writes the symbols of the least paths.

ghost use Rattle.std.specs.Prelude.{◌≡◌, ◌≢◌, ℕ, ℤ, pos, ◌+◌, ◌*◌, ◌^◌, ◌<◌, ◌≤◌};
ghost use Rattle.std.specs.Prelude.{◌+ℤ◌, ◌≤ℤ◌, length, ◌==◌, if◌then◌else◌};
ghost use Rattle.std.specs.Prelude.{slice_index, slice_index_or};
ghost use Rattle.dtx_soft.specs.Paths.{distance};
ghost use Rattle.dtx_soft.specs.Bounds.{IsBounded, words};
ghost use Rattle.dtx_soft.specs.Gaps.{AreWalked, column, gap_at};
ghost use Rattle.dtx_soft.specs.Coders.{AreLeast};
ghost use Rattle.dtx_soft.specs.Trace.{IsMoved, IsNext, IsStand, IsStart, limit_of, low_limit};
ghost use Rattle.dtx_soft.specs.Trace.{nearer_symbol, pair_of, shift_of, stand_at};

use crate::gaps::{Gap, Gaps, LANES, lane};
use crate::nearest::{MAX_SCALE, MAX_SQUARE, square};
use crate::walk::MAX_SYMBOLS;
use crate::width::Width;

/// A path's state, 2 * q1 + q0, and its cost so far.
#[derive(Drop)]
pub(crate) struct Stand {
    pub(crate) q1: u8,
    pub(crate) q0: u8,
    pub(crate) cost: u32,
}

/// The state and the cost so far of each lane's path.
#[derive(Drop)]
pub(crate) struct Stands {
    pub(crate) q1: [u8; LANES],
    pub(crate) q0: [u8; LANES],
    pub(crate) cost: [u32; LANES],
}

/// Replaces the symbols of each lane by those of its least path, and returns the costs of the paths.
pub(crate) fn forward(
    scale: u8,
    marks: &[[u8; LANES]],
    gaps: &Gaps<i16>,
    rounds: &mut [[i8; LANES]],
) -> [u32; LANES]
    requires scale { scale ≤ MAX_SCALE }
    requires few { length rounds.old ≤ MAX_SYMBOLS }
    requires room { length marks.now ≡ length rounds.old }
    requires bounded { (n : ℕ) → n < LANES → IsBounded words (gap_at gaps.now n) }
    requires walked { AreWalked scale 0 rounds.old (gap_at gaps.now) marks.now }
    ensures lanes { (n : ℕ) → n < LANES → AreLeast scale (column rounds.old n) (column rounds.new n) }
    ensures costs { (n : ℕ) → n < LANES
        → slice_index result n ≡ distance (column rounds.old n) (column rounds.new n) }
    ensures small { (n : ℕ) → n < LANES → slice_index result n ≤ MAX_SQUARE * length rounds.old }
{
    let mut stands = starts(gaps);
    for t in 0..rounds.len() {
        let symbols = rounds[t];
        rounds[t] = trace_lanes(scale, &symbols, &marks[t], &mut stands);
    }
    stands.cost
}

/// The state in which the least path of each lane begins.
fn starts(gaps: &Gaps<i16>) -> Stands
    requires { (n : ℕ) → n < LANES → IsBounded words (gap_at gaps.now n) }
    ensures { (n : ℕ) → n < LANES → IsStart (gap_at gaps.now n) (stand_at result n) }
{
    let mut stands = Stands {
        q1: [0; LANES],
        q0: [0; LANES],
        cost: [0; LANES],
    };
    for n in 0..LANES {
        put_stand(start_of(lane(gaps, n)), n, &mut stands);
    }
    stands
}

/// The state with the least potential, the first of several.
fn start_of(gap: Gap<i16>) -> Stand
    requires { IsBounded words gap }
    ensures { IsStart gap result }
{
    let first = gap.even + gap.across;
    let low = first.is_above(gap.odd);
    let high = gap.across.is_above(0);
    let q1 = first.min(gap.odd).is_above(gap.across.min(0));
    Stand {
        q1,
        q0: chosen(q1, low, high),
        cost: 0,
    }
}

/// `low` where q1 is 0, else `high`.
fn chosen(q1: u8, low: u8, high: u8) -> u8
    ensures { result ≡ if q1 == 0 then low else high }
{
    if q1 == 0 { low } else { high }
}

/// Takes one round more, and returns the symbols of the least paths.
#[inline(always)]
fn trace_lanes(
    scale: u8,
    symbols: &[i8; LANES],
    marks: &[u8; LANES],
    stands: &mut Stands,
) -> [i8; LANES]
    requires scale { scale ≤ MAX_SCALE }
    requires stands { (n : ℕ) → n < LANES → IsStand (stand_at stands.old n) }
    ensures { (n : ℕ) → n < LANES → IsNext scale (slice_index_or symbols.now n (pos 0)) (slice_index marks.now n)
        (stand_at stands.old n) (stand_at stands.new n) (slice_index_or result n (pos 0)) }
{
    let written = move_lanes(scale, symbols, marks, stands);
    for n in 0..LANES {
        stands.cost[n] = stands.cost[n] + square(symbols[n], written[n] as i16);
    }
    written
}

/// Does the same, but leaves the costs as they are. All numbers are bytes, so that all lanes are worked on at once.
#[inline(always)]
fn move_lanes(
    scale: u8,
    symbols: &[i8; LANES],
    marks: &[u8; LANES],
    stands: &mut Stands,
) -> [i8; LANES]
    requires scale { scale ≤ MAX_SCALE }
    requires stands { (n : ℕ) → n < LANES → IsStand (stand_at stands.old n) }
    ensures { (n : ℕ) → n < LANES → IsMoved scale (slice_index_or symbols.now n (pos 0)) (slice_index marks.now n)
        (stand_at stands.old n) (stand_at stands.new n) (slice_index_or result n (pos 0)) }
{
    let mut written = [0; LANES];
    for n in 0..LANES {
        let stand = stand_of(stands, n);
        let pair = pair(marks[n], stand.q1, stand.q0);
        written[n] = nearer(scale, symbols[n], stand.q1, pair);
        put_state((pair + stand.q0) % 2, stand.q1, n, stands);
    }
    written
}

/// The stand of a lane.
#[inline(always)]
fn stand_of(stands: &Stands, n: usize) -> Stand
    requires { n < LANES }
    ensures { result ≡ stand_at stands.now n }
{
    Stand {
        q1: stands.q1[n],
        q0: stands.q0[n],
        cost: stands.cost[n],
    }
}

/// Writes the stand of a lane.
fn put_stand(stand: Stand, n: usize, stands: &mut Stands)
    requires { n < LANES }
    ensures written { stand_at stands.new n ≡ stand }
    ensures others { (k : ℕ) → k ≢ n → stand_at stands.new k ≡ stand_at stands.old k }
{
    stands.q1[n] = stand.q1;
    stands.q0[n] = stand.q0;
    stands.cost[n] = stand.cost;
}

/// Writes the state of a lane.
#[inline(always)]
fn put_state(q1: u8, q0: u8, n: usize, stands: &mut Stands)
    requires { n < LANES }
    ensures q1 { (stand_at stands.new n).q1 ≡ q1 }
    ensures q0 { (stand_at stands.new n).q0 ≡ q0 }
    ensures cost { (stand_at stands.new n).cost ≡ (stand_at stands.old n).cost }
    ensures others { (k : ℕ) → k ≢ n → stand_at stands.new k ≡ stand_at stands.old k }
{
    stands.q1[n] = q1;
    stands.q0[n] = q0;
}

/// The symbol of the nearer level of a pair.
#[inline(always)]
fn nearer(scale: u8, symbol: i8, q1: u8, pair: u8) -> i8
    requires scale { scale ≤ MAX_SCALE }
    ensures symbol { result ≡ nearer_symbol scale symbol q1 pair }
    ensures from { pos 0 ≤ℤ (result +ℤ pos 126) }
    ensures to { result ≤ℤ pos 126 }
{
    let limit = limit(scale, q1, pair);
    let far = 4 * scale as i8;
    if symbol > limit {
        limit + far
    } else {
        limit - far
    }
}

/// The pair of levels that the marks give for a state.
#[inline(always)]
fn pair(marks: u8, q1: u8, q0: u8) -> u8
    requires q1 { q1 < 2 }
    requires q0 { q0 < 2 }
    ensures pair { result ≡ pair_of marks q1 q0 }
    ensures small { result < 2 }
{
    (marks & mark_of(q1, q0) != 0) as u8
}

/// The mark of a state: its bit.
#[inline(always)]
fn mark_of(q1: u8, q0: u8) -> u8
    requires q1 { q1 < 2 }
    requires q0 { q0 < 2 }
    ensures { result ≡ 2 ^ (2 * q1 + q0) }
{
    if q1 == 0 {
        if q0 == 0 { 1 } else { 2 }
    } else {
        if q0 == 0 { 4 } else { 8 }
    }
}

/// The limit between the two levels of a pair. Symbols above it are nearer to the greater level.
#[inline(always)]
fn limit(scale: u8, q1: u8, pair: u8) -> i8
    requires { scale ≤ MAX_SCALE }
    ensures value { result ≡ limit_of scale q1 pair }
    ensures from { pos 0 ≤ℤ (result +ℤ pos (3 * scale)) }
    ensures to { result ≤ℤ pos (3 * scale) }
{
    low(scale, pair) + shift(scale, q1)
}

/// The limit of a pair where q1 is 0.
#[inline(always)]
fn low(scale: u8, pair: u8) -> i8
    requires { scale ≤ MAX_SCALE }
    ensures value { result ≡ low_limit scale pair }
    ensures from { pos 0 ≤ℤ (result +ℤ pos (3 * scale)) }
    ensures to { result ≤ℤ pos scale }
{
    let scale = scale as i8;
    if pair == 0 { -3 * scale } else { scale }
}

/// How much higher the limit is for this q1 than for 0.
#[inline(always)]
fn shift(scale: u8, q1: u8) -> i8
    requires { scale ≤ MAX_SCALE }
    ensures value { result ≡ shift_of scale q1 }
    ensures from { pos 0 ≤ℤ result }
    ensures to { result ≤ℤ pos (2 * scale) }
{
    if q1 == 0 { 0 } else { 2 * scale as i8 }
}
