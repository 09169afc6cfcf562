//! The walk from the end of the symbols to their beginning, for all lanes side by side. It keeps only the differences
//! of the four states' least costs. Where they fit bytes, it handles twice as many lanes at once.

ghost use Rattle.std.specs.Prelude.{◌≡◌, ◌≢◌, ℕ, pos, ◌<◌, ◌≤◌, ◌+ℤ◌, ◌-ℤ◌, ◌≤ℤ◌, [], length, slice_index};
ghost use Rattle.std.specs.Prelude.{FitsSigned, slice_index_or};
ghost use Rattle.std.specs.Int.{w8};
ghost use Rattle.dtx_soft.specs.Bounds.{AreUnits, AreWithin, Fits, IsBounded, IsReached, IsScale};
ghost use Rattle.dtx_soft.specs.Gaps.{AreSigns, AreSums, AreWalked, IsStep, gap_of, gap_or, gaps_of, squares_of};
ghost use Rattle.dtx_soft.specs.Nearest.{IsSquares, across_of, even_of, odd_of, pair_gap};

use crate::nearest::MAX_SCALE;
use crate::width::Width;

/// The number of lanes: one for each coder, and four that aren't used.
pub const LANES: usize = 16;

/// The differences of four costs, in units of four times the scale: of the first and the third, the second and the
/// fourth, and the third and the fourth.
#[derive(Clone, Copy, Drop)]
pub(crate) struct Gap<T> {
    pub(crate) even: T,
    pub(crate) odd: T,
    pub(crate) across: T,
}

/// The gaps of each lane.
#[derive(Drop)]
pub(crate) struct Gaps<T> {
    pub(crate) even: [T; LANES],
    pub(crate) odd: [T; LANES],
    pub(crate) across: [T; LANES],
}

/// The differences of the squares of a symbol's four pairs of levels. The tied ones are those of the first two, with 1
/// more where the second of equal ones comes first in order.
#[derive(Drop)]
pub(crate) struct SquareGaps<T> {
    even: T,
    odd: T,
    across: T,
    even_tied: T,
    odd_tied: T,
}

/// The scale, and multiples of it that each round needs.
#[derive(Drop)]
pub(crate) struct Units<T> {
    scale: u8,
    two: T,
    two_below: T,
    four: T,
    four_below: T,
    twelve: T,
    twelve_below: T,
}

/// The multiples of a scale.
fn units_of<T: Width>(scale: u8) -> Units<T>
    requires scale { IsScale T.bounds scale }
    requires small { scale ≤ MAX_SCALE }
    ensures units { AreUnits T.bounds T.value result }
    ensures scale { result.scale ≡ scale }
{
    let number = scale as i16;
    Units {
        scale,
        two: T::number(2 * number),
        two_below: T::number(-2 * number),
        four: T::number(4 * number),
        four_below: T::number(-4 * number),
        twelve: T::number(12 * number),
        twelve_below: T::number(-12 * number),
    }
}

/// Writes the marks of all rounds, and returns the gaps of the potentials before the first one.
#[inline(never)]
pub(crate) fn backward<T: Width>(
    scale: u8,
    rounds: &[[i8; LANES]],
    marks: &mut [[u8; LANES]],
) -> Gaps<T>
    requires scale { IsScale T.bounds scale }
    requires small { scale ≤ MAX_SCALE }
    requires symbols { (t n : ℕ) → t < length rounds.now → n < LANES
        → FitsSigned w8 (slice_index_or (slice_index_or rounds.now t []) n (pos 0))
        → IsReached T.bounds (slice_index_or (slice_index_or rounds.now t []) n (pos 0)) }
    requires room { length marks.old ≡ length rounds.now }
    ensures bounded { (n : ℕ) (other : T) → n < LANES → IsBounded T.bounds (gaps_of T.value other result n) }
    ensures walked { (other : T) → AreWalked scale 0 rounds.now (gaps_of T.value other result) marks.new }
{
    let none = T::number(0);
    let mut gaps = Gaps {
        even: [none; LANES],
        odd: [none; LANES],
        across: [none; LANES],
    };
    let units = units_of(scale);
    for t in (0..rounds.len()).rev() {
        marks[t] = step_lanes(&units, &rounds[t], &mut gaps);
    }
    gaps
}

/// Takes one round more in front, and returns its marks.
#[inline(always)]
fn step_lanes<T: Width>(units: &Units<T>, symbols: &[i8; LANES], gaps: &mut Gaps<T>) -> [u8; LANES]
    requires units { AreUnits T.bounds T.value units.now }
    requires symbols { (n : ℕ) → n < LANES → FitsSigned w8 (slice_index_or symbols.now n (pos 0))
        → IsReached T.bounds (slice_index_or symbols.now n (pos 0)) }
    requires bounded { (n : ℕ) (other : T) → n < LANES → IsBounded T.bounds (gaps_of T.value other gaps.old n) }
    ensures bounded { (n : ℕ) (other : T) → n < LANES → IsBounded T.bounds (gaps_of T.value other gaps.new n) }
    ensures step { (n : ℕ) (other : T) → n < LANES → IsStep units.now.scale (slice_index_or symbols.now n (pos 0))
        (gaps_of T.value other gaps.old n) (gaps_of T.value other gaps.new n) (slice_index result n) }
{
    let mut marks = [0; LANES];
    for n in 0..LANES {
        let gap = lane(gaps, n);
        let squares = differ(units, symbols[n]);
        let before = gap_before(&squares, gap);
        marks[n] = marks_of(&squares, gap);
        put_lane(before, n, gaps);
    }
    marks
}

/// The gap of a lane.
#[inline(always)]
pub(crate) fn lane<T: Copy>(gaps: &Gaps<T>, n: usize) -> Gap<T>
    requires { n < LANES }
    ensures { (other : T) → result ≡ gap_or gaps.now n other }
{
    Gap {
        even: gaps.even[n],
        odd: gaps.odd[n],
        across: gaps.across[n],
    }
}

/// Writes the gap of a lane.
#[inline(always)]
pub(crate) fn put_lane<T: Drop>(gap: Gap<T>, n: usize, gaps: &mut Gaps<T>)
    requires { n < LANES }
    ensures written { (other : T) → gap_or gaps.new n other ≡ gap }
    ensures others { (k : ℕ) (other : T) → k ≢ n → gap_or gaps.new k other ≡ gap_or gaps.old k other }
{
    gaps.even[n] = gap.even;
    gaps.odd[n] = gap.odd;
    gaps.across[n] = gap.across;
}

/// The gaps of the potentials before a symbol, from those behind it.
#[inline(always)]
fn gap_before<T: Width>(squares: &SquareGaps<T>, gap: Gap<T>) -> Gap<T>
    requires squares { AreWithin T.bounds (squares_of T.value squares.now) }
    requires bounded { IsBounded T.bounds (gap_of T.value gap) }
    ensures { AreSums (squares_of T.value squares.now) (gap_of T.value gap) (gap_of T.value result) }
{
    let none = T::number(0);
    let even_sum = squares.even.plus(gap.even).lesser(none);
    let even_least = squares.even.lesser(gap.even);
    let odd_sum = squares.odd.plus(gap.odd).lesser(none);
    let odd_least = squares.odd.lesser(gap.odd);
    let step = squares.across.plus(gap.across);
    Gap {
        even: step.plus(even_sum.minus(odd_sum)),
        odd: step.plus(even_least.minus(odd_least)),
        across: odd_sum.minus(odd_least),
    }
}

/// The marks of a symbol. Bit s says which of the two pairs of levels that may follow state s is to be taken: 1 for the
/// second.
#[inline(always)]
fn marks_of<T: Width>(squares: &SquareGaps<T>, gap: Gap<T>) -> u8
    requires squares { AreWithin T.bounds (squares_of T.value squares.now) }
    requires bounded { IsBounded T.bounds (gap_of T.value gap) }
    ensures { AreSigns (squares_of T.value squares.now) (gap_of T.value gap) result }
{
    let none = T::number(0);
    let first = squares.even_tied.plus(gap.even).is_above(none);
    let second = squares.even_tied.is_above(gap.even);
    let third = squares.odd_tied.plus(gap.odd).is_above(none);
    let fourth = squares.odd_tied.is_above(gap.odd);
    first + 2 * second + 4 * third + 8 * fourth
}

/// The differences of a symbol's squares.
#[inline(always)]
fn differ<T: Width>(units: &Units<T>, symbol: i8) -> SquareGaps<T>
    requires units { AreUnits T.bounds T.value units.now }
    requires symbol { IsReached T.bounds symbol }
    ensures { IsSquares units.now.scale symbol (squares_of T.value result) }
{
    let symbol = T::seen(units.scale, symbol);
    let odd = odd_gap(units, symbol, 0);
    SquareGaps {
        even: even_gap(units, symbol, 0),
        odd,
        across: across_gap(units, symbol, odd),
        even_tied: even_gap(units, symbol, 1),
        odd_tied: odd_gap(units, symbol, 1),
    }
}

/// The difference of the squares of levels 0 or 4 and 2 or 6, with 1 more where the second of equal ones comes first.
#[inline(always)]
fn even_gap<T: Width>(units: &Units<T>, symbol: T, tie: i16) -> T
    requires units { AreUnits T.bounds T.value units.now }
    requires symbol { IsReached T.bounds (T.value symbol) }
    requires from { pos 0 ≤ℤ tie }
    requires to { tie ≤ℤ pos 1 }
    ensures { T.value result ≡ even_of units.now.scale (T.value symbol) tie }
{
    pair_gap(symbol, tie, units.two, units.twelve_below, units.four)
}

/// The difference of the squares of levels 1 or 5 and 3 or 7, with 1 more in the same case as in `even_gap`.
#[inline(always)]
fn odd_gap<T: Width>(units: &Units<T>, symbol: T, tie: i16) -> T
    requires units { AreUnits T.bounds T.value units.now }
    requires symbol { IsReached T.bounds (T.value symbol) }
    requires from { pos 0 ≤ℤ tie }
    requires to { tie ≤ℤ pos 1 }
    ensures { T.value result ≡ odd_of units.now.scale (T.value symbol) tie }
{
    pair_gap(symbol, tie, units.two_below, units.four_below, units.twelve)
}

/// The difference of the squares of two pairs of levels, from the shift and the limits of their levels.
#[inline(always)]
fn pair_gap<T: Width>(symbol: T, tie: i16, shift: T, low: T, high: T) -> T
    requires symbol { IsReached T.bounds (T.value symbol) }
    requires from { pos 0 ≤ℤ tie }
    requires to { tie ≤ℤ pos 1 }
    requires shifted { Fits T.bounds ((T.value symbol +ℤ T.value symbol) -ℤ T.value shift) }
    requires fits { Fits T.bounds
        (pair_gap (T.value symbol) tie (T.value shift) (T.value low) (T.value high)) }
    ensures { T.value result
        ≡ pair_gap (T.value symbol) tie (T.value shift) (T.value low) (T.value high) }
{
    let twice = symbol.plus(symbol);
    let near = twice
        .plus(twice)
        .minus(T::number(tie))
        .greater(low)
        .lesser(high);
    twice.minus(shift).minus(near)
}

/// The difference of the squares of levels 2 or 6 and 3 or 7.
#[inline(always)]
fn across_gap<T: Width>(units: &Units<T>, symbol: T, odd: T) -> T
    requires units { AreUnits T.bounds T.value units.now }
    requires symbol { IsReached T.bounds (T.value symbol) }
    requires odd { T.value odd ≡ odd_of units.now.scale (T.value symbol) (pos 0) }
    ensures { T.value result ≡ across_of units.now.scale (T.value symbol) }
{
    let twice = symbol.plus(symbol);
    let near = twice
        .plus(twice)
        .greater(units.four_below)
        .lesser(units.four);
    odd.minus(symbol).plus(near)
}
