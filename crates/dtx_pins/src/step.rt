//! One symbol further to the front: the least sums of one coder from each state, and the levels that come to them. No
//! branch depends on a pin, since one that does is seldom foretold: levels that don't give the pair cost more than any
//! path.
//!
//! All sums are multiples of four, and each level has its number added, which is below four. So the least of four sums
//! tells its level, and of equal ones the first is the least.

ghost use Rattle.std.specs.Prelude.{◌≡◌, ℕ, ◌+◌, ◌-◌, ◌*◌, ◌/◌, ◌%◌, ◌^◌, ◌<◌, ◌≤◌, min};
ghost use Rattle.std.specs.Prelude.{slice_index, nat_le, ◌==◌, if◌then◌else◌};
ghost use Rattle.dtx_soft.specs.Paths.{next_state};
ghost use Rattle.dtx_pins.specs.Steps.{AreAtMost, AreBounded, IsStep, level_by, pen_of, AreMultiples, weight};

use crate::pinned::NO_PIN;
use crate::weights::{PEN, Weights};
use dtx_soft::MAX_SYMBOLS;

/// The greatest weight.
pub(crate) const MAX_WEIGHT: u32 = 7_168;

/// What a pin adds to levels: where Z1 is 0, where it is 1, where Z2 is the former one, and where it is the other.
#[derive(Drop)]
struct Pens {
    first: u32,
    second: u32,
    near: u32,
    far: u32,
}

/// Turns the least sums behind a symbol into those before it, and returns the mark of the step. Entry p of the sums is
/// for the former Z2, and has one for each state.
#[inline(always)]
pub(crate) fn stepped(weights: &Weights, symbol: i8, pin: u16, behind: &mut [[u32; 4]; 2]) -> u16
    requires bounded { AreBounded (MAX_WEIGHT * MAX_SYMBOLS) behind.old }
    requires multiples { AreMultiples behind.old }
    ensures step { IsStep (weight weights.now.scale symbol) pin behind.old behind.new result }
    ensures multiples { AreMultiples behind.new }
{
    let pens = pens_of(pin);
    let fares = weights.fares(symbol, pens.first, pens.second);
    let low = half(&behind[0], &fares.0);
    let high = half(&behind[1], &fares.1);
    let with_none = joined(&low, &high, pens.near, pens.far);
    let with_one = joined(&low, &high, pens.far, pens.near);
    *behind = [cleared(&with_none), cleared(&with_one)];
    numbers(&with_none) + 256 * numbers(&with_one)
}

/// The pens of a pin.
#[inline(always)]
fn pens_of(pin: u16) -> Pens
    ensures first { result.first ≡ pen_of pin 0 }
    ensures second { result.second ≡ pen_of pin 1 }
    ensures near { result.near ≡ pen_of pin 2 }
    ensures far { result.far ≡ pen_of pin 3 }
{
    let all = pen_of_all(pin);
    let first = pen_by(pin % 2, all);
    let near = pen_by(pin / 2 % 2, all);
    Pens {
        first,
        second: all - first,
        near,
        far: all - near,
    }
}

/// The pen of a pin that tells a pair, or none.
#[inline(always)]
fn pen_of_all(pin: u16) -> u32
    ensures { result ≡ if nat_le 4 pin then 0 else PEN }
{
    if NO_PIN <= pin { 0 } else { PEN }
}

/// The pen of the levels with 0 where the pin has this bit.
#[inline(always)]
fn pen_by(bit: u16, all: u32) -> u32
    ensures pen { result ≡ if bit == 0 then 0 else all }
    ensures small { result ≤ all }
{
    if bit == 0 { 0 } else { all }
}

/// What the levels of one Z2 come to from each state: the lesser of Z1 = 0 and Z1 = 1.
#[inline(always)]
fn half(sums: &[u32; 4], fares: &[u32; 4]) -> [u32; 4]
    requires sums { AreAtMost (MAX_WEIGHT * MAX_SYMBOLS) sums.now }
    requires fares { AreAtMost (2 * PEN) fares.now }
    ensures { (s : ℕ) → s < 4 → slice_index result s
        ≡ min (slice_index sums.now (next_state s (level_by s 0)) + slice_index fares.now (s / 2))
        (slice_index sums.now (next_state s (level_by s 1)) + slice_index fares.now (2 + s / 2)) }
{
    [
        lesser(sums[0], fares[0], sums[2], fares[2]),
        lesser(sums[2], fares[0], sums[0], fares[2]),
        lesser(sums[1], fares[1], sums[3], fares[3]),
        lesser(sums[3], fares[1], sums[1], fares[3]),
    ]
}

/// The lesser of both Z2 with their pens, from each state.
#[inline(always)]
fn joined(low: &[u32; 4], high: &[u32; 4], near: u32, far: u32) -> [u32; 4]
    requires low { AreAtMost 2_000_000_000 low.now }
    requires high { AreAtMost 2_000_000_000 high.now }
    requires near { near ≤ PEN }
    requires far { far ≤ PEN }
    ensures { (s : ℕ) → s < 4
        → slice_index result s ≡ min (slice_index low.now s + near) (slice_index high.now s + far) }
{
    [
        lesser(low[0], near, high[0], far),
        lesser(low[1], near, high[1], far),
        lesser(low[2], near, high[2], far),
        lesser(low[3], near, high[3], far),
    ]
}

/// The lesser of two sums.
#[inline(always)]
fn lesser(sum: u32, more: u32, other: u32, other_more: u32) -> u32
    requires first { sum + more < 2 ^ 32 }
    requires second { other + other_more < 2 ^ 32 }
    ensures { result ≡ min (sum + more) (other + other_more) }
{
    (sum + more).min(other + other_more)
}

/// The numbers of the levels that four sums tell, two bits for each.
#[inline(always)]
fn numbers(sums: &[u32; 4]) -> u16
    ensures numbers { (s : ℕ) → s < 4 → result / 2 ^ (2 * s) % 4 ≡ slice_index sums.now s % 4 }
    ensures small { result < 256 }
{
    let low = sums[0] % 4 + 4 * (sums[1] % 4);
    let high = sums[2] % 4 + 4 * (sums[3] % 4);
    (low + 16 * high) as u16
}

/// Four sums without the numbers of their levels.
#[inline(always)]
fn cleared(sums: &[u32; 4]) -> [u32; 4]
    ensures { (s : ℕ) → s < 4 → slice_index result s ≡ slice_index sums.now s - slice_index sums.now s % 4 }
{
    [
        sums[0] - sums[0] % 4,
        sums[1] - sums[1] % 4,
        sums[2] - sums[2] % 4,
        sums[3] - sums[3] % 4,
    ]
}
