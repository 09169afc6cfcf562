//! The Viterbi decoder. A walk from the end of the symbols to their beginning finds the least costs. A walk back to the
//! end finds the least path.

ghost use Rattle.std.specs.Prelude.{◌≡◌, ℕ, ◌+◌, ◌-◌, ◌*◌, ◌/◌, ◌%◌, ◌^◌, ◌<◌, ◌≤◌, ◌⊎◌};
ghost use Rattle.std.specs.Prelude.{EachIndex, [], length, slice_index};
ghost use Rattle.std.specs.Prelude.{slice_index_or};
ghost use Rattle.dtx_soft.specs.Paths.{cost, next_state};
ghost use Rattle.dtx_soft.specs.Least.{HoldPotentials, IsLeast, IsLeastFrom};
ghost use Rattle.dtx_soft.specs.Nearest.{IsTaken, IsTieBreak, cheapest};

use crate::nearest::{LEVELS, MAX_SQUARE, Nearest};
use crate::table::Table;
use std::simd::prelude::*;

/// A least path's cost and the state that it starts from.
#[derive(Clone, Copy)]
pub struct Found {
    /// The sum of the squares of the symbols' distances from their levels.
    pub cost: u32,
    /// The first state, 2 * q1 + q0.
    pub start: u8,
}

/// The number of symbols that a coder has in the 312 data segments of a field.
pub const MAX_SYMBOLS: usize = 21_528;

/// Finds the least path over symbols, and writes its levels and the potentials.
pub(crate) fn find(
    table: &Table,
    symbols: &[i8],
    potentials: &mut [[u32; 4]],
    levels: &mut [u8],
) -> Found
    requires few { length symbols.now ≤ MAX_SYMBOLS }
    requires room { length symbols.now < length potentials.old }
    requires levels { length levels.old ≡ length symbols.now }
    ensures least { IsLeast table.now.scale symbols.now result.start levels.new }
    ensures cost { result.cost ≡ cost table.now.scale symbols.now levels.new }
    ensures small { EachIndex levels.new (λ t. slice_index levels.new t < LEVELS) }
    ensures potentials { HoldPotentials table.now.scale symbols.now potentials.new }
{
    fill_potentials(table, symbols, potentials);
    let start = least_of(&potentials[0]);
    follow(table, symbols, start, potentials, levels);
    Found {
        cost: potentials[0][start as usize],
        start,
    }
}

/// Writes, for each place and each state, the least cost of a path over the symbols from there on.
pub(crate) fn fill_potentials(table: &Table, symbols: &[i8], potentials: &mut [[u32; 4]])
    requires few { length symbols.now ≤ MAX_SYMBOLS }
    requires room { length symbols.now < length potentials.old }
    ensures potentials { HoldPotentials table.now.scale symbols.now potentials.new }
    ensures bounded { (t s : ℕ) → t ≤ length symbols.now → s < 4
        → slice_index (slice_index_or potentials.new t []) s ≤ MAX_SQUARE * MAX_SYMBOLS }
{
    let mut behind = [0; 4];
    potentials[symbols.len()] = behind;
    for t in (0..symbols.len()).rev() {
        behind = before(table.row(symbols[t]), &behind);
        potentials[t] = behind;
    }
}

/// The potentials before one more symbol in front, from those behind it.
fn before(row: &Nearest, behind: &[u32; 4]) -> [u32; 4]
    requires squares { (z : ℕ) → z < 4 → slice_index row.now.squares z ≤ MAX_SQUARE }
    requires behind { (s : ℕ) → s < 4 → slice_index behind.now s ≤ MAX_SQUARE * MAX_SYMBOLS }
    ensures long { length result ≡ 4 }
    ensures potentials { (s : ℕ) → s < 4 → slice_index result s ≡ cheapest row.now behind.now s }
{
    let squares = u32x4::from_array(row.squares);
    let behind = u32x4::from_array(*behind);
    let low = squares.swizzle([0, 0, 1, 1]) + behind.swizzle([0, 2, 1, 3]);
    let high = squares.swizzle([2, 2, 3, 3]) + behind.swizzle([2, 0, 3, 1]);
    low.simd_min(high).to_array()
}

/// The index of the least of four costs, the first of several.
pub fn least_of(costs: &[u32; 4]) -> u8
    ensures small { result < 4 }
    ensures least { (s : ℕ) → s < 4 → slice_index costs.now result ≤ slice_index costs.now s }
    ensures first { (s : ℕ) → s < 4 → slice_index costs.now s ≡ slice_index costs.now result → result ≤ s }
{
    let mut least: u8 = 0;
    for s in 1..4 {
        if costs[s as usize] < costs[least as usize] {
            least = s;
        }
    }
    least
}

/// Writes the levels of the least path from a state, by the potentials.
fn follow(table: &Table, symbols: &[i8], start: u8, potentials: &[[u32; 4]], levels: &mut [u8])
    requires start { start < 4 }
    requires few { length symbols.now ≤ MAX_SYMBOLS }
    requires room { length levels.old ≡ length symbols.now }
    requires entries { length symbols.now < length potentials.now }
    requires potentials { HoldPotentials table.now.scale symbols.now potentials.now }
    requires bounded { (t s : ℕ) → t ≤ length symbols.now → s < 4
        → slice_index (slice_index_or potentials.now t []) s ≤ MAX_SQUARE * MAX_SYMBOLS }
    ensures { IsLeastFrom table.now.scale symbols.now start levels.new }
{
    let mut q1 = start / 2;
    let mut q0 = start % 2;
    for t in 0..symbols.len() {
        let row = table.row(symbols[t]);
        let pair = (taken(row, &potentials[t + 1]) >> (2 * (1 - q0) + q1)) % 2;
        levels[t] = row.levels[(q1 + 2 * pair) as usize];
        let next = (pair + q0) % 2;
        q0 = q1;
        q1 = next;
    }
}

/// For each state, which of the two pairs of levels that may follow it is to be taken. Bits 2, 0, 3 and 1 are for
/// states 0 to 3, in the order of a vector's lanes.
#[inline(always)]
fn taken(row: &Nearest, behind: &[u32; 4]) -> u8
    requires squares { (z : ℕ) → z < 4 → slice_index row.now.squares z ≤ MAX_SQUARE }
    requires tie_breaks { (z : ℕ) → z < 2
        → IsTieBreak (slice_index row.now.levels z) (slice_index row.now.levels (z + 2))
        (slice_index row.now.tie_breaks z) }
    requires behind { (s : ℕ) → s < 4 → slice_index behind.now s ≤ MAX_SQUARE * MAX_SYMBOLS }
    ensures { (s : ℕ) → s < 4 → IsTaken row.now behind.now s (result / 2 ^ (2 * (1 - s % 2) + s / 2) % 2) }
{
    let [first, second, third, fourth] = row.squares;
    let [even, odd] = row.tie_breaks;
    let a = is_less(third + behind[2], first + behind[0] + even);
    let b = is_less(third + behind[0], first + behind[2] + even);
    let c = is_less(fourth + behind[3], second + behind[1] + odd);
    let d = is_less(fourth + behind[1], second + behind[3] + odd);
    b + 2 * d + 4 * a + 8 * c
}

/// 1 where a number is less than another one, and else 0.
#[inline(always)]
fn is_less(number: u32, other: u32) -> u8
    ensures { ((number < other) × (result ≡ 1)) ⊎ ((other ≤ number) × (result ≡ 0)) }
{
    (number < other) as u8
}

/// The state behind a level.
#[inline(always)]
#[tactic(auto, unfolding(crate::specs::Paths::next_state))]
pub(crate) fn next_state(state: u8, z: u8) -> u8
    requires { state < 4 }
    ensures state { result ≡ next_state state z }
    ensures small { result < 4 }
{
    2 * ((z / 2 % 2 + state % 2) % 2) + state / 2
}
