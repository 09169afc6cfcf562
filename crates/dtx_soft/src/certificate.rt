//! Checks that a path is a least one, by potentials.

ghost use Rattle.std.specs.Prelude.{◌≡◌, ◌↔◌, ℕ, ◌+◌, ◌<◌, ◌≤◌, IsTrue, length, slice_index};
ghost use Rattle.dtx_soft.specs.Paths.{IsPath, cost, next_state, squared, symbol_at};
ghost use Rattle.dtx_soft.specs.Least.{AllowAllSteps, AllowsSteps, HasLeast, IsCertificate};

use crate::nearest::{LEVELS, squared_distance};
use crate::walk::next_state;

/// Whether potentials prove that levels are a least path from a start, at the standard's levels. The potentials may
/// come from anywhere: if the answer is true, no path costs less.
pub fn proves(symbols: &[i8], start: u8, levels: &[u8], potentials: &[[u32; 4]]) -> bool
    ensures { IsTrue result ↔ IsCertificate symbols.now start levels.now potentials.now }
{
    if start >= 4 || levels.len() != symbols.len() || potentials.len() != symbols.len() + 1 {
        return false;
    }
    if !are_zeros(&potentials[symbols.len()]) || !allow_all_steps(symbols, potentials) {
        return false;
    }
    if !has_least(&potentials[0], start) {
        return false;
    }
    path_costs(symbols, start, levels, potentials[0][start as usize])
}

/// Whether all four potentials are 0.
fn are_zeros(entry: &[u32; 4]) -> bool
    ensures { IsTrue result ↔ ((state : ℕ) → state < 4 → slice_index entry.now state ≡ 0) }
{
    entry[0] == 0 && entry[1] == 0 && entry[2] == 0 && entry[3] == 0
}

/// Whether, at every symbol, each state's entry is at most what a step from it costs, plus the entry of the state
/// behind the step.
fn allow_all_steps(symbols: &[i8], potentials: &[[u32; 4]]) -> bool
    requires { length potentials.now ≡ length symbols.now + 1 }
    ensures { IsTrue result ↔ AllowAllSteps symbols.now potentials.now }
{
    for t in 0..symbols.len() {
        if !allows_steps(symbols[t], &potentials[t], &potentials[t + 1]) {
            return false;
        }
    }
    true
}

/// Whether the same holds at one symbol. `behind` is the entry behind it.
fn allows_steps(symbol: i8, entry: &[u32; 4], behind: &[u32; 4]) -> bool
    ensures { IsTrue result ↔ AllowsSteps symbol entry.now behind.now }
{
    for z in 0..LEVELS {
        let q1 = z % 2;
        if !allows_step(symbol, z, 2 * q1, entry, behind)
            || !allows_step(symbol, z, 2 * q1 + 1, entry, behind)
        {
            return false;
        }
    }
    true
}

/// Whether the entry of a state is at most what the step by level `z` costs, plus the entry of the state behind the
/// step.
fn allows_step(symbol: i8, z: u8, state: u8, entry: &[u32; 4], behind: &[u32; 4]) -> bool
    requires level { z < LEVELS }
    requires state { state < 4 }
    ensures { IsTrue result ↔ (slice_index entry.now state
        ≤ squared symbol (symbol_at 1 z) + slice_index behind.now (next_state state z)) }
{
    let costs = squared_distance(1, symbol, z) as u64;
    entry[state as usize] as u64 <= costs + behind[next_state(state, z) as usize] as u64
}

/// Whether no state's entry is less than the one of the start.
fn has_least(entry: &[u32; 4], start: u8) -> bool
    requires { start < 4 }
    ensures { IsTrue result ↔ HasLeast entry.now start }
{
    let least = entry[start as usize];
    least <= entry[0] && least <= entry[1] && least <= entry[2] && least <= entry[3]
}

/// Whether levels are a path from a start that costs `target`.
fn path_costs(symbols: &[i8], start: u8, levels: &[u8], target: u32) -> bool
    requires start { start < 4 }
    requires long { length levels.now ≡ length symbols.now }
    ensures { IsTrue result ↔ (IsPath start levels.now × (cost 1 symbols.now levels.now ≡ target)) }
{
    let mut state = start;
    let mut left = target;
    for t in 0..symbols.len() {
        let level = levels[t];
        if level >= LEVELS || level % 2 != state / 2 {
            return false;
        }
        let costs = squared_distance(1, symbols[t], level);
        if costs > left {
            return false;
        }
        left -= costs;
        state = next_state(state, level);
    }
    left == 0
}
