//! The walk from the end of the symbols to their beginning, for all coders side by side.

ghost use Rattle.std.specs.Prelude.{◌≡◌, ℕ, pos, ◌*◌, ◌+◌, ◌-◌, ◌<◌, ◌≤◌, [], length, slice_index, slice_index_or};
ghost use Rattle.std.specs.Prelude.{◌≤ℤ◌, ◌+ℤ◌};
ghost use Rattle.dtx_pins.specs.Walks.{sums_of, AreWalked, LeadsOn};
ghost use Rattle.dtx_pins.specs.Pins.{pin_at};
ghost use Rattle.dtx_pins.specs.Steps.{AreBounded, IsStep, AreMultiples, weight};

use crate::lanes::{Sums, all_sums, coder_sums, no_sums, put_sums};
use crate::step::{MAX_WEIGHT, stepped};
use crate::weights::Weights;
use dtx_sizes::{CODERS, FIELD_PACKETS, SEGMENT, SEGMENT_ROUNDS};
use dtx_soft::{LANES, MAX_SYMBOLS, read_turned};

/// Writes the marks of all steps in place of their pins, and returns sums of weights that stand for the least costs
/// before the first one.
#[inline(never)]
pub(crate) fn backward(
    weights: &Weights,
    cells: &mut [[u16; CODERS]],
    heard: &[[i8; SEGMENT]],
) -> [[[u32; 4]; 2]; CODERS]
    requires few { length heard.now ≤ FIELD_PACKETS }
    requires pins { length cells.old ≡ SEGMENT_ROUNDS * length heard.now }
    ensures { AreWalked weights.now.scale 0 cells.old heard.now (λ e. slice_index_or result e []) cells.new }
{
    let mut sums = no_sums();
    for i in (0..heard.len()).rev() {
        let at = SEGMENT_ROUNDS * i;
        back_segment(
            weights,
            &heard[i],
            i % 3,
            &mut cells[at..at + SEGMENT_ROUNDS],
            &mut sums,
        );
    }
    all_sums(&sums)
}

/// Takes the steps of one segment. In it the coders have moved on by four places `turn` times.
#[inline(always)]
fn back_segment(
    weights: &Weights,
    heard: &[i8; SEGMENT],
    turn: usize,
    cells: &mut [[u16; CODERS]],
    sums: &mut Sums,
)
    requires turn { turn < 3 }
    requires pins { length cells.old ≡ SEGMENT_ROUNDS }
    requires bounded { (e : ℕ) → e < CODERS
        → AreBounded (MAX_WEIGHT * (MAX_SYMBOLS - SEGMENT_ROUNDS)) (sums_of sums.old e) }
    requires multiples { (e : ℕ) → e < CODERS → AreMultiples (sums_of sums.old e) }
    ensures walked { LeadsOn weights.now.scale turn heard.now cells.old cells.new (sums_of sums.old)
        (sums_of sums.new) }
    ensures bounded { (n : ℕ) → ((e : ℕ) → e < CODERS → AreBounded n (sums_of sums.old e))
        → (e : ℕ) → e < CODERS → AreBounded (MAX_WEIGHT * SEGMENT_ROUNDS + n) (sums_of sums.new e) }
    ensures multiples { (e : ℕ) → e < CODERS → AreMultiples (sums_of sums.new e) }
{
    for r in (0..SEGMENT_ROUNDS).rev() {
        cells[r] = step_all(weights, &cells[r], &read_turned(heard, r, turn), sums);
    }
}

/// Takes one step more in front, and returns its marks.
#[inline(always)]
fn step_all(
    weights: &Weights,
    pins: &[u16; CODERS],
    symbols: &[i8; LANES],
    sums: &mut Sums,
) -> [u16; CODERS]
    requires bounded { (e : ℕ) → e < CODERS → AreBounded (MAX_WEIGHT * MAX_SYMBOLS) (sums_of sums.old e) }
    requires multiples { (e : ℕ) → e < CODERS → AreMultiples (sums_of sums.old e) }
    ensures step { (e : ℕ) → e < CODERS → IsStep (weight weights.now.scale (slice_index_or symbols.now e (pos 0)))
        (pin_at pins.now e) (sums_of sums.old e) (sums_of sums.new e) (slice_index result e) }
    ensures multiples { (e : ℕ) → e < CODERS → AreMultiples (sums_of sums.new e) }
    ensures from { (e : ℕ) → e < CODERS → pos 0 ≤ℤ (slice_index_or symbols.now e (pos 0) +ℤ pos 128) }
    ensures to { (e : ℕ) → e < CODERS → slice_index_or symbols.now e (pos 0) ≤ℤ pos 127 }
{
    let mut marks = [0; CODERS];
    for e in 0..CODERS {
        let mut coder = coder_sums(sums, e);
        marks[e] = stepped(weights, symbols[e], pins[e], &mut coder);
        put_sums(&coder, e, sums);
    }
    marks
}
