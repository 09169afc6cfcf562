//! All twelve coders of a field.

ghost use Rattle.std.specs.Prelude.{◌≡◌, ◌↔◌, ℕ, ◌*◌, ◌≤◌, IsTrue, [], length, slice_index_or};
ghost use Rattle.dtx_pins.specs.Pins.{AreAllTold, pin_at};
ghost use Rattle.dtx_pins.specs.PinnedField.{rows_moved, IsPinned, pinned_cost};
ghost use Rattle.dtx_pins.specs.Walks.{AreWalked};

use crate::back::backward;
use crate::forth::forward;
use crate::pinned::{Decision, NO_PIN};
use crate::start::starts;
use crate::told::told_sums;
use crate::weights::Weights;
use dtx_sizes::{CODERS, FIELD_PACKETS, SEGMENT, SEGMENT_ROUNDS};
use dtx_soft::MOST_SEGMENT_COST;

/// Decides the symbols of a field under pins. The marks of the steps are written in place of the pins.
pub(crate) fn decide_field(
    weights: &Weights,
    cells: &mut [[u16; CODERS]],
    heard: &[[i8; SEGMENT]],
    decided: &mut [[i8; SEGMENT]],
) -> Decision
    requires few { length heard.now ≤ FIELD_PACKETS }
    requires pins { length cells.old ≡ SEGMENT_ROUNDS * length heard.now }
    requires same { length decided.old ≡ length heard.now }
    ensures segments { IsPinned weights.now.scale 1 cells.old heard.now decided.old decided.new }
    ensures cost { result.cost ≡ pinned_cost weights.now.scale cells.old heard.now }
    ensures most { result.cost ≤ MOST_SEGMENT_COST * length heard.now }
    ensures moved { result.moved ≡ rows_moved decided.old decided.new }
    ensures still { result.moved ≡ 0 → decided.new ≡ decided.old }
    ensures few { result.moved ≤ SEGMENT * length heard.now }
{
    let first = first_pins(cells);
    let behind = walk_back(weights, cells, heard);
    let stands = starts(&first, &behind);
    forward(weights.scale, cells, stands, heard, decided)
}

/// The pins of the first step. Where there is no step, nothing is known.
fn first_pins(pins: &[[u16; CODERS]]) -> [u16; CODERS]
    ensures { (e : ℕ) → pin_at result e ≡ pin_at (slice_index_or pins.now 0 []) e }
{
    match pins.first() {
        Some(row) => *row,
        None => [NO_PIN; CODERS],
    }
}

/// Writes the marks in place of the pins, and returns sums that stand for the least costs before the first step. Where
/// all pairs are known, one way is left from each beginning, and no search is needed.
fn walk_back(
    weights: &Weights,
    cells: &mut [[u16; CODERS]],
    heard: &[[i8; SEGMENT]],
) -> [[[u32; 4]; 2]; CODERS]
    requires few { length heard.now ≤ FIELD_PACKETS }
    requires pins { length cells.old ≡ SEGMENT_ROUNDS * length heard.now }
    ensures { AreWalked weights.now.scale 0 cells.old heard.now (λ e. slice_index_or result e []) cells.new }
{
    if are_all_told(cells) {
        told_sums(weights.scale, cells, heard)
    } else {
        backward(weights, cells, heard)
    }
}

/// Whether all pins tell a pair.
fn are_all_told(pins: &[[u16; CODERS]]) -> bool
    ensures { IsTrue result ↔ AreAllTold pins.now }
{
    let mut highest = 0;
    for row in pins {
        for pin in row {
            highest = highest.max(*pin);
        }
    }
    highest < NO_PIN
}
