//! The decoder under pins.

ghost use Rattle.std.specs.Prelude.{◌≡◌, ◌*◌, ◌<◌, ◌≤◌, length};
ghost use Rattle.dtx_pins.specs.PinnedField.{rows_moved, IsPinned, pinned_cost};

use crate::field::decide_field;
use crate::weights::Weights;
use dtx_sizes::{CODERS, FIELD_PACKETS, SEGMENT, SEGMENT_ROUNDS};
use dtx_soft::{MAX_SCALE, MOST_SEGMENT_COST};
use std::marker::Model;

/// The pin that says that a pair isn't known. Any number from 4 on does.
pub const NO_PIN: u16 = 4;

/// Decodes the symbols of the trellis coders under pins (ATSC A/53 Part 2, trellis coding). A pin tells the pair that a
/// coder was given at one of its steps. Of all paths that agree with the pins it finds the one whose levels lie nearest
/// to the symbols, in the sum of the squares. Of several it is the one with the smallest start, and then the first in
/// order of level numbers. Contracts see its scale.
#[derive(Drop)]
pub struct Pinned {
    weights: Weights,
}

/// What is said of a field that was decided.
#[derive(Drop)]
pub struct Decision {
    /// The sum of the costs of the twelve coders' paths.
    pub cost: u64,
    /// How many symbols of its segments moved.
    pub moved: u64,
}

impl Model for Pinned {
    ghost use Rattle.std.specs.Prelude.{ℕ};

    ghost Value = { ℕ };

    ghost view = { λ p. p.weights.scale };
}

impl Pinned {
    /// A decoder of symbols at `scale` times the standard's levels, which are 2 * z - 7 for z from 0 to 7.
    pub fn scaled(scale: u8) -> Pinned
        requires some { 0 < scale }
        requires most { scale ≤ MAX_SCALE }
        ensures { result ≡ scale }
    {
        Pinned {
            weights: Weights::new(scale),
        }
    }

    /// Decides the first data segments of a field: the data symbols of each become those of the levels of the least
    /// paths over the symbols `heard`, under the pins. A symbol is 2 * z - 7 for level z. A segment has 828 of them,
    /// and no symbol that was heard is off a level by more than 254.
    ///
    /// `pins` has an entry for each step of the coders, 69 for each segment, and in it a pin for each coder. A pin
    /// below 4 is the pair 2 * X2 + X1. From `NO_PIN` on it says nothing. The X2 of the first entry says nothing
    /// either. The pins are used up: the walks leave their marks there.
    pub fn field(
        &self,
        pins: &mut [[u16; CODERS]],
        heard: &[[i8; SEGMENT]],
        decided: &mut [[i8; SEGMENT]],
    ) -> Decision
        requires few { length heard.now ≤ FIELD_PACKETS }
        requires pins { length pins.old ≡ SEGMENT_ROUNDS * length heard.now }
        requires same { length decided.old ≡ length heard.now }
        ensures segments { IsPinned self.now 1 pins.old heard.now decided.old decided.new }
        ensures cost { result.cost ≡ pinned_cost self.now pins.old heard.now }
        ensures most { result.cost ≤ MOST_SEGMENT_COST * length heard.now }
        ensures moved { result.moved ≡ rows_moved decided.old decided.new }
        ensures still { result.moved ≡ 0 → decided.new ≡ decided.old }
        ensures few { result.moved ≤ SEGMENT * length heard.now }
    {
        decide_field(&self.weights, pins, heard, decided)
    }
}
