//! The states of the twelve coders.

use dtx_sizes::CODERS;
use std::marker::Model;

/// The number of each coder's state: 4 * q2 + 2 * q1 + q0, which is below 8 (ATSC A/53 Part 2, trellis coding). Code
/// that makes a value from numbers has to make each of them below 8.
#[derive(Clone, Copy, Debug, PartialEq, Eq)]
pub struct States(pub [u8; CODERS]);

impl Model for States {
    ghost use Rattle.std.specs.Prelude.{ℕ, ◌<◌, List, EachIndex, slice_index};

    ghost Value = { List ℕ };

    ghost view = { λ s. s.0 };

    ghost invariant = { λ s. EachIndex s.0 (λ e. slice_index s.0 e < 8) };

    ghost inverse = { λ v. record { 0 = v } };
}
