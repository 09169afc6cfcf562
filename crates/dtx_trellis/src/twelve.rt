//! Twelve coders, group after group.

ghost use Rattle.std.specs.Prelude.{◌≡◌, ℕ, ◌+◌, ◌*◌, ◌%◌, ◌<◌, EachIndex, drop, length, map, replicate, slice_index};
ghost use Rattle.std.specs.Prelude.{take};
ghost use Rattle.dtx_trellis.specs.Trellis.{symbol_of};

use crate::states::States;
use crate::walk::walk;
use dtx_sizes::{
    CODERS, FIELD_PACKETS, GROUP_BYTES, GROUP_PACKETS, GROUP_SYMBOLS, SEGMENT, SEGMENT_LEVELS,
    SEGMENT_SYNC,
};
use std::marker::Model;

/// Twelve coders, each in one of eight states (ATSC A/53 Part 2, trellis coding).
#[derive(Drop)]
pub struct Twelve {
    states: [u8; CODERS],
}

impl Model for Twelve {
    ghost use Rattle.std.specs.Prelude.{ℕ, ◌<◌, List, EachIndex, slice_index};

    ghost Value = { List ℕ };

    ghost view = { λ t. t.states };

    ghost invariant = { λ t. EachIndex t.states (λ e. slice_index t.states e < 8) };
}

impl Twelve {
    ghost use Rattle.dtx_trellis.specs.Groups.{levels_of, states_after};

    /// All coders in state 0.
    pub fn new() -> Twelve
        ensures { result ≡ replicate CODERS 0 }
    {
        Twelve {
            states: [0; CODERS],
        }
    }

    /// The states of coders 0 to 11.
    pub fn states(&self) -> States
        ensures states { result ≡ self.now }
        ensures long { length result ≡ CODERS }
        ensures small { EachIndex result (λ e. slice_index result e < 8) }
    {
        States(self.states)
    }

    /// Puts the coders in these states.
    pub fn set(&mut self, states: States)
        ensures states { self.new ≡ states }
        ensures long { length self.new ≡ CODERS }
        ensures small { EachIndex self.new (λ e. slice_index self.new e < 8) }
    {
        let given = states.0;
        self.states = given;
    }

    /// Writes the data symbols of a group, each at its place behind the syncs. `first` is the place of the group's
    /// first segment in its field. The first four symbols of each segment, where the syncs stand, are unspecified. The
    /// next group goes on from the states that this one leaves.
    #[tactic(auto, using(crate::proofs::Ends::symbols_end, crate::proofs::Ends::states_end, crate::proofs::Ends::state_small))]
    pub fn group(
        &mut self,
        first: u16,
        bytes: &[u8; GROUP_BYTES],
        symbols: &mut [i8; GROUP_SYMBOLS],
    )
        requires in_field { first < FIELD_PACKETS }
        requires whole { first % GROUP_PACKETS ≡ 0 }
        ensures symbols { (s : ℕ) → s < GROUP_PACKETS
            → take SEGMENT_LEVELS (drop (SEGMENT * s + SEGMENT_SYNC) symbols.new)
            ≡ map symbol_of (take SEGMENT_LEVELS (drop (SEGMENT_LEVELS * s) (levels_of first self.old bytes.now))) }
        ensures states { self.new ≡ states_after first self.old bytes.now }
        ensures long { length self.new ≡ CODERS }
        ensures small_states { EachIndex self.new (λ e. slice_index self.new e < 8) }
    {
        let from = self.states;
        let states = walk(&from, first as usize, bytes, symbols);
        self.states = states;
    }
}
