//! From the levels of a group back to its bytes.

ghost use Rattle.std.specs.Prelude.{◌≡◌, ◌%◌, ◌<◌, EachIndex, length, replicate, slice_index};
ghost use Rattle.dtx_slice.specs.Unrolled.{bytes_back, precoder_bits_after, precoder_bits_of};

use crate::walk::{last_precoder_bits, walk};
use dtx_sizes::{CODERS, FIELD_PACKETS, GROUP_BYTES, GROUP_LEVELS, GROUP_PACKETS, PRECODE};
use std::marker::Model;

/// The precoder bits of the twelve trellis coders. A coder's bit is Z2 of its last symbol, to which its precoder adds
/// the next X2 (ATSC A/53 Part 2, trellis coding).
#[derive(Drop)]
pub struct Unroll {
    precoder_bits: [u8; CODERS],
}

impl Model for Unroll {
    ghost use Rattle.std.specs.Prelude.{ℕ, ◌<◌, List, EachIndex, slice_index};

    ghost Value = { List ℕ };

    ghost view = { λ u. u.precoder_bits };

    ghost invariant = { λ u. EachIndex u.precoder_bits (λ e. slice_index u.precoder_bits e < 2) };
}

impl Unroll {
    /// A value in which each coder's precoder bit is 0.
    pub fn new() -> Unroll
        ensures { result ≡ replicate CODERS 0 }
    {
        Unroll {
            precoder_bits: [0; CODERS],
        }
    }

    /// Takes each coder's precoder bit from the levels of the last twelve symbols of a field sync.
    pub fn start(&mut self, last: &[u8; PRECODE])
        requires { EachIndex last.now (λ q. slice_index last.now q < 8) }
        ensures precoder_bits { self.new ≡ precoder_bits_of last.now }
        ensures long { length self.new ≡ CODERS }
        ensures small { EachIndex self.new (λ e. slice_index self.new e < 2) }
    {
        let precoder_bits = repeated(last);
        self.precoder_bits = precoder_bits;
    }

    /// Writes the bytes of a group, from its levels. `first` is the place of the group's first segment in its field.
    /// The next group goes on from the precoder bits that this one leaves.
    pub fn group(&mut self, first: u16, levels: &[u8; GROUP_LEVELS], bytes: &mut [u8; GROUP_BYTES])
        requires in_field { first < FIELD_PACKETS }
        requires whole { first % GROUP_PACKETS ≡ 0 }
        requires small { EachIndex levels.now (λ d. slice_index levels.now d < 8) }
        ensures bytes { bytes.new ≡ bytes_back first self.old levels.now }
        ensures precoder_bits { self.new ≡ precoder_bits_after first self.old levels.now }
        ensures long { length self.new ≡ CODERS }
        ensures small { EachIndex self.new (λ e. slice_index self.new e < 2) }
    {
        let from = self.precoder_bits;
        walk(&from, first as usize, levels, bytes);
        let behind = last_precoder_bits(first as usize, levels);
        self.precoder_bits = behind;
    }
}

/// Z2 of each coder, from the levels of the last twelve symbols of a field sync.
fn repeated(last: &[u8; PRECODE]) -> [u8; CODERS]
    requires { EachIndex last.now (λ q. slice_index last.now q < 8) }
    ensures precoder_bits { result ≡ precoder_bits_of last.now }
    ensures small { EachIndex result (λ e. slice_index result e < 2) }
{
    let mut precoder_bits = [0; CODERS];
    for e in 0..CODERS {
        precoder_bits[e] = last[(e + 4) % CODERS] / 4;
    }
    precoder_bits
}
