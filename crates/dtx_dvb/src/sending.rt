//! From packets to the bytes that are sent.

ghost use Rattle.std.specs.Prelude.{◌≡◌, ℕ, ◌+◌, ◌*◌, ◌%◌, ◌<◌, ◌≤◌, ◌++◌, ◌∷◌, [], List, IfOk, length};
ghost use Rattle.dtx_laws.specs.Branches.{leaving_all, after_all};
ghost use Rattle.dtx_dvb.specs.Randomizer.{randomizer_bytes};
ghost use Rattle.dtx_dvb.specs.Stream.{block_of, blocks_from, dvb, zero_branches, HasSent};

use crate::randomizer::Dvb;
use crate::sizes::{BLOCK, BRANCH_STEP, BRANCHES, FOUR, FOUR_BLOCKS, PERIOD_PACKETS};
use dtx_outer::Outer;
use dtx_packets::Packet;
use dtx_rs::Rs;
use dtx_sizes::PACKET;
use dtx_spread::Branches;
use std::alloc::{AllocError, Global};
use std::marker::Model;

/// The randomizer, the Reed-Solomon encoder and the interleaver of the standard.
type OuterCoding = Outer<
    Dvb,
    Rs<BLOCK, PACKET>,
    Branches<BRANCHES, BRANCH_STEP>,
    BLOCK,
    PACKET,
    BRANCHES,
    BRANCH_STEP,
>;

/// Codes the packets of a stream (EN 300 429). Contracts see the interleaver's branches. `HasSent packets out` says
/// that they hold what these packets leave.
#[derive(Drop)]
pub struct DvbOut {
    outer: OuterCoding,
}

impl Model for DvbOut {
    ghost use Rattle.std.specs.Prelude.{◌≡◌};
    ghost use Rattle.dtx_laws.specs.Branches.{Branching};
    ghost use Rattle.dtx_dvb.specs.Randomizer.{randomizer_bytes};

    ghost Value = { Branching };

    ghost view = { λ out. out.outer.branches };

    ghost invariant = { λ out. out.outer.white ≡ randomizer_bytes };
}

impl DvbOut {
    /// A coder at the start of a stream, with zeros in every branch. The only error is out of memory.
    pub fn new(alloc: Global) -> Result<DvbOut, AllocError>
        ensures { IfOk result (λ out. HasSent [] out) }
    {
        Ok(DvbOut {
            outer: Outer::new(Dvb::new(alloc)?, Rs::new(), Branches::new(alloc)?),
        })
    }

    /// Codes the next packet, and writes the 204 bytes that leave the interleaver. `place` is the packet's place in its
    /// group of eight: packet k of a stream stands at place k mod 8.
    pub fn packet(&mut self, place: u8, packet: &Packet, out: &mut [u8; BLOCK])
        requires { place < PERIOD_PACKETS }
        ensures bytes { out.new ≡ leaving_all BRANCHES self.old (block_of place packet.now.0) }
        ensures branches { self.new ≡ after_all BRANCHES self.old (block_of place packet.now.0) }
        ensures stream { (packets : List (List ℕ)) → HasSent packets self.old
            → place ≡ length packets % PERIOD_PACKETS
            → dvb (packets ++ packet.now.0 ∷ []) ≡ dvb packets ++ out.new }
        ensures sent { (packets : List (List ℕ)) → HasSent packets self.old → place ≡ length packets % PERIOD_PACKETS
            → HasSent (packets ++ packet.now.0 ∷ []) self.new }
    {
        self.outer.code(place as usize, &packet.0, out);
    }

    /// Codes packets that follow each other, a multiple of four of them, and writes the bytes that leave. `place` is
    /// the first one's place in its group of eight, 0 or 4. They go through the interleaver together.
    pub fn batch(&mut self, place: u8, packets: &[[u8; PACKET]], out: &mut [u8])
        requires place { place < PERIOD_PACKETS }
        requires aligned { place % FOUR ≡ 0 }
        requires whole { length packets.now % FOUR ≡ 0 }
        requires room { length out.old ≡ BLOCK * length packets.now }
        ensures bytes { out.new ≡ leaving_all BRANCHES self.old (blocks_from place packets.now) }
        ensures branches { self.new ≡ after_all BRANCHES self.old (blocks_from place packets.now) }
        ensures stream { (before : List (List ℕ)) → HasSent before self.old
            → place ≡ length before % PERIOD_PACKETS → dvb (before ++ packets.now) ≡ dvb before ++ out.new }
        ensures sent { (before : List (List ℕ)) → HasSent before self.old → place ≡ length before % PERIOD_PACKETS
            → HasSent (before ++ packets.now) self.new }
    {
        encode_fours(&self.outer, place as usize, packets, out);
        self.outer.interleave(out);
    }
}

/// Sets `words` to the blocks of packets, one behind the other. `place` is the first one's place in its group of eight.
fn encode_fours(outer: &OuterCoding, place: usize, packets: &[[u8; PACKET]], words: &mut [u8])
    requires white { outer.now.white ≡ randomizer_bytes }
    requires place { place < PERIOD_PACKETS }
    requires aligned { place % FOUR ≡ 0 }
    requires whole { length packets.now % FOUR ≡ 0 }
    requires room { length words.old ≡ BLOCK * length packets.now }
    ensures { words.new ≡ blocks_from place packets.now }
{
    let (fours, _) = packets.as_chunks::<FOUR>();
    for i in 0..fours.len() {
        let at = FOUR_BLOCKS * i;
        let from = (place + FOUR * i) % PERIOD_PACKETS;
        encode_four(outer, from, &fours[i], &mut words[at..at + FOUR_BLOCKS]);
    }
}

/// Sets `words` to the blocks of four packets.
#[inline(always)]
fn encode_four(outer: &OuterCoding, place: usize, packets: &[[u8; PACKET]; FOUR], words: &mut [u8])
    requires white { outer.now.white ≡ randomizer_bytes }
    requires place { place + FOUR ≤ PERIOD_PACKETS }
    requires room { length words.old ≡ FOUR_BLOCKS }
    ensures { words.new ≡ blocks_from place packets.now }
{
    let heads = [
        &packets[0][..],
        &packets[1][..],
        &packets[2][..],
        &packets[3][..],
    ];
    outer.encode_four(place, &heads, words);
}
