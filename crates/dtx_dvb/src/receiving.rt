//! From the bytes that were sent to packets.

ghost use Rattle.std.specs.Prelude.{◌≡◌, ℕ, ◌+◌, ◌*◌, ◌<◌, ◌++◌, [], List, IfOk, length, slice_index_or};
ghost use Rattle.dtx_packets.specs.Packets.{with_error};
ghost use Rattle.dtx_dvb.specs.Randomizer.{randomizer_bytes};
ghost use Rattle.dtx_dvb.specs.Reading.{read_dvb};
ghost use Rattle.dtx_dvb.specs.Stream.{HasRead};
ghost use Rattle.dtx_dvb.specs.Given.{all_given, finished, given};

use crate::randomizer::Dvb;
use crate::sizes::{BLOCK, BRANCH_STEP, BRANCHES, FOUR, FOUR_BLOCKS, WAITING};
use dtx_fast::Fast;
use dtx_outer::{Inner, Taken};
use dtx_packets::Packet;
use dtx_sizes::{PACKET, SYNC};
use dtx_spread::Collect;
use std::alloc::{AllocError, Global};
use std::marker::Model;

/// The de-interleaver, the Reed-Solomon corrector and the randomizer of the standard.
type OuterDecoding = Inner<
    Dvb,
    Fast<BLOCK, PACKET>,
    Collect<BRANCHES, BRANCH_STEP>,
    BLOCK,
    PACKET,
    BRANCHES,
    BRANCH_STEP,
>;

/// Reads the packets of a stream back from its bytes (EN 300 429). `HasRead y reader` says that the reader was given
/// the bytes `y` so far. Their first block is that of a packet at place 0 of a group of eight.
#[derive(Drop)]
pub struct DvbIn {
    inner: OuterDecoding,
}

impl Model for DvbIn {
    ghost use Rattle.std.specs.Prelude.{◌≡◌};
    ghost use Rattle.dtx_outer.specs.Inner.{Kept};
    ghost use Rattle.dtx_dvb.specs.Randomizer.{randomizer_bytes};

    ghost Value = { Kept };

    ghost view = { λ reader. reader.inner };

    ghost invariant = { λ reader. reader.inner.white ≡ randomizer_bytes };
}

impl DvbIn {
    /// A reader at the start of a stream. The only error is out of memory.
    pub fn new(alloc: Global) -> Result<DvbIn, AllocError>
        ensures { IfOk result (λ reader. HasRead [] reader) }
    {
        Ok(DvbIn {
            inner: Inner::new(Dvb::new(alloc)?, Fast::new(), Collect::new(alloc)?),
        })
    }

    /// Takes the next block, and writes the packet that it completes to `packet`. The first eleven blocks complete
    /// none, and then `packet` stays. Where the packet's word has no correction, the answer is `Bad`. The packet is
    /// then given as it was gathered, with the error indicator set.
    pub fn block(&mut self, bytes: &[u8; BLOCK], packet: &mut Packet) -> Taken
        ensures none { (y : List ℕ) → HasRead y self.old → length y < BLOCK * WAITING
            → (result ≡ Taken.None) × (packet.new ≡ packet.old) }
        ensures packets { (y : List ℕ) → HasRead y self.old
            → read_dvb (y ++ bytes.now) ≡ read_dvb y ++ given result packet.new.0 }
        ensures stands { (y : List ℕ) → HasRead y self.old → HasRead (y ++ bytes.now) self.new }
    {
        let taken = self.inner.take(bytes, &mut packet.0);
        finish(taken, &mut packet.0);
        taken
    }

    /// Takes blocks that follow each other, four for each element of `packets`. Writes the packets that they complete,
    /// and to `taken` the answers, each as `block` gives it. They go through the de-interleaver together, which
    /// overwrites `bytes`.
    pub fn batch(
        &mut self,
        bytes: &mut [u8],
        packets: &mut [[[u8; PACKET]; FOUR]],
        taken: &mut [[Taken; FOUR]],
    )
        requires whole { length bytes.old ≡ FOUR_BLOCKS * length packets.old }
        requires taken { length taken.old ≡ length packets.old }
        ensures none { (y : List ℕ) (q p : ℕ) → HasRead y self.old → q < length packets.old → p < FOUR
            → length y + BLOCK * (FOUR * q + p) < BLOCK * WAITING
            → (slice_index_or (slice_index_or taken.new q []) p Taken.None ≡ Taken.None)
            × (slice_index_or (slice_index_or packets.new q []) p []
            ≡ slice_index_or (slice_index_or packets.old q []) p []) }
        ensures packets { (y : List ℕ) → HasRead y self.old
            → read_dvb (y ++ bytes.old) ≡ read_dvb y ++ all_given taken.new packets.new }
        ensures stands { (y : List ℕ) → HasRead y self.old → HasRead (y ++ bytes.old) self.new }
    {
        self.inner.take_fours(bytes, packets, taken);
        for q in 0..packets.len() {
            finish_four(&taken[q], &mut packets[q]);
        }
    }
}

/// Gives four packets what `finish` gives each.
#[inline(always)]
fn finish_four(taken: &[Taken; FOUR], packets: &mut [[u8; PACKET]; FOUR])
    ensures each { (p : ℕ) → p < FOUR → slice_index_or packets.new p []
        ≡ finished (slice_index_or taken.now p Taken.None) (slice_index_or packets.old p []) }
{
    for p in 0..FOUR {
        finish(taken[p], &mut packets[p]);
    }
}

/// Gives a packet that was taken its sync byte, and its error indicator where the answer is `Bad`.
fn finish(taken: Taken, packet: &mut [u8; PACKET])
    ensures { packet.new ≡ finished taken packet.old }
{
    match taken {
        Taken::None => return,
        Taken::Good { .. } => {}
        Taken::Bad => flag(packet),
    }
    packet[0] = SYNC;
}

/// Sets the error indicator of a packet, given as its bytes.
fn flag(bytes: &mut [u8; PACKET])
    ensures { bytes.new ≡ with_error bytes.old }
{
    let mut packet = Packet(*bytes);
    packet.flag_error();
    *bytes = packet.0;
}
