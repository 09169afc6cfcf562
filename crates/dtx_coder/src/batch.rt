//! Packets that are interleaved at once, and whose groups are then sent one by one.

ghost use Rattle.std.specs.Prelude.{◌≡◌, ℕ, ◌+◌, ◌*◌, ◌%◌, ◌<◌, ◌≤◌, ◌++◌, List, length, take};
ghost use Rattle.dtx_coder.specs.Batches.{AreInterleaved};
ghost use Rattle.dtx_coder.specs.Groups.{StandsFor};
ghost use Rattle.dtx_coder.specs.Stream.{a53_symbols};

use crate::air::{AIR_SEGMENTS, Air};
use crate::coder::Coder;
use dtx_sizes::{
    CODEWORD, FIELD_PACKETS, FieldPlace, GROUP_BYTES, GROUP_PACKETS, PACKET, SEGMENT, field_place,
};

/// How many packets are interleaved at once, where speed counts: a sixth of a field. Their codewords are whole turns
/// over the branches, and long enough that each branch moves its bytes by block copies.
pub const BATCH_PACKETS: usize = 52;

/// How many bytes their codewords have.
const BATCH_BYTES: usize = CODEWORD * BATCH_PACKETS;

/// The most groups in a batch.
const BATCH_GROUPS: usize = BATCH_PACKETS / GROUP_PACKETS;

/// The bytes of whole groups of a stream that left the interleaver together, 828 for each. The coder that took their
/// packets then sends the groups in order.
#[derive(Drop)]
pub struct Batch {
    pub bytes: [u8; BATCH_BYTES],
}

impl Batch {
    /// No groups yet.
    pub fn new() -> Batch {
        Batch {
            bytes: [0; BATCH_BYTES],
        }
    }

    /// Interleaves the next packets of the coder's stream, which are whole groups of one field. The first one is packet
    /// `first` of the stream.
    pub fn interleave(&mut self, coder: &mut Coder, first: u64, packets: &[[u8; PACKET]])
        requires whole { length packets.now % GROUP_PACKETS ≡ 0 }
        requires few { length packets.now ≤ BATCH_PACKETS }
        requires in_field { first % FIELD_PACKETS + length packets.now ≤ FIELD_PACKETS }
        ensures { (before : List (List ℕ)) → length before ≡ first → StandsFor coder.old before
            → AreInterleaved coder.new self.new.bytes before packets.now 0 }
    {
        let place = field_place(first).place;
        let len = CODEWORD * packets.len();
        coder.interleave(place, packets, &mut self.bytes[..len]);
    }

    /// Sends the next group, as `Coder::group` would. It is group `group` of the batch, and its first packet is packet
    /// `first` of the stream.
    pub fn send(&self, coder: &mut Coder, first: u64, group: usize, air: &mut Air)
        requires grouped { first % GROUP_PACKETS ≡ 0 }
        requires within { group < BATCH_GROUPS }
        ensures coder { (before packets : List (List ℕ)) → length before + GROUP_PACKETS * group ≡ first
            → GROUP_PACKETS * group + GROUP_PACKETS ≤ length packets
            → AreInterleaved coder.old self.now.bytes before packets group
            → AreInterleaved coder.new self.now.bytes before packets (group + 1) }
        ensures symbols { (before packets : List (List ℕ)) → length before + GROUP_PACKETS * group ≡ first
            → GROUP_PACKETS * group + GROUP_PACKETS ≤ length packets
            → AreInterleaved coder.old self.now.bytes before packets group
            → a53_symbols (before ++ take (GROUP_PACKETS * (group + 1)) packets)
            ≡ a53_symbols (before ++ take (GROUP_PACKETS * group) packets)
            ++ take (SEGMENT * air.new.segments) air.new.symbols }
        ensures few { air.new.segments ≤ AIR_SEGMENTS }
    {
        let FieldPlace { place, second } = field_place(first);
        let (groups, _) = self.bytes.as_chunks::<GROUP_BYTES>();
        coder.send(place, second, &groups[group], None, place == 0, air);
    }
}
