//! What a call of the receiver gives.

ghost use Rattle.std.specs.Prelude.{◌≡◌, true, false, ◌∷◌, [], replicate};
ghost use Rattle.dtx_packets.specs.Packets.{with_error};

use arrayvec::ArrayVec;
use dtx_packets::Packet;
use dtx_sizes::{GROUP_PACKETS, PACKET, PACKET_DATA};

/// The largest number of groups that pass the outer decoding together. A group is four data segments. 13 groups have
/// the bytes of 52 words.
pub const HELD_GROUPS: usize = 13;

/// The largest number of packets that one call gives: four for each of `HELD_GROUPS` groups.
pub const MOST_RECEIVED: usize = GROUP_PACKETS * HELD_GROUPS;

/// A packet that was received.
#[derive(Clone, Copy, Debug, PartialEq, Eq)]
pub struct Received {
    /// The packet. Its sync byte is 0x47. Where its word had no correction, its error indicator is set.
    pub packet: Packet,
    /// The number of bytes of its word that were put right, parity bytes included. It is 0 where the word had no
    /// correction.
    pub fixed: u8,
    /// Whether its word had a correction.
    pub good: bool,
}

impl Default for Received {
    /// The value that fills the unused places of a batch.
    fn default() -> Received
        ensures packet { result.packet.0 ≡ replicate PACKET 0 }
        ensures fixed { result.fixed ≡ 0 }
        ensures good { result.good ≡ false }
    {
        Received {
            packet: Packet([0; PACKET]),
            fixed: 0,
            good: false,
        }
    }
}

impl Received {
    /// The packet of a word that has a correction. `head` holds the packet's bytes behind the sync byte. `fixed` counts
    /// the bytes in which the word and its correction differ.
    pub fn corrected(head: &[u8; PACKET_DATA], fixed: u8) -> Received
        ensures { result ≡ record { packet = record { 0 = 0x47 ∷ head.now }; fixed = fixed; good = true } }
    {
        Received {
            packet: packet_of(head),
            fixed,
            good: true,
        }
    }

    /// The packet of a word that has no correction. `head` holds the word's own data. The packet's error indicator is
    /// set.
    pub fn as_gathered(head: &[u8; PACKET_DATA]) -> Received
        ensures { result ≡ record { packet = record { 0 = with_error (0x47 ∷ head.now) }; fixed = 0; good = false } }
    {
        let mut packet = packet_of(head);
        packet.flag_error();
        Received {
            packet,
            fixed: 0,
            good: false,
        }
    }
}

/// The packet of these data: the sync byte, and then the data.
fn packet_of(head: &[u8; PACKET_DATA]) -> Packet
    ensures { result.0 ≡ 0x47 ∷ head.now }
{
    let mut packet = Packet([0x47; PACKET]);
    packet.0[1..].copy_from_slice(head);
    packet
}

/// The packets that a call gives, in order.
#[derive(Drop)]
pub struct Batch {
    /// The packets.
    pub packets: ArrayVec<Received, MOST_RECEIVED>,
}

impl Batch {
    /// No packets.
    pub fn new() -> Batch
        ensures { result.packets.items ≡ [] }
    {
        Batch {
            packets: ArrayVec::new(),
        }
    }
}
