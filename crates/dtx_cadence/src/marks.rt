// The sync bytes of a feed, some of which are marks.
ghost use Rattle.std.specs.Prelude.{◌≡◌};
ghost use Rattle.dtx_cadence.specs.Mark.{marked};

use dtx_packets::Packet;
use dtx_sizes::{FRAME_PACKETS, MARK, PACKET, SYNC};

/// Sets the sync byte of packet `index` of the feed: a mark at each multiple of 624.
pub fn mark(index: u64, packet: &mut Packet)
    ensures { packet.new.0 ≡ marked index packet.old.0 }
{
    packet.0[0] = if index % FRAME_PACKETS as u64 == 0 {
        MARK
    } else {
        SYNC
    };
}
