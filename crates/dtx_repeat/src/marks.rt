//! The cadence marks of received packets.

ghost use Rattle.std.specs.Prelude.{◌≡◌, ◌+◌, ◌%◌, length};
ghost use Rattle.dtx_receiver.specs.Bytes.{symbols_of};
ghost use Rattle.dtx_repeat.specs.Restored.{place_behind, restored};

use dtx_cadence::mark;
use dtx_frame::is_second;
use dtx_receiver::{Received, to_symbols};
use dtx_sizes::{FIELD_PACKETS, FRAME_PACKETS, SEGMENT};

/// The place in its frame of the packet behind a field sync.
pub(crate) fn place_behind(sync: &[i8; SEGMENT]) -> u16
    ensures { result ≡ place_behind sync.now }
{
    if is_second(sync) { FIELD_PACKETS } else { 0 }
}

/// The same, where the field sync is given as the bytes of its symbols.
pub(crate) fn place_behind_bytes(sync: &[u8; SEGMENT]) -> u16
    ensures { result ≡ place_behind (symbols_of sync.now) }
{
    let mut symbols = [0; SEGMENT];
    to_symbols(sync, &mut symbols);
    place_behind(&symbols)
}

/// Restores the sync bytes of successive packets, the first of which stands at `place` of its frame. Answers the place
/// behind the last of them, from 0 to 623.
pub(crate) fn restore(place: u16, packets: &mut [Received]) -> u16
    ensures packets { packets.new ≡ restored place packets.old }
    ensures place { result ≡ (place + length packets.old) % 624 }
{
    let mut next = place % FRAME_PACKETS;
    for i in 0..packets.len() {
        mark(next as u64, &mut packets[i].packet);
        next = (next + 1) % FRAME_PACKETS;
    }
    next
}
