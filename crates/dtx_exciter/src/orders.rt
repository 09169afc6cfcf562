// The order in a packet, and in a group of packets.
ghost use Rattle.std.specs.Prelude.{◌≡◌, ◌<◌, ◌==◌, ◌||◌, IfOk, IfSome};
ghost use Rattle.dtx_ops.specs.Spelling.{IsValid};
ghost use Rattle.dtx_exciter.specs.Order.{ordered};
ghost use Rattle.dtx_exciter.specs.Packets.{read_fields, reads};
ghost use Rattle.dtx_exciter.specs.Step.{bytes_of, order_in};

use dtx_fast::Fast;
use dtx_ops::{Ops, OpsNo, read};
use dtx_packets::Packet;
use dtx_sizes::{GROUP_PACKETS, OPERATIONS_PID};

/// The corrector of operations packets.
pub type Corrector = Fast<184, 164>;

/// The order in the group that begins at place `first` of its frame. It is the fields of the group's first packet that
/// reads as an operations packet and whose index is its own place in the frame.
pub(crate) fn order_in(
    corrector: &Corrector,
    first: u16,
    packets: &[Packet; GROUP_PACKETS],
) -> Option<Ops>
    requires { first < 624 }
    ensures order { result ≡ order_in first (bytes_of packets.now) }
    ensures valid { IfSome result IsValid }
{
    match order_of(corrector, first, &packets[0]) {
        Some(ops) => Some(ops),
        None => match order_of(corrector, first + 1, &packets[1]) {
            Some(ops) => Some(ops),
            None => match order_of(corrector, first + 2, &packets[2]) {
                Some(ops) => Some(ops),
                None => order_of(corrector, first + 3, &packets[3]),
            },
        },
    }
}

/// The fields of a packet, if it reads as an operations packet whose index is `place`. Most packets have another packet
/// identifier. It is looked at here too, since a refusal of `read` is as large as the fields, and costs two copies.
#[tactic(auto, unfolding(crate::specs::Packets::reads))]
fn order_of(corrector: &Corrector, place: u16, packet: &Packet) -> Option<Ops>
    ensures order { result ≡ ordered place (reads packet.now.0) }
    ensures valid { IfSome result IsValid }
{
    if packet.pid() != OPERATIONS_PID {
        return None;
    }
    ordered(place, read(corrector, packet))
}

/// The order in a packet at this place of its frame, from the result of reading it. It is the packet's fields, if it
/// reads and its index is `place` (the profile's own).
pub fn ordered(place: u16, reading: Result<Ops, OpsNo>) -> Option<Ops>
    requires { IfOk reading IsValid }
    ensures order { result ≡ ordered place (read_fields reading) }
    ensures valid { IfSome result IsValid }
{
    match reading {
        Ok(ops) if ops.index == place => Some(ops),
        _ => None,
    }
}

/// Whether 52 or more packets stand from the anchor on, including the packet at this place of its frame. `before` is
/// the same without that packet. A group has a counting order only behind 52 packets.
pub fn is_flushed(before: bool, place: u16) -> bool
    ensures { result ≡ (before || (place == 51)) }
{
    before || place == 51
}
