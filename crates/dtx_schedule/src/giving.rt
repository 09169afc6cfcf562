// Giving packets to one transmitter, one after another.
ghost use Rattle.std.specs.Prelude.{◌≡◌, ◌+◌, ◌≤◌, ◌^◌, ◌++◌, List, IfErr, IsOk, length, map};
ghost use Rattle.std.specs.List.{range_with_len};
ghost use Rattle.dtx_outside.specs.Counts.{HasGone};
ghost use Rattle.dtx_outside.specs.Shelf.{Files};
ghost use Rattle.dtx_make.specs.Made.{made_packet};
ghost use Rattle.dtx_meaning.specs.Status.{blame_of_answer};
ghost use Rattle.dtx_net.specs.Steps.{Step};
ghost use Rattle.dtx_plan.specs.Sound.{IsPart};
ghost use Rattle.dtx_plan.specs.declared.transmitter.Transmitter.{Transmitter};
ghost use Rattle.dtx_schedule.specs.PlayedSoFar.{IsDoneOf, IsOfFeed, IsPlayedSoFar, packet_steps};
ghost use Rattle.dtx_schedule.specs.Playout.{HasTransmitter};

use crate::playout::Playout;
use dtx_make::packet;
use dtx_meaning::Status;
use dtx_outside::Shelf;
use dtx_packets::Packet;

/// A range of packets of a made stream.
#[derive(Clone, Copy)]
pub(crate) struct MadePart {
    pub(crate) seed: u64,
    pub(crate) from: u64,
    pub(crate) count: u64,
}

/// Gives the transmitter at a place these packets, in order.
pub(crate) fn give_all<S: Shelf>(
    shelf: &mut S,
    who: usize,
    packets: &[Packet],
    playout: &mut Playout,
) -> Result<(), Status>
    requires there { HasTransmitter who playout.old }
    requires most { playout.old.steps + length packets.now ≤ 2 ^ 60 }
    ensures done { (ts : List Transmitter) (held : Files) (before : List Step)
        → IsPlayedSoFar ts before held playout.old (S.files shelf.old)
        → IsDoneOf ts (before ++ packet_steps who (map (λ p. p.0) packets.now)) held result playout.new
        (S.files shelf.new) }
    ensures there { IsOk result → HasTransmitter who playout.new }
    ensures steps { IsOk result → playout.new.steps ≡ playout.old.steps + length packets.now }
    ensures refusal { IfErr result IsOfFeed }
    ensures gone { HasGone (S.counts shelf.old) (S.counts shelf.new) (blame_of_answer result) }
{
    for i in 0..packets.len() {
        match playout.give(shelf, who, &packets[i]) {
            Ok(()) => {}
            Err(status) => return Err(status),
        }
    }
    Ok(())
}

/// Gives the transmitter at a place packets of a made stream, in order.
pub(crate) fn give_made<S: Shelf>(
    shelf: &mut S,
    who: usize,
    part: &MadePart,
    playout: &mut Playout,
) -> Result<(), Status>
    requires there { HasTransmitter who playout.old }
    requires most { playout.old.steps + part.now.count ≤ 2 ^ 60 }
    requires part { IsPart part.now.from part.now.count }
    ensures done { (ts : List Transmitter) (held : Files) (before : List Step)
        → IsPlayedSoFar ts before held playout.old (S.files shelf.old)
        → IsDoneOf ts (before ++ packet_steps who
        (map (made_packet part.now.seed) (range_with_len part.now.from part.now.count))) held
        result playout.new (S.files shelf.new) }
    ensures there { IsOk result → HasTransmitter who playout.new }
    ensures steps { IsOk result → playout.new.steps ≡ playout.old.steps + part.now.count }
    ensures refusal { IfErr result IsOfFeed }
    ensures gone { HasGone (S.counts shelf.old) (S.counts shelf.new) (blame_of_answer result) }
{
    for i in 0..part.count {
        match playout.give(shelf, who, &packet(part.seed, part.from + i)) {
            Ok(()) => {}
            Err(status) => return Err(status),
        }
    }
    Ok(())
}
