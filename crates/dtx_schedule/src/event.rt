// Playing one event of a schedule, step by step.
ghost use Rattle.std.specs.Prelude.{◌≡◌, ◌+◌, ◌<◌, ◌≤◌, ◌^◌, ◌++◌, ◌∷◌, [], ℕ, List, Some, false};
ghost use Rattle.std.specs.Prelude.{IfErr, IfOk, IsOk, length};
ghost use Rattle.std.specs.FinMap as files;
ghost use Rattle.dtx_outside.specs.Counts.{HasGone};
ghost use Rattle.dtx_outside.specs.Shelf.{Files};
ghost use Rattle.dtx_meaning.specs.Status.{blame_of_answer};
ghost use Rattle.dtx_packets.specs.Packets.{most_packets, packet_at, packets_from, packets_of, whole_packets};
ghost use Rattle.dtx_net.specs.Steps.{Step, packet_step, transmitter_place, steps_of};
ghost use Rattle.dtx_plan.specs.Sound.{IsInRange, IsPart, to_of};
ghost use Rattle.dtx_plan.specs.declared.transmitter.Transmitter.{Transmitter};
ghost use Rattle.dtx_words.specs.Names.{feed_name};
ghost use Rattle.dtx_schedule.specs.Changes.{changed_packet};
ghost use Rattle.dtx_schedule.specs.Inside.{reads_past};
ghost use Rattle.dtx_schedule.specs.PlayedSoFar.{IsDoneOf, IsGivenOf, IsOfFeed, IsPlayedSoFar, packet_steps};
ghost use Rattle.dtx_schedule.specs.Playout.{HasTransmitter, IsSomePlayout};

use crate::giving::{MadePart, give_all, give_made};
use crate::part::{Part, read_one, read_piece};
use crate::playout::Playout;
use dtx_meaning::Status;
use dtx_net::flipped;
use dtx_outside::Shelf;
use dtx_packets::{PIECE_PACKETS, Packet};
use dtx_plan::Event;

/// Does the steps of event `number`. `packets` is room for the packets of a piece.
#[tactic(auto, using(crate::proofs::EventSteps::nowhere))]
pub(crate) fn play_event<S: Shelf>(
    shelf: &mut S,
    number: u32,
    event: &Event,
    packets: &mut [Packet],
    playout: &mut Playout,
) -> Result<(), Status>
    requires room { length packets.old ≡ PIECE_PACKETS }
    requires event { IsInRange event.now }
    requires some { IsSomePlayout playout.old }
    requires most { playout.old.steps + most_packets ≤ 2 ^ 60 }
    ensures done { (ts : List Transmitter) (held : Files) (before : List Step) (feed : List ℕ)
        → files.get held feed_name ≡ Some feed
        → reads_past (whole_packets feed) event.now ≡ false
        → IsPlayedSoFar ts before held playout.old (S.files shelf.old)
        → IsDoneOf ts (before ++ steps_of ts (packets_of feed) event.now) held result playout.new (S.files shelf.new) }
    ensures some { IsOk result → IsSomePlayout playout.new }
    ensures steps { IsOk result → playout.new.steps ≤ playout.old.steps + most_packets }
    ensures refusal { IfErr result IsOfFeed }
    ensures gone { HasGone (S.counts shelf.old) (S.counts shelf.new) (blame_of_answer result) }
{
    // An event's transmitter is one of the plan's, so it has a place in the plan's list.
    match playout.find(to_of(event)) {
        Some(who) => play_at(shelf, who, number, event, packets, playout),
        None => Ok(()),
    }
}

/// Does the steps of event `number` with the transmitter at a place.
fn play_at<S: Shelf>(
    shelf: &mut S,
    who: usize,
    number: u32,
    event: &Event,
    packets: &mut [Packet],
    playout: &mut Playout,
) -> Result<(), Status>
    requires room { length packets.old ≡ PIECE_PACKETS }
    requires event { IsInRange event.now }
    requires there { HasTransmitter who playout.old }
    requires most { playout.old.steps + most_packets ≤ 2 ^ 60 }
    ensures done { (ts : List Transmitter) (held : Files) (before : List Step) (feed : List ℕ)
        → files.get held feed_name ≡ Some feed
        → transmitter_place (to_of event.now) ts ≡ Some who
        → reads_past (whole_packets feed) event.now ≡ false
        → IsPlayedSoFar ts before held playout.old (S.files shelf.old)
        → IsDoneOf ts (before ++ steps_of ts (packets_of feed) event.now) held result playout.new (S.files shelf.new) }
    ensures there { IsOk result → HasTransmitter who playout.new }
    ensures steps { IsOk result → playout.new.steps ≤ playout.old.steps + most_packets }
    ensures refusal { IfErr result IsOfFeed }
    ensures gone { HasGone (S.counts shelf.old) (S.counts shelf.new) (blame_of_answer result) }
{
    match *event {
        Event::Send { from, count, .. } => {
            let part = Part {
                event: number,
                from,
                count,
            };
            send(shelf, who, &part, packets, playout)
        }
        Event::Foreign {
            seed,
            from,
            count,
            ..
        } => give_made(shelf, who, &MadePart { seed, from, count }, playout),
        Event::Flip { from, .. } => {
            let part = Part {
                event: number,
                from,
                count: 1,
            };
            give_changed(shelf, who, &part, event, playout)
        }
        Event::Lie { from, .. } => {
            let part = Part {
                event: number,
                from,
                count: 1,
            };
            give_changed(shelf, who, &part, event, playout)
        }
        Event::Restart { .. } => playout.restart(shelf, who),
    }
}

/// The address of the event's transmitter.
fn to_of(event: &Event) -> u16
    ensures { result ≡ to_of event.now }
{
    match *event {
        Event::Send { to, .. }
        | Event::Foreign { to, .. }
        | Event::Flip { to, .. }
        | Event::Lie { to, .. }
        | Event::Restart { to } => to,
    }
}

/// Gives the transmitter at a place the first packet of a part of the feed, as the event changes it.
fn give_changed<S: Shelf>(
    shelf: &mut S,
    who: usize,
    part: &Part,
    event: &Event,
    playout: &mut Playout,
) -> Result<(), Status>
    requires part { part.now.from < most_packets }
    requires event { IsInRange event.now }
    requires there { HasTransmitter who playout.old }
    requires most { playout.old.steps < 2 ^ 60 }
    ensures done { (ts : List Transmitter) (held : Files) (before : List Step) (feed : List ℕ)
        → files.get held feed_name ≡ Some feed
        → part.now.from < whole_packets feed
        → IsPlayedSoFar ts before held playout.old (S.files shelf.old)
        → IsDoneOf ts (before ++ packet_step who (changed_packet event.now (packet_at feed part.now.from)) ∷ []) held
        result playout.new (S.files shelf.new) }
    ensures there { IsOk result → HasTransmitter who playout.new }
    ensures steps { IsOk result → playout.new.steps ≡ playout.old.steps + 1 }
    ensures refusal { IfErr result IsOfFeed }
    ensures gone { HasGone (S.counts shelf.old) (S.counts shelf.new) (blame_of_answer result) }
{
    match read_one(shelf, part.event, part.from) {
        Ok(packet) => {
            let changed = changed_by(event, &packet, playout);
            playout.give(shelf, who, &changed)
        }
        Err(status) => Err(status),
    }
}

/// What the event makes of a packet that it reads.
fn changed_by(event: &Event, packet: &Packet, playout: &Playout) -> Packet
    requires { IsInRange event.now }
    ensures { result.0 ≡ changed_packet event.now packet.now.0 }
{
    match *event {
        Event::Flip { at, with, .. } => flipped(packet, at, with),
        Event::Lie { states, .. } => playout.net.lied(packet, &states),
        _ => *packet,
    }
}

/// Gives the transmitter at a place the packets of a part of the feed, read piece by piece.
fn send<S: Shelf>(
    shelf: &mut S,
    who: usize,
    part: &Part,
    packets: &mut [Packet],
    playout: &mut Playout,
) -> Result<(), Status>
    requires room { length packets.old ≡ PIECE_PACKETS }
    requires there { HasTransmitter who playout.old }
    requires part { IsPart part.now.from part.now.count }
    requires most { playout.old.steps + part.now.count ≤ 2 ^ 60 }
    ensures done { (ts : List Transmitter) (held : Files) (before : List Step) (feed : List ℕ)
        → files.get held feed_name ≡ Some feed
        → part.now.from + part.now.count ≤ whole_packets feed
        → IsPlayedSoFar ts before held playout.old (S.files shelf.old)
        → IsDoneOf ts (before ++ packet_steps who (packets_from feed part.now.from part.now.count)) held
        result playout.new (S.files shelf.new) }
    ensures there { IsOk result → HasTransmitter who playout.new }
    ensures steps { IsOk result → playout.new.steps ≡ playout.old.steps + part.now.count }
    ensures refusal { IfErr result IsOfFeed }
    ensures gone { HasGone (S.counts shelf.old) (S.counts shelf.new) (blame_of_answer result) }
{
    let mut given = 0;
    while given < part.count {
        let rest = Part {
            event: part.event,
            from: part.from + given,
            count: part.count - given,
        };
        let count = match send_piece(shelf, who, &rest, packets, playout) {
            Ok(count) => count,
            Err(status) => return Err(status),
        };
        given += count;
    }
    Ok(())
}

/// Gives the transmitter at a place the first packets of a part of the feed, at most as many as `packets` has room for.
/// Returns how many they are.
fn send_piece<S: Shelf>(
    shelf: &mut S,
    who: usize,
    part: &Part,
    packets: &mut [Packet],
    playout: &mut Playout,
) -> Result<u64, Status>
    requires room { length packets.old ≡ PIECE_PACKETS }
    requires there { HasTransmitter who playout.old }
    requires part { IsPart part.now.from part.now.count }
    requires most { playout.old.steps + part.now.count ≤ 2 ^ 60 }
    ensures done { (ts : List Transmitter) (held : Files) (before : List Step) (feed : List ℕ)
        → files.get held feed_name ≡ Some feed
        → part.now.from < whole_packets feed → IsPlayedSoFar ts before held playout.old (S.files shelf.old)
        → IsGivenOf ts before who feed part.now.from part.now.count held result playout.new (S.files shelf.new) }
    ensures count { IfOk result (λ n. (0 < n) × (n ≤ part.now.count) × (playout.new.steps ≡ playout.old.steps + n)) }
    ensures there { IsOk result → HasTransmitter who playout.new }
    ensures refusal { IfErr result IsOfFeed }
    ensures gone { HasGone (S.counts shelf.old) (S.counts shelf.new) (blame_of_answer result) }
{
    match read_piece(shelf, part, packets) {
        Ok(count) => match give_all(shelf, who, &packets[..count], playout) {
            Ok(()) => Ok(count as u64),
            Err(status) => Err(status),
        },
        Err(status) => Err(status),
    }
}
