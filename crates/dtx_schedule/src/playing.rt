// Playing a schedule, step by step.
ghost use Rattle.std.specs.Prelude.{◌≡◌, ◌≤◌, ℕ, [], List, None, Some, IfErr, length, slice_index};
ghost use Rattle.std.specs.FinMap as files;
ghost use Rattle.dtx_outside.specs.Counts.{HasGone};
ghost use Rattle.dtx_outside.specs.Shelf.{Files};
ghost use Rattle.dtx_meaning.specs.Meaning.{with_outputs};
ghost use Rattle.dtx_meaning.specs.Status.{blame_of_answer};
ghost use Rattle.dtx_packets.specs.Packets.{most_packets, packets_of, whole_packets};
ghost use Rattle.dtx_net.specs.Lives.{sent_segments};
ghost use Rattle.dtx_net.specs.Steps.{Step, transmitter_place, schedule};
ghost use Rattle.dtx_plan.specs.Sound.{AreTransmitters};
ghost use Rattle.dtx_plan.specs.declared.transmitter.Transmitter.{Transmitter};
ghost use Rattle.dtx_words.specs.Names.{feed_name};
ghost use Rattle.dtx_schedule.specs.Inside.{first_past_feed};
ghost use Rattle.dtx_schedule.specs.Played.{AreEvents, AreInRange, IsPlayOf, IsRunOf};
ghost use Rattle.dtx_schedule.specs.PlayedSoFar.{IsDoneOf, IsOfFeed, IsPlayedSoFar, IsProgressOf};
ghost use Rattle.dtx_schedule.specs.Playout.{IsSomePlayout, IsPlayout, packets_given, SentBy};

use crate::beginning::begin_files;
use crate::event::play_event;
use crate::playout::Playout;
use dtx_meaning::Status;
use dtx_outside::Shelf;
use dtx_packets::{PIECE_PACKETS, Packet};
use dtx_plan::{Events, Transmitter};
use dtx_sizes::PACKET;
use std::alloc::Global;

/// A schedule that was played to its end: its numbers.
#[derive(Drop)]
pub struct PlayedSchedule {
    playout: Playout,
}

impl PlayedSchedule {
    /// How many packets were given to transmitters: the number of steps that aren't restarts.
    pub fn steps(&self) -> u64
        ensures { (ts : List Transmitter) (steps : List Step) → IsPlayout ts self.now.playout steps
            → result ≡ packets_given steps }
    {
        self.playout.steps
    }

    /// How many segments the transmitter with this address has sent, or 0 where there is no transmitter with it.
    pub fn sent(&self, address: u16) -> u64
        ensures { (ts : List Transmitter) (steps : List Step) → IsPlayout ts self.now.playout steps
            → SentBy address ts steps result }
    {
        match self.playout.find(address) {
            Some(who) => count_at(&self.playout.sent, who),
            None => 0,
        }
    }
}

/// The count at a place, or 0 where there is none.
fn count_at(counts: &[u64], place: usize) -> u64
    ensures { result ≡ slice_index counts.now place }
{
    match counts.get(place) {
        Some(count) => *count,
        None => 0,
    }
}

/// Plays the events of a plan over the feed, which is read from the file `net.feed` (the profile's own). Each
/// transmitter has two files, `tx-A.sym` and `tx-A.log`, where A is its address. Each step gives one transmitter a
/// packet or a restart. The step's symbols and then its line are appended before the next step begins. All memory is
/// taken before a file is begun. An error is a `Status`: it can be an I/O error, lack of memory, or a feed that is
/// absent, too long or too short.
#[inline(never)]
pub fn play<S: Shelf>(
    alloc: Global,
    shelf: &mut S,
    transmitters: &[Transmitter],
    events: &Events,
) -> Result<PlayedSchedule, Status>
    requires transmitters { AreTransmitters transmitters.now }
    requires events { AreEvents transmitters.now events.now }
    ensures played { (held : Files) (feed : List ℕ) → S.files shelf.old ≡ Some held
        → files.get held feed_name ≡ Some feed
        → first_past_feed events.now (whole_packets feed) ≡ None
        → IsPlayOf transmitters.now (schedule transmitters.now (packets_of feed) events.now) held result
        (S.files shelf.new) }

    // How far it came, whatever the answer: one number of steps for all transmitters.
    ensures progress { (held : Files) (feed : List ℕ) → S.files shelf.old ≡ Some held
        → files.get held feed_name ≡ Some feed
        → first_past_feed events.now (whole_packets feed) ≡ None
        → IsProgressOf transmitters.now (schedule transmitters.now (packets_of feed) events.now) held result
        (S.files shelf.new) }
    ensures refusal { IfErr result IsOfFeed }
    ensures gone { HasGone (S.counts shelf.old) (S.counts shelf.new) (blame_of_answer result) }
{
    let mut playout = match Playout::new(alloc, transmitters) {
        Ok(playout) => playout,
        Err(_) => return Err(Status::Memory),
    };
    match play_with(alloc, shelf, events, &mut playout) {
        Ok(()) => Ok(PlayedSchedule { playout }),
        Err(status) => Err(status),
    }
}

/// Plays the events with a playout in which no step was done. First takes memory for the packets of one piece.
fn play_with<S: Shelf>(
    alloc: Global,
    shelf: &mut S,
    events: &Events,
    playout: &mut Playout,
) -> Result<(), Status>
    requires events { AreInRange events.now }
    requires playing { (ts : List Transmitter) × IsPlayout ts playout.old [] }
    ensures run { (ts : List Transmitter) (held : Files) (feed : List ℕ) → IsPlayout ts playout.old []
        → S.files shelf.old ≡ Some held
        → files.get held feed_name ≡ Some feed → first_past_feed events.now (whole_packets feed) ≡ None
        → IsRunOf ts (schedule ts (packets_of feed) events.now) held result playout.new (S.files shelf.new) }
    ensures refusal { IfErr result IsOfFeed }
    ensures gone { HasGone (S.counts shelf.old) (S.counts shelf.new) (blame_of_answer result) }
{
    match vec![in alloc; Packet([0; PACKET]); PIECE_PACKETS] {
        Ok(mut packets) => run(shelf, events, &mut packets, playout),
        Err(_) => Err(Status::Memory),
    }
}

/// Begins the files of the transmitters, and plays the events into them.
#[tactic(auto, using(crate::proofs::Refusals::write_of_feed))]
fn run<S: Shelf>(
    shelf: &mut S,
    events: &Events,
    packets: &mut [Packet],
    playout: &mut Playout,
) -> Result<(), Status>
    requires room { length packets.old ≡ PIECE_PACKETS }
    requires events { AreInRange events.now }
    requires playing { (ts : List Transmitter) × IsPlayout ts playout.old [] }
    ensures run { (ts : List Transmitter) (held : Files) (feed : List ℕ) → IsPlayout ts playout.old []
        → S.files shelf.old ≡ Some held
        → files.get held feed_name ≡ Some feed → first_past_feed events.now (whole_packets feed) ≡ None
        → IsRunOf ts (schedule ts (packets_of feed) events.now) held result playout.new (S.files shelf.new) }
    ensures refusal { IfErr result IsOfFeed }
    ensures gone { HasGone (S.counts shelf.old) (S.counts shelf.new) (blame_of_answer result) }
{
    begin_files(shelf, &playout.names)?;
    play_events(shelf, events, packets, playout)
}

/// Plays the events into the transmitters' files, which were begun.
fn play_events<S: Shelf>(
    shelf: &mut S,
    events: &Events,
    packets: &mut [Packet],
    playout: &mut Playout,
) -> Result<(), Status>
    requires room { length packets.old ≡ PIECE_PACKETS }
    requires events { AreInRange events.now }
    requires playing { (ts : List Transmitter) × IsPlayout ts playout.old [] }
    ensures done { (ts : List Transmitter) (held : Files) (feed : List ℕ) → files.get held feed_name ≡ Some feed
        → first_past_feed events.now (whole_packets feed) ≡ None
        → IsPlayedSoFar ts [] held playout.old (S.files shelf.old)
        → IsDoneOf ts (schedule ts (packets_of feed) events.now) held result playout.new (S.files shelf.new) }
    ensures refusal { IfErr result IsOfFeed }
    ensures gone { HasGone (S.counts shelf.old) (S.counts shelf.new) (blame_of_answer result) }
{
    for i in 0..events.len() {
        match play_event(shelf, i as u32, &events.get(i), packets, playout) {
            Ok(()) => {}
            Err(status) => return Err(status),
        }
    }
    Ok(())
}
