// An adapter.
ghost use Rattle.std.specs.Prelude.{◌≡◌, ◌==◌, ◌<◌, ◌≤◌, ◌+◌, ◌%◌, ◌++◌, [], ℕ, List, All, IfOk, OnOk};
ghost use Rattle.std.specs.Prelude.{length, drop};
ghost use Rattle.dtx_coder.specs.Groups as groups;
ghost use Rattle.dtx_ops.specs.Spelling.{IsEntry};
ghost use Rattle.dtx_plan.specs.Sound.{IsSound};
ghost use Rattle.dtx_plan.specs.declared.plan.Plan.{Plan};
ghost use Rattle.dtx_adapter.specs.Adapting.{StandsFor};
ghost use Rattle.dtx_adapter.specs.Feed.{entry_of, feed, placeholders};

use crate::filler::Filler;
use crate::run::{make_run, run_packets};
use dtx_coder::{Air, BATCH_PACKETS, Batch, Coder};
use dtx_plan::Plan;
use dtx_sizes::{GROUP_PACKETS, MOST_PACKETS, PACKET};
use std::alloc::{AllocError, Global};

/// An adapter. It turns the packets of a stream, given in order, into those of the feed (the profile's own, in the
/// manner of ATSC A/110).
///
/// The feed is made run by run. Only the first group of a run may hold placeholders, since their packets say the states
/// before the group. The groups of a run are interleaved at once.
#[derive(Drop)]
pub struct Adapter {
    filler: Filler,
    /// The coder is given the feed, so that its states are known before each run.
    coder: Coder,
    /// The groups of the last run.
    batch: Batch,
    air: Air,
    /// How many packets were given.
    given: u64,
}

impl Adapter {
    /// A new adapter of a sound plan. The only error is out of memory.
    pub fn new(alloc: Global, plan: &Plan) -> Result<Adapter, AllocError>
        requires { IsSound plan.now }
        ensures stands { IfOk result (λ adapter. StandsFor plan.now adapter []) }
        ensures none { IfOk result (λ adapter. adapter.given ≡ 0) }

        // Each transmitter has the numbers of an entry.
        ensures fit { OnOk result (All (λ t. IsEntry (entry_of t)) plan.now.transmitters) }
    {
        Ok(Adapter {
            filler: Filler::new(alloc, plan)?,
            coder: Coder::new(alloc)?,
            batch: Batch::new(),
            air: Air::new(),
            given: 0,
        })
    }

    /// Whether further packets may be given: not after a group of fewer than four packets.
    pub fn open(&self) -> bool
        ensures { result ≡ (self.now.given % GROUP_PACKETS == 0) }
    {
        self.given % GROUP_PACKETS as u64 == 0
    }

    /// Turns the next packets of the stream into those of the feed, in place, and answers how many placeholders it
    /// filled. The caller gives whole groups of four packets, but for the end of the stream, and at most 624,000,000
    /// packets in all. The call takes no memory and has no errors.
    pub fn groups(&mut self, packets: &mut [[u8; PACKET]]) -> u64
        requires open { self.old.given % GROUP_PACKETS ≡ 0 }
        requires most { self.old.given + length packets.old ≤ MOST_PACKETS }
        ensures fed { (plan : Plan) (stream : List (List ℕ)) → StandsFor plan self.old stream
            → packets.new ≡ drop (length stream) (feed plan (stream ++ packets.old)) }
        ensures filled { result ≡ placeholders packets.old }
        ensures stands { (plan : Plan) (stream : List (List ℕ)) → StandsFor plan self.old stream
            → StandsFor plan self.new (stream ++ packets.old) }
        ensures given { self.new.given ≡ self.old.given + length packets.old }
    {
        let mut filled = 0;
        let mut done = 0;
        while done < packets.len() {
            let end = done + run_packets(self.given, &packets[done..]);
            filled += self.run(&mut packets[done..end]);
            done = end;
        }
        filled
    }

    /// Turns the packets of the next run into those of the feed, in place, and answers how many placeholders it filled.
    /// They stand in one sixth of a field, and behind the first group there is no placeholder.
    fn run(&mut self, packets: &mut [[u8; PACKET]]) -> u64
        requires some { 0 < length packets.old }
        requires open { self.old.given % GROUP_PACKETS ≡ 0 }
        requires in_batch { self.old.given % BATCH_PACKETS + length packets.old ≤ BATCH_PACKETS }
        requires most { self.old.given + length packets.old ≤ MOST_PACKETS }
        requires later { placeholders (drop GROUP_PACKETS packets.old) ≡ 0 }
        ensures fed { (plan : Plan) (stream : List (List ℕ)) → StandsFor plan self.old stream
            → packets.new ≡ drop (length stream) (feed plan (stream ++ packets.old)) }
        ensures filled { result ≡ placeholders packets.old }
        ensures stands { (plan : Plan) (stream : List (List ℕ)) → StandsFor plan self.old stream
            → StandsFor plan self.new (stream ++ packets.old) }
        ensures given { self.new.given ≡ self.old.given + length packets.old }
    {
        let told = self.coder.states();
        let filled = make_run(&mut self.filler, told, self.given, packets);
        let grouped = packets.len() - packets.len() % GROUP_PACKETS;
        self.code(&packets[..grouped]);
        self.given += packets.len() as u64;
        filled
    }

    /// Codes the next groups of the feed: only the states behind them matter. They stand in one sixth of a field.
    fn code(&mut self, packets: &[[u8; PACKET]])
        requires open { self.old.given % GROUP_PACKETS ≡ 0 }
        requires whole { length packets.now % GROUP_PACKETS ≡ 0 }
        requires in_batch { self.old.given % BATCH_PACKETS + length packets.now ≤ BATCH_PACKETS }
        requires most { self.old.given + length packets.now ≤ MOST_PACKETS }
        ensures coder { (fed : List (List ℕ)) → length fed ≡ self.old.given → groups.StandsFor self.old.coder fed
            → groups.StandsFor self.new.coder (fed ++ packets.now) }
        ensures filler { self.new.filler ≡ self.old.filler }
        ensures given { self.new.given ≡ self.old.given }
    {
        self.batch.interleave(&mut self.coder, self.given, packets);
        for i in 0..packets.len() / GROUP_PACKETS {
            let first = self.given + (GROUP_PACKETS * i) as u64;
            self.batch.send(&mut self.coder, first, i, &mut self.air);
        }
    }
}
