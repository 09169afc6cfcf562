// The engine of `adapt`: adapts a stream, one piece at a time.
ghost use Rattle.std.specs.Prelude.{◌≡◌, ◌+◌, ◌-◌, ◌*◌, ◌/◌, ◌%◌, ◌<◌, ◌≤◌, ◌++◌, [], ℕ, List, IfOk, length};
ghost use Rattle.dtx_adapter.specs.Adapting.{StandsFor};
ghost use Rattle.dtx_adapter.specs.Feed.{feed, placeholders};
ghost use Rattle.dtx_engine.specs.Made.{only};
ghost use Rattle.dtx_engine.specs.Recipe.{IsFed};
ghost use Rattle.dtx_packets.specs.Packets.{packets_of, whole_packets};
ghost use Rattle.dtx_plan.specs.Sound.{IsSound};
ghost use Rattle.dtx_plan.specs.declared.plan.Plan.{Plan};
ghost use Rattle.dtx_recipes.specs.Adapt.{feeding, feed_bytes};
ghost use Rattle.dtx_packet_jobs.specs.Feeding.{HasFed, IsCounted};

use dtx_adapter::Adapter;
use dtx_adapter::laws::goes_on;
use dtx_engine::{Engine, Shape};
use dtx_forms::packets;
use dtx_meaning::{Outcome, done};
use dtx_plan::Plan;
use dtx_sizes::{FIELD_PACKETS, GROUP_PACKETS, MOST_PACKETS, PACKET, SYNC};
use std::alloc::{AllocError, Global};

/// How many packets the adapter is given at once: a sixth of a field, since it codes as many at once.
const PART_PACKETS: usize = FIELD_PACKETS as usize / 6;

/// Turns the packets of a stream into those of its feed under a plan, in place.
#[derive(Drop)]
pub struct Feeder<'a> {
    plan: &'a Plan,
    adapter: Adapter,
    /// The packets of the last part.
    packets: [[u8; PACKET]; PART_PACKETS],
    /// The number of packets given so far.
    count: u64,
    /// The number of placeholders filled so far.
    filled: u64,
}

impl<'a> Feeder<'a> {
    /// A feeder for a plan, to which nothing was given. The only error is out of memory.
    pub fn new(alloc: Global, plan: &'a Plan) -> Result<Feeder<'a>, AllocError>
        requires { IsSound plan.now }
        ensures fresh { IfOk result (λ feeder. ⟦<Feeder<'a> as Engine>⟧.stands feeder []) }
        ensures recipe { IfOk result (λ feeder. ⟦<Feeder<'a> as Engine>⟧.recipe feeder ≡ feeding plan.now) }
    {
        Ok(Feeder {
            plan,
            adapter: Adapter::new(alloc, plan)?,
            packets: [[0; PACKET]; PART_PACKETS],
            count: 0,
            filled: 0,
        })
    }

    /// Turns the next packets into those of the feed, in place: at most a sixth of a field. They are whole groups of
    /// four, but for the end of a stream.
    fn part(&mut self, bytes: &mut [u8])
        requires whole { length bytes.old % PACKET ≡ 0 }
        requires few { length bytes.old ≤ PACKET * PART_PACKETS }
        requires counted { IsCounted self.old }
        requires open { self.old.count % GROUP_PACKETS ≡ 0 }
        requires most { self.old.count + whole_packets bytes.old ≤ MOST_PACKETS }
        ensures plan { self.new.plan ≡ self.old.plan }
        ensures counted { IsCounted self.new }
        ensures count { self.new.count ≡ self.old.count + whole_packets bytes.old }
        ensures fed { (given : List ℕ) → length given ≡ PACKET * self.old.count → HasFed self.old given
            → IsFed (feeding self.old.plan.now) given bytes.old (HasFed self.new) (only bytes.new) }
    {
        goes_on();
        let count = bytes.len() / PACKET;
        let filled = adapt_part(&mut self.adapter, &mut self.packets[..], bytes);
        self.count += count as u64;
        self.filled += filled;
    }
}

/// Gives the packets of `bytes` to the adapter, and writes the feed's packets back. Returns how many placeholders were
/// filled. Meanwhile the packets stand at the front of `room`.
fn adapt_part(adapter: &mut Adapter, room: &mut [[u8; PACKET]], bytes: &mut [u8]) -> u64
    requires whole { length bytes.old % PACKET ≡ 0 }
    requires room { whole_packets bytes.old ≤ length room.old }
    requires open { adapter.old.given % GROUP_PACKETS ≡ 0 }
    requires most { adapter.old.given + whole_packets bytes.old ≤ MOST_PACKETS }
    ensures fed { (plan : Plan) (stream : List (List ℕ)) → StandsFor plan adapter.old stream
        → feed_bytes plan (stream ++ packets_of bytes.old) ≡ feed_bytes plan stream ++ bytes.new }
    ensures stands { (plan : Plan) (stream : List (List ℕ)) → StandsFor plan adapter.old stream
        → StandsFor plan adapter.new (stream ++ packets_of bytes.old) }
    ensures filled { result ≡ placeholders (packets_of bytes.old) }
    ensures given { adapter.new.given ≡ adapter.old.given + whole_packets bytes.old }
{
    let (given, _) = bytes.as_chunks::<PACKET>();
    let packets = &mut room[..given.len()];
    packets.copy_from_slice(given);
    let filled = adapter.groups(packets);
    bytes.copy_from_slice(packets.as_flattened());
    filled
}

impl Engine for Feeder<'_> {
    ghost use Rattle.dtx_engine.specs.Made.{only};
    ghost use Rattle.dtx_recipes.specs.Adapt.{feeding};
    ghost use Rattle.dtx_packet_jobs.specs.Feeding.{HasFed};
    ghost use Rattle.dtx_recipes.proofs.FeedLemmas.{feeding_starts, feeding_grows};
    ghost use Rattle.dtx_forms.specs.Shapes as shapes;

    ghost shape = { shapes.packets };

    ghost recipe = { λ s. feeding s.plan.now };

    ghost stands = { HasFed };

    ghost gives = { λ _ bytes. only bytes };

    ghost zeros = { λ _. 0 };

    fn sizes(&self) -> Shape {
        packets()
    }

    fn allows(&self, _index: u64, unit: &[u8]) -> bool {
        unit[0] == SYNC
    }

    fn feed(&mut self, _first: u64, bytes: &mut [u8]) {
        let mut done = 0;
        while done < bytes.len() {
            let end = (done + PACKET * part_left(self.count)).min(bytes.len());
            self.part(&mut bytes[done..end]);
            done = end;
        }
    }

    fn finish(&mut self, loose: usize) -> Outcome {
        done(&[self.count, self.filled, loose as u64])
    }

    fn zeros(&self) -> u64 {
        0
    }

    fn made<'a>(&'a self, bytes: &'a [u8]) -> &'a [u8] {
        bytes
    }

    fn log(&self) -> &[u8] {
        &[]
    }

    ghost starts = { λ s. feeding_starts s.plan.now };

    ghost grows = { λ s a b whole. feeding_grows s.plan.now a b whole };
}

/// How many packets of a sixth of a field are left, from packet `first` of the stream on.
fn part_left(first: u64) -> usize
    ensures { result ≡ PART_PACKETS - first % PART_PACKETS }
{
    PART_PACKETS - (first % PART_PACKETS as u64) as usize
}
