// Makes packets of a feed, one at a time.
ghost use Rattle.std.specs.Prelude.{◌≡◌, ◌<◌, ◌≤◌, ◌+◌, ◌%◌, [], if◌then◌else◌, true, All, IfOk, OnOk, length, map};
ghost use Rattle.dtx_cadence.specs.Mark.{sync_at};
ghost use Rattle.dtx_ops.specs.Spelling.{spelling, IsEntry};
ghost use Rattle.dtx_plan.specs.Sound.{IsSound};
ghost use Rattle.dtx_adapter.specs.Feed as spec;
ghost use Rattle.dtx_adapter.specs.Feed.{as_feed_packet};
ghost use Rattle.dtx_adapter.specs.Filling.{Fills, filled_ops, next_page, begun};

use crate::page::{entries_on, first_page, part};
use dtx_cadence::mark;
use dtx_clock::stamp;
use dtx_ops::{Entry, Ops, Paging, write};
use dtx_packets::Packet;
use dtx_plan::{Plan, Transmitter};
use dtx_rs::Rs;
use dtx_sizes::{
    FRAME_PACKETS, MARK, MOST_PACKETS, MOST_TRANSMITTERS, OPERATIONS_PID, PACKET, SYNC,
};
use dtx_trellis::States;
use std::alloc::{AllocError, Global};
use std::marker::Model;

/// How many values the counter of operations packets has.
const COUNTERS: u8 = 16;

/// Turns packets of a stream into those of a feed: sets their sync bytes, and fills placeholders (the profile's own, in
/// the manner of ATSC A/110). Contracts see it as what the operations packets say, and the counter of the next one.
#[derive(Drop)]
pub(crate) struct Filler {
    /// The tick at which the feed starts, below 10,000,000.
    start: u32,
    /// All transmitters of the plan, in their order.
    entries: Vec<Entry>,
    /// What the operations packets say. The maximum delay stays. The states are set for each group. The page and its
    /// transmitters change after a group that filled a placeholder. All else is set for each packet.
    ops: Ops,
    code: Rs<184, 164>,
    /// How many placeholders were filled, modulo 16.
    counter: u8,
    /// Whether a placeholder of the group at hand was filled.
    filled: bool,
}

impl Model for Filler {
    ghost use Rattle.dtx_adapter.specs.Filling.{Filling, IsReadable};

    ghost Value = { Filling };

    ghost view = { λ f. record {
      start = f.start;
      states = f.ops.states;
      max_delay = f.ops.max_delay;
      entries = f.entries.items;
      paging = f.ops.paging;
      counter = f.counter;
      filled = f.filled;
    } };

    ghost invariant = { λ f. IsReadable f.start f.ops.max_delay f.counter f.entries.items f.ops.paging
        f.ops.offsets.items };
}

impl Filler {
    /// The filler of a plan, which has filled nothing. The only error is out of memory.
    pub(crate) fn new(alloc: Global, plan: &Plan) -> Result<Filler, AllocError>
        requires { IsSound plan.now }
        ensures fills { IfOk result (λ filler. Fills plan.now filler [] 0) }
        ensures fit { OnOk result (All (λ t. IsEntry (spec.entry_of t)) plan.now.transmitters) }
    {
        let entries = entries_of(alloc, plan.transmitters.as_slice())?;
        Ok(Filler {
            start: plan.start,
            ops: ops_of(plan.max_delay, entries.as_slice()),
            entries,
            code: Rs::new(),
            counter: 0,
            filled: false,
        })
    }

    /// Begins a group, before which the coders have these states. If the group before it filled a placeholder, this one
    /// has the next page.
    #[tactic(auto, unfolding(crate::specs::Filling::begun))]
    pub(crate) fn begin(&mut self, states: States)
        ensures { self.new ≡ begun self.old states }
    {
        self.ops.states = states;
        if self.filled {
            self.filled = false;
            self.turn();
        }
    }

    /// Turns to the next page.
    fn turn(&mut self)
        ensures { self.new ≡ record self.old { paging = next_page self.old.paging } }
    {
        if let Paging::Of { page, pages } = self.ops.paging {
            let page = (page + 1) % pages;
            self.ops.paging = Paging::Of { page, pages };
            self.ops.offsets = part(self.entries.as_slice(), page);
        }
    }

    /// Turns packet `index` of the stream into that of the feed, and answers whether it was a placeholder.
    #[tactic(auto, unfolding(crate::specs::Feed::as_feed_packet))]
    pub(crate) fn make(&mut self, index: u64, bytes: &mut [u8; PACKET]) -> bool
        requires { index < MOST_PACKETS }
        ensures made { bytes.new ≡ as_feed_packet (filled_ops self.old index) self.old.counter index bytes.old }
        ensures placeholder { result ≡ spec.is_placeholder bytes.old }
        ensures counted { self.new ≡ record self.old {
          counter = if spec.is_placeholder bytes.old then
              (self.old.counter + 1) % COUNTERS else self.old.counter;
          filled = if spec.is_placeholder bytes.old then true else self.old.filled;
        } }
    {
        let fills = is_placeholder(bytes);
        if fills {
            let mut packet = Packet(*bytes);
            self.fill(index, &mut packet);
            *bytes = packet.0;
        } else {
            bytes[0] = sync(index);
        }
        fills
    }

    /// Overwrites a packet with the operations packet that is packet `index` of the feed.
    fn fill(&mut self, index: u64, packet: &mut Packet)
        requires { index < MOST_PACKETS }
        ensures filled { packet.new.0 ≡ spelling (filled_ops self.old index) self.old.counter (sync_at index) }
        ensures counted { self.new ≡ record self.old {
          counter = (self.old.counter + 1) % COUNTERS;
          filled = true;
        } }
    {
        let frame = (index / FRAME_PACKETS as u64) as u32;
        self.ops.stamp = stamp(self.start, frame);
        self.ops.frame = frame;
        self.ops.index = (index % FRAME_PACKETS as u64) as u16;
        write(&self.code, &self.ops, self.counter, packet);
        mark(index, packet);
        self.counter = (self.counter + 1) % COUNTERS;
        self.filled = true;
    }
}

/// Whether a packet of the stream is a placeholder.
#[tactic(auto, unfolding(crate::specs::Feed::is_placeholder))]
pub(crate) fn is_placeholder(bytes: &[u8; PACKET]) -> bool
    ensures { result ≡ spec.is_placeholder bytes.now }
{
    u16::from_be_bytes([bytes[1] & 0x1F, bytes[2]]) == OPERATIONS_PID
}

/// The sync byte of packet `index` of the feed, which `mark` sets.
fn sync(index: u64) -> u8
    ensures { result ≡ sync_at index }
{
    if index % FRAME_PACKETS as u64 == 0 {
        MARK
    } else {
        SYNC
    }
}

/// What the operations packets say at first: the maximum delay, the first page, and its transmitters.
fn ops_of(max_delay: u32, entries: &[Entry]) -> Ops
    requires { length entries.now ≤ MOST_TRANSMITTERS }
    ensures max_delay { result.max_delay ≡ max_delay }
    ensures paging { result.paging ≡ spec.paging_of entries.now 0 }
    ensures at_hand { result.offsets.items ≡ spec.listed entries.now result.paging }
{
    let paging = first_page(entries);
    Ops {
        states: States([0; 12]),
        stamp: 0,
        max_delay,
        frame: 0,
        index: 0,
        paging,
        offsets: entries_on(entries, paging),
    }
}

/// The transmitters of a plan as entries, in their order.
fn entries_of(alloc: Global, transmitters: &[Transmitter]) -> Result<Vec<Entry>, AllocError>
    ensures entries { IfOk result (λ entries. entries.items ≡ map spec.entry_of transmitters.now) }
    ensures fit { OnOk result (All (λ t. IsEntry (spec.entry_of t)) transmitters.now) }
{
    let mut entries = Vec::with_capacity(alloc, transmitters.len())?;
    for transmitter in transmitters {
        entries.push(entry_of(*transmitter))?;
    }
    Ok(entries)
}

/// A transmitter of a plan as an entry.
fn entry_of(transmitter: Transmitter) -> Entry
    ensures entry { result ≡ spec.entry_of transmitter }
    ensures fits { IsEntry result }
{
    Entry {
        address: transmitter.address,
        offset: transmitter.offset,
    }
}
