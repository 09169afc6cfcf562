// The engine of `receive` and `mend`: receives symbols, one piece of their file at a time.
ghost use Rattle.std.specs.Prelude.{◌≡◌, ◌+◌, ◌*◌, ◌/◌, ◌<◌, ◌≤◌, ◌++◌, [], ℤ, List, IfOk, length, take};
ghost use Rattle.dtx_receiver.specs.Bytes.{symbols_in};
ghost use Rattle.dtx_recipes.specs.Giving.{bytes_of};
ghost use Rattle.dtx_jobs.specs.Reception.{IsReceiving, WasGiven};
ghost use Rattle.dtx_recipes.specs.SymbolFile.{file_segments};
ghost use Rattle.dtx_recipes.specs.Tally.{IsBounded, tally_of};

use crate::segment_receiver::{Receiving, SegmentReceiver};
use dtx_engine::{Buffer, Shape};
use dtx_forms::{PIECE_SEGMENTS, Stepping, segments};
use dtx_meaning::{Outcome, Status, done, ended};
use dtx_receiver::{Batch, Received};
use dtx_recipes::Tally;
use dtx_sizes::{GROUP_PACKETS, MOST_SEGMENTS, PACKET, SEGMENT};
use dtx_steps::Step;
use std::alloc::{AllocError, Global};

/// Room for the packets that a piece brings, in bytes.
const RECEIVED_BYTES: usize = PACKET * GROUP_PACKETS * PIECE_SEGMENTS;

/// A receiver, the packets that the last piece brought, and the numbers of all segments so far.
#[derive(Drop)]
pub struct Reception<R> {
    receiver: Box<R>,
    batch: Batch,
    tally: Tally,
    packets: Buffer<RECEIVED_BYTES>,
}

impl<R: SegmentReceiver> Reception<R> {
    /// A value to which nothing was given. The only error is out of memory.
    pub fn new(alloc: Global) -> Result<Reception<R>, AllocError>
        ensures { IfOk result (λ r. ⟦<Reception<R> as Step>⟧.stands r []) }
    {
        Ok(Reception {
            receiver: Box::new(alloc, R::new(alloc)?)?,
            batch: Batch::new(),
            tally: Tally::new(),
            packets: Buffer::new(alloc)?,
        })
    }

    /// Gives the receiver the first of these segments, as many as it takes at once, and gathers the packets that they
    /// bring. Returns how many segments it took.
    fn take_some(&mut self, segments: &[[u8; SEGMENT]]) -> usize
        requires some { 0 < length segments.now }
        requires most { self.old.tally.segments + length segments.now ≤ MOST_SEGMENTS }
        requires bounded { IsBounded self.old.tally self.old.tally.segments }
        requires room { length self.old.packets + PACKET * GROUP_PACKETS * length segments.now ≤ RECEIVED_BYTES }
        ensures some { 0 < result }
        ensures within { result ≤ length segments.now }
        ensures receiving { (before : List (List ℤ))
            → IsReceiving R.giving (R.stands self.old.receiver.value) self.old.tally before
            → IsReceiving R.giving (R.stands self.new.receiver.value) self.new.tally
            (before ++ symbols_in (take result segments.now)) }
        ensures brought { (before : List (List ℤ))
            → IsReceiving R.giving (R.stands self.old.receiver.value) self.old.tally before
            → R.giving.so_far (before ++ symbols_in (take result segments.now))
            ≡ R.giving.so_far before ++ self.new.batch.packets.items }
        ensures packets { self.new.packets ≡ self.old.packets ++ bytes_of self.new.batch.packets.items }
        ensures long { length self.new.packets ≤ length self.old.packets + PACKET * GROUP_PACKETS * result }
        ensures bounded { IsBounded self.new.tally self.new.tally.segments }
        ensures count { self.new.tally.segments ≡ self.old.tally.segments + result }
    {
        let progress = self.receiver.take_some(segments, &mut self.batch);
        self.tally.segments += progress.segments as u64;
        self.tally.runs += progress.runs;
        self.tally.add(self.batch.packets.as_slice());
        gather(self.batch.packets.as_slice(), &mut self.packets);
        progress.segments
    }

    /// Ends the receiver's input, and gathers the packets that the end brings.
    fn end(&mut self)
        requires most { self.old.tally.segments ≤ MOST_SEGMENTS }
        requires bounded { IsBounded self.old.tally self.old.tally.segments }
        requires empty { self.old.packets ≡ [] }
        ensures brought { (before : List (List ℤ))
            → IsReceiving R.giving (R.stands self.old.receiver.value) self.old.tally before
            → bytes_of (R.giving.all before) ≡ bytes_of (R.giving.so_far before) ++ self.new.packets }
        ensures tally { (before : List (List ℤ))
            → IsReceiving R.giving (R.stands self.old.receiver.value) self.old.tally before
            → self.new.tally ≡ tally_of before (R.giving.all before) }
    {
        self.receiver.finish(&mut self.batch);
        self.tally.add(self.batch.packets.as_slice());
        gather(self.batch.packets.as_slice(), &mut self.packets);
    }
}

impl<R: SegmentReceiver> Step for Reception<R> {
    ghost use Rattle.std.specs.Prelude.{◌≤◌, ◌+◌, ◌*◌, length};
    ghost use Rattle.dtx_engine.specs.Made.{only};
    ghost use Rattle.dtx_recipes.specs.Giving.{receiving_by};
    ghost use Rattle.dtx_recipes.proofs.GivingLemmas.{receives_none, receives_more};
    ghost use Rattle.dtx_jobs.specs.Reception.{WasGiven};
    ghost use Rattle.dtx_jobs.specs.declared.reception.TheConstants.{RECEIVED_BYTES};
    ghost use Rattle.dtx_sizes.specs.declared.fields.TheConstants.{GROUP_PACKETS};
    ghost use Rattle.dtx_sizes.specs.declared.packets.TheConstants.{PACKET};
    ghost use Rattle.dtx_forms.specs.Shapes as shapes;

    ghost shape = { shapes.segments };

    ghost recipe = { λ _. receiving_by R.giving };

    ghost stands = { λ s. WasGiven R.giving (R.stands s.receiver.value) s.tally };

    ghost holds = { λ s. only s.packets };

    ghost is_ready = { λ s _ count. length s.packets + PACKET * GROUP_PACKETS * count ≤ RECEIVED_BYTES };

    fn sizes(&self) -> Shape {
        segments()
    }

    fn allows(&self, _index: u64, _unit: &[u8]) -> bool {
        true
    }

    fn clear(&mut self) {
        self.packets.clear();
    }

    fn step(&mut self, _first: u64, bytes: &mut [u8]) -> usize {
        let (segments, _) = bytes.as_chunks::<SEGMENT>();
        self.take_some(segments)
    }

    fn finish(&mut self, loose: usize) -> Outcome {
        self.end();
        if self.tally.runs == 0 {
            ended(Status::NoSync)
        } else {
            done(&self.tally.numbers(loose))
        }
    }

    fn made(&self) -> &[u8] {
        self.packets.bytes()
    }

    fn log(&self) -> &[u8] {
        &[]
    }

    ghost starts = { λ _. receives_none R.giving R.gives };

    ghost grows = { λ _ a b whole. receives_more R.giving R.gives a b whole };
}

impl<R: Receiving> Stepping for Reception<R> {
    ghost use Rattle.dtx_recipes.specs.Giving.{receiving_by};

    ghost command = { R.command };

    ghost makes = { receiving_by R.giving };

    fn new(alloc: Global) -> Result<Reception<R>, AllocError> {
        Reception::new(alloc)
    }

    ghost knows = { R.knows };
}

/// Appends the bytes of the packets in `brought` to `packets`.
fn gather(brought: &[Received], packets: &mut Buffer<RECEIVED_BYTES>)
    requires { length packets.old + PACKET * length brought.now ≤ RECEIVED_BYTES }
    ensures bytes { packets.new ≡ packets.old ++ bytes_of brought.now }
    ensures long { length packets.new ≡ length packets.old + PACKET * length brought.now }
{
    for i in 0..brought.len() {
        packets.push(&brought[i].packet.0);
    }
}
