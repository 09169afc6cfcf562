//! Receives one segment after another.

ghost use Rattle.std.specs.Prelude.{◌≡◌, ℤ, ◌+◌, ◌*◌, ◌%◌, ◌<◌, ◌≤◌, ◌++◌, ◌∷◌, [], List, IfOk, Some, length, take};
ghost use Rattle.dtx_receiver.specs.Receiver.{Stands, AreReceived, IsFollowed};
ghost use Rattle.dtx_receiver.specs.Runs.{runs, tracking};
ghost use Rattle.dtx_receiver.specs.Bytes.{symbols_in, symbols_of};

use crate::batch::{Batch, MOST_RECEIVED};
use crate::progress::{Progress, begun};
use crate::run_decoder::RunDecoder;
use crate::symbols::to_symbols;
use crate::tracking::Tracking;
use dtx_frame::looks;
use dtx_sizes::{FIELD_SEGMENTS, GROUP_PACKETS, SEGMENT};
use std::alloc::{AllocError, Global};
use std::marker::Model;

/// Receives segments one after another, and gives their transport packets. The receiver finds the runs, and the decoder
/// decodes them. `Stands D.decodes receiver segments` says that the receiver holds what these segments leave. Segments
/// may hold any signed bytes, and there may be any number of them.
#[derive(Drop)]
pub struct RunReceiver<D: RunDecoder> {
    place: Option<u16>,
    decoder: D,
}

impl<D: RunDecoder> Model for RunReceiver<D> {
    ghost use Rattle.std.specs.Prelude.{◌<◌, IfSome};
    ghost use Rattle.dtx_receiver.specs.Receiver.{Kept};

    ghost Value = { Kept D };

    ghost view = { λ r. record { place = r.place; decoding = r.decoder } };

    ghost invariant = { λ r. IfSome r.place (λ place. place < 313) };
}

impl<D: RunDecoder> RunReceiver<D> {
    /// A receiver to which no segment was given. The only error is out of memory.
    pub fn new(alloc: Global) -> Result<Self, AllocError>
        ensures { IfOk result (λ receiver. Stands D.decodes receiver []) }
    {
        Ok(RunReceiver {
            place: None,
            decoder: D::new(alloc)?,
        })
    }

    /// Receives the next segment, and returns what it is. The packets that become whole with it replace what the batch
    /// held. A packet comes once 53 data segments or more stand in whole groups of four, counted from the packet's own
    /// segment. A packet that is whole with fewer comes with the segment that ends the run, or with `finish`. No call
    /// takes memory.
    pub fn take(&mut self, segment: &[i8; SEGMENT], batch: &mut Batch) -> Tracking
        ensures answer { (segments : List (List ℤ)) → Stands D.decodes self.old segments
            → result ≡ tracking segments segment.now }
        ensures stands { (segments : List (List ℤ)) → Stands D.decodes self.old segments
            → Stands D.decodes self.new (segments ++ segment.now ∷ []) }
        ensures packets { (segments : List (List ℤ)) → Stands D.decodes self.old segments
            → D.given (segments ++ segment.now ∷ []) ≡ D.given segments ++ batch.new.packets.items }
        ensures few { length batch.new.packets.items ≤ GROUP_PACKETS }
    {
        batch.packets.clear();
        self.follow(segment, batch)
    }

    /// Receives one or more of `segments`, from the first on. It returns how many it took, and how many runs began with
    /// them. Each segment is given as the bytes of its symbols. The packets that become whole replace what the batch
    /// held. They are those that `take` gives for these segments, one after another. Data segments are taken together,
    /// up to the next place where a field sync is due, and 52 at most. Any other segment is taken alone, one that
    /// begins a run among them. No call takes memory.
    pub fn take_some(&mut self, segments: &[[u8; SEGMENT]], batch: &mut Batch) -> Progress
        requires { 0 < length segments.now }
        ensures some { 0 < result.segments }
        ensures within { result.segments ≤ length segments.now }
        ensures stands { (before : List (List ℤ)) → Stands D.decodes self.old before
            → Stands D.decodes self.new (before ++ symbols_in (take result.segments segments.now)) }
        ensures packets { (before : List (List ℤ)) → Stands D.decodes self.old before
            → D.given (before ++ symbols_in (take result.segments segments.now))
            ≡ D.given before ++ batch.new.packets.items }
        ensures runs { (before : List (List ℤ)) → Stands D.decodes self.old before
            → length (runs (before ++ symbols_in (take result.segments segments.now)))
            ≡ length (runs before) + result.runs }
        ensures few { length batch.new.packets.items ≤ GROUP_PACKETS * result.segments }
        ensures few_runs { result.runs ≤ result.segments }
        ensures alone { 0 < result.runs → result.segments ≡ 1 }
    {
        batch.packets.clear();
        let place = self.place.unwrap_or(0);
        if place > 0 {
            return self.take_data(place, segments, batch);
        }
        self.take_one(&segments[0], batch)
    }

    /// Receives the next data segments, of which at least one is due. The batch is empty before.
    fn take_data(&mut self, place: u16, segments: &[[u8; SEGMENT]], batch: &mut Batch) -> Progress
        requires place { self.old.place ≡ Some place }
        requires due { 0 < place }
        requires within { place < FIELD_SEGMENTS }
        requires some { 0 < length segments.now }
        requires none { batch.old.packets.items ≡ [] }
        ensures some { 0 < result.segments }
        ensures within { result.segments ≤ length segments.now }
        ensures received { (before : List (List ℤ)) → Stands D.decodes self.old before
            → AreReceived (Stands D.decodes self.new) D.given before
            (symbols_in (take result.segments segments.now)) result.runs batch.new.packets.items }
        ensures few { length batch.new.packets.items ≤ GROUP_PACKETS * result.segments }
        ensures no_run { result.runs ≡ 0 }
    {
        let due = (FIELD_SEGMENTS - place) as usize;
        let count = segments.len().min(due).min(MOST_RECEIVED);
        self.decoder.known();
        self.decoder.take_all(place - 1, &segments[..count], batch);
        self.place = Some((place + count as u16) % FIELD_SEGMENTS);
        Progress {
            segments: count,
            runs: 0,
        }
    }

    /// Receives the next segment, given as the bytes of its symbols. The batch is empty before.
    fn take_one(&mut self, bytes: &[u8; SEGMENT], batch: &mut Batch) -> Progress
        requires { batch.old.packets.items ≡ [] }
        ensures one { result.segments ≡ 1 }
        ensures received { (before : List (List ℤ)) → Stands D.decodes self.old before
            → AreReceived (Stands D.decodes self.new) D.given before (symbols_of bytes.now ∷ []) result.runs
            batch.new.packets.items }
        ensures few { length batch.new.packets.items ≤ GROUP_PACKETS }
        ensures few_runs { result.runs ≤ 1 }
    {
        let mut segment = [0; SEGMENT];
        to_symbols(bytes, &mut segment);
        let tracking = self.follow(&segment, batch);
        Progress {
            segments: 1,
            runs: begun(tracking),
        }
    }

    /// Receives the next segment, given as its symbols. The batch is empty before.
    fn follow(&mut self, segment: &[i8; SEGMENT], batch: &mut Batch) -> Tracking
        requires { batch.old.packets.items ≡ [] }
        ensures taken { (segments : List (List ℤ)) → Stands D.decodes self.old segments
            → IsFollowed (Stands D.decodes self.new) D.given segments segment.now result batch.new.packets.items }
        ensures few { length batch.new.packets.items ≤ GROUP_PACKETS }
    {
        self.decoder.known();
        match self.place {
            None => {
                if looks(segment) {
                    self.decoder.begin(segment);
                    self.place = Some(1);
                    return Tracking::Began;
                }
                Tracking::Searching
            }
            Some(place) => {
                if place > 0 {
                    self.decoder.take(place - 1, segment, batch);
                    self.place = Some((place + 1) % FIELD_SEGMENTS);
                    return Tracking::Data;
                }
                if looks(segment) {
                    self.place = Some(1);
                    return Tracking::Sync;
                }
                self.decoder.end(batch);
                self.place = None;
                Tracking::Ended
            }
        }
    }

    /// Ends the run that is on, if there is one. The packets that are left replace what the batch held. The receiver
    /// then takes the next segment as the first of a list.
    pub fn finish(&mut self, batch: &mut Batch)
        ensures stands { Stands D.decodes self.new [] }
        ensures packets { (segments : List (List ℤ)) → Stands D.decodes self.old segments
            → D.all segments ≡ D.given segments ++ batch.new.packets.items }
        ensures few { length batch.new.packets.items ≤ GROUP_PACKETS }
    {
        batch.packets.clear();
        self.decoder.known();
        match self.place {
            None => {}
            Some(_) => {
                self.decoder.end(batch);
                self.place = None;
            }
        }
    }
}
