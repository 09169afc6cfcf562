//! The trait of the decoders of runs.

ghost use Rattle.std.specs.Prelude.{◌≡◌, ℤ, ◌+◌, ◌*◌, ◌%◌, ◌≤◌, ◌<◌, ◌++◌, ◌∷◌, [], List, length};
ghost use Rattle.dtx_receiver.specs.Receiver.{IsDecoder};
ghost use Rattle.dtx_receiver.specs.Bytes.{symbols_in};
ghost use Rattle.dtx_receiver.specs.declared.batch.Received.{Received};

use crate::batch::{Batch, HELD_GROUPS};
use dtx_sizes::{FIELD_PACKETS, GROUP_PACKETS, SEGMENT};
use std::alloc::{AllocError, Global};

/// Decodes runs: from the segments of a run to packets. Decoders differ in how a gathered word becomes a packet.
pub trait RunDecoder: Drop {
    /// The relation of a value and a run: the value holds what the segments of the run leave.
    ghost decodes: { Self → List (List ℤ) → Type 0 };

    /// The packets of a run.
    ghost whole: { List (List ℤ) → List Received };

    /// The packets of a run that are given while the run is on.
    ghost early: { List (List ℤ) → List Received };

    /// The packets of a list of segments that are given before the list ends.
    ghost given: { List (List ℤ) → List Received };

    /// All packets of a list of segments.
    ghost all: { List (List ℤ) → List Received };

    /// A decoder that has begun no run. The only error is out of memory.
    fn new(alloc: Global) -> Result<Self, AllocError>;

    /// Gives proofs a fact, and does nothing when it runs. The packets of a list are those of its runs. A later field
    /// sync of a run changes nothing, and brings no packet.
    fn known(&self)
        ensures { IsDecoder decodes whole early given all };

    /// Begins a run with this field sync.
    fn begin(&mut self, sync: &[i8; SEGMENT])
        ensures { decodes self.new (sync.now ∷ []) };

    /// Takes the next data segment of the run, and puts the packets that it completes in the batch. `place` is the
    /// segment's place among the 312 of its field, from 0.
    fn take(&mut self, place: u16, segment: &[i8; SEGMENT], batch: &mut Batch)
        requires place { place < FIELD_PACKETS }
        requires none { batch.old.packets.items ≡ [] }
        ensures stands { (run : List (List ℤ)) → decodes self.old run → length run % 313 ≡ place + 1
            → decodes self.new (run ++ segment.now ∷ []) }
        ensures packets { (run : List (List ℤ)) → decodes self.old run → length run % 313 ≡ place + 1
            → early (run ++ segment.now ∷ []) ≡ early run ++ batch.new.packets.items }
        ensures few { length batch.new.packets.items ≤ GROUP_PACKETS };

    /// Takes the next data segments of the run, given as the bytes of their symbols, and puts the packets that they
    /// complete in the batch. `place` is the first one's place in its field. All their whole groups go through the
    /// de-interleaver together.
    fn take_all(&mut self, place: u16, segments: &[[u8; SEGMENT]], batch: &mut Batch)
        requires place { place + length segments.now ≤ FIELD_PACKETS }
        requires most { length segments.now ≤ GROUP_PACKETS * HELD_GROUPS }
        requires some { 0 < length segments.now }
        requires none { batch.old.packets.items ≡ [] }
        ensures stands { (run : List (List ℤ)) → decodes self.old run → length run % 313 ≡ place + 1
            → decodes self.new (run ++ symbols_in segments.now) }
        ensures packets { (run : List (List ℤ)) → decodes self.old run → length run % 313 ≡ place + 1
            → early (run ++ symbols_in segments.now) ≡ early run ++ batch.new.packets.items }
        ensures few { length batch.new.packets.items ≤ length segments.now + 3 };

    /// Ends the run, and puts the packet that is left in the batch, if there is one.
    fn end(&mut self, batch: &mut Batch)
        requires none { batch.old.packets.items ≡ [] }
        ensures packets { (run : List (List ℤ)) → decodes self.old run
            → whole run ≡ early run ++ batch.new.packets.items }
        ensures few { length batch.new.packets.items ≤ 1 };
}
