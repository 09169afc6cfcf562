//! Receives a main transmitter's segments, and sends their packets again.

ghost use Rattle.std.specs.Prelude.{◌≡◌, ℕ, ℤ, ◌+◌, ◌*◌, ◌<◌, ◌≤◌, ◌++◌, ◌∷◌, [], List, IfOk, length, take};
ghost use Rattle.dtx_receiver.specs.Runs.{runs, tracking};
ghost use Rattle.dtx_receiver.specs.Bytes.{symbols_in};
ghost use Rattle.dtx_repeat.specs.Repeater.{StandsFor, IsSent, given_behind, given_with};
ghost use Rattle.dtx_repeat.specs.Restored.{all_restored, restored_so_far};

use crate::marks::{place_behind, place_behind_bytes, restore};
use dtx_coder::Air;
use dtx_exciter::{Exciter, Told};
use dtx_packets::Packet;
use dtx_receiver::{Batch, Progress, Receiver, Tracking, begun};
use dtx_sizes::{GROUP_PACKETS, SEGMENT};
use std::alloc::{AllocError, Global};

/// A repeater (the profile's own, over ATSC A/53 Part 2 and in the manner of ATSC A/110). It receives the packets of a
/// main transmitter's segments, restores the cadence marks that aren't sent, and drives an exciter. Segments and
/// packets come one after another, and may hold any bytes. `StandsFor address delay repeater segments given` says that
/// the repeater received these segments. It also says that its exciter was given these packets since it was new or
/// since the last run began.
#[derive(Drop)]
pub struct Repeater {
    receiver: Receiver,
    place: u16,
    exciter: Exciter,
}

impl Repeater {
    /// A new repeater of the transmitter `address`. The feed takes `delay` ticks of 100 ns to reach it. The only error
    /// is out of memory.
    pub fn new(alloc: Global, address: u16, delay: u32) -> Result<Repeater, AllocError>
        ensures { IfOk result (λ repeater. StandsFor address delay repeater [] []) }
    {
        Ok(Repeater {
            receiver: Receiver::new(alloc)?,
            place: 0,
            exciter: Exciter::new(alloc, address, delay)?,
        })
    }

    /// Receives the next segment, and answers what it is. The packets that become whole with it replace those of the
    /// batch. They are the packets that a `Receiver` gives, but each that begins a first field has the sync byte 0xB8.
    /// The first field sync of a run shows whether its first field is a first or a second one, and then the fields
    /// alternate. When a run begins, the exciter is reset. No call takes memory.
    pub fn take(&mut self, segment: &[i8; SEGMENT], batch: &mut Batch) -> Tracking
        ensures answer { (address delay : ℕ) (segments : List (List ℤ)) (given : List (List ℕ))
            → StandsFor address delay self.old segments given → result ≡ tracking segments segment.now }
        ensures stands { (address delay : ℕ) (segments : List (List ℤ)) (given : List (List ℕ))
            → StandsFor address delay self.old segments given
            → StandsFor address delay self.new (segments ++ segment.now ∷ []) (given_behind result given) }
        ensures packets { (address delay : ℕ) (segments : List (List ℤ)) (given : List (List ℕ))
            → StandsFor address delay self.old segments given
            → restored_so_far (segments ++ segment.now ∷ []) ≡ restored_so_far segments ++ batch.new.packets.items }
        ensures few { length batch.new.packets.items ≤ GROUP_PACKETS }
    {
        let tracking = self.receiver.take(segment, batch);
        if begun(tracking) > 0 {
            self.exciter.reset();
            self.place = place_behind(segment);
        } else {
            self.place = restore(self.place, batch.packets.as_mut_slice());
        }
        tracking
    }

    /// Receives one or more of `segments`, from the first on. It returns how many it took, and how many runs began with
    /// them. Each segment is given as the bytes of its symbols. Data segments are taken together, up to the next place
    /// where a field sync is due, and 52 at most. Any other segment is taken alone, one that begins a run among them.
    /// The packets that become whole replace those of the batch. They, and what is kept, are as `take` gives them for
    /// these segments, one after another. No call takes memory.
    pub fn take_some(&mut self, segments: &[[u8; SEGMENT]], batch: &mut Batch) -> Progress
        requires { 0 < length segments.now }
        ensures some { 0 < result.segments }
        ensures within { result.segments ≤ length segments.now }
        ensures alone { 0 < result.runs → result.segments ≡ 1 }
        ensures few_runs { result.runs ≤ 1 }
        ensures stands { (address delay : ℕ) (before : List (List ℤ)) (given : List (List ℕ))
            → StandsFor address delay self.old before given
            → StandsFor address delay self.new (before ++ symbols_in (take result.segments segments.now))
            (given_with result.runs given) }
        ensures packets { (address delay : ℕ) (before : List (List ℤ)) (given : List (List ℕ))
            → StandsFor address delay self.old before given
            → restored_so_far (before ++ symbols_in (take result.segments segments.now))
            ≡ restored_so_far before ++ batch.new.packets.items }
        ensures runs { (address delay : ℕ) (before : List (List ℤ)) (given : List (List ℕ))
            → StandsFor address delay self.old before given
            → length (runs (before ++ symbols_in (take result.segments segments.now)))
            ≡ length (runs before) + result.runs }
        ensures few { length batch.new.packets.items ≤ GROUP_PACKETS * result.segments }
    {
        let progress = self.receiver.take_some(segments, batch);
        if progress.runs > 0 {
            self.exciter.reset();
            self.place = place_behind_bytes(&segments[0]);
        } else {
            self.place = restore(self.place, batch.packets.as_mut_slice());
        }
        progress
    }

    /// Ends the present run, if any. The packets that are left replace those of the batch. The next segment is received
    /// as the first. The exciter stays as it is.
    pub fn finish(&mut self, batch: &mut Batch)
        ensures stands { (address delay : ℕ) (segments : List (List ℤ)) (given : List (List ℕ))
            → StandsFor address delay self.old segments given → StandsFor address delay self.new [] given }
        ensures packets { (address delay : ℕ) (segments : List (List ℤ)) (given : List (List ℕ))
            → StandsFor address delay self.old segments given
            → all_restored segments ≡ restored_so_far segments ++ batch.new.packets.items }
        ensures few { length batch.new.packets.items ≤ GROUP_PACKETS }
    {
        self.receiver.finish(batch);
        self.place = restore(self.place, batch.packets.as_mut_slice());
    }

    /// Gives the exciter one more packet, of any bytes, and answers as `Exciter::take` does. The answer is `Sent` at
    /// the last packet of a group that is sent, and `air` then holds the group's segments. After any other answer `air`
    /// holds no segment.
    pub fn send(&mut self, packet: &Packet, air: &mut Air) -> Told
        ensures { (address delay : ℕ) (segments : List (List ℤ)) (given : List (List ℕ))
            → StandsFor address delay self.old segments given
            → IsSent address delay segments (given ++ packet.now.0 ∷ []) self.new result air.new.segments
            air.new.symbols }
    {
        self.exciter.take(packet, air)
    }
}
