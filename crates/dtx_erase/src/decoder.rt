//! From the segments of a run, some of whose symbols are missing, to packets.

ghost use Rattle.std.specs.Prelude.{◌≡◌, ◌+◌, ◌*◌, ◌%◌, ◌<◌, ◌≤◌, ◌++◌, ◌∷◌, [], length, map};
ghost use Rattle.dtx_receiver.specs.Bytes.{symbols_of};
ghost use Rattle.dtx_erase.specs.Sides.{AreGiven, mended_word, word_of};

use crate::mark_side::MarkSide;
use crate::side::Side;
use crate::words::Words;
use dtx_receiver::{Batch, HELD_GROUPS, MOST_RECEIVED, RunDecoder, RunReceiver};
use dtx_sizes::{BRANCHES, FIELD_PACKETS, GROUP_PACKETS, PACKET_DATA, SEGMENT};
use std::alloc::{AllocError, Global};
use std::marker::Model;

/// How many groups at the start of a run give no packet. Packet 0 waits for data segment 52, which is in the group
/// behind these.
const WAITING: u8 = 13;

/// Receives segments, mends the words of their runs, and gives the transport packets. A symbol of value -128 is
/// missing: nothing was received there. A byte that rests on a missing symbol costs its word one parity byte, and a
/// wrong byte costs two. `Mends receiver segments` says that the receiver holds what these segments leave.
pub type MendReceiver = RunReceiver<MendDecoder>;

/// Decodes the segments of a run to packets, and mends its words. `Decodes decoder run` says that the decoder holds
/// what the segments of the run leave.
#[derive(Drop)]
pub struct MendDecoder {
    bytes: Box<Side>,
    marks: Box<MarkSide>,
    words: Box<Words>,
    waits: u8,
    place: u16,
}

impl Model for MendDecoder {
    ghost use Rattle.std.specs.Prelude.{◌<◌, ◌≡◌, []};
    ghost use Rattle.dtx_erase.specs.Sides.{Decoding};

    ghost Value = { Decoding };

    ghost view = { λ d. record {
      bytes = d.bytes.value;
      marks = d.marks.value;
      waits = d.waits;
      place = d.place;
    } };

    ghost invariant = { λ d. (d.place < 312) × (d.bytes.value.groups.held ≡ []) };
}

impl RunDecoder for MendDecoder {
    ghost use Rattle.dtx_erase.specs.Mended.{all_mended, mended_run, mended_run_early, mended_so_far};
    ghost use Rattle.dtx_erase.specs.Sides.{Decodes};

    ghost decodes = { Decodes };

    ghost whole = { mended_run };

    ghost early = { mended_run_early };

    ghost given = { mended_so_far };

    ghost all = { all_mended };

    fn new(alloc: Global) -> Result<MendDecoder, AllocError> {
        Ok(MendDecoder {
            bytes: Box::new(alloc, Side::new(alloc)?)?,
            marks: Box::new(alloc, MarkSide::new(alloc)?)?,
            words: Box::new(alloc, Words::new(alloc)?)?,
            waits: 0,
            place: 0,
        })
    }

    fn known(&self) {}

    fn begin(&mut self, sync: &[i8; SEGMENT]) {
        self.bytes.begin(sync);
        self.marks.begin(sync);
        self.waits = WAITING;
        self.place = 0;
    }

    fn take(&mut self, place: u16, segment: &[i8; SEGMENT], batch: &mut Batch) {
        self.take_all(place, &[as_bytes(segment)], batch);
    }

    fn take_all(&mut self, place: u16, segments: &[[u8; SEGMENT]], batch: &mut Batch) {
        self.marks.take_all(place, segments);
        let groups = self.bytes.take_all(place, segments);
        self.give_groups(groups, batch);
    }

    fn end(&mut self, batch: &mut Batch) {
        if self.waits == 0 && self.place % BRANCHES as u16 == 0 {
            let word = self.bytes.last_word();
            let flags = self.marks.last_word();
            self.words.give(self.place, &word, &flags, batch);
        }
    }
}

impl MendDecoder {
    /// Adds the packets of the last `groups` groups to the batch. Their words are gathered.
    fn give_groups(&mut self, groups: usize, batch: &mut Batch)
        requires most { groups ≤ HELD_GROUPS }
        requires place { self.old.place < FIELD_PACKETS }
        requires none { batch.old.packets.items ≡ [] }
        ensures given { AreGiven self.old self.new groups batch.new.packets.items }
        ensures few { length batch.new.packets.items ≤ GROUP_PACKETS * groups }
    {
        for group in 0..groups {
            self.give_group(group, batch);
        }
    }

    /// Adds the packets of one of these groups to the batch. The first 13 groups of a run give none.
    fn give_group(&mut self, group: usize, batch: &mut Batch)
        requires group { group < HELD_GROUPS }
        requires room { length batch.old.packets.items + 4 ≤ MOST_RECEIVED }
        ensures sides { (self.new.bytes ≡ self.old.bytes) × (self.new.marks ≡ self.old.marks) }
        ensures waiting { 0 < self.old.waits → (self.new.waits + 1 ≡ self.old.waits) × (self.new.place ≡ self.old.place)
            × (batch.new.packets.items ≡ batch.old.packets.items) }
        ensures given { self.old.waits ≡ 0 → (self.new.waits ≡ 0) × (self.new.place ≡ (self.old.place + 4) % 312)
            × (batch.new.packets.items ≡ batch.old.packets.items
            ++ map (λ p. mended_word (PACKET_DATA * ((self.old.place + p) % 312))
            (word_of self.old.bytes.gathered (4 * group + p)) (word_of self.old.marks.gathered (4 * group + p)))
            (0 ∷ 1 ∷ 2 ∷ 3 ∷ [])) }
        ensures few { length batch.new.packets.items ≤ length batch.old.packets.items + 4 }
    {
        if self.waits > 0 {
            self.waits -= 1;
        } else {
            let words = self.bytes.words(group);
            let flags = self.marks.words(group);
            self.words.give_four(self.place, &words, &flags, batch);
            self.place = (self.place + 4) % FIELD_PACKETS;
        }
    }
}

/// The bytes of a segment's symbols.
fn as_bytes(segment: &[i8; SEGMENT]) -> [u8; SEGMENT]
    ensures { symbols_of result ≡ segment.now }
{
    let mut bytes = [0; SEGMENT];
    for i in 0..SEGMENT {
        bytes[i] = segment[i].cast_unsigned();
    }
    bytes
}
