// Watches a feed.
ghost use Rattle.std.specs.Prelude.{◌≡◌, ◌+◌, ◌-◌, ◌<◌, ◌≤◌, ◌%◌, ◌++◌, ◌∷◌, [], ℕ, List, Some, None, IfOk, length};
ghost use Rattle.std.specs.Prelude.{option_map};
ghost use Rattle.std.specs.Prelude.{slice_index_or};
ghost use Rattle.dtx_ops.specs.Reading as ops;
ghost use Rattle.dtx_ops.specs.Spelling.{IsValid};
ghost use Rattle.dtx_exciter.specs.Order.{either, ordered};
ghost use Rattle.dtx_exciter.specs.Packets.{reads};
ghost use Rattle.dtx_exciter.specs.Step.{bytes_of};
ghost use Rattle.dtx_watch.specs.Clock.{stamp_in};
ghost use Rattle.dtx_watch.specs.Notes.{packet_note, one_or_none};
ghost use Rattle.dtx_watch.specs.declared.telling.Expected.TheVariants.{Early};
ghost use Rattle.dtx_watch.specs.Watch.{waiting};
ghost use Rattle.dtx_watch.specs.Step.{group_at_hand, order_of, earliest, stamped_in, notes_in, lock_notes};
ghost use Rattle.dtx_watch.specs.Step.{expected_of, IsEnded, IsSame};
ghost use Rattle.dtx_watch.specs.Kept.{StandsFor, KeepsUnder, HasRoom, WasGiven, IsTaken, Joins};

use crate::notes::{MOST_NOTES, Note, NoteKind};
use crate::stamped::{Stamped, stamp_in};
use crate::telling::{
    Expected, first_of, is_first_group, is_ordered, packet_note, preset_of, push_some,
};
use arrayvec::ArrayVec;
use dtx_cadence::{Anchor, Seen};
use dtx_coder::{Air, Coder};
use dtx_exciter::{is_flushed, ordered};
use dtx_fast::Fast;
use dtx_ops::{Ops, OpsNo, read};
use dtx_packets::Packet;
use dtx_sizes::{FIELD_PACKETS, GROUP_PACKETS, MOST_PACKETS, PACKET};
use dtx_trellis::States;
use std::alloc::{AllocError, Global};

/// Watches a feed, from any place of it on, or any other packets (the profile's own). It notes whether each operations
/// packet reads and stands at its place. It notes whether the packet's states are those that the coders have there from
/// the latest earlier order on. It notes whether the packet's stamp goes on from that of the operations packet before
/// it.
#[derive(Drop)]
pub struct Watcher {
    corrector: Fast<184, 164>,
    anchor: Anchor,
    /// How many packets were given.
    count: u64,
    /// The place in its frame of the first packet of the group at hand, and how many of its packets were given.
    first: u16,
    part: usize,
    /// Whether 52 or more packets stand under the anchor.
    flushed: bool,
    /// Whether a group under the anchor is an order.
    ordered: bool,
    /// The latest operations packet at its place under the anchor.
    latest: Option<Stamped>,
    packets: [Packet; GROUP_PACKETS],
    coder: Coder,
    air: Air,
}

impl Watcher {
    /// A watcher that was given no packet. The only error is out of memory.
    pub fn new(alloc: Global) -> Result<Watcher, AllocError>
        ensures { IfOk result (λ watcher. StandsFor watcher []) }
    {
        Ok(Watcher {
            corrector: Fast::new(),
            anchor: Anchor::new(),
            count: 0,
            first: 0,
            part: 0,
            flushed: false,
            ordered: false,
            latest: None,
            packets: [Packet([0; PACKET]); GROUP_PACKETS],
            coder: Coder::new(alloc)?,
            air: Air::new(),
        })
    }

    /// Takes one packet, of any bytes, and sets `notes` to the notes that it gives. Under an anchor a group's last
    /// packet gives the notes on all four, and the other three give none: a packet's states are judged only once its
    /// group is whole. Without an anchor each packet gives its own notes.
    pub fn take(&mut self, packet: &Packet, notes: &mut ArrayVec<Note, MOST_NOTES>)
        requires room { HasRoom self.old }
        ensures { (before : List (List ℕ)) → StandsFor self.old before
            → IsTaken before packet.now.0 self.new notes.new.items }
    {
        notes.clear();
        let number = self.count;
        self.count += 1;
        match self.anchor.see(packet.sync()) {
            Seen::Free => self.tell_free(number, packet, notes),
            Seen::Lost => {
                notes.push(Note {
                    packet: number,
                    what: NoteKind::Lost,
                });
                self.tell_free(number, packet, notes);
            }
            Seen::Start => self.begin(packet),
            Seen::At(place) => self.join(place, packet, notes),
        }
    }

    /// Sets `notes` to the notes on the packets of a group that isn't whole. It is called when no more packets come.
    pub fn finish(&mut self, notes: &mut ArrayVec<Note, MOST_NOTES>)
        requires given { WasGiven self.old }
        ensures { (before : List (List ℕ)) → StandsFor self.old before
            → notes.new.items ≡ waiting before }
    {
        notes.clear();
        if self.part > 0 {
            self.tell_group(&Expected::Early, notes);
        }
    }

    /// Adds the note on a packet without an anchor.
    fn tell_free(&self, number: u64, packet: &Packet, notes: &mut ArrayVec<Note, MOST_NOTES>)
        requires { length notes.old.items < MOST_NOTES }
        ensures { notes.new.items ≡ notes.old.items ++ one_or_none (packet_note number None Early None
            (ops.reading packet.now.0)) }
    {
        let reading = read(&self.corrector, packet);
        let note = packet_note(number, None, &Expected::Early, None, &reading);
        push_some(note, notes);
    }

    /// Starts anew with this packet as the anchor.
    fn begin(&mut self, packet: &Packet)
        ensures keeps { KeepsUnder self.new (packet.now.0 ∷ []) }
        ensures part { self.new.part ≡ 1 }
        ensures same { IsSame self.old self.new }
    {
        self.coder.known();
        self.coder.align();
        self.packets[0] = *packet;
        self.first = 0;
        self.part = 1;
        self.flushed = false;
        self.ordered = false;
        self.latest = None;
    }

    /// Adds the packet at this place of its frame. The last packet of a group ends the group.
    fn join(&mut self, place: u16, packet: &Packet, notes: &mut ArrayVec<Note, MOST_NOTES>)
        requires place { place < 624 }
        requires notes { notes.old.items ≡ [] }
        requires count { self.old.count ≤ MOST_PACKETS }
        ensures joined { Joins place packet.now.0 self.old self.new notes.new.items }
        ensures same { IsSame self.old self.new }
    {
        let part = place as usize % GROUP_PACKETS;
        self.packets[part] = *packet;
        self.first = place - part as u16;
        self.part = part + 1;
        if part != 3 {
            return;
        }
        self.end_group(notes);
        self.part = 0;
        self.flushed = is_flushed(self.flushed, place);
    }

    /// Ends the whole group at hand: adds the notes on it, and codes it.
    fn end_group(&mut self, notes: &mut ArrayVec<Note, MOST_NOTES>)
        requires place { self.old.first < 624 }
        requires whole { self.old.first % 4 ≡ 0 }
        requires part { self.old.part ≡ 4 }
        requires notes { notes.old.items ≡ [] }
        requires count { self.old.count ≤ MOST_PACKETS }
        ensures { IsEnded self.old self.new notes.new.items }
    {
        let expected = self.expected();
        let states = self.tell_group(&expected, notes);
        let preset = preset_of(self.flushed, states);
        self.ordered = is_ordered(self.ordered, &preset);
        self.coder.group(
            self.first % FIELD_PACKETS,
            self.first >= FIELD_PACKETS,
            &self.packets,
            preset,
            false,
            &mut self.air,
        );
    }

    /// What the states of the group at hand are compared with, if the group is whole.
    fn expected(&self) -> Expected
        ensures { result ≡ expected_of self.now }
    {
        if !self.flushed {
            Expected::Early
        } else if !self.ordered {
            Expected::First
        } else {
            Expected::These(self.coder.states())
        }
    }

    /// Adds the notes on the packets of the group at hand. Answers the states of the first of them that reads and whose
    /// index is its place.
    fn tell_group(
        &mut self,
        expected: &Expected,
        notes: &mut ArrayVec<Note, MOST_NOTES>,
    ) -> Option<States>
        requires place { self.old.first < 624 }
        requires part { self.old.part ≤ 4 }
        requires notes { notes.old.items ≡ [] }
        requires count { self.old.count ≤ MOST_PACKETS }
        ensures told { notes.new.items ≡ lock_notes self.old ++ notes_in (group_at_hand self.old expected.now)
            self.old.part }
        ensures latest { self.new ≡ record self.old {
          latest = stamped_in (group_at_hand self.old expected.now)
              self.old.part;
        } }
        ensures order { result ≡ option_map (λ o. o.states) (earliest (order_of (group_at_hand self.old expected.now))
            self.old.part) }
    {
        self.tell_lock(notes);
        let mut order = None;
        for m in 0..self.part {
            let states = self.tell(m, expected, notes);
            order = first_of(order, states);
        }
        order
    }

    /// Adds the note that the first packet of the group at hand is an anchor, if the group is the first under one.
    fn tell_lock(&self, notes: &mut ArrayVec<Note, MOST_NOTES>)
        requires { length notes.old.items < MOST_NOTES }
        ensures { notes.new.items ≡ notes.old.items ++ lock_notes self.now }
    {
        if is_first_group(self.first, self.flushed) {
            notes.push(Note {
                packet: self.count.saturating_sub(self.part as u64),
                what: NoteKind::Lock,
            });
        }
    }

    /// Adds the note on packet `m` of the group at hand. Answers its states if it reads and its index is its place.
    fn tell(
        &mut self,
        m: usize,
        expected: &Expected,
        notes: &mut ArrayVec<Note, MOST_NOTES>,
    ) -> Option<States>
        requires place { self.old.first < 624 }
        requires packet { m < 4 }
        requires count { self.old.count ≤ MOST_PACKETS }
        requires room { length notes.old.items < MOST_NOTES }
        ensures told { notes.new.items ≡ notes.old.items ++ one_or_none (packet_note (self.old.count - self.old.part +
            m)
            (Some (self.old.first + m)) expected.now self.old.latest
            (ops.reading (slice_index_or (bytes_of self.old.packets) m []))) }
        ensures latest { self.new ≡ record self.old {
          latest = either (option_map stamp_in
              (ordered (self.old.first + m) (reads (slice_index_or (bytes_of self.old.packets) m [])))) self.old.latest;
        } }
        ensures order { result ≡ option_map (λ o. o.states) (ordered (self.old.first + m) (reads (slice_index_or
            (bytes_of self.old.packets) m []))) }
    {
        let place = self.first + m as u16;
        let number = self.count.saturating_sub(self.part as u64) + m as u64;
        let reading = self.reading(m);
        let note = packet_note(number, Some(place), expected, self.latest, &reading);
        push_some(note, notes);
        match ordered(place, reading) {
            Some(ops) => {
                self.latest = Some(stamp_in(&ops));
                Some(ops.states)
            }
            None => None,
        }
    }

    /// What packet `m` of the group at hand reads as.
    fn reading(&self, m: usize) -> Result<Ops, OpsNo>
        requires { m < 4 }
        ensures reading { result ≡ ops.reading (slice_index_or (bytes_of self.now.packets) m []) }
        ensures valid { IfOk result IsValid }
    {
        read(&self.corrector, &self.packets[m])
    }
}
