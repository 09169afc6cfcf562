//! From a run's data segments to the bytes of its groups. Whole groups are held, and then passed on together.

ghost use Rattle.std.specs.Prelude.{◌≡◌, ℕ, ℤ, ◌+◌, ◌-◌, ◌*◌, ◌/◌, ◌%◌, ◌<◌, ◌≤◌, ◌++◌, ◌∷◌, [], List, length, take};
ghost use Rattle.std.specs.Prelude.{EachIndex, slice_index};
ghost use Rattle.std.specs.List.{flat_map};
ghost use Rattle.dtx_outer.specs.Inner.{StandsFor};
ghost use Rattle.dtx_slice.specs.Unrolled.{bytes_back, precoder_bits_after};
ghost use Rattle.dtx_whiten.specs.Randomizer.{randomizer_bytes};
ghost use Rattle.dtx_receiver.specs.Packets.{early_of};
ghost use Rattle.dtx_receiver.specs.Receiver.{AreGrouped};
ghost use Rattle.dtx_receiver.specs.Bytes.{symbols_in};
ghost use Rattle.dtx_receiver.specs.declared.batch.Received.{Received};

use crate::batch::{Batch, HELD_GROUPS};
use crate::outer_decoding::{OuterDecoding, give_groups};
use crate::symbols::to_symbols;
use dtx_sizes::{
    BRANCH_STEP, BRANCHES, CODEWORD, FIELD_PACKETS, GROUP_BYTES, GROUP_LEVELS, GROUP_PACKETS,
    PACKET_DATA, SEGMENT,
};
use dtx_slice::{Unroll, last_levels, put_levels};
use std::marker::Model;

/// How many data segments a group has: one for each packet.
const GROUP_SEGMENTS: u16 = GROUP_PACKETS as u16;

/// Collects the data segments of a run in groups of four, and decodes the levels of each whole group to bytes.
/// `AreGrouped groups run given` says that the value is as the segments of the run leave it. There `given` are the
/// bytes that were passed on.
#[derive(Drop)]
pub struct Groups {
    levels: [u8; GROUP_LEVELS],
    unroll: Unroll,
    /// The bytes of the groups that are held. The bytes after those are unspecified.
    bytes: [[u8; GROUP_BYTES]; HELD_GROUPS],
    held: usize,
}

impl Model for Groups {
    ghost use Rattle.std.specs.Prelude.{◌≤◌, ◌<◌, EachIndex, slice_index, take};
    ghost use Rattle.dtx_receiver.specs.Receiver.{Grouping};

    ghost Value = { Grouping };

    ghost view = { λ g. record { levels = g.levels; precoder_bits = g.unroll; held = take g.held g.bytes } };

    ghost invariant = { λ g. EachIndex g.levels (λ d. slice_index g.levels d < 8) × (g.held ≤ 13) };
}

impl Groups {
    /// A value that holds no group. `begin` comes before the first `take`.
    pub fn new() -> Groups
        ensures { result.held ≡ [] }
    {
        Groups {
            levels: [0; GROUP_LEVELS],
            unroll: Unroll::new(),
            bytes: [[0; GROUP_BYTES]; HELD_GROUPS],
            held: 0,
        }
    }

    /// Begins a run with this field sync.
    pub fn begin(&mut self, sync: &[i8; SEGMENT])
        ensures grouped { AreGrouped self.new (sync.now ∷ []) [] }
        ensures held { self.new.held ≡ [] }
    {
        self.unroll.start(&last_levels(sync));
        self.held = 0;
    }

    /// Takes the next data segments of the run, as the bytes of their symbols. The first stands at place `place` of its
    /// field.
    pub fn take_all(&mut self, place: u16, segments: &[[u8; SEGMENT]])
        requires place { place + length segments.now ≤ FIELD_PACKETS }
        requires most { length segments.now ≤ GROUP_PACKETS * HELD_GROUPS }
        requires none { self.old.held ≡ [] }
        ensures grouped { (run : List (List ℤ)) (given : List ℕ) → AreGrouped self.old run given
            → length run % 313 ≡ place + 1 → AreGrouped self.new (run ++ symbols_in segments.now) given }
        ensures held { length self.new.held ≡ (place % 4 + length segments.now) / 4 }
    {
        let mut symbols = [0; SEGMENT];
        for i in 0..segments.len() {
            to_symbols(&segments[i], &mut symbols);
            self.take(place + i as u16, &symbols);
        }
    }

    /// Takes the next data segment of the run, at place `place` of its field.
    pub fn take(&mut self, place: u16, segment: &[i8; SEGMENT])
        requires place { place < FIELD_PACKETS }
        requires room { place % 4 ≡ 3 → length self.old.held < HELD_GROUPS }
        ensures grouped { (run : List (List ℤ)) (given : List ℕ) → AreGrouped self.old run given
            → length run % 313 ≡ place + 1 → AreGrouped self.new (run ++ segment.now ∷ []) given }
        ensures held { length self.new.held ≡ length self.old.held + (place % 4 + 1) / 4 }
        ensures bits { place % 4 ≡ 3 → self.new.precoder_bits ≡ precoder_bits_after (place - place % 4)
            self.old.precoder_bits self.new.levels }
    {
        let part = place % GROUP_SEGMENTS;
        put_levels(segment, part as usize, &mut self.levels);
        if part + 1 == GROUP_SEGMENTS {
            write_group(
                &mut self.unroll,
                place - part,
                &self.levels,
                &mut self.bytes,
                self.held,
            );
            self.held += 1;
        }
    }

    /// The 3,312 levels of the last whole group. The segments of the group under way have overwritten the first ones.
    pub fn levels(&self) -> &[u8; GROUP_LEVELS]
        ensures { result.now ≡ self.now.levels }
    {
        &self.levels
    }

    /// Copies the bytes of the held groups to the front of `out`, and returns the number of these groups. Then none is
    /// held.
    pub fn put(&mut self, out: &mut [u8]) -> usize
        requires room { length out.old ≡ GROUP_BYTES * HELD_GROUPS }
        ensures count { result ≡ length self.old.held }
        ensures most { result ≤ HELD_GROUPS }
        ensures groups { self.new ≡ record self.old { held = [] } }
        ensures bytes { take (GROUP_BYTES * result) out.new ≡ flat_map (λ bytes. bytes) self.old.held }
        ensures long { length (flat_map (λ bytes. bytes) self.old.held) ≡ GROUP_BYTES * result }
    {
        let groups = self.held;
        self.held = 0;
        out[..GROUP_BYTES * groups].copy_from_slice(self.bytes[..groups].as_flattened());
        groups
    }

    /// Passes the bytes of the held groups to the outer decoding, and adds the packets that they complete to the batch.
    /// It returns the number of these groups. Then none is held.
    pub(crate) fn give(&mut self, inner: &mut OuterDecoding, batch: &mut Batch) -> usize
        requires white { inner.old.white ≡ randomizer_bytes }
        requires none { batch.old.packets.items ≡ [] }
        ensures count { result ≡ length self.old.held }
        ensures most { result ≤ HELD_GROUPS }
        ensures groups { self.new ≡ record self.old { held = [] } }
        ensures white { inner.new.white ≡ randomizer_bytes }
        ensures stands { (before : List ℕ) → StandsFor CODEWORD PACKET_DATA BRANCHES BRANCH_STEP inner.old before
            → StandsFor CODEWORD PACKET_DATA BRANCHES BRANCH_STEP inner.new
            (before ++ flat_map (λ bytes. bytes) self.old.held) }
        ensures packets { (before : List ℕ) (given : List Received)
            → StandsFor CODEWORD PACKET_DATA BRANCHES BRANCH_STEP inner.old before
            → early_of before ≡ given ++ batch.old.packets.items
            → early_of (before ++ flat_map (λ bytes. bytes) self.old.held) ≡ given ++ batch.new.packets.items }
        ensures few { length batch.new.packets.items ≤ GROUP_PACKETS * result }
    {
        let count = self.held;
        self.held = 0;
        give_groups(inner, self.bytes[..count].as_flattened_mut(), batch);
        count
    }
}

/// Writes the bytes of a group to `groups`, at index `at`. The group begins at place `first` of its field.
fn write_group(
    unroll: &mut Unroll,
    first: u16,
    levels: &[u8; GROUP_LEVELS],
    groups: &mut [[u8; GROUP_BYTES]; HELD_GROUPS],
    at: usize,
)
    requires in_field { first < FIELD_PACKETS }
    requires whole { first % GROUP_PACKETS ≡ 0 }
    requires small { EachIndex levels.now (λ d. slice_index levels.now d < 8) }
    requires room { at < HELD_GROUPS }
    ensures groups { take (at + 1) groups.new ≡ take at groups.old ++ bytes_back first unroll.old levels.now ∷ [] }
    ensures long { length (bytes_back first unroll.old levels.now) ≡ GROUP_BYTES }
    ensures precoder_bits { unroll.new ≡ precoder_bits_after first unroll.old levels.now }
{
    unroll.group(first, levels, &mut groups[at]);
}
