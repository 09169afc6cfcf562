//! The segments as which a group is sent.

ghost use Rattle.std.specs.Prelude.{◌≡◌, ◌+◌, ◌-◌, ◌*◌, ◌%◌, ◌<◌, ◌≤◌, [], ◌++◌, if◌then◌else◌, drop, length, take};
ghost use Rattle.dtx_trellis.specs.Groups.{levels_of, states_after};
ghost use Rattle.dtx_frame.specs.Segments.{field_sync};
ghost use Rattle.dtx_coder.specs.Stream.{four_segments, symbols_of};

use dtx_frame::put_segment_syncs;
use dtx_sizes::{FIELD_PACKETS, GROUP_BYTES, GROUP_PACKETS, GROUP_SYMBOLS, PRECODE, SEGMENT};
use dtx_trellis::Twelve;

/// How many segments a group has at most: a field sync and four data segments.
pub const AIR_SEGMENTS: u8 = 5;

/// How many symbols they have.
pub const AIR_SYMBOLS: usize = 4160;

/// The segments of a group, of 832 symbols each. The symbols after the last segment are unspecified.
#[derive(Drop)]
pub struct Air {
    /// How many segments there are.
    pub segments: u8,
    /// Their symbols.
    pub symbols: [i8; AIR_SYMBOLS],
}

impl Air {
    /// No segments.
    pub fn new() -> Air
        ensures { result.segments ≡ 0 }
    {
        Air {
            segments: 0,
            symbols: [0; AIR_SYMBOLS],
        }
    }

    /// Empties the value, and adds a field sync if `sync` is set: that of a second field if `second` is set. The field
    /// sync ends with the symbols `last`.
    pub(crate) fn begin(&mut self, sync: bool, second: bool, last: &[i8; PRECODE])
        ensures segments { self.new.segments ≡ (if sync then 1 else 0) }
        ensures symbols { take (SEGMENT * self.new.segments) self.new.symbols
            ≡ (if sync then field_sync second last.now else []) }
    {
        self.segments = 0;
        if sync {
            write_sync(second, last, &mut self.symbols[..SEGMENT]);
            self.segments = 1;
        }
    }

    /// Adds the four data segments of a group's interleaved bytes. The first one stands at place `first` of its field.
    /// The trellis coders start in the states that they have, and end in those after the group.
    pub(crate) fn add_group(&mut self, twelve: &mut Twelve, first: u16, bytes: &[u8; GROUP_BYTES])
        requires room { self.old.segments < 2 }
        requires in_field { first < FIELD_PACKETS }
        requires whole { first % GROUP_PACKETS ≡ 0 }
        ensures segments { self.new.segments ≡ self.old.segments + GROUP_PACKETS }
        ensures symbols { take (SEGMENT * self.new.segments) self.new.symbols
            ≡ take (SEGMENT * self.old.segments) self.old.symbols
            ++ symbols_of (four_segments (levels_of first twelve.old bytes.now) 0) }
        ensures states { twelve.new ≡ states_after first twelve.old bytes.now }
        ensures long { length bytes.now ≡ GROUP_BYTES }
    {
        let at = SEGMENT * self.segments as usize;
        write_group(
            twelve,
            first,
            bytes,
            &mut self.symbols[at..at + GROUP_SYMBOLS],
        );
        self.segments += GROUP_PACKETS as u8;
    }

    /// The last twelve symbols.
    pub(crate) fn last(&self) -> [i8; PRECODE]
        requires some { 0 < self.now.segments }
        requires few { self.now.segments ≤ AIR_SEGMENTS }
        ensures { result ≡ drop (SEGMENT * self.now.segments - PRECODE)
            (take (SEGMENT * self.now.segments) self.now.symbols) }
    {
        let end = SEGMENT * self.segments as usize;
        let mut last = [0; PRECODE];
        last.copy_from_slice(&self.symbols[end - PRECODE..end]);
        last
    }
}

/// Writes a field sync in place.
fn write_sync(second: bool, last: &[i8; PRECODE], symbols: &mut [i8])
    requires { length symbols.old ≡ SEGMENT }
    ensures { symbols.new ≡ field_sync second last.now }
{
    if let Some(out) = symbols.as_mut_array::<SEGMENT>() {
        dtx_frame::field_sync(second, last, out);
    }
}

/// Writes a group's data segments in place.
fn write_group(twelve: &mut Twelve, first: u16, bytes: &[u8; GROUP_BYTES], symbols: &mut [i8])
    requires in_field { first < FIELD_PACKETS }
    requires whole { first % GROUP_PACKETS ≡ 0 }
    requires long { length symbols.old ≡ GROUP_SYMBOLS }
    ensures symbols { symbols.new ≡ symbols_of (four_segments (levels_of first twelve.old bytes.now) 0) }
    ensures states { twelve.new ≡ states_after first twelve.old bytes.now }
{
    if let Some(out) = symbols.as_mut_array::<GROUP_SYMBOLS>() {
        twelve.group(first, bytes, out);
        put_segment_syncs(out);
    }
}
