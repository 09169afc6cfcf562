//! The side of a run's marks. Most runs have few marks, or none, so groups without a mark take a shorter way.

ghost use Rattle.std.specs.Prelude.{◌≡◌, ℕ, ℤ, IsFalse, IsTrue, ◌↔◌, ◌+◌, ◌*◌, ◌/◌, ◌%◌, ◌<◌, ◌≤◌, ◌++◌, ◌∷◌};
ghost use Rattle.std.specs.Prelude.{true, ◌≢◌, [], List, length, map, negsuc, replicate, slice_index_or};
ghost use Rattle.std.specs.Int.{w8, cast_signed};
ghost use Rattle.std.specs.List.{AllByRecursion};
ghost use Rattle.dtx_outer.specs.Inner.{word_at};
ghost use Rattle.dtx_receiver.specs.Bytes.{bytes_in, groups_of, symbols_in};
ghost use Rattle.dtx_receiver.specs.Receiver.{AreGrouped};
ghost use Rattle.dtx_slice.specs.Slicing.{sliced_data};
ghost use Rattle.dtx_erase.specs.Marks.{shown, shown_run};
ghost use Rattle.dtx_erase.specs.Sides.{Holds, IsFurther, IsQuiet, word_of};

use crate::side::Side;
use dtx_receiver::{HELD_GROUPS, to_symbols};
use dtx_sizes::{CODEWORD, FIELD_PACKETS, GROUP_LEVELS, GROUP_PACKETS, SEGMENT, SEGMENT_LEVELS};
use std::alloc::{AllocError, Global};
use std::marker::Model;

/// The number of groups of zeros after which the de-interleaver holds zeros alone.
const CLEARED: u8 = 13;

/// The side of a run's marks; contracts see the side alone. `zeros` counts how many groups of zeros came last, up to
/// 13. `quiet` is set only where all that the side keeps is 0. Then segments without a missing symbol change nothing
/// but the de-interleaver's turn.
#[derive(Drop)]
pub(crate) struct MarkSide {
    side: Side,
    zeros: u8,
    quiet: bool,
}

impl Model for MarkSide {
    ghost use Rattle.std.specs.Prelude.{◌≤◌};
    ghost use Rattle.dtx_erase.specs.Sides.{Side as Kept, AreKnown};

    ghost Value = { Kept };

    ghost view = { λ m. m.side };

    ghost invariant = { λ m. AreKnown m.side m.zeros m.quiet × (m.zeros ≤ 13) };
}

impl MarkSide {
    /// The side of no run. The only error is out of memory.
    pub(crate) fn new(alloc: Global) -> Result<MarkSide, AllocError> {
        let side = Side::new(alloc)?;
        side.known();
        Ok(MarkSide {
            side,
            zeros: 0,
            quiet: false,
        })
    }

    /// Begins a run with this field sync.
    pub(crate) fn begin(&mut self, sync: &[i8; SEGMENT])
        ensures { Holds self.new (map shown sync.now ∷ []) }
    {
        self.side.begin(&as_marks(sync));
        self.side.known();
        self.zeros = 0;
        self.quiet = false;
    }

    /// Takes the next data segments of the run, given as the bytes of their symbols. `place` is the first one's place
    /// in its field. The words of the groups that become whole are gathered.
    pub(crate) fn take_all(&mut self, place: u16, segments: &[[u8; SEGMENT]])
        requires place { place + length segments.now ≤ FIELD_PACKETS }
        requires most { length segments.now ≤ GROUP_PACKETS * HELD_GROUPS }
        requires some { 0 < length segments.now }
        ensures { (run : List (List ℤ)) → Holds self.old run → length run % 313 ≡ place + 1
            → IsFurther self.new ((place % 4 + length segments.now) / 4) run
            (run ++ shown_run (symbols_in segments.now)) }
    {
        if self.stays_quiet(segments) {
            self.take_quiet(place, segments.len());
        } else {
            self.take_any(place, segments);
        }
    }

    /// Whether a shorter way is allowed. If the answer is true, all that the side keeps is 0, and so are the levels of
    /// the segments' marks.
    fn stays_quiet(&self, segments: &[[u8; SEGMENT]]) -> bool
        ensures quiet { IsTrue result → IsQuiet self.now }
        ensures none { IsTrue result → AllByRecursion (λ x. sliced_data x ≡ replicate SEGMENT_LEVELS 0)
            (shown_run (symbols_in segments.now)) }
    {
        self.quiet && !any_missing(segments.as_flattened())
    }

    /// Takes the next `count` data segments. No symbol of them is missing, and all that the side keeps is 0.
    fn take_quiet(&mut self, place: u16, count: usize)
        requires place { place + count ≤ FIELD_PACKETS }
        requires most { count ≤ GROUP_PACKETS * HELD_GROUPS }
        requires quiet { IsQuiet self.old }
        ensures { (run xs : List (List ℤ)) → AllByRecursion (λ x. sliced_data x ≡ replicate SEGMENT_LEVELS 0) xs
            → length xs ≡ count → Holds self.old run → length run % 313 ≡ place + 1
            → IsFurther self.new ((place % 4 + count) / 4) run (run ++ xs) }
    {
        self.side
            .move_on((place as usize % GROUP_PACKETS + count) / GROUP_PACKETS);
        self.side.known();
        self.zeros = 0;
    }

    /// Takes the next data segments, whatever their marks.
    fn take_any(&mut self, place: u16, segments: &[[u8; SEGMENT]])
        requires place { place + length segments.now ≤ FIELD_PACKETS }
        requires most { length segments.now ≤ GROUP_PACKETS * HELD_GROUPS }
        requires some { 0 < length segments.now }
        ensures { (run : List (List ℤ)) → Holds self.old run → length run % 313 ≡ place + 1
            → IsFurther self.new ((place % 4 + length segments.now) / 4) run
            (run ++ shown_run (symbols_in segments.now)) }
    {
        take_marks(&mut self.side, place, segments);
        let count = self.side.lay_out();
        let blank = self.side.is_blank(count);
        self.side.pass(count);
        let whole = is_whole(place, segments.len());
        let lowest = self.side.is_lowest();
        let empty = self.side.is_empty();
        let zeros = counted(self.zeros, blank, count);
        self.zeros = zeros;
        self.quiet = is_over(whole, lowest, zeros, empty);
    }

    /// The four words of marks that one of the last groups completed. `group` counts the groups that were gathered
    /// together last.
    pub(crate) fn words(&self, group: usize) -> [[u8; CODEWORD]; 4]
        requires { group < HELD_GROUPS }
        ensures words { (p : ℕ) → p < 4 → slice_index_or result p [] ≡ word_of self.now.gathered (4 * group + p) }
        ensures long { (p : ℕ) → p < 4 → length (slice_index_or result p []) ≡ CODEWORD }
    {
        self.side.words(group)
    }

    /// The word of marks that is left at the end of a run, where 52 divides the number of data segments.
    pub(crate) fn last_word(&mut self) -> [u8; CODEWORD]
        ensures { (run : List (List ℤ)) (k : ℕ) → Holds self.old run → k + 52 ≡ 4 * groups_of run → k % 52 ≡ 0
            → result ≡ word_at 207 52 4 (bytes_in run) k }
    {
        let word = self.side.last_word();
        self.side.known();
        self.zeros = 0;
        self.quiet = false;
        word
    }
}

/// Takes the next data segments of a run, as marks. The side holds the bytes of the groups that become whole.
fn take_marks(side: &mut Side, place: u16, segments: &[[u8; SEGMENT]])
    requires place { place + length segments.now ≤ FIELD_PACKETS }
    requires most { length segments.now ≤ GROUP_PACKETS * HELD_GROUPS }
    requires none { side.old.groups.held ≡ [] }
    ensures rest { side.new ≡ record side.old { groups = side.new.groups } }
    ensures grouped { (run : List (List ℤ)) (given : List ℕ) → AreGrouped side.old.groups run given
        → length run % 313 ≡ place + 1 → AreGrouped side.new.groups (run ++ shown_run (symbols_in segments.now)) given }
    ensures held { length side.new.groups.held ≡ (place % 4 + length segments.now) / 4 }
    ensures lowest { 0 < length segments.now → (place + length segments.now) % 4 ≡ 0
        → side.new.groups.levels ≡ replicate GROUP_LEVELS 0 → side.new.groups.precoder_bits ≡ replicate 12 0 }
{
    let mut symbols = [0; SEGMENT];
    for i in 0..segments.len() {
        to_symbols(&segments[i], &mut symbols);
        side.take(place + i as u16, &as_marks(&symbols));
    }
}

/// Whether `count` segments, from place `place` on, end with a whole group.
fn is_whole(place: u16, count: usize) -> bool
    requires place { place < FIELD_PACKETS }
    requires count { count ≤ GROUP_PACKETS * HELD_GROUPS }
    ensures { IsTrue result ↔ ((place + count) % 4 ≡ 0) }
{
    (place as usize + count) % GROUP_PACKETS == 0
}

/// Whether all that the side keeps is known to be 0. For this the segments end with a whole group, whose levels are 0.
/// The last 13 groups were zeros, and so are the bytes that begin a word.
fn is_over(whole: bool, levels: bool, zeros: u8, begun: bool) -> bool
    ensures { IsTrue result ↔ ((whole ≡ true) × (levels ≡ true) × (zeros ≡ CLEARED) × (begun ≡ true)) }
{
    whole && levels && zeros == CLEARED && begun
}

/// How many groups of zeros came last, up to 13, after `groups` groups more. `zeros` says whether all bytes of these
/// are 0.
fn counted(before: u8, zeros: bool, groups: usize) -> u8
    requires before { before ≤ CLEARED }
    requires groups { groups ≤ HELD_GROUPS }
    ensures none { IsFalse zeros → result ≡ 0 }
    ensures more { IsTrue zeros → result ≤ before + groups }
    ensures most { result ≤ CLEARED }
{
    if !zeros {
        return 0;
    }
    (before as usize + groups).min(CLEARED as usize) as u8
}

/// Whether a symbol may be missing. If the answer is false, no symbol of these bytes is missing.
fn any_missing(bytes: &[u8]) -> bool
    ensures { IsFalse result → (i : ℕ) → i < length bytes.now
        → cast_signed w8 (slice_index_or bytes.now i 0) ≢ negsuc 127 }
{
    let mut any = false;
    for i in 0..bytes.len() {
        any |= bytes[i].cast_signed() == -128;
    }
    any
}

/// The symbols of a segment as marks: 7 where one is missing, else -7.
fn as_marks(segment: &[i8; SEGMENT]) -> [i8; SEGMENT]
    ensures { result ≡ map shown segment.now }
{
    let mut marks = [-7; SEGMENT];
    for i in 0..SEGMENT {
        marks[i] = as_mark(segment[i]);
    }
    marks
}

/// A symbol as a mark: 7 if it is missing, else -7.
fn as_mark(symbol: i8) -> i8
    ensures { result ≡ shown symbol }
{
    if symbol == -128 { 7 } else { -7 }
}
