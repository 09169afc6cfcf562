//! The walk from the beginning of the symbols to their end, for all coders side by side. It follows the marks, and
//! decides the symbols by the levels of the least paths.

ghost use Rattle.std.specs.Prelude.{◌≡◌, ◌≢◌, ℕ, pos, ◌+◌, ◌-◌, ◌*◌, ◌/◌, ◌%◌, ◌<◌, ◌≤◌, length, slice_index};
ghost use Rattle.std.specs.Prelude.{List, [], slice_index_or, if◌then◌else◌};
ghost use Rattle.std.specs.Ordering.{int_eq};
ghost use Rattle.dtx_pins.specs.PinnedField.{moved_in, rows_moved, IsPinned, pinned_cost};
ghost use Rattle.dtx_pins.specs.Pins.{coder_pins};
ghost use Rattle.dtx_pins.specs.Steps.{number_of};
ghost use Rattle.dtx_pins.specs.Trace.{AreStarts, AreTraced, IsMoved, IsNext, IsStand, stand_at};
ghost use Rattle.dtx_pins.specs.Walks.{AreWalked};

use crate::lanes::lanes_of;
use crate::pinned::Decision;
use crate::start::Stands;
use dtx_sizes::{CODERS, FIELD_PACKETS, SEGMENT, SEGMENT_ROUNDS, SEGMENT_SYNC};
use dtx_soft::{
    LANES, MAX_SCALE, MAX_SYMBOLS, MOST_SEGMENT_COST, read_turned, square, total, write_turned,
};

/// Decides the data symbols of segments by the levels of the least paths over the symbols that were heard. `stands` has
/// the beginnings of the paths.
pub(crate) fn forward(
    scale: u8,
    marks: &[[u16; CODERS]],
    mut stands: Stands,
    heard: &[[i8; SEGMENT]],
    decided: &mut [[i8; SEGMENT]],
) -> Decision
    requires scale { scale ≤ MAX_SCALE }
    requires few { length heard.now ≤ FIELD_PACKETS }
    requires room { length marks.now ≡ SEGMENT_ROUNDS * length heard.now }
    requires same { length decided.old ≡ length heard.now }
    requires stands { (e : ℕ) → e < LANES → IsStand 0 (stand_at stands e) }
    ensures paths { (pins : List (List ℕ)) (sums : ℕ → List (List ℕ)) → length pins ≡ length marks.now
        → AreWalked scale 0 pins heard.now sums marks.now → AreStarts pins sums stands
        → IsPinned scale 1 pins heard.now decided.old decided.new }
    ensures cost { (pins : List (List ℕ)) (sums : ℕ → List (List ℕ)) → length pins ≡ length marks.now
        → AreWalked scale 0 pins heard.now sums marks.now → AreStarts pins sums stands
        → result.cost ≡ pinned_cost scale pins heard.now }
    ensures most { result.cost ≤ MOST_SEGMENT_COST * length heard.now }
    ensures moved { result.moved ≡ rows_moved decided.old decided.new }
    ensures still { result.moved ≡ 0 → decided.new ≡ decided.old }
    ensures few { result.moved ≤ SEGMENT * length heard.now }
{
    let mut moved = 0;
    for i in 0..heard.len() {
        let at = SEGMENT_ROUNDS * i;
        let path = trace_turned(
            scale,
            &marks[at..at + SEGMENT_ROUNDS],
            &heard[i],
            i % 3,
            &mut stands,
        );
        moved += move_symbols(&path, &mut decided[i]) as u64;
    }
    Decision {
        cost: total(&stands.cost),
        moved,
    }
}

/// The symbols of the least paths in a segment. In it the coders have moved on by four places `turn` times. Each turn
/// has its own loop, for speed.
fn trace_turned(
    scale: u8,
    marks: &[[u16; CODERS]],
    heard: &[i8; SEGMENT],
    turn: usize,
    stands: &mut Stands,
) -> [i8; SEGMENT]
    requires scale { scale ≤ MAX_SCALE }
    requires turn { turn < 3 }
    requires marks { length marks.now ≡ SEGMENT_ROUNDS }
    requires stands { (e : ℕ) → e < LANES → IsStand (SEGMENT_ROUNDS * (FIELD_PACKETS - 1)) (stand_at stands.old e) }
    ensures { AreTraced scale turn SEGMENT_ROUNDS marks.now heard.now result stands.old stands.new }
{
    match turn {
        0 => trace_segment(scale, marks, heard, 0, stands),
        1 => trace_segment(scale, marks, heard, 1, stands),
        _ => trace_segment(scale, marks, heard, 2, stands),
    }
}

/// The symbols of the least paths in a segment.
#[inline(always)]
fn trace_segment(
    scale: u8,
    marks: &[[u16; CODERS]],
    heard: &[i8; SEGMENT],
    turn: usize,
    stands: &mut Stands,
) -> [i8; SEGMENT]
    requires scale { scale ≤ MAX_SCALE }
    requires turn { turn < 3 }
    requires marks { length marks.now ≡ SEGMENT_ROUNDS }
    requires stands { (e : ℕ) → e < LANES → IsStand (SEGMENT_ROUNDS * (FIELD_PACKETS - 1)) (stand_at stands.old e) }
    ensures { AreTraced scale turn SEGMENT_ROUNDS marks.now heard.now result stands.old stands.new }
{
    let mut path = [0; SEGMENT];
    for r in 0..SEGMENT_ROUNDS {
        let symbols = trace_all(
            scale,
            &read_turned(heard, r, turn),
            &lanes_of(&marks[r]),
            stands,
        );
        write_turned(&symbols, r, turn, &mut path);
    }
    path
}

/// Takes one step more, and returns the symbols of the least paths: 2 * z - 7 for level z.
#[inline(always)]
fn trace_all(
    scale: u8,
    symbols: &[i8; LANES],
    marks: &[u16; LANES],
    stands: &mut Stands,
) -> [i8; LANES]
    requires scale { scale ≤ MAX_SCALE }
    requires stands { (e : ℕ) → e < LANES → IsStand (MAX_SYMBOLS - 1) (stand_at stands.old e) }
    ensures { (e : ℕ) → e < LANES → IsNext scale (slice_index_or symbols.now e (pos 0)) (slice_index marks.now e)
        (stand_at stands.old e) (stand_at stands.new e) (slice_index_or result e (pos 0)) }
{
    let levels = move_all(marks, stands);
    let mut written = [0; LANES];
    for e in 0..LANES {
        let symbol = 2 * levels[e] as i16 - 7;
        written[e] = symbol as i8;
        stands.cost[e] = stands.cost[e] + square(symbols[e], scale as i16 * symbol);
    }
    written
}

/// Takes one step more, but leaves the costs as they are. Returns the levels.
#[inline(always)]
fn move_all(marks: &[u16; LANES], stands: &mut Stands) -> [u16; LANES]
    requires stands { (e : ℕ) → e < LANES → IsStand (MAX_SYMBOLS - 1) (stand_at stands.old e) }
    ensures { (e : ℕ) → e < LANES → IsMoved (slice_index marks.now e) (stand_at stands.old e) (stand_at stands.new e)
        (slice_index result e) }
{
    let mut levels = [0; LANES];
    let mut q1s = [0; LANES];
    for e in 0..LANES {
        let number = number(marks[e], stands.former[e], stands.q1[e], stands.q0[e]);
        levels[e] = 2 * number + stands.q1[e];
        stands.former[e] = number / 2;
        q1s[e] = (number % 2 + stands.q0[e]) % 2;
    }
    stands.q0 = stands.q1;
    stands.q1 = q1s;
    levels
}

/// The number of the level that a mark gives: half of the level, rounded down.
#[inline(always)]
fn number(mark: u16, former: u16, q1: u16, q0: u16) -> u16
    requires former { former < 2 }
    requires q1 { q1 < 2 }
    requires q0 { q0 < 2 }
    ensures number { result ≡ number_of mark former (2 * q1 + q0) }
    ensures small { result < 4 }
{
    let eight = if former == 0 { mark } else { mark / 256 };
    let four = if q1 == 0 { eight } else { eight / 16 };
    let two = if q0 == 0 { four } else { four / 4 };
    two % 4
}

/// Sets the data symbols of a segment to those of a path, and returns how many of them move.
fn move_symbols(path: &[i8; SEGMENT], segment: &mut [i8; SEGMENT]) -> u16
    ensures sync { (k : ℕ) → k < 4 → slice_index_or segment.new k (pos 0) ≡ slice_index_or segment.old k (pos 0) }
    ensures data { (k : ℕ) → 4 ≤ k → slice_index_or segment.new k (pos 0) ≡ slice_index_or path.now k (pos 0) }
    ensures moved { result ≡ moved_in segment.old segment.new }
    ensures still { result ≡ 0 → segment.new ≡ segment.old }
    ensures most { result ≤ SEGMENT }
{
    let mut moved = 0;
    for k in SEGMENT_SYNC..SEGMENT {
        moved += put_symbol(&mut segment[k], path[k]);
    }
    moved
}

/// Puts a symbol in place of another one. Returns 1 where they differ, and 0 otherwise.
#[inline(always)]
fn put_symbol(place: &mut i8, symbol: i8) -> u16
    ensures put { place.new ≡ symbol }
    ensures moved { result ≡ (if int_eq place.old symbol then 0 else 1) }
    ensures still { result ≡ 0 → place.new ≡ place.old }
    ensures most { result ≤ 1 }
{
    let moved = if *place == symbol { 0 } else { 1 };
    *place = symbol;
    moved
}
