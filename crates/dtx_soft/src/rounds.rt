//! The symbols of a field's segments, by rounds. In a round the symbols of the twelve coders stand side by side.

ghost use Rattle.std.specs.Prelude.{◌≡◌, ℕ, pos, ◌+◌, ◌-◌, ◌*◌, ◌%◌, ◌<◌, ◌≤◌, [], length, slice_index_or};
ghost use Rattle.dtx_soft.specs.Coders.{KeepsSyncs, coder_symbols};
ghost use Rattle.dtx_soft.specs.Gaps.{column};

use crate::gaps::LANES;
use dtx_sizes::{CODERS, SEGMENT, SEGMENT_ROUNDS, SEGMENT_SYNC};

/// Reads the rounds of all segments. Lane e is for coder e, and the lanes behind the coders aren't used.
pub(crate) fn lay_out(segments: &[[i8; SEGMENT]], rounds: &mut [[i8; LANES]])
    requires room { length rounds.old ≡ SEGMENT_ROUNDS * length segments.now }
    ensures { (e : ℕ) → e < CODERS → column rounds.new e ≡ coder_symbols segments.now e }
{
    for i in 0..segments.len() {
        read_segment(&segments[i], i % 3, SEGMENT_ROUNDS * i, rounds);
    }
}

/// Reads the rounds of a segment into `rounds`, from index `at` on. In this segment the coders have moved on by four
/// places `turn` times.
#[inline(always)]
fn read_segment(segment: &[i8; SEGMENT], turn: usize, at: usize, rounds: &mut [[i8; LANES]])
    requires turn { turn < 3 }
    requires room { at + SEGMENT_ROUNDS ≤ length rounds.old }
    ensures lanes { (r e : ℕ) → r < SEGMENT_ROUNDS → e < CODERS
        → slice_index_or (slice_index_or rounds.new (at + r) []) e (pos 0)
        ≡ slice_index_or segment.now (4 + 12 * r + (e + 12 - 4 * turn) % 12) (pos 0) }
    ensures before { (k : ℕ) → k < at → slice_index_or rounds.new k [] ≡ slice_index_or rounds.old k [] }
{
    for r in 0..SEGMENT_ROUNDS {
        rounds[at + r] = read_turned(segment, r, turn);
    }
}

/// Reads a round of a segment in which the coders have moved on by four places `turn` times. Lane e is for coder e, and
/// the lanes behind the coders aren't used. Each turn has its own loop, for speed.
#[inline(always)]
pub fn read_turned(segment: &[i8; SEGMENT], r: usize, turn: usize) -> [i8; LANES]
    requires round { r < SEGMENT_ROUNDS }
    requires turn { turn < 3 }
    ensures { (e : ℕ) → e < CODERS → slice_index_or result e (pos 0)
        ≡ slice_index_or segment.now (4 + 12 * r + (e + 12 - 4 * turn) % 12) (pos 0) }
{
    match turn {
        0 => read_round(segment, r, 0),
        1 => read_round(segment, r, 1),
        _ => read_round(segment, r, 2),
    }
}

/// Reads a round of a segment.
#[inline(always)]
fn read_round(segment: &[i8; SEGMENT], r: usize, turn: usize) -> [i8; LANES]
    requires round { r < SEGMENT_ROUNDS }
    requires turn { turn < 3 }
    ensures { (e : ℕ) → e < CODERS → slice_index_or result e (pos 0)
        ≡ slice_index_or segment.now (4 + 12 * r + (e + 12 - 4 * turn) % 12) (pos 0) }
{
    let mut lanes = [0; LANES];
    for e in 0..CODERS {
        lanes[e] = segment[SEGMENT_SYNC + CODERS * r + (e + CODERS - 4 * turn) % CODERS];
    }
    lanes
}

/// Writes the rounds of all segments.
pub(crate) fn put_back(rounds: &[[i8; LANES]], segments: &mut [[i8; SEGMENT]])
    requires room { length rounds.now ≡ SEGMENT_ROUNDS * length segments.old }
    ensures coders { (e : ℕ) → e < CODERS → coder_symbols segments.new e ≡ column rounds.now e }
    ensures syncs { KeepsSyncs segments.old segments.new }
{
    for i in 0..segments.len() {
        write_segment(rounds, SEGMENT_ROUNDS * i, i % 3, &mut segments[i]);
    }
}

/// Writes the rounds from index `at` on to a segment. In this segment the coders have moved on by four places `turn`
/// times.
#[inline(always)]
fn write_segment(rounds: &[[i8; LANES]], at: usize, turn: usize, segment: &mut [i8; SEGMENT])
    requires turn { turn < 3 }
    requires room { at + SEGMENT_ROUNDS ≤ length rounds.now }
    ensures symbols { (r p : ℕ) → r < SEGMENT_ROUNDS → p < CODERS
        → slice_index_or segment.new (4 + 12 * r + p) (pos 0)
        ≡ slice_index_or (slice_index_or rounds.now (at + r) []) ((p + 4 * turn) % 12) (pos 0) }
    ensures sync { (k : ℕ) → k < 4 → slice_index_or segment.new k (pos 0) ≡ slice_index_or segment.old k (pos 0) }
{
    for r in 0..SEGMENT_ROUNDS {
        let lanes = rounds[at + r];
        write_turned(&lanes, r, turn, segment);
    }
}

/// Writes a round of a segment in which the coders have moved on by four places `turn` times. Each turn has its own
/// loop, for speed.
#[inline(always)]
pub fn write_turned(lanes: &[i8; LANES], r: usize, turn: usize, segment: &mut [i8; SEGMENT])
    requires round { r < SEGMENT_ROUNDS }
    requires turn { turn < 3 }
    ensures symbols { (p : ℕ) → p < CODERS → slice_index_or segment.new (4 + 12 * r + p) (pos 0)
        ≡ slice_index_or lanes.now ((p + 4 * turn) % 12) (pos 0) }
    ensures before { (k : ℕ) → k < 4 + 12 * r
        → slice_index_or segment.new k (pos 0) ≡ slice_index_or segment.old k (pos 0) }
    ensures behind { (k : ℕ) → 16 + 12 * r ≤ k
        → slice_index_or segment.new k (pos 0) ≡ slice_index_or segment.old k (pos 0) }
{
    match turn {
        0 => write_round(lanes, r, 0, segment),
        1 => write_round(lanes, r, 1, segment),
        _ => write_round(lanes, r, 2, segment),
    }
}

/// Writes a round of a segment.
#[inline(always)]
fn write_round(lanes: &[i8; LANES], r: usize, turn: usize, segment: &mut [i8; SEGMENT])
    requires round { r < SEGMENT_ROUNDS }
    requires turn { turn < 3 }
    ensures symbols { (p : ℕ) → p < CODERS → slice_index_or segment.new (4 + 12 * r + p) (pos 0)
        ≡ slice_index_or lanes.now ((p + 4 * turn) % 12) (pos 0) }
    ensures before { (k : ℕ) → k < 4 + 12 * r
        → slice_index_or segment.new k (pos 0) ≡ slice_index_or segment.old k (pos 0) }
    ensures behind { (k : ℕ) → 16 + 12 * r ≤ k
        → slice_index_or segment.new k (pos 0) ≡ slice_index_or segment.old k (pos 0) }
{
    for p in 0..CODERS {
        segment[SEGMENT_SYNC + CODERS * r + p] = lanes[(p + 4 * turn) % CODERS];
    }
}
