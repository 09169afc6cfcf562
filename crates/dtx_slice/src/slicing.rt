//! Slicing: from a symbol, however damaged, to the nearest level.

ghost use Rattle.std.specs.Prelude.{◌≡◌, ℕ, pos, ◌+◌, ◌*◌, ◌<◌, ◌≤◌, ◌++◌, EachIndex, length, take, drop};
ghost use Rattle.std.specs.Prelude.{slice_index, slice_index_or};
ghost use Rattle.dtx_slice.specs.Slicing.{AreSliced, sliced, sliced_data, sliced_last};

use dtx_sizes::{GROUP_LEVELS, GROUP_PACKETS, PRECODE, SEGMENT, SEGMENT_LEVELS, SEGMENT_SYNC};
use std::simd::prelude::*;

/// How many lanes a vector has.
const LANES: usize = 16;

/// The number of steps of three vectors in the data symbols of a segment. Twelve symbols are left.
const PARTS: usize = SEGMENT_LEVELS / (3 * LANES);

/// The level, 0 to 7, of a symbol, which may be any signed byte (ATSC A/53 Part 2, the levels of 8-VSB). The limits
/// between levels are the profile's own.
pub fn level(symbol: i8) -> u8
    ensures level { result ≡ sliced symbol }
    ensures small { result < 8 }
{
    // Everything from 7 on becomes 127, everything up to -8 becomes 112, and 112 is 2 * 8 * 7.
    symbol.saturating_add(120).max(112) as u8 / 2 % 8
}

/// Writes the levels of the data symbols of a segment.
pub fn levels(segment: &[i8; SEGMENT], out: &mut [u8; SEGMENT_LEVELS])
    ensures levels { out.new ≡ sliced_data segment.now }
    ensures small { EachIndex out.new (λ d. slice_index out.new d < 8) }
{
    slice_data(segment, out);
}

/// Writes the levels of the data symbols of a segment to their places among the levels of a group. `at` is the
/// segment's number in the group, 0 to 3.
pub fn put_levels(segment: &[i8; SEGMENT], at: usize, group: &mut [u8; GROUP_LEVELS])
    requires { at < GROUP_PACKETS }
    ensures levels { group.new ≡ take (SEGMENT_LEVELS * at) group.old ++ sliced_data segment.now
        ++ drop (SEGMENT_LEVELS * at + SEGMENT_LEVELS) group.old }
    ensures small { EachIndex group.old (λ d. slice_index group.old d < 8)
        → EachIndex group.new (λ d. slice_index group.new d < 8) }
{
    slice_data(
        segment,
        &mut group[SEGMENT_LEVELS * at..SEGMENT_LEVELS * at + SEGMENT_LEVELS],
    );
}

/// The levels of the last twelve symbols of a segment.
pub fn last_levels(segment: &[i8; SEGMENT]) -> [u8; PRECODE]
    ensures levels { result ≡ sliced_last segment.now }
    ensures small { EachIndex result (λ q. slice_index result q < 8) }
{
    let mut out = [0; PRECODE];
    for q in 0..PRECODE {
        out[q] = level(segment[SEGMENT - PRECODE + q]);
    }
    out
}

/// Writes the levels of the data symbols of a segment, three vectors a step. The last vector holds the last twelve.
#[inline(never)]
fn slice_data(segment: &[i8; SEGMENT], out: &mut [u8])
    requires { length out.old ≡ SEGMENT_LEVELS }
    ensures { out.new ≡ sliced_data segment.now }
{
    for part in 0..PARTS {
        let from = 3 * LANES * part;
        slice_vector(segment, from, out);
        slice_vector(segment, from + LANES, out);
        slice_vector(segment, from + 2 * LANES, out);
    }
    slice_vector(segment, SEGMENT_LEVELS - LANES, out);
}

/// Writes the levels of the sixteen data symbols from number `from` on.
#[inline(always)]
fn slice_vector(segment: &[i8; SEGMENT], from: usize, out: &mut [u8])
    requires from { from + LANES ≤ SEGMENT_LEVELS }
    requires room { length out.old ≡ SEGMENT_LEVELS }
    ensures long { length out.new ≡ SEGMENT_LEVELS }
    ensures levels { AreSliced from segment.now out.old → AreSliced (from + LANES) segment.now out.new }
{
    let lanes = sliced_from(segment, from);
    lanes.copy_to_slice(&mut out[from..]);
}

/// The levels of the sixteen data symbols from number `from` on. The compiler makes vectors of this loop.
#[inline(always)]
fn sliced_from(segment: &[i8; SEGMENT], from: usize) -> u8x16
    requires { from + LANES ≤ SEGMENT_LEVELS }
    ensures long { length result ≡ LANES }
    ensures levels { (p : ℕ) → p < LANES
        → slice_index result p ≡ sliced (slice_index_or segment.now (SEGMENT_SYNC + (from + p)) (pos 0)) }
{
    let mut lanes = [0; LANES];
    for p in 0..LANES {
        lanes[p] = level(segment[SEGMENT_SYNC + (from + p)]);
    }
    u8x16::from_array(lanes)
}
