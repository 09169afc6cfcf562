//! The twelve coders side by side, each in the lane of its place in the round. They take two pairs at a time.

ghost use Rattle.std.specs.Prelude.{◌≡◌, ℕ, ◌*◌, ◌/◌, ◌%◌, ◌<◌, length, slice_index};
ghost use Rattle.dtx_trellis.specs.Lanes.{AreNibbles, IsMovedOn, behind_both, level_told, turned_place};

use std::simd::prelude::*;

/// The number of lanes of a vector. Lane p is of the coder at place p of a round, and lanes 12 to 15 are unused. Bit 3
/// of a lane is the X1 that its coder took last, and bits 2 to 0 are the number of the coder's state after it.
pub(crate) const LANES: usize = 16;

/// The lanes after two pairs from state 0; the index has the pairs' four bits. The lane after the first pair is in the
/// upper four bits, and the one after the second in the lower four.
const BEHIND_PAIRS: [u8; LANES] = [
    0x00, 0x0a, 0x04, 0x0e, 0xa1, 0xab, 0xa5, 0xaf, 0x44, 0x4e, 0x40, 0x4a, 0xe5, 0xef, 0xe1, 0xeb,
];

/// The lanes after two pairs of zeros, from each lane. A coder is linear, so other pairs flip here the bits that they
/// flip from state 0.
const BEHIND_LANES: [u8; LANES] = [
    0x00, 0x21, 0x12, 0x33, 0x44, 0x65, 0x56, 0x77, 0x00, 0x21, 0x12, 0x33, 0x44, 0x65, 0x56, 0x77,
];

/// Twice the level that each lane stands for.
const DOUBLED: [u8; LANES] = [0, 2, 0, 2, 8, 10, 8, 10, 4, 6, 4, 6, 12, 14, 12, 14];

/// The lanes after two pairs, which are the bits of `pairs`.
#[inline(always)]
pub(crate) fn two_pairs(lanes: u8x16, pairs: u8x16) -> u8x16
    requires lanes { AreNibbles lanes }
    requires pairs { AreNibbles pairs }
    ensures long { length result ≡ LANES }
    ensures lanes { (p : ℕ) → p < LANES
        → slice_index result p ≡ behind_both (slice_index lanes p) (slice_index pairs p) }
{
    looked_up(BEHIND_PAIRS, pairs) ^ looked_up(BEHIND_LANES, lanes)
}

/// Twice the levels that the lanes stand for.
#[inline(always)]
pub(crate) fn doubled(lanes: u8x16) -> u8x16
    requires { AreNibbles lanes }
    ensures long { length result ≡ LANES }
    ensures levels { (p : ℕ) → p < LANES → slice_index result p ≡ 2 * level_told (slice_index lanes p) }
{
    looked_up(DOUBLED, lanes)
}

/// The upper four bits of each lane.
#[inline(always)]
pub(crate) fn upper(v: u8x16) -> u8x16
    ensures nibbles { AreNibbles result }
    ensures lanes { (p : ℕ) → p < LANES → slice_index result p ≡ slice_index v p / 16 }
{
    v >> u8x16::splat(4)
}

/// The lower four bits of each lane.
#[inline(always)]
pub(crate) fn lower(v: u8x16) -> u8x16
    ensures nibbles { AreNibbles result }
    ensures lanes { (p : ℕ) → p < LANES → slice_index result p ≡ slice_index v p % 16 }
{
    v & u8x16::splat(15)
}

/// The lanes for a round, from those of the round before it. If the round begins a segment, each place gets the coder
/// of the place four further on.
#[inline(always)]
pub(crate) fn moved_on(v: u8x16, begins_segment: bool) -> u8x16
    ensures { IsMovedOn begins_segment v result }
{
    if begins_segment { turned(v) } else { v }
}

/// The lanes of the places four further on.
#[inline(always)]
fn turned(v: u8x16) -> u8x16
    ensures long { length result ≡ LANES }
    ensures lanes { (p : ℕ) → p < LANES → slice_index result p ≡ slice_index v (turned_place p) }
{
    v.swizzle([4, 5, 6, 7, 8, 9, 10, 11, 0, 1, 2, 3, 12, 13, 14, 15])
}

/// The table's entry at the number in each lane.
#[inline(always)]
fn looked_up(table: [u8; LANES], lanes: u8x16) -> u8x16
    requires { AreNibbles lanes }
    ensures long { length result ≡ LANES }
    ensures lanes { (p : ℕ) → p < LANES → slice_index result p ≡ slice_index table (slice_index lanes p) }
{
    u8x16::from_array(table).swizzle_dyn(lanes)
}
