//! Decodes the levels of a group, with the coders side by side.

ghost use Rattle.std.specs.Prelude.{◌≡◌, ℕ, ◌+◌, ◌*◌, ◌/◌, ◌%◌, ◌<◌, ◌≤◌, List, EachIndex, length};
ghost use Rattle.std.specs.Prelude.{slice_index};
ghost use Rattle.dtx_slice.specs.Unrolled.{byte_back, precoder_bit, joined_byte, lane_byte, lane_place, later_byte};

use dtx_sizes::{
    CODER_BYTES, CODERS, FIELD_PACKETS, GROUP_BYTES, GROUP_LEVELS, GROUP_PACKETS, ROUNDS,
    SEGMENT_ROUNDS,
};
use std::simd::prelude::*;

/// The number of lanes of a vector. In the four rounds of a byte, lane p is of the coder at place p of the first of
/// them. Lanes 12 to 15 are unused.
const LANES: usize = 16;

/// What each level adds to its byte where it is the first of the byte's four. Z1 counts in its own pair, and Z2 in that
/// and in the next one.
const FIRST: [u8; LANES] = [0, 0, 64, 64, 160, 160, 224, 224, 0, 0, 0, 0, 0, 0, 0, 0];

/// What the second level adds to its byte.
const SECOND: [u8; LANES] = [0, 0, 16, 16, 40, 40, 56, 56, 0, 0, 0, 0, 0, 0, 0, 0];

/// What the third level adds to its byte.
const THIRD: [u8; LANES] = [0, 0, 4, 4, 10, 10, 14, 14, 0, 0, 0, 0, 0, 0, 0, 0];

/// What the fourth level adds to its byte.
const FOURTH: [u8; LANES] = [0, 0, 1, 1, 2, 2, 3, 3, 0, 0, 0, 0, 0, 0, 0, 0];

/// What the level before the four adds to the byte.
const BEFORE: [u8; LANES] = [0, 0, 0, 0, 128, 128, 128, 128, 0, 0, 0, 0, 0, 0, 0, 0];

/// The number of each coder's bytes between two on which it works at a segment's end. The first segment has one more in
/// front.
const WHOLE_BYTES: usize = SEGMENT_ROUNDS / 4 - 1;

/// The last byte of a coder.
const LAST_BYTE: usize = CODER_BYTES - 1;

/// The last round of a group.
const LAST_ROUND: usize = ROUNDS - 1;

/// Writes the bytes of a group, from its levels and these precoder bits.
pub(crate) fn walk(
    precoder_bits: &[u8; CODERS],
    first: usize,
    levels: &[u8; GROUP_LEVELS],
    bytes: &mut [u8; GROUP_BYTES],
)
    requires first { first < FIELD_PACKETS }
    requires small { EachIndex levels.now (λ d. slice_index levels.now d < 8) }
    requires small_bits { EachIndex precoder_bits.now (λ e. slice_index precoder_bits.now e < 2) }
    ensures { (j : ℕ) → j < GROUP_BYTES → slice_index bytes.new j ≡ byte_back first precoder_bits.now levels.now j }
{
    let before = laid_out(precoder_bits, first);
    let lanes = four_rounds(before, levels, 0);
    store(bytes, 0, lanes);
    for segment in 0..GROUP_PACKETS {
        let from = (WHOLE_BYTES + 1) * segment + 1;
        walk_whole(levels, from, bytes);
        let before = load(levels, 4 * (from + WHOLE_BYTES) - 1);
        let lanes = four_rounds(before, levels, from + WHOLE_BYTES);
        store(bytes, from + WHOLE_BYTES, lanes);
    }
}

/// Writes sixteen bytes of each coder, from number `from` on. A coder works on each of them within one segment.
#[inline(never)]
fn walk_whole(levels: &[u8; GROUP_LEVELS], from: usize, bytes: &mut [u8; GROUP_BYTES])
    requires from { 0 < from }
    requires last { from + WHOLE_BYTES ≤ LAST_BYTE }
    requires whole { 4 * from % SEGMENT_ROUNDS + 4 * WHOLE_BYTES ≤ SEGMENT_ROUNDS }
    requires small { EachIndex levels.now (λ d. slice_index levels.now d < 8) }
    ensures bytes { (h p : ℕ) → from ≤ h → h < from + WHOLE_BYTES → p < CODERS
        → slice_index bytes.new (CODERS * h + p) ≡ later_byte levels.now h p }
    ensures before { (j : ℕ) → j < CODERS * from → slice_index bytes.new j ≡ slice_index bytes.old j }
{
    let mut before = load_early(levels, 4 * from - 1);
    for byte in from..from + WHOLE_BYTES {
        let last = load_early(levels, 4 * byte + 3);
        let lanes = whole_rounds(before, levels, byte, last);
        store_early(bytes, byte, lanes);
        before = last;
    }
}

/// Byte number `byte` of each coder.
#[inline(always)]
fn four_rounds(before: u8x16, levels: &[u8; GROUP_LEVELS], byte: usize) -> u8x16
    requires byte { byte < CODER_BYTES }
    requires small_before { EachIndex before (λ p. slice_index before p < 8) }
    requires small { EachIndex levels.now (λ d. slice_index levels.now d < 8) }
    ensures long { length result ≡ LANES }
    ensures bytes { (p : ℕ) → p < CODERS
        → slice_index result p ≡ lane_byte (slice_index before p / 4 % 2) levels.now byte p }
{
    joined(
        before,
        load_round(levels, byte, 0),
        load_round(levels, byte, 1),
        load_round(levels, byte, 2),
        load_round(levels, byte, 3),
    )
}

/// The same, where the four rounds are in one segment and aren't the group's last ones. The caller gives the levels of
/// the last of the four.
#[inline(always)]
fn whole_rounds(before: u8x16, levels: &[u8; GROUP_LEVELS], byte: usize, last: u8x16) -> u8x16
    requires byte { byte < LAST_BYTE }
    requires whole { 4 * byte % SEGMENT_ROUNDS + 4 ≤ SEGMENT_ROUNDS }
    requires small_before { EachIndex before (λ p. slice_index before p < 8) }
    requires small_last { EachIndex last (λ p. slice_index last p < 8) }
    requires last { (p : ℕ) → p < CODERS
        → slice_index last p ≡ slice_index levels.now (CODERS * (4 * byte + 3) + p) }
    requires small { EachIndex levels.now (λ d. slice_index levels.now d < 8) }
    ensures long { length result ≡ LANES }
    ensures bytes { (p : ℕ) → p < CODERS
        → slice_index result p ≡ lane_byte (slice_index before p / 4 % 2) levels.now byte p }
{
    joined(
        before,
        load_early(levels, 4 * byte),
        load_early(levels, 4 * byte + 1),
        load_early(levels, 4 * byte + 2),
        last,
    )
}

/// Bytes from the levels of their four rounds and of the round before.
#[inline(always)]
fn joined(before: u8x16, first: u8x16, second: u8x16, third: u8x16, fourth: u8x16) -> u8x16
    requires before { EachIndex before (λ p. slice_index before p < 8) }
    requires first { EachIndex first (λ p. slice_index first p < 8) }
    requires second { EachIndex second (λ p. slice_index second p < 8) }
    requires third { EachIndex third (λ p. slice_index third p < 8) }
    requires fourth { EachIndex fourth (λ p. slice_index fourth p < 8) }
    ensures long { length result ≡ LANES }
    ensures bytes { (p : ℕ) → p < CODERS → slice_index result p ≡ joined_byte (slice_index before p / 4 % 2)
        (slice_index first p) (slice_index second p) (slice_index third p) (slice_index fourth p) }
{
    let high = shares(FIRST, first) ^ shares(SECOND, second);
    let low = shares(THIRD, third) ^ shares(FOURTH, fourth);
    shares(BEFORE, before) ^ high ^ low
}

/// What each lane's level adds to its byte, by a table.
#[inline(always)]
fn shares(table: [u8; LANES], levels: u8x16) -> u8x16
    requires { EachIndex levels (λ p. slice_index levels p < 8) }
    ensures long { length result ≡ LANES }
    ensures shares { (p : ℕ) → p < LANES → slice_index result p ≡ slice_index table (slice_index levels p) }
{
    u8x16::from_array(table).swizzle_dyn(levels)
}

/// The levels of round `round` of the four in which each coder works on its byte number `byte`.
#[inline(always)]
fn load_round(levels: &[u8; GROUP_LEVELS], byte: usize, round: usize) -> u8x16
    requires byte { byte < CODER_BYTES }
    requires round { round < 4 }
    requires small { EachIndex levels.now (λ d. slice_index levels.now d < 8) }
    ensures long { length result ≡ LANES }
    ensures small { EachIndex result (λ p. slice_index result p < 8) }
    ensures levels { (p : ℕ) → p < CODERS → slice_index result p ≡ slice_index levels.now (lane_place byte round p) }
{
    let lanes = load(levels, 4 * byte + round);
    if 4 * byte % SEGMENT_ROUNDS + round < SEGMENT_ROUNDS {
        lanes
    } else {
        turned(lanes)
    }
}

/// The lanes of the places four back.
#[inline(always)]
fn turned(v: u8x16) -> u8x16
    requires { EachIndex v (λ p. slice_index v p < 8) }
    ensures long { length result ≡ LANES }
    ensures small { EachIndex result (λ p. slice_index result p < 8) }
    ensures lanes { (p : ℕ) → p < CODERS → slice_index result p ≡ slice_index v ((p + 8) % CODERS) }
{
    v.swizzle([8, 9, 10, 11, 0, 1, 2, 3, 4, 5, 6, 7, 12, 13, 14, 15])
}

/// The levels of round `round` of the group, each in the lane of its place.
#[inline(always)]
fn load(levels: &[u8; GROUP_LEVELS], round: usize) -> u8x16
    requires round { round < ROUNDS }
    requires small { EachIndex levels.now (λ d. slice_index levels.now d < 8) }
    ensures long { length result ≡ LANES }
    ensures small { EachIndex result (λ p. slice_index result p < 8) }
    ensures levels { (p : ℕ) → p < CODERS → slice_index result p ≡ slice_index levels.now (CODERS * round + p) }
{
    if round < LAST_ROUND {
        load_early(levels, round)
    } else {
        load_last(levels)
    }
}

/// The levels of a round that isn't the last one.
#[inline(always)]
fn load_early(levels: &[u8; GROUP_LEVELS], round: usize) -> u8x16
    requires round { round < LAST_ROUND }
    requires small { EachIndex levels.now (λ d. slice_index levels.now d < 8) }
    ensures long { length result ≡ LANES }
    ensures small { EachIndex result (λ p. slice_index result p < 8) }
    ensures levels { (p : ℕ) → p < CODERS → slice_index result p ≡ slice_index levels.now (CODERS * round + p) }
{
    u8x16::from_slice(&levels[CODERS * round..])
}

/// The levels of the last round.
fn load_last(levels: &[u8; GROUP_LEVELS]) -> u8x16
    requires { EachIndex levels.now (λ d. slice_index levels.now d < 8) }
    ensures long { length result ≡ LANES }
    ensures small { EachIndex result (λ p. slice_index result p < 8) }
    ensures levels { (p : ℕ) → p < CODERS → slice_index result p ≡ slice_index levels.now (CODERS * LAST_ROUND + p) }
{
    let last = u8x16::from_slice(&levels[GROUP_LEVELS - LANES..]);
    last.swizzle([4, 5, 6, 7, 8, 9, 10, 11, 12, 13, 14, 15, 0, 1, 2, 3])
}

/// Writes twelve bytes, byte number `byte` of each coder. The bytes behind them may change.
#[inline(always)]
fn store(bytes: &mut [u8; GROUP_BYTES], byte: usize, lanes: u8x16)
    requires { byte < CODER_BYTES }
    ensures bytes { (p : ℕ) → p < CODERS → slice_index bytes.new (CODERS * byte + p) ≡ slice_index lanes p }
    ensures before { (j : ℕ) → j < CODERS * byte → slice_index bytes.new j ≡ slice_index bytes.old j }
{
    if byte < LAST_BYTE {
        store_early(bytes, byte, lanes);
    } else {
        store_last(bytes, lanes);
    }
}

/// Writes twelve bytes that aren't the last ones.
#[inline(always)]
fn store_early(bytes: &mut [u8; GROUP_BYTES], byte: usize, lanes: u8x16)
    requires { byte < LAST_BYTE }
    ensures bytes { (p : ℕ) → p < CODERS → slice_index bytes.new (CODERS * byte + p) ≡ slice_index lanes p }
    ensures before { (j : ℕ) → j < CODERS * byte → slice_index bytes.new j ≡ slice_index bytes.old j }
{
    lanes.copy_to_slice(&mut bytes[CODERS * byte..]);
}

/// Writes the last byte of each coder.
fn store_last(bytes: &mut [u8; GROUP_BYTES], lanes: u8x16)
    ensures bytes { (p : ℕ) → p < CODERS → slice_index bytes.new (CODERS * LAST_BYTE + p) ≡ slice_index lanes p }
    ensures before { (j : ℕ) → j < CODERS * LAST_BYTE → slice_index bytes.new j ≡ slice_index bytes.old j }
{
    let last = lanes.to_array();
    for p in 0..CODERS {
        bytes[GROUP_BYTES - CODERS + p] = last[p];
    }
}

/// The precoder bits as bit 2, each in the lane of its coder's place in the first round.
fn laid_out(precoder_bits: &[u8; CODERS], first: usize) -> u8x16
    requires first { first < FIELD_PACKETS }
    requires small_bits { EachIndex precoder_bits.now (λ e. slice_index precoder_bits.now e < 2) }
    ensures long { length result ≡ LANES }
    ensures small { EachIndex result (λ p. slice_index result p < 8) }
    ensures precoder_bits { (p : ℕ) → p < CODERS
        → slice_index result p ≡ 4 * slice_index precoder_bits.now ((p + 4 * (first % 3)) % CODERS) }
{
    let mut lanes = [0u8; LANES];
    for p in 0..CODERS {
        lanes[p] = 4 * precoder_bits[(p + 4 * (first % 3)) % CODERS];
    }
    u8x16::from_array(lanes)
}

/// Z2 of each coder in the last round.
pub(crate) fn last_precoder_bits(first: usize, levels: &[u8; GROUP_LEVELS]) -> [u8; CODERS]
    requires first { first < FIELD_PACKETS }
    requires small { EachIndex levels.now (λ d. slice_index levels.now d < 8) }
    ensures long { length result ≡ CODERS }
    ensures precoder_bits { (precoder_bits : List ℕ) (e : ℕ) → e < CODERS
        → slice_index result e ≡ precoder_bit first precoder_bits levels.now ROUNDS e }
    ensures small { EachIndex result (λ e. slice_index result e < 2) }
{
    let mut precoder_bits = [0u8; CODERS];
    for e in 0..CODERS {
        // The coders stand as in the first segment, from which the last is three on.
        let place = (e + CODERS - 4 * (first % 3)) % CODERS;
        precoder_bits[e] = levels[GROUP_LEVELS - CODERS + place] / 4;
    }
    precoder_bits
}
