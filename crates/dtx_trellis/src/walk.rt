//! Codes the bytes of a group, with the coders side by side.

ghost use Rattle.std.specs.Prelude.{◌≡◌, ℕ, ◌+◌, ◌-◌, ◌*◌, ◌/◌, ◌<◌, ◌≤◌, List, length, pos, slice_index};
ghost use Rattle.std.specs.Prelude.{slice_index_or};
ghost use Rattle.dtx_trellis.specs.Trellis.{number_of, symbol_of};
ghost use Rattle.dtx_trellis.specs.Groups.{AreSent, coder_after};
ghost use Rattle.dtx_trellis.specs.Lanes.{AreNibbles, AreReady, HoldsStates, StandsAt, level_told, place_behind, turn};

use crate::lanes::{LANES, doubled, lower, moved_on, two_pairs, upper};
use dtx_sizes::{
    CODER_BYTES, CODERS, FIELD_PACKETS, GROUP_BYTES, GROUP_LEVELS, GROUP_PACKETS, GROUP_SYMBOLS,
    ROUNDS, SEGMENT_ROUNDS, SEGMENT_SYNC,
};
use std::simd::prelude::*;

/// The last byte of a coder.
const LAST_BYTE: usize = CODER_BYTES - 1;

/// The last round of a group.
const LAST_ROUND: usize = ROUNDS - 1;

/// The number of a coder's bytes from one in which a segment begins to the next one. No segment begins in its last
/// byte, which stands behind the four stretches.
const STRETCH: usize = SEGMENT_ROUNDS / 4;

/// Codes a group from these states. It writes the group's symbols, each at its place, and returns the states after it.
pub(crate) fn walk(
    from: &[u8; CODERS],
    first: usize,
    bytes: &[u8; GROUP_BYTES],
    symbols: &mut [i8; GROUP_SYMBOLS],
) -> [u8; CODERS]
    requires { first < FIELD_PACKETS }
    ensures symbols { AreSent first from.now bytes.now GROUP_LEVELS symbols.new }
    ensures long { length result ≡ CODERS }
    ensures states { (e : ℕ) → e < CODERS
        → slice_index result e ≡ number_of (coder_after first from.now bytes.now ROUNDS e) }
{
    let mut lanes = laid_out(from, first);
    for segment in 0..GROUP_PACKETS {
        lanes = stretch(lanes, segment, bytes, symbols);
    }
    let last = edge_bytes(lanes, LAST_BYTE, bytes, symbols);
    numbers(last, first)
}

/// Codes the bytes from the one in which segment `segment` begins to the one in which the next begins.
#[inline(always)]
fn stretch(
    start: u8x16,
    segment: usize,
    bytes: &[u8; GROUP_BYTES],
    symbols: &mut [i8; GROUP_SYMBOLS],
) -> u8x16
    requires segment { segment < GROUP_PACKETS }
    requires nibbles { AreNibbles start }
    ensures nibbles { AreNibbles result }
    ensures stands { (s : ℕ) (states : List ℕ) → s < FIELD_PACKETS
        → StandsAt s states bytes.now (STRETCH * segment) start symbols.old
        → StandsAt s states bytes.now (STRETCH * (segment + 1)) result symbols.new }
{
    let mut lanes = edge_bytes(start, STRETCH * segment, bytes, symbols);
    for byte in STRETCH * segment + 1..STRETCH * (segment + 1) {
        lanes = inner_bytes(lanes, byte, segment, bytes, symbols);
    }
    lanes
}

/// Codes byte number `byte` of each coder, in four rounds. All four stand in segment `segment` and don't begin it.
#[inline(always)]
fn inner_bytes(
    start: u8x16,
    byte: usize,
    segment: usize,
    bytes: &[u8; GROUP_BYTES],
    symbols: &mut [i8; GROUP_SYMBOLS],
) -> u8x16
    requires segment { segment < GROUP_PACKETS }
    requires behind { STRETCH * segment < byte }
    requires before { byte < STRETCH * (segment + 1) }
    requires nibbles { AreNibbles start }
    ensures nibbles { AreNibbles result }
    ensures stands { (s : ℕ) (states : List ℕ) → s < FIELD_PACKETS
        → StandsAt s states bytes.now byte start symbols.old
        → StandsAt s states bytes.now (byte + 1) result symbols.new }
{
    let place = CODERS * (4 * byte) + SEGMENT_SYNC * (segment + 1);
    let later = place + 2 * CODERS;
    let loaded = load(bytes, byte);
    let middle = two_rounds(start, upper(loaded), false, place, symbols);
    two_rounds(middle, lower(loaded), false, later, symbols)
}

/// Codes byte number `byte` of each coder, in four rounds. A segment may begin with one of them.
fn edge_bytes(
    start: u8x16,
    byte: usize,
    bytes: &[u8; GROUP_BYTES],
    symbols: &mut [i8; GROUP_SYMBOLS],
) -> u8x16
    requires byte { byte < CODER_BYTES }
    requires nibbles { AreNibbles start }
    ensures nibbles { AreNibbles result }
    ensures stands { (s : ℕ) (states : List ℕ) → s < FIELD_PACKETS
        → StandsAt s states bytes.now byte start symbols.old
        → StandsAt s states bytes.now (byte + 1) result symbols.new }
{
    // Of the rounds in which a segment begins, one is the second of its byte, one the third and one the fourth.
    let round = 4 * byte;
    let second = round + 1 == SEGMENT_ROUNDS;
    let third = round + 2 == 2 * SEGMENT_ROUNDS;
    let fourth = round + 3 == 3 * SEGMENT_ROUNDS;
    let place = CODERS * round + SEGMENT_SYNC * (round / SEGMENT_ROUNDS + 1);
    let later = next_place(next_place(place, second), third);
    let loaded = load(bytes, byte);
    let pairs = upper(loaded);
    let middle = two_rounds(start, pairs, second, place, symbols);
    let middle = moved_on(middle, third);
    let turned = moved_on(moved_on(loaded, second), third);
    let pairs = lower(turned);
    two_rounds(middle, pairs, fourth, later, symbols)
}

/// Writes the symbols of two rounds, the first from `place` on, and returns the lanes after them. A segment may begin
/// between the two.
#[inline(always)]
fn two_rounds(
    lanes: u8x16,
    pairs: u8x16,
    begins_segment: bool,
    place: usize,
    symbols: &mut [i8; GROUP_SYMBOLS],
) -> u8x16
    requires lanes { AreNibbles lanes }
    requires pairs { AreNibbles pairs }
    requires place { place_behind place begins_segment + CODERS ≤ GROUP_SYMBOLS }
    ensures nibbles { AreNibbles result }
    ensures coded { (s r : ℕ) (states bytes : List ℕ)
        → AreReady s states bytes r begins_segment place lanes pairs symbols.old
        → HoldsStates s states bytes (r + 2) (turn s (r + 1)) result
        × AreSent s states bytes (CODERS * (r + 2)) symbols.new }
{
    let both = two_pairs(lanes, pairs);
    store(symbols, place, upper(both));
    let behind = moved_on(lower(both), begins_segment);
    store(symbols, next_place(place, begins_segment), behind);
    behind
}

/// Where the symbols of the next round begin. If that round begins a segment, a sync stands in between.
#[inline(always)]
fn next_place(place: usize, begins_segment: bool) -> usize
    requires { place < GROUP_SYMBOLS }
    ensures { result ≡ place_behind place begins_segment }
{
    if begins_segment {
        place + CODERS + SEGMENT_SYNC
    } else {
        place + CODERS
    }
}

/// Byte `byte` of each coder, in the lane of the coder's place.
#[inline(always)]
fn load(bytes: &[u8; GROUP_BYTES], byte: usize) -> u8x16
    requires { byte < CODER_BYTES }
    ensures long { length result ≡ LANES }
    ensures bytes { (p : ℕ) → p < CODERS → slice_index result p ≡ slice_index bytes.now (CODERS * byte + p) }
{
    if byte < LAST_BYTE {
        u8x16::from_slice(&bytes[CODERS * byte..])
    } else {
        load_last(bytes)
    }
}

/// The last byte of each coder.
fn load_last(bytes: &[u8; GROUP_BYTES]) -> u8x16
    ensures long { length result ≡ LANES }
    ensures bytes { (p : ℕ) → p < CODERS → slice_index result p ≡ slice_index bytes.now (CODERS * LAST_BYTE + p) }
{
    let last = u8x16::from_slice(&bytes[GROUP_BYTES - LANES..]);
    last.swizzle([4, 5, 6, 7, 8, 9, 10, 11, 12, 13, 14, 15, 0, 1, 2, 3])
}

/// Writes twelve symbols from `place` on, each twice the level of its lane, less 7. The symbols behind them may change.
#[inline(always)]
fn store(symbols: &mut [i8; GROUP_SYMBOLS], place: usize, lanes: u8x16)
    requires place { place + CODERS ≤ GROUP_SYMBOLS }
    requires lanes { AreNibbles lanes }
    ensures symbols { (p : ℕ) → p < CODERS
        → slice_index_or symbols.new (place + p) (pos 0) ≡ symbol_of (level_told (slice_index lanes p)) }
    ensures before { (i : ℕ) → i < place
        → slice_index_or symbols.new i (pos 0) ≡ slice_index_or symbols.old i (pos 0) }
{
    let doubled = doubled(lanes);
    if place <= GROUP_SYMBOLS - LANES {
        let sent = doubled.cast::<i8>() - i8x16::splat(7);
        sent.copy_to_slice(&mut symbols[place..]);
    } else {
        store_last(symbols, place, doubled);
    }
}

/// Writes the twelve symbols of the last round.
fn store_last(symbols: &mut [i8; GROUP_SYMBOLS], place: usize, doubled: u8x16)
    requires place { place + CODERS ≤ GROUP_SYMBOLS }
    requires levels { (p : ℕ) → p < CODERS → slice_index doubled p / 2 < 8 }
    ensures symbols { (p : ℕ) → p < CODERS
        → slice_index_or symbols.new (place + p) (pos 0) ≡ symbol_of (slice_index doubled p / 2) }
    ensures before { (i : ℕ) → i < place
        → slice_index_or symbols.new i (pos 0) ≡ slice_index_or symbols.old i (pos 0) }
{
    let last = doubled.to_array();
    for p in 0..CODERS {
        let level = last[p] / 2;
        symbols[place + p] = 2 * level as i8 - 7;
    }
}

/// The coders' states, each in the lane of its place in the first round.
fn laid_out(from: &[u8; CODERS], first: usize) -> u8x16
    requires { first < FIELD_PACKETS }
    ensures { (bytes : List ℕ) → HoldsStates first from.now bytes 0 (turn first 0) result }
{
    let mut lanes = [0u8; LANES];
    for p in 0..CODERS {
        let state = from[(p + 4 * (first % 3)) % CODERS];
        lanes[p] = state % 8;
    }
    u8x16::from_array(lanes)
}

/// The states' numbers by coder, after the last round.
fn numbers(lanes: u8x16, first: usize) -> [u8; CODERS]
    requires first { first < FIELD_PACKETS }
    requires lanes { length lanes ≡ LANES }
    ensures long { length result ≡ CODERS }
    ensures numbers { (states bytes : List ℕ) → HoldsStates first states bytes ROUNDS (turn first LAST_ROUND) lanes
        → (e : ℕ) → e < CODERS → slice_index result e ≡ number_of (coder_after first states bytes ROUNDS e) }
{
    let last = lanes.to_array();
    let mut numbers = [0u8; CODERS];
    for e in 0..CODERS {
        numbers[e] = last[(e + CODERS - 4 * (first % 3)) % CODERS] % 8;
    }
    numbers
}
