//! The pins of the known bytes of a field.

ghost use Rattle.std.specs.Prelude.{◌≡◌, ℕ, ◌+◌, ◌-◌, ◌*◌, ◌/◌, ◌%◌, ◌<◌, ◌≤◌, None, [], length, slice_index};
ghost use Rattle.std.specs.Prelude.{option_map, slice_index_or, unwrap_or};
ghost use Rattle.dtx_trellis.specs.Trellis.{pair_in};
ghost use Rattle.dtx_rounds.specs.Known.{field_pins, pin_of};

use crate::field::{BYTES, WORDS};
use dtx_pins::NO_PIN;
use dtx_sizes::{CODERS, SEGMENT_ROUNDS};

/// Writes the pins of a field's first steps, four of which take a byte of each coder.
pub(crate) fn put_pins(known: &[Option<u8>], pins: &mut [[u16; CODERS]])
    requires known { length known.now ≡ BYTES }
    requires few { length pins.old ≤ SEGMENT_ROUNDS * WORDS }
    requires whole { length pins.old ≡ 4 * (length pins.old / 4) }
    ensures pins { pins.new ≡ field_pins known.now 0 (length pins.old) }
    ensures long { length pins.new ≡ length pins.old }
{
    for b in 0..pins.len() / 4 {
        put_row(
            &known[CODERS * b..CODERS * b + CODERS],
            4 * (4 * b / SEGMENT_ROUNDS % 3),
            &mut pins[4 * b..4 * b + 4],
        );
    }
}

/// Writes the pins of the four steps in which the coders work on twelve bytes. The first byte is that of coder `turn`.
fn put_row(known: &[Option<u8>], turn: usize, pins: &mut [[u16; CODERS]])
    requires known { length known.now ≡ CODERS }
    requires turn { turn < CODERS }
    requires room { length pins.old ≡ 4 }
    ensures pins { (i e : ℕ) → i < 4 → e < CODERS → slice_index (slice_index_or pins.new i []) e
        ≡ pin_of (slice_index_or known.now ((e + CODERS - turn) % CODERS) None) i }
    ensures rows { (i : ℕ) → i < 4 → length (slice_index_or pins.new i []) ≡ CODERS }
{
    let mut bytes = [0; CODERS];
    let mut unknown = [0; CODERS];
    read_known(known, &mut bytes, &mut unknown);
    let first = CODERS - turn;
    put_pairs(
        &twice(&bytes)[first..first + CODERS],
        &twice(&unknown)[first..first + CODERS],
        pins,
    );
}

/// Parts twelve bytes in two rows: the known bytes, with 0 where none is known, and `NO_PIN` there, with 0 elsewhere.
/// It isn't inlined, so that the rows stand in memory. From there they are read in one go.
#[inline(never)]
fn read_known(known: &[Option<u8>], bytes: &mut [u8; CODERS], unknown: &mut [u8; CODERS])
    requires { length known.now ≡ CODERS }
    ensures bytes { (e : ℕ) → e < CODERS → slice_index bytes.new e
        ≡ unwrap_or (slice_index_or known.now e None) 0 }
    ensures unknown { (e : ℕ) → e < CODERS → slice_index unknown.new e
        ≡ unwrap_or (option_map (λ byte. 0) (slice_index_or known.now e None)) 4 }
{
    *bytes = [0; CODERS];
    *unknown = [NO_PIN as u8; CODERS];
    for e in 0..CODERS {
        if let Some(byte) = known[e] {
            bytes[e] = byte;
            unknown[e] = 0;
        }
    }
}

/// A row twice, one behind the other. Then the row that begins at any place of it is a part.
#[inline(always)]
fn twice(row: &[u8; CODERS]) -> [u8; 2 * CODERS]
    ensures { (n : ℕ) → n < 2 * CODERS → slice_index result n ≡ slice_index row.now (n % CODERS) }
{
    let mut both = [0; 2 * CODERS];
    for n in 0..2 * CODERS {
        both[n] = row[n % CODERS];
    }
    both
}

/// Writes the pins of the four pairs of twelve bytes.
#[inline(always)]
fn put_pairs(bytes: &[u8], unknown: &[u8], pins: &mut [[u16; CODERS]])
    requires bytes { length bytes.now ≡ CODERS }
    requires unknown { length unknown.now ≡ CODERS }
    requires most { (e : ℕ) → e < CODERS → slice_index unknown.now e ≤ NO_PIN }
    requires room { length pins.old ≡ 4 }
    ensures pins { (i e : ℕ) → i < 4 → e < CODERS → slice_index (slice_index_or pins.new i []) e
        ≡ pair_in (slice_index bytes.now e) i + slice_index unknown.now e }
    ensures rows { (i : ℕ) → i < 4 → length (slice_index_or pins.new i []) ≡ CODERS }
{
    pins[0] = pairs(bytes, unknown, 64);
    pins[1] = pairs(bytes, unknown, 16);
    pins[2] = pairs(bytes, unknown, 4);
    pins[3] = pairs(bytes, unknown, 1);
}

/// The pins of one pair of each byte: the pair that `divisor` shifts to the low end.
#[inline(always)]
fn pairs(bytes: &[u8], unknown: &[u8], divisor: u8) -> [u16; CODERS]
    requires bytes { length bytes.now ≡ CODERS }
    requires unknown { length unknown.now ≡ CODERS }
    requires most { (e : ℕ) → e < CODERS → slice_index unknown.now e ≤ NO_PIN }
    requires divisor { 0 < divisor }
    ensures { (e : ℕ) → e < CODERS → slice_index result e
        ≡ slice_index bytes.now e / divisor % 4 + slice_index unknown.now e }
{
    let mut row = [0; CODERS];
    for e in 0..CODERS {
        row[e] = (bytes[e] / divisor % 4 + unknown[e]) as u16;
    }
    row
}
