// The standard's sequences in syncs of both fields, a segment of every level, and syncs with wrong symbols.

use crate::expect::expect_none;
use dtx_frame::{data_segment, field_sync, is_second, looks};
use dtx_sizes::{PRECODE, SEGMENT, SEGMENT_LEVELS};

/// Whether these bits stand from that place on.
fn has_bits(symbols: &[i8; SEGMENT], place: usize, bits: &[u8]) -> bool {
    for (i, bit) in bits.iter().enumerate() {
        let symbol = if *bit == b'1' { 5 } else { -5 };
        if symbols[place.wrapping_add(i) % SEGMENT] != symbol {
            return false;
        }
    }
    true
}

/// The short sequence, all 63 bits of it (ATSC A/53 Part 2, data field sync).
const SHORT: &[u8] = b"111001001011011101100110101011111100000100001100010100111101000";

/// The same, inverted.
const INVERTED: &[u8] = b"000110110100100010011001010100000011111011110011101011000010111";

/// Bits of the sync of a second field or of a first, and where they stand. The middle one of three short sequences is
/// inverted in a second field, and no other.
const BITS: [(bool, usize, &[u8]); 11] = [
    (false, 0, b"1001000000010111111111001010"),
    (false, 515, SHORT),
    (false, 578, SHORT),
    (false, 641, SHORT),
    (false, 704, b"0000111100001111010110101110010010110111"),
    (false, 791, b"1110010010110111"),
    (true, 0, b"1001000000010111111111001010"),
    (true, 515, SHORT),
    (true, 578, INVERTED),
    (true, 641, SHORT),
    (true, 704, b"0000111100001111010110101110010010110111"),
];

/// The last symbols of these syncs.
const LAST: [i8; PRECODE] = [-7, -5, -3, -1, 1, 3, 5, 7, -7, -5, -3, -1];

/// The first of these rows that isn't so, in a sync that ends with the last symbols.
fn first_wrong() -> Option<usize> {
    for (row, (second, place, bits)) in BITS.iter().enumerate() {
        let mut out = [0; SEGMENT];
        field_sync(*second, &LAST, &mut out);
        if !has_bits(&out, *place, bits) || !out.ends_with(&LAST) {
            return Some(row);
        }
    }
    None
}

#[test]
fn a_field_sync_has_the_standards_sequences_and_a_second_fields_middle_one_is_inverted(
    rt: HostRuntime,
) {
    expect_none(&rt, first_wrong());
}

#[test]
fn each_level_has_its_symbol(rt: HostRuntime) {
    let symbols = [-7, -5, -3, -1, 1, 3, 5, 7];
    for level in 0..8usize {
        let mut out = [0; SEGMENT];
        data_segment(&[level as u8; SEGMENT_LEVELS], &mut out);
        let symbol = symbols[level];
        assert!(rt; out.starts_with(&[5, -5, -5, 5, symbol]) && out[831] == symbol);
    }
}

/// The sync of a first field, of whose symbols those from place `from` on have the wrong sign, `count` of them or as
/// many as there are.
fn with_wrong(from: usize, count: usize) -> [i8; SEGMENT] {
    let mut out = [0; SEGMENT];
    field_sync(false, &[-7; PRECODE], &mut out);
    for i in 0..SEGMENT {
        if from <= i && i - from < count {
            out[i] = if out[i] < 0 { 127 } else { -128 };
        }
    }
    out
}

/// From where on how many symbols have the wrong sign, and whether that looks like a sync.
const LOOKS: [(usize, usize, bool); 5] = [
    (483, 32, true),
    (482, 33, false),
    (515, 300, true),
    (0, 32, true),
    (0, 33, false),
];

fn first_wrong_look() -> Option<usize> {
    for (row, (from, count, like)) in LOOKS.iter().enumerate() {
        if looks(&with_wrong(*from, *count)) != *like {
            return Some(row);
        }
    }
    None
}

#[test]
fn a_sync_with_32_wrong_symbols_looks_like_one_and_with_33_it_does_not_and_the_segment_syncs_four_count_too(
    rt: HostRuntime,
) {
    expect_none(&rt, first_wrong_look());
}

/// From where on how many symbols have the wrong sign, and whether that is a sync of a second field.
const SECOND: [(usize, usize, bool); 4] = [
    (578, 31, false),
    (578, 32, true),
    (609, 32, true),
    (610, 222, false),
];

fn first_wrong_second() -> Option<usize> {
    for (row, (from, count, second)) in SECOND.iter().enumerate() {
        if is_second(&with_wrong(*from, *count)) != *second {
            return Some(row);
        }
    }
    None
}

#[test]
fn a_sync_is_of_a_second_field_from_32_inverted_symbols_on(rt: HostRuntime) {
    expect_none(&rt, first_wrong_second());
}
