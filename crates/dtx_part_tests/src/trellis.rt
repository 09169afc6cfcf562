// Worked groups of one byte alone.

ghost use Rattle.std.specs.Prelude.{◌≡◌, ◌%◌, ◌<◌};

use crate::expect::expect_none;
use dtx_sizes::{
    CODERS, FIELD_PACKETS, GROUP_BYTES, GROUP_LEVELS, GROUP_SYMBOLS, SEGMENT_LEVELS, SEGMENT_SYNC,
};
use dtx_trellis::{States, Twelve};

/// The coders, of which one is in a state of its own, and the levels that they give for one byte that isn't 0.
fn coded(
    first: u16,
    coder: usize,
    state: u8,
    byte: usize,
    value: u8,
) -> (Twelve, [u8; GROUP_LEVELS])
    requires in_field { first < FIELD_PACKETS }
    requires whole { first % 4 ≡ 0 }
    requires coder { coder < CODERS }
    requires state { state < 8 }
    requires byte { byte < GROUP_BYTES }
{
    let mut states = [0; CODERS];
    states[coder] = state;
    let mut coders = Twelve::new();
    coders.set(States(states));
    let mut bytes = [0; GROUP_BYTES];
    bytes[byte] = value;
    let mut symbols = [0; GROUP_SYMBOLS];
    coders.group(first, &bytes, &mut symbols);
    (coders, sent(&symbols))
}

/// The levels of a group's data symbols.
fn sent(symbols: &[i8; GROUP_SYMBOLS]) -> [u8; GROUP_LEVELS] {
    let mut levels = [0; GROUP_LEVELS];
    for d in 0..GROUP_LEVELS {
        let place = d + SEGMENT_SYNC * (d / SEGMENT_LEVELS + 1);
        levels[d] = symbols[place].cast_unsigned().wrapping_add(7) / 2;
    }
    levels
}

/// Where the first symbol of a set lower bit stands.
fn first_set(levels: &[u8; GROUP_LEVELS]) -> Option<usize> {
    for (symbol, level) in levels.iter().enumerate() {
        if *level % 4 >= 2 {
            return Some(symbol);
        }
    }
    None
}

/// Where a group begins, a coder, the byte and its value, and the first symbol of the coder's.
type Row = (u16, usize, usize, u8, usize);

// The coder of each is in state 4, so that its symbol is 6 and not 2.
const BEGINNINGS: [Row; 5] = [
    (0, 0, 0, 0x40, 0),
    (0, 4, 208, 0x10, 828),
    (0, 8, 412, 0x04, 1656),
    (0, 0, 616, 0x01, 2484),
    (4, 4, 0, 0x40, 0),
];

/// Whether that coder's symbol for the byte stands there.
fn begins(row: &Row) -> bool {
    let (first, coder, byte, value, place) = *row;
    if first >= FIELD_PACKETS || first % 4 != 0 || coder >= CODERS || byte >= GROUP_BYTES {
        return false;
    }
    let (_, levels) = coded(first, coder, 4, byte, value);
    first_set(&levels) == Some(place) && levels[place % GROUP_LEVELS] == 6
}

#[test]
fn a_segment_begins_with_its_coder_byte_and_bits(rt: HostRuntime) {
    for row in &BEGINNINGS {
        assert!(rt; begins(row), "at {}", row.4);
    }
}

/// What a coder gives: its place among twelve in each of the four segments, and the round before which its levels are
/// 0. Then the level in this round, and those in even and in odd rounds behind it.
struct Given {
    places: [usize; 4],
    from: usize,
    first: u8,
    behind: [u8; 2],
}

/// The level at a place.
fn level(given: &Given, symbol: usize) -> u8 {
    let round = symbol / 12;
    if symbol % 12 != given.places[symbol / 828 % 4] || round < given.from {
        0
    } else if round == given.from {
        given.first
    } else {
        given.behind[round % 2]
    }
}

/// The first symbol that isn't given.
fn first_wrong(levels: &[u8; GROUP_LEVELS], given: &Given) -> Option<usize> {
    for (symbol, found) in levels.iter().enumerate() {
        if *found != level(given, symbol) {
            return Some(symbol);
        }
    }
    None
}

/// Coder 4, whose byte has its first pair in round 68, the last of a segment.
const ACROSS: Given = Given {
    places: [4, 0, 8, 4],
    from: 68,
    first: 4,
    behind: [4, 4],
};

#[test]
fn a_byte_goes_on_across_a_segments_edge(rt: HostRuntime) {
    let (_, levels) = coded(0, 0, 0, 208, 0x80);
    expect_none(&rt, first_wrong(&levels, &ACROSS));
}

/// Coder 0.
const EVERY_OTHER: Given = Given {
    places: [0, 8, 4, 0],
    from: 0,
    first: 2,
    behind: [0, 1],
};

#[test]
fn a_lower_bit_comes_back_in_every_other_round(rt: HostRuntime) {
    let (coders, levels) = coded(0, 0, 0, 0, 0x40);
    expect_none(&rt, first_wrong(&levels, &EVERY_OTHER));
    assert!(rt; coders.states().0 == [1, 0, 0, 0, 0, 0, 0, 0, 0, 0, 0, 0]);
}
