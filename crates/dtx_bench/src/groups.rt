//! How long the trellis coders take.

use crate::times::{Line, Work, print_least};
use dtx_sizes::{CODERS, FIELD_PACKETS, GROUP_BYTES, GROUP_SYMBOLS, SEGMENT_SYNC};
use dtx_trellis::Twelve;
use std::io;
use std::rt::Clock;

/// How many groups a round codes: those of a field.
const GROUPS: u16 = FIELD_PACKETS / 4;

static TRELLIS: Line = Line {
    name: "trellis",
    piece: "group",
    pieces: GROUPS as u32,
};

#[derive(Drop)]
struct Groups {
    coders: Twelve,
    bytes: [u8; GROUP_BYTES],
    symbols: [i8; GROUP_SYMBOLS],
}

impl Work for Groups {
    fn round(&mut self) -> u8 {
        for group in 0..GROUPS {
            self.coders.group(4 * group, &self.bytes, &mut self.symbols);
            for i in 0..CODERS {
                self.bytes[i] ^= level(self.symbols[GROUP_SYMBOLS - CODERS + i]);
            }
        }
        level(self.symbols[SEGMENT_SYNC])
    }
}

/// The level of a symbol.
fn level(symbol: i8) -> u8 {
    symbol.cast_unsigned().wrapping_add(7) / 2
}

pub fn print_trellis_times(rt: &(impl Clock + Print)) -> io::Result<()> {
    let mut bytes = [0; GROUP_BYTES];
    for i in 0..GROUP_BYTES {
        bytes[i] = (i % 251) as u8;
    }
    let mut work = Groups {
        coders: Twelve::new(),
        bytes,
        symbols: [0; GROUP_SYMBOLS],
    };
    print_least(rt, &TRELLIS, &mut work)
}
