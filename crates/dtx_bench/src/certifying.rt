//! How long it takes to test the certificate of a least path over the symbols that a trellis coder has in a field.

use crate::times::{Line, Work, print_least};
use dtx_soft::{MAX_SYMBOLS, Soft, proves};
use std::alloc::Global;
use std::io;
use std::rt::Clock;

static PROVES: Line = Line {
    name: "proves",
    piece: "symbol",
    pieces: MAX_SYMBOLS as u32,
};

#[derive(Drop)]
struct Certificate {
    symbols: [i8; MAX_SYMBOLS],
    levels: [u8; MAX_SYMBOLS],
    soft: Soft,
    start: u8,
}

impl Work for Certificate {
    fn round(&mut self) -> u8 {
        proves(
            &self.symbols,
            self.start,
            &self.levels,
            self.soft.potentials(),
        ) as u8
    }
}

pub fn print_proves_times(rt: &(impl Clock + Print), alloc: Global) -> io::Result<()> {
    let mut work = Certificate {
        symbols: symbols(),
        levels: [0; MAX_SYMBOLS],
        start: 0,
        soft: Soft::new(alloc)?,
    };
    work.start = start_of(&mut work.soft, &work.symbols, &mut work.levels);
    print_least(rt, &PROVES, &mut work)
}

/// Writes the levels of the least path, and answers its start.
fn start_of(soft: &mut Soft, symbols: &[i8; MAX_SYMBOLS], levels: &mut [u8; MAX_SYMBOLS]) -> u8 {
    soft.best(symbols, levels).start
}

/// Symbols that take turns, from -8 to 7.
fn symbols() -> [i8; MAX_SYMBOLS] {
    let mut symbols = [0; MAX_SYMBOLS];
    for t in 0..MAX_SYMBOLS {
        symbols[t] = (t % 251 % 16) as i8 - 8;
    }
    symbols
}
