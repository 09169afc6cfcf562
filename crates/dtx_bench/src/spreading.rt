//! How long interleaving takes.

use crate::times::{Line, Work, print_least};
use crate::work::WORD;
use dtx_laws::Spread;
use dtx_spread::Branches;
use std::alloc::Global;
use std::io;
use std::rt::Clock;

/// How many codewords a round passes.
const PASSED: u32 = 1_000;

static SPREAD: Line = Line {
    name: "spread",
    piece: "packet",
    pieces: PASSED,
};

#[derive(Drop)]
struct Spreading {
    branches: Branches<52, 4>,
    word: [u8; WORD],
}

impl Work for Spreading {
    fn round(&mut self) -> u8 {
        for _ in 0..PASSED {
            self.branches.pass(&mut self.word);
        }
        self.word[0]
    }
}

pub fn print_spread_times(rt: &(impl Clock + Print), alloc: Global) -> io::Result<()> {
    let mut work = Spreading {
        word: numbered(),
        branches: Branches::new(alloc)?,
    };
    print_least(rt, &SPREAD, &mut work)
}

/// A word in which each byte is the number of its place.
fn numbered() -> [u8; WORD] {
    let mut word = [0; WORD];
    for i in 0..WORD {
        word[i] = i as u8;
    }
    word
}
