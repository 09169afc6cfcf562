//! How long the whole outer coding takes.

use crate::times::{Line, Work, print_least};
use crate::work::{DATA, WORD, add};
use dtx_outer::Outer;
use dtx_rs::Rs;
use dtx_sizes::FIELD_PACKETS;
use dtx_spread::Branches;
use dtx_whiten::Atsc;
use std::alloc::Global;
use std::io;
use std::rt::Clock;

static OUTER: Line = Line {
    name: "outer",
    piece: "packet",
    pieces: FIELD_PACKETS as u32,
};

#[derive(Drop)]
struct Coding {
    outer: Outer<Atsc, Rs<WORD, DATA>, Branches<52, 4>, WORD, DATA, 52, 4>,
    head: [u8; DATA],
}

impl Work for Coding {
    fn round(&mut self) -> u8 {
        let mut out = [0; WORD];
        for place in 0..FIELD_PACKETS as usize {
            self.outer.code(place, &self.head, &mut out);
            add(&mut self.head, &out);
        }
        out[0]
    }
}

pub fn print_outer_times(rt: &(impl Clock + Print), alloc: Global) -> io::Result<()> {
    let mut work = Coding {
        outer: Outer::new(Atsc::new(alloc)?, Rs::new(), Branches::new(alloc)?),
        head: [1; DATA],
    };
    print_least(rt, &OUTER, &mut work)
}
