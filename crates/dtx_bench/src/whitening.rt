//! How long whitening takes.

ghost use Rattle.std.specs.Prelude.{◌+◌, ◌≤◌};

use crate::times::{Line, Work, print_least};
use crate::work::DATA;
use dtx_laws::Whitener;
use dtx_sizes::FIELD_PACKETS;
use dtx_whiten::Atsc;
use std::alloc::Global;
use std::io;
use std::rt::Clock;

/// How many fields of packets a round whitens.
const FIELDS: u32 = 4;

/// How many packets a round whitens.
const PACKETS: u32 = FIELDS * FIELD_PACKETS as u32;

static WHITEN: Line = Line {
    name: "whiten",
    piece: "packet",
    pieces: PACKETS,
};

#[derive(Drop)]
struct Whitening {
    whitener: Atsc,
    head: [u8; DATA],
}

impl Work for Whitening {
    fn round(&mut self) -> u8 {
        for _ in 0..FIELDS {
            for place in 0..FIELD_PACKETS as usize {
                self.head = whiten(&self.whitener, DATA * place, &self.head);
            }
        }
        self.head[0]
    }
}

/// The data with the whitener's bytes from `from` on added, as the outer coding does it.
fn whiten<W: Whitener, const K: usize>(whitener: &W, from: usize, head: &[u8; K]) -> [u8; K]
    requires { from + K ≤ W.PERIOD }
{
    let mut white = *head;
    for i in 0..K {
        white[i] ^= whitener.byte(from + i);
    }
    white
}

pub fn print_whiten_times(rt: &(impl Clock + Print), alloc: Global) -> io::Result<()> {
    let mut work = Whitening {
        whitener: Atsc::new(alloc)?,
        head: [1; DATA],
    };
    print_least(rt, &WHITEN, &mut work)
}
