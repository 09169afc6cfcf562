//! The least time of many short rounds of work.

ghost use Rattle.std.specs.Prelude.{◌<◌};

use std::io;
use std::rt::Clock;
use std::time::Instant;

/// How often the work is measured; the least time counts.
const ROUNDS: u32 = 400;

/// What the line of a work tells beside the time: its name, what a piece is called, and how many pieces a round has.
#[derive(Drop)]
pub struct Line {
    pub name: &'static str,
    pub piece: &'static str,
    pub pieces: u32,
}

pub trait Work {
    /// A round's work. Gives a byte of what came of it, so that no part can be left out.
    fn round(&mut self) -> u8;
}

/// Prints the least time of a piece, of which a round has so many.
pub fn print_least(rt: &(impl Clock + Print), line: &Line, work: &mut impl Work) -> io::Result<()>
    requires { 0 < line.now.pieces }
{
    let mut least = u128::MAX;
    let mut sum = 0u8;
    for _ in 0..ROUNDS {
        let start = Instant::now(rt)?;
        sum = sum.wrapping_add(work.round());
        least = least.min(start.elapsed(rt)?.as_nanos());
    }
    let pieces = u128::from(line.pieces);
    let tenth = least % pieces * 10 / pieces;
    println!(rt;
        "{} {}.{tenth} ns a {}\nsum {sum}",
        line.name,
        least / pieces,
        line.piece
    )
}
