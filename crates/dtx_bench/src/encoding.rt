//! How long the encoder takes, for one word and for four at once, and what its work gives.

use crate::times::{Line, Work, print_least};
use crate::work::{DATA, PARITY, WORD, complete_four, encode};
use dtx_rs::Rs;
use std::io;
use std::rt::Clock;

/// How many packets a round encodes one by one, and then how many times four packets.
const WORDS: u32 = 2_000;

/// After how many words, and after how many times four words, the parity bytes are printed.
const CHECKED: u32 = 1_000;

static ONE: Line = Line {
    name: "encode",
    piece: "packet",
    pieces: WORDS,
};

static FOUR: Line = Line {
    name: "complete_four",
    piece: "packet",
    pieces: 4 * WORDS,
};

#[derive(Drop)]
struct One {
    code: Rs<WORD, DATA>,
}

#[derive(Drop)]
struct Four {
    code: Rs<WORD, DATA>,
}

impl Work for One {
    fn round(&mut self) -> u8 {
        encode(&self.code, WORDS)[0]
    }
}

impl Work for Four {
    fn round(&mut self) -> u8 {
        let parities = complete_four(&self.code, WORDS);
        parities[0][0] ^ parities[3][0]
    }
}

pub fn print_one_times(rt: &(impl Clock + Print)) -> io::Result<()> {
    print_least(rt, &ONE, &mut One { code: Rs::new() })
}

pub fn print_encode_times(rt: &(impl Clock + Print)) -> io::Result<()> {
    print_one_times(rt)?;
    print_four_times(rt)
}

fn print_four_times(rt: &(impl Clock + Print)) -> io::Result<()> {
    print_least(rt, &FOUR, &mut Four { code: Rs::new() })
}

/// What is printed before the parity bytes of each word.
static BEFORE: [&str; 5] = ["encode ", " complete_four ", " ", " ", " "];

/// Prints what the encoder's work gives, in hexadecimal digits.
pub fn print_check(rt: &impl Print) -> io::Result<()> {
    let parities = checked();
    for i in 0..5 {
        rt.print(BEFORE[i])?;
        print_hex(rt, &parities[i])?;
    }
    rt.println("")
}

/// The parity bytes of the last of so many words, and of the last four.
fn checked() -> [[u8; PARITY]; 5] {
    let code = Rs::new();
    let [first, second, third, fourth] = complete_four(&code, CHECKED);
    [encode(&code, CHECKED), first, second, third, fourth]
}

fn print_hex(rt: &impl Print, bytes: &[u8]) -> io::Result<()> {
    for byte in bytes {
        print!(rt; "{byte:02x}")?;
    }
    Ok(())
}
