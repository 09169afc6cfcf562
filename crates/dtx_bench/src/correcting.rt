//! How long the correctors take for words in which so many bytes are wrong, beside the encoder.

use crate::encoding::print_one_times;
use crate::times::{Line, Work, print_least};
use crate::work::{DATA, WORD};
use dtx_correct::Linear;
use dtx_fast::Fast;
use dtx_laws::{Correct, Encode};
use dtx_rs::Rs;
use std::io;
use std::rt::Clock;

/// How many codewords are corrected in turn.
pub const CODEWORDS: usize = 8;

/// How many words a round has.
pub const WORDS: u32 = 200;

/// The linear corrector's lines, each with how many bytes of a word are wrong.
const LINEAR: [(&str, usize); 2] = [("linear 0 wrong:", 0), ("linear 10 wrong:", 10)];

/// The faster corrector's: the last is more than can be put right.
const FAST: [(&str, usize); 6] = [
    ("fast 0 wrong:", 0),
    ("fast 1 wrong:", 1),
    ("fast 4 wrong:", 4),
    ("fast 7 wrong:", 7),
    ("fast 10 wrong:", 10),
    ("fast 11 wrong:", 11),
];

#[derive(Drop)]
pub struct Correction<C> {
    code: C,
    codewords: [[u8; WORD]; CODEWORDS],
    wrong: usize,
}

impl<C> Correction<C> {
    pub fn new(code: C) -> Self {
        Correction {
            code,
            codewords: codewords(),
            wrong: 0,
        }
    }
}

impl<C: Correct<WORD, DATA>> Work for Correction<C> {
    /// How many places are changed, modulo 256.
    fn round(&mut self) -> u8 {
        let mut changed = 0u8;
        for i in 0..WORDS {
            let mut word = self.codewords[i as usize % CODEWORDS];
            damage(&mut word, i as usize, self.wrong);
            if let Ok(places) = self.code.correct(&mut word) {
                changed = changed.wrapping_add(places);
            }
            changed = changed.wrapping_add(word[0]);
        }
        changed
    }
}

pub fn print_correct_times(rt: &(impl Clock + Print)) -> io::Result<()> {
    print_one_times(rt)?;
    print_corrected(rt, &LINEAR, &mut Correction::new(Linear::new()))?;
    print_corrected(rt, &FAST, &mut Correction::new(Fast::new()))
}

/// Prints how long a corrector takes, a line for each number of wrong bytes.
pub fn print_corrected<C: Correct<WORD, DATA>>(
    rt: &(impl Clock + Print),
    lines: &[(&'static str, usize)],
    work: &mut Correction<C>,
) -> io::Result<()> {
    for (name, wrong) in lines {
        work.wrong = *wrong;
        let line = Line {
            name,
            piece: "word",
            pieces: WORDS,
        };
        print_least(rt, &line, work)?;
    }
    Ok(())
}

pub fn codewords() -> [[u8; WORD]; CODEWORDS] {
    let code = Rs::<WORD, DATA>::new();
    let mut codewords = [[0; WORD]; CODEWORDS];
    for i in 0..CODEWORDS {
        code.encode(&[i as u8; DATA], &mut codewords[i]);
    }
    codewords
}

/// Makes so many bytes wrong, at most twelve, at places and by values that go with the word's number.
fn damage(word: &mut [u8; WORD], number: usize, wrong: usize) {
    let start = number % 16;
    for i in 0..wrong.min(12) {
        word[start + 17 * i] ^= (16 * i + start) as u8 | 1;
    }
}
