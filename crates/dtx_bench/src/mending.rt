//! How long a word takes of which twenty bytes are missing, beside one of which ten are wrong.

use crate::correcting::{CODEWORDS, Correction, WORDS, codewords, print_corrected};
use crate::times::{Line, Work, print_least};
use crate::work::{DATA, WORD};
use dtx_erase::Erase;
use dtx_fast::Fast;
use std::io;
use std::rt::Clock;

/// The line beside which it is measured, and how many bytes are wrong there: as many as can be put right.
const CORRECT: [(&str, usize); 1] = [("correct", 10)];

static MEND: Line = Line {
    name: "mend",
    piece: "word",
    pieces: WORDS,
};

/// How many bytes are missing and wrong: as many as can be put right.
const MISSING: usize = 20;

#[derive(Drop)]
struct Mending {
    code: Erase<WORD, DATA>,
    codewords: [[u8; WORD]; CODEWORDS],
}

impl Work for Mending {
    fn round(&mut self) -> u8 {
        let mut changed = 0u8;
        for i in 0..WORDS {
            let mut word = self.codewords[i as usize % CODEWORDS];
            let marks = lose(&mut word, i as usize);
            if let Ok(places) = self.code.mend(&mut word, &marks) {
                changed = changed.wrapping_add(places ^ word[0]);
            }
        }
        changed
    }
}

/// Marks twenty places, and makes the bytes there wrong.
fn lose(word: &mut [u8; WORD], number: usize) -> [bool; WORD] {
    let start = number % 8;
    let mut marks = [false; WORD];
    for i in 0..MISSING {
        word[start + 10 * i] ^= (8 * i + start) as u8 | 1;
        marks[start + 10 * i] = true;
    }
    marks
}

pub fn print_mend_times(rt: &(impl Clock + Print)) -> io::Result<()> {
    print_corrected(rt, &CORRECT, &mut Correction::new(Fast::new()))?;
    let mut mending = Mending {
        code: Erase::new(),
        codewords: codewords(),
    };
    print_least(rt, &MEND, &mut mending)
}
