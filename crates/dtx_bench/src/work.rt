//! The work that is measured: each word's parity bytes are added to the next data, so that no word can be left out.

ghost use Rattle.std.specs.Prelude.{◌≡◌, length};

use dtx_laws::Encode;
use dtx_rs::Rs;

/// The bytes of a packet behind its sync byte.
pub const DATA: usize = 187;

/// The bytes of a codeword.
pub const WORD: usize = 207;

/// What is left of a codeword behind its data.
pub const PARITY: usize = WORD - DATA;

/// The parity bytes of the last of so many words, one after the other.
pub fn encode(code: &Rs<WORD, DATA>, words: u32) -> [u8; PARITY] {
    let mut head = [1; DATA];
    let mut word = [0; WORD];
    for _ in 0..words {
        code.encode(&head, &mut word);
        add(&mut head, &word);
    }
    parity(&word)
}

/// The parity bytes of the last four of so many words, which are completed four at once.
pub fn complete_four(code: &Rs<WORD, DATA>, fours: u32) -> [[u8; PARITY]; 4] {
    let mut words = [0; 4 * WORD];
    for p in 0..4 {
        words[WORD * p..WORD * p + DATA].fill(p as u8 + 1);
    }
    for _ in 0..fours {
        code.complete_four(&mut words);
        add_four(&mut words);
    }
    parities(&words)
}

/// Adds the parity bytes of four words, one behind the other, to the first bytes of their own data.
fn add_four(words: &mut [u8; 4 * WORD]) {
    for p in 0..4 {
        add_own(&mut words[WORD * p..WORD * p + WORD]);
    }
}

fn add_own(word: &mut [u8])
    requires { length word.old ≡ WORD }
{
    let (head, parity) = word.split_at_mut(DATA);
    for i in 0..PARITY {
        head[i] ^= parity[i];
    }
}

/// Adds the parity bytes to the first bytes of the data.
pub fn add(head: &mut [u8; DATA], word: &[u8; WORD]) {
    for i in 0..PARITY {
        head[i] ^= word[DATA + i];
    }
}

fn parities(words: &[u8; 4 * WORD]) -> [[u8; PARITY]; 4] {
    let mut parities = [[0; PARITY]; 4];
    for p in 0..4 {
        parities[p].copy_from_slice(&words[WORD * p + DATA..WORD * p + WORD]);
    }
    parities
}

fn parity(word: &[u8; WORD]) -> [u8; PARITY] {
    let mut parity = [0; PARITY];
    parity.copy_from_slice(&word[DATA..]);
    parity
}
