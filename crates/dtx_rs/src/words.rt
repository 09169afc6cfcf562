//! Registers as words of four bytes. The lowest byte of a word comes first, as in the memory of most machines.

ghost use Rattle.std.specs.Prelude.{◌≡◌, ◌∷◌, length};
ghost use Rattle.dtx_rs.specs.declared.words.TheConstants.{REST};
ghost use Rattle.dtx_rs.specs.Generator.{word_bytes};

use dtx_laws::PARITY;
use std::simd::prelude::*;

/// The number of bytes in a word, which one step takes.
pub const STEP: usize = 4;

/// The number of words of a register.
pub const WORDS: usize = 5;

/// The number of words of a register behind the first: they fill a vector.
pub const REST: usize = WORDS - 1;

/// The number of bytes of a register.
pub const WIDTH: usize = PARITY;

/// A register. Its first word, which is added to the next bytes, stands apart, since the others fill a vector.
#[derive(Clone, Copy, Drop)]
pub struct Split {
    /// The first word.
    pub first: u32,
    /// The words behind it.
    pub rest: u32x4,
}

/// The words of a row of a table behind its first.
#[derive(Clone, Copy, Drop)]
pub struct Rest {
    /// The four words, which fill a vector.
    pub words: u32x4,
}

/// The bytes of the words.
pub fn bytes_of(words: &[u32; WORDS]) -> [u8; WIDTH]
    ensures { result ≡ word_bytes words.now }
{
    let mut bytes = [0; WIDTH];
    for i in 0..WORDS {
        bytes[STEP * i..STEP * i + STEP].copy_from_slice(&words[i].to_le_bytes());
    }
    bytes
}

/// The words of a register, joined to one array.
pub fn joined(split: Split) -> [u32; WORDS]
    ensures { result ≡ split.first ∷ split.rest }
{
    let rest = split.rest.to_array();
    [split.first, rest[0], rest[1], rest[2], rest[3]]
}

/// The words of a register, with the first one apart.
pub fn parted(words: &[u32; WORDS]) -> Split
    ensures words { result.first ∷ result.rest ≡ words.now }
    ensures long { length result.rest ≡ REST }
{
    Split {
        first: words[0],
        rest: u32x4::from_slice(&words[1..]),
    }
}

/// The words that have these bytes.
pub fn words_of(bytes: &[u8; WIDTH]) -> [u32; WORDS]
    ensures { word_bytes result ≡ bytes.now }
{
    let mut words = [0; WORDS];
    for i in 0..WORDS {
        let at = STEP * i;
        words[i] = u32::from_le_bytes([bytes[at], bytes[at + 1], bytes[at + 2], bytes[at + 3]]);
    }
    words
}
