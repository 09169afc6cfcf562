//! The corrector of a code.

ghost use Rattle.std.specs.Prelude.{◌≡◌, ℕ, List, length, take};
ghost use Rattle.dtx_laws.specs.Codeword.{IsCode, IsCodeword, IsCorrection};
ghost use Rattle.dtx_galois.specs.Field.{AreBytes};

use crate::locator::find_locator;
use dtx_laws::correcting::{accept, encoded_again, marks_of, patch, syndromes_of};
use dtx_laws::{Correct, TooMany};
use dtx_rs::Rs;

/// Corrects words of the code with words of `N` bytes and `K` bytes of data (ATSC A/53 Part 2, Reed-Solomon encoder:
/// the way back). The value holds the code's encoder.
#[derive(Drop)]
pub struct Linear<const N: usize, const K: usize> {
    encoder: Rs<N, K>,
    ghost code: { IsCode N K },
}

impl<const N: usize, const K: usize> Linear<N, K> {
    /// A corrector with its encoder. It allocates nothing.
    pub fn new() -> Self
        requires { IsCode N K }
    {
        Linear { encoder: Rs::new() }
    }
}

impl<const N: usize, const K: usize> Correct<N, K> for Linear<N, K> {
    fn known(&self) {}

    fn correct(&self, word: &mut [u8; N]) -> Result<u8, TooMany> {
        let code = encoded_again(&self.encoder, word);
        if code == *word {
            return Ok(0);
        }
        let mut tried = *word;
        repair(&mut tried[..], &code[..], K);
        accept(&self.encoder, word, &tried)
    }
}

/// Sets a word to its correction. `code` is the codeword that begins with the word's `k` bytes of data. The word's new
/// bytes are unspecified where it has no correction.
fn repair(word: &mut [u8], code: &[u8], k: usize)
    requires same { length code.now ≡ length word.old }
    requires code { IsCode (length word.old) k }
    requires bytes { AreBytes word.old }
    requires codeword { IsCodeword (length word.old) k code.now }
    requires begins { take k code.now ≡ take k word.old }
    ensures { (right : List ℕ) → IsCorrection (length word.old) k word.old right → word.new ≡ right }
{
    let parity = word.len() - k;
    let syndromes = syndromes_of(&word[k..], &code[k..]);
    let locator = find_locator(&syndromes, parity / 2);
    let marks = marks_of(&locator[..parity / 2 + 1], word.len());
    patch(word, &marks, &syndromes, parity);
}
