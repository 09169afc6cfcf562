//! The corrector of a code.

ghost use Rattle.std.specs.Prelude.{◌≡◌, ℕ, ◌-◌, ◌<◌, ◌≤◌, ◌↔◌, List, [], ◌++◌, IsTrue, MatchResult, length};
ghost use Rattle.std.specs.Prelude.{slice_index_or, take};
ghost use Rattle.dtx_laws.specs.Codeword.{IsCode, IsCodeword, IsCorrection, AreSyndromes};
ghost use Rattle.dtx_laws.specs.Words.{AreCorrected, IsCorrected, IsLeft};
ghost use Rattle.dtx_laws.specs.declared.encoder.TheConstants.{PARITY};
ghost use Rattle.dtx_galois.specs.Field.{AreBytes};

use crate::few::mend_few;
use crate::guesses::Guesses;
use crate::recurrence::find_recurrence;
use crate::repair::patch;
use crate::tables::Tables;
use dtx_laws::correcting::{ROOM, accept, encoded_again};
use dtx_laws::{Correct, Encode, PARITY, TooMany};
use dtx_rs::Rs;

/// Corrects words of the code with words of `N` bytes and `K` bytes of data (ATSC A/53 Part 2, Reed-Solomon encoder:
/// the way back). The value holds the code's encoder and tables, 45 kB in all, so make one and keep it.
#[derive(Drop)]
pub struct Fast<const N: usize, const K: usize> {
    encoder: Rs<N, K>,
    tables: Tables,
    guesses: Guesses,
    ghost code: { IsCode N K },
}

impl<const N: usize, const K: usize> Fast<N, K> {
    /// A corrector with its tables. It allocates nothing.
    pub fn new() -> Self
        requires { IsCode N K }
    {
        Fast {
            encoder: Rs::new(),
            tables: Tables::new(),
            guesses: Guesses::new(),
        }
    }

    /// The code's encoder, by which the corrector encodes a word's data again.
    pub fn encoder(&self) -> &Rs<N, K> {
        &self.encoder
    }

    /// The syndromes of a word, as many as the code has parity bytes. `code` is the codeword that begins with the
    /// word's data. The result's other bytes are unspecified.
    pub fn syndromes(&self, word: &[u8; N], code: &[u8; N]) -> [u8; ROOM]
        requires codeword { IsCodeword N K code.now }
        requires begins { take K code.now ≡ take K word.now }
        ensures long { length result ≡ ROOM }
        ensures values { AreSyndromes (N - K) word.now result }
    {
        let code = &code[..];
        syndromes(&self.tables, &word[..], &code[K..], K)
    }

    /// Corrects four words, each from the parity bytes of its data.
    #[inline(always)]
    fn correct_four_by(
        &self,
        parities: &[[u8; PARITY]; 4],
        words: &mut [[u8; N]; 4],
    ) -> [Result<u8, TooMany>; 4]
        requires room { N - K ≤ PARITY }
        requires codes { (p : ℕ) → p < 4 → IsCodeword N K (take K (slice_index_or words.old p [])
            ++ take (N - K) (slice_index_or parities.now p [])) }
        ensures { AreCorrected N K words.old words.new result }
    {
        let mut answers = [Ok(0); 4];
        for p in 0..4 {
            answers[p] = self.correct_by(&parities[p][..N - K], &mut words[p]);
        }
        answers
    }

    /// Corrects four words one by one. This is for a code with more parity bytes than `Encode::parities` has room for.
    fn correct_each(&self, words: &mut [[u8; N]; 4]) -> [Result<u8, TooMany>; 4]
        ensures { AreCorrected N K words.old words.new result }
    {
        let mut answers = [Ok(0); 4];
        for p in 0..4 {
            answers[p] = self.correct(&mut words[p]);
        }
        answers
    }

    /// Corrects a word, from the parity bytes of its data.
    #[inline(always)]
    fn correct_by(&self, parity: &[u8], word: &mut [u8; N]) -> Result<u8, TooMany>
        requires code { IsCodeword N K (take K word.old ++ parity.now) }
        requires long { length parity.now ≡ N - K }
        ensures answer { MatchResult result (IsCorrected N K word.old word.new) (λ _e. IsLeft N K word.old word.new) }
        ensures long { length word.new ≡ N }
    {
        if has_parity(&word[..], parity) {
            Ok(0)
        } else {
            self.correct_damaged(parity, word)
        }
    }

    /// Corrects a word whose parity bytes may differ from those of its data.
    fn correct_damaged(&self, parity: &[u8], word: &mut [u8; N]) -> Result<u8, TooMany>
        requires code { IsCodeword N K (take K word.old ++ parity.now) }
        requires long { length parity.now ≡ N - K }
        requires bytes { AreBytes word.old }
        ensures answer { MatchResult result (IsCorrected N K word.old word.new) (λ _e. IsLeft N K word.old word.new) }
        ensures long { length word.new ≡ N }
    {
        let syndromes = syndromes(&self.tables, &word[..], parity, K);
        if let Some(count) = mend_few(&self.guesses, &mut word[..], &syndromes, K) {
            return Ok(count);
        }
        self.correct_by_recurrence(&syndromes, word)
    }

    /// Corrects a word by the shortest recurrence of its syndromes.
    fn correct_by_recurrence(
        &self,
        syndromes: &[u8; ROOM],
        word: &mut [u8; N],
    ) -> Result<u8, TooMany>
        requires bytes { AreBytes word.old }
        requires values { AreSyndromes (N - K) word.old syndromes.now }
        ensures answer { MatchResult result (IsCorrected N K word.old word.new) (λ _e. IsLeft N K word.old word.new) }
        ensures long { length word.new ≡ N }
    {
        let mut tried = *word;
        repair(&self.tables, &mut tried[..], syndromes, K);
        accept(&self.encoder, word, &tried)
    }
}

impl<const N: usize, const K: usize> Correct<N, K> for Fast<N, K> {
    fn known(&self) {}

    fn correct(&self, word: &mut [u8; N]) -> Result<u8, TooMany> {
        let code = encoded_again(&self.encoder, word);
        let code = &code[..];
        self.correct_by(&code[K..], word)
    }

    fn correct_four(&self, words: &mut [[u8; N]; 4]) -> [Result<u8, TooMany>; 4] {
        if N - K <= PARITY {
            self.correct_four_by(&self.encoder.parities(words), words)
        } else {
            self.correct_each(words)
        }
    }
}

/// Whether a word ends with these parity bytes.
#[inline(always)]
fn has_parity(word: &[u8], parity: &[u8]) -> bool
    ensures same { IsTrue result
        ↔ (word.now ≡ take (length word.now - length parity.now) word.now ++ parity.now) }
    ensures bytes { AreBytes word.now }
{
    word.ends_with(parity)
}

/// The syndromes of a word, as many as it has parity bytes. `parity` has those of the word's `k` bytes of data.
fn syndromes(tables: &Tables, word: &[u8], parity: &[u8], k: usize) -> [u8; ROOM]
    requires code { IsCode (length word.now) k }
    requires codeword { IsCodeword (length word.now) k (take k word.now ++ parity.now) }
    requires long { length parity.now ≡ length word.now - k }
    ensures long { length result ≡ ROOM }
    ensures values { AreSyndromes (length word.now - k) word.now result }
{
    tables.syndromes(&word[k..], parity)
}

/// Sets a word with `k` bytes of data to its correction, from its syndromes. The word's new bytes are unspecified where
/// it has none.
fn repair(tables: &Tables, word: &mut [u8], syndromes: &[u8; ROOM], k: usize)
    requires code { IsCode (length word.old) k }
    requires bytes { AreBytes word.old }
    requires values { AreSyndromes (length word.old - k) word.old syndromes.now }
    ensures { (right : List ℕ) → IsCorrection (length word.old) k word.old right → word.new ≡ right }
{
    if let Some(found) = find_recurrence(syndromes, word.len() - k) {
        let walk = tables.walk(&found, word.len());
        patch(word, &walk, &found, syndromes);
    }
}
