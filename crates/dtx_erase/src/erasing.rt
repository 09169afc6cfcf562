//! The mender of a code's words.

ghost use Rattle.std.specs.Prelude.{◌≡◌, ◌↔◌, ◌+◌, ◌-◌, ◌*◌, ◌≤◌, ℕ, List, IsTrue, MatchResult, length};
ghost use Rattle.dtx_galois.specs.Field.{AreBytes};
ghost use Rattle.dtx_laws.specs.Codeword.{IsCode, IsCodeword, AreSyndromes};
ghost use Rattle.dtx_laws.specs.Words.{AreCorrected};
ghost use Rattle.dtx_erase.specs.Mending.{IsAnswered, IsDeclined, IsMended, IsMending, lost, unmarked_distance};

use crate::marks::{first_left, lost, suspects, unmarked_distance};
use crate::values::patch;
use dtx_fast::{Fast, find_recurrence};
use dtx_laws::correcting::{ROOM, distance, encoded_again};
use dtx_laws::{Correct, TooMany};

/// Mends words of `N` bytes, `K` of them data. A word with e wrong bytes and f missing ones is mended where `2 * e + f`
/// is at most `N - K`. The caller marks the missing bytes. The value holds 45 kB of tables, so make one and keep it.
#[derive(Drop)]
pub struct Erase<const N: usize, const K: usize> {
    corrector: Fast<N, K>,
    ghost code: { IsCode N K },
}

impl<const N: usize, const K: usize> Erase<N, K> {
    /// A mender with the tables of its code. It allocates nothing.
    pub fn new() -> Self
        requires { IsCode N K }
    {
        Erase {
            corrector: Fast::new(),
        }
    }

    /// Corrects four words. Where no place is marked, corrections are mendings.
    pub(crate) fn correct_four(&self, words: &mut [[u8; N]; 4]) -> [Result<u8, TooMany>; 4]
        ensures { AreCorrected N K words.old words.new result }
    {
        self.corrector.correct_four(words)
    }

    /// Sets `word` to its mending, and returns how many bytes that changed, marked or not. `marks` has `true` at the
    /// places where nothing was received, whatever byte stands there. Where there is no mending, the answer is
    /// `TooMany`, and the word stays. By `laws::one_answer` there is at most one answer.
    pub fn mend(&self, word: &mut [u8; N], marks: &[bool; N]) -> Result<u8, TooMany>
        ensures answer { IsAnswered N K marks.now word.old word.new result }
        ensures long { length word.new ≡ N }
    {
        let missing = lost(&marks[..]);
        if missing == 0 {
            return self.corrector.correct(word);
        }
        if missing > N - K {
            return Err(TooMany);
        }
        if let Ok(changed) = self.mend_by_correction(word, marks, missing) {
            return Ok(changed);
        }
        self.mend_marked(word, marks)
    }

    /// Replaces a word by its correction, if this is also its mending. Else the word stays, and the answer is
    /// `TooMany`. Nothing is tried where more bytes are missing than a correction changes.
    fn mend_by_correction(
        &self,
        word: &mut [u8; N],
        marks: &[bool; N],
        missing: usize,
    ) -> Result<u8, TooMany>
        ensures answer { MatchResult result (IsMended N K marks.now word.old word.new) (λ _e. word.new ≡ word.old) }
        ensures long { length word.new ≡ N }
    {
        if missing > (N - K) / 2 {
            return Err(TooMany);
        }
        let mut tried = *word;
        self.corrector.correct(&mut tried)?;
        accept::<N, K>(word, &tried, marks)
    }

    /// Mends a word of which at most `N - K` places are marked.
    fn mend_marked(&self, word: &mut [u8; N], marks: &[bool; N]) -> Result<u8, TooMany>
        requires { lost marks.now ≤ N - K }
        ensures answer { IsAnswered N K marks.now word.old word.new result }
        ensures long { length word.new ≡ N }
    {
        let code = encoded_again(self.corrector.encoder(), word);
        if code == *word {
            return Ok(0);
        }
        let mut tried = *word;
        let syndromes = self.corrector.syndromes(word, &code);
        restore(&mut tried[..], &syndromes, &marks[..], K);
        if self.is_codeword(&tried) {
            accept::<N, K>(word, &tried, marks)
        } else {
            Err(TooMany)
        }
    }

    /// Whether a word is the codeword of its data.
    fn is_codeword(&self, word: &[u8; N]) -> bool
        ensures { IsTrue result ↔ IsCodeword N K word.now }
    {
        encoded_again(self.corrector.encoder(), word) == *word
    }
}

/// Replaces a word by a codeword, if that is the word's mending, and returns how many bytes changed. Else the word
/// stays.
fn accept<const N: usize, const K: usize>(
    word: &mut [u8; N],
    code: &[u8; N],
    marks: &[bool; N],
) -> Result<u8, TooMany>
    requires code { IsCode N K }
    requires codeword { IsCodeword N K code.now }
    ensures answer { MatchResult result (IsMended N K marks.now word.old word.new)
        (λ _e. IsDeclined N K marks.now code.now word.old word.new) }
    ensures long { length word.new ≡ N }
{
    if is_near(word, code, marks, N - K) {
        let changed = distance(&word[..], &code[..]);
        *word = *code;
        Ok(changed)
    } else {
        Err(TooMany)
    }
}

/// Whether `room` parity bytes are enough to mend a word to a codeword: two for each unmarked byte in which they
/// differ, and one for each marked place.
fn is_near<const N: usize>(word: &[u8; N], code: &[u8; N], marks: &[bool; N], room: usize) -> bool
    requires few { N ≤ 255 }
    requires room { room ≤ N }
    ensures { IsTrue result ↔ (2 * unmarked_distance marks.now word.now code.now + lost marks.now ≤ room) }
{
    let wrong = unmarked_distance(&marks[..], &word[..], &code[..]) as usize;
    2 * wrong + lost(&marks[..]) <= room
}

/// Sets a word to its mending, from its syndromes. The word's new bytes are unspecified where it has no mending.
fn restore(word: &mut [u8], syndromes: &[u8; ROOM], marks: &[bool], k: usize)
    requires marks { length marks.now ≡ length word.old }
    requires code { IsCode (length word.old) k }
    requires bytes { AreBytes word.old }
    requires syndromes { AreSyndromes (length word.old - k) word.old syndromes.now }
    requires few { lost marks.now ≤ length word.old - k }
    ensures { (right : List ℕ) → IsMending (length word.old) k marks.now word.old right → word.new ≡ right }
{
    let parity = word.len() - k;
    let most = (parity - lost(marks)) / 2;
    let rest = first_left(syndromes, marks, parity, 2 * most);
    if let Some(found) = find_recurrence(&rest, 2 * most) {
        let suspects = suspects(marks, &found.coefficients[..], found.order);
        patch(word, &suspects, syndromes);
    }
}
