//! Words with one, two or three wrong bytes, which are corrected without a recurrence.

ghost use Rattle.std.specs.Prelude.{◌≡◌, ◌≢◌, ◌-◌, ◌<◌, ◌↔◌, IfNone, IfSome, IsFalse, IsTrue, length};
ghost use Rattle.dtx_galois.specs.Field.{AreBytes};
ghost use Rattle.dtx_laws.specs.Codeword.{IsCode, AreSyndromes};
ghost use Rattle.dtx_laws.specs.Words.{IsCorrected};

use crate::guesses::Guesses;
use crate::wrong_byte::{WrongByte, one_gives, three_give, two_give};
use dtx_laws::correcting::ROOM;

/// Tries to correct a word with `k` bytes of data in which one to three bytes are wrong, and returns how many were.
/// With at least eight parity bytes nearly all such words are found, and with fewer only some. Where the answer is
/// `None`, the word stays.
pub fn mend_few(guesses: &Guesses, word: &mut [u8], syndromes: &[u8; ROOM], k: usize) -> Option<u8>
    requires code { IsCode (length word.old) k }
    requires bytes { AreBytes word.old }
    requires values { AreSyndromes (length word.old - k) word.old syndromes.now }
    ensures mended { IfSome result (λ count. IsCorrected (length word.old) k word.old word.new count) }
    ensures left { IfNone result (word.new ≡ word.old) }
    ensures long { length word.new ≡ length word.old }
{
    if mend_one(guesses, word, syndromes, k) {
        Some(1)
    } else if mend_two(guesses, word, syndromes, k) {
        Some(2)
    } else if mend_three(guesses, word, syndromes, k) {
        Some(3)
    } else {
        None
    }
}

/// Tries to correct a word with one wrong byte. If the answer is true, it did; else the word stays.
fn mend_one(guesses: &Guesses, word: &mut [u8], syndromes: &[u8; ROOM], k: usize) -> bool
    requires code { IsCode (length word.old) k }
    requires bytes { AreBytes word.old }
    requires values { AreSyndromes (length word.old - k) word.old syndromes.now }
    ensures mended { IsTrue result → IsCorrected (length word.old) k word.old word.new 1 }
    ensures left { IsFalse result → word.new ≡ word.old }
    ensures long { length word.new ≡ length word.old }
{
    let wrong = guesses.one(syndromes);
    if one_gives(wrong, syndromes, word.len() - k) && (wrong.place as usize) < word.len() {
        wrong.mend(word);
        true
    } else {
        false
    }
}

/// Tries to correct a word with two wrong bytes. If the answer is true, it did; else the word stays.
fn mend_two(guesses: &Guesses, word: &mut [u8], syndromes: &[u8; ROOM], k: usize) -> bool
    requires code { IsCode (length word.old) k }
    requires bytes { AreBytes word.old }
    requires values { AreSyndromes (length word.old - k) word.old syndromes.now }
    ensures mended { IsTrue result → IsCorrected (length word.old) k word.old word.new 2 }
    ensures left { IsFalse result → word.new ≡ word.old }
    ensures long { length word.new ≡ length word.old }
{
    let count = word.len() - k;
    if let Some((first, second)) = guesses.two(syndromes) {
        if count >= 4
            && are_two(first, second, word.len())
            && two_give(first, second, syndromes, count)
        {
            first.mend(word);
            second.mend(word);
            return true;
        }
    }
    false
}

/// Tries to correct a word with three wrong bytes. If the answer is true, it did; else the word stays.
fn mend_three(guesses: &Guesses, word: &mut [u8], syndromes: &[u8; ROOM], k: usize) -> bool
    requires code { IsCode (length word.old) k }
    requires bytes { AreBytes word.old }
    requires values { AreSyndromes (length word.old - k) word.old syndromes.now }
    ensures mended { IsTrue result → IsCorrected (length word.old) k word.old word.new 3 }
    ensures left { IsFalse result → word.new ≡ word.old }
    ensures long { length word.new ≡ length word.old }
{
    let count = word.len() - k;
    if let Some((first, second, third)) = guesses.three(syndromes) {
        if count >= 6
            && are_three(first, second, third, word.len())
            && three_give(first, second, third, syndromes, count)
        {
            first.mend(word);
            second.mend(word);
            third.mend(word);
            return true;
        }
    }
    false
}

/// Whether the errors are at two different places of a word of `len` bytes.
fn are_two(first: WrongByte, second: WrongByte, len: usize) -> bool
    ensures { IsTrue result ↔ ((first.place < len) × (second.place < len) × (first.place ≢ second.place)) }
{
    first.place != second.place && (first.place as usize) < len && (second.place as usize) < len
}

/// Whether the errors are at three different places of a word of `len` bytes.
fn are_three(first: WrongByte, second: WrongByte, third: WrongByte, len: usize) -> bool
    ensures { IsTrue result ↔ ((first.place < len) × (second.place < len) × (third.place < len)
        × (first.place ≢ second.place) × (first.place ≢ third.place) × (second.place ≢ third.place)) }
{
    are_two(first, second, len) && are_two(first, third, len) && second.place != third.place
}
