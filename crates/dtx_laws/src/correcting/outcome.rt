//! The test of what a corrector tried.

ghost use Rattle.std.specs.Prelude.{◌≡◌, ◌↔◌, ◌≤◌, IsTrue, MatchResult, length, take};
ghost use Rattle.dtx_galois.specs.Field.{AreBytes};
ghost use Rattle.dtx_laws.specs.Codeword.{IsCode, IsCodeword, distance};
ghost use Rattle.dtx_laws.specs.Words.{IsCorrected, IsRefused};

use crate::corrector::TooMany;
use crate::encoder::Encode;

/// The codeword that begins with a word's data: it is the word where that is a codeword.
pub fn encoded_again<E: Encode<N, K>, const N: usize, const K: usize>(
    encoder: &E,
    word: &[u8; N],
) -> [u8; N]
    ensures code { IsCode N K }
    ensures bytes { AreBytes word.now }
    ensures codeword { IsCodeword N K result }
    ensures begins { take K result ≡ take K word.now }
{
    encoder.known();
    let mut head = [0; K];
    take_data(&word[..], &mut head);
    let mut code = [0; N];
    encoder.encode(&head, &mut code);
    code
}

/// Copies the data from the front of a word.
fn take_data(word: &[u8], head: &mut [u8])
    requires { length head.old ≤ length word.now }
    ensures bytes { AreBytes word.now }
    ensures front { head.new ≡ take (length head.old) word.now }
{
    head.copy_from_slice(&word[..head.len()]);
}

/// Replaces the word by the tried one, if that is its correction, and returns how many places changed. Else the answer
/// is `TooMany`, and the word stays.
pub fn accept<E: Encode<N, K>, const N: usize, const K: usize>(
    encoder: &E,
    word: &mut [u8; N],
    tried: &[u8; N],
) -> Result<u8, TooMany>
    ensures answer { MatchResult result (IsCorrected N K word.old word.new)
        (λ _e. IsRefused N K tried.now word.old word.new) }
    ensures long { length word.new ≡ N }
{
    encoder.known();
    if is_codeword(encoder, tried) {
        accept_codeword::<N, K>(word, tried)
    } else {
        Err(TooMany)
    }
}

/// Replaces the word by a codeword, if that is its correction, and returns how many places changed. Else the word
/// stays.
fn accept_codeword<const N: usize, const K: usize>(
    word: &mut [u8; N],
    code: &[u8; N],
) -> Result<u8, TooMany>
    requires code { IsCode N K }
    requires codeword { IsCodeword N K code.now }
    ensures answer { MatchResult result (IsCorrected N K word.old word.new)
        (λ _e. IsRefused N K code.now word.old word.new) }
    ensures long { length word.new ≡ N }
{
    let changed = distance(&word[..], &code[..]);
    if 2 * changed as usize <= N - K {
        *word = *code;
        Ok(changed)
    } else {
        Err(TooMany)
    }
}

/// Whether a word is a codeword.
fn is_codeword<E: Encode<N, K>, const N: usize, const K: usize>(encoder: &E, word: &[u8; N]) -> bool
    ensures { IsTrue result ↔ IsCodeword N K word.now }
{
    encoded_again(encoder, word) == *word
}

/// In how many places two words of one length differ.
pub fn distance(word: &[u8], other: &[u8]) -> u8
    requires same { length word.now ≡ length other.now }
    requires few { length word.now ≤ 255 }
    ensures { result ≡ distance word.now other.now }
{
    let mut count = 0;
    for i in 0..word.len() {
        if word[i] != other[i] {
            count += 1;
        }
    }
    count
}
