//! The words that begin in a field: those that are put right are known from then on.

ghost use Rattle.std.specs.Prelude.{◌≡◌, ◌≢◌, ℕ, ◌+◌, ◌*◌, ◌%◌, ◌<◌, ◌≤◌, ◌++◌, ◌↔◌, IsTrue, Some, None};
ghost use Rattle.std.specs.Prelude.{length, slice_index, slice_index_or, slice_set, take};
ghost use Rattle.dtx_laws.specs.Words.{correction};
ghost use Rattle.dtx_outer.specs.Inner.{IsComplete, codeword_byte_place, word_at};
ghost use Rattle.dtx_rounds.specs.Found.{AreFound, bytes_of, bytes_there, new_code, only_code};
ghost use Rattle.dtx_rounds.specs.Known.{known_word};

use crate::field::{BYTES, Field, WORDS};
use dtx_fast::Fast;
use dtx_laws::Correct;
use dtx_sizes::{BRANCH_STEP, BRANCHES, CODEWORD, PACKET_DATA};

/// The corrector of the standard's words.
pub(crate) type Corrector = Fast<CODEWORD, PACKET_DATA>;

/// Puts those words right that begin in a field and aren't known yet, as far as their bytes are there. Their bytes are
/// among those of the field and of the one behind it.
pub(crate) fn find_words(corrector: &Corrector, field: &mut Field, next: &mut Field)
    ensures { AreFound (new_code (bytes_there field.old next.old) field.old.words) field.old next.old
        field.new next.new }
{
    let segments = field.in_groups() + next.in_groups();
    for k in 0..WORDS {
        if !field.words[k] {
            find_word(corrector, segments, k, field, next);
        }
    }
}

/// Puts word k right, if its bytes are among those of so many data segments and it has a correction. Lays the bytes of
/// the correction back to their places.
fn find_word(corrector: &Corrector, segments: usize, k: usize, field: &mut Field, next: &mut Field)
    requires most { segments ≤ 2 * WORDS }
    requires word { k < WORDS }
    ensures { AreFound
        (only_code k (known_word (take (CODEWORD * segments) (bytes_of field.old ++ bytes_of next.old)) k))
        field.old next.old field.new next.new }
{
    if let Some(code) = code_of(corrector, field, next, segments, k) {
        make_known(&code, k, field, next);
    }
}

/// The correction of word k, if its bytes are among those of so many data segments and it has one.
fn code_of(
    corrector: &Corrector,
    field: &Field,
    next: &Field,
    segments: usize,
    k: usize,
) -> Option<[u8; CODEWORD]>
    requires most { segments ≤ 2 * WORDS }
    requires word { k < WORDS }
    ensures { result ≡ known_word (take (CODEWORD * segments) (bytes_of field.now ++ bytes_of next.now)) k }
{
    let bytes = field.bytes();
    let behind = next.bytes();
    if is_whole(k, segments) {
        corrected(corrector, &gather_word(bytes, behind, k))
    } else {
        None
    }
}

/// The correction of a word, if it has one.
fn corrected(corrector: &Corrector, word: &[u8; CODEWORD]) -> Option<[u8; CODEWORD]>
    ensures { result ≡ correction CODEWORD PACKET_DATA word.now }
{
    let mut code = *word;
    match corrector.correct(&mut code) {
        Ok(_) => Some(code),
        Err(_) => None,
    }
}

/// Lays the bytes of word k back to their places in its field and the next one. The word is known from then on.
fn make_known(word: &[u8; CODEWORD], k: usize, field: &mut Field, next: &mut Field)
    requires { k < WORDS }
    ensures { AreFound (only_code k (Some word.now)) field.old next.old field.new next.new }
{
    lay_word(word, k, &mut field.known[..], &mut next.known[..]);
    field.words[k] = true;
    field.knows_more = true;
    next.knows_more |= !is_whole(k, WORDS);
}

/// Whether all bytes of word k are among those of so many data segments.
fn is_whole(k: usize, segments: usize) -> bool
    requires { k < WORDS }
    ensures { IsTrue result ↔ IsComplete CODEWORD BRANCHES BRANCH_STEP (CODEWORD * segments) k }
{
    k + BRANCHES < segments || k + BRANCHES == segments && k % BRANCHES == 0
}

/// How far apart the bytes of a word stand that come to neighbouring branches.
const SPACING: usize = BRANCHES * BRANCH_STEP + 1;

/// Bytes of a word that follow each other and stand `SPACING` apart in one field.
struct Stretch {
    /// The place of the first byte.
    at: usize,
    count: usize,
}

/// The bytes of the words from byte p on, at most so many, up to the last branch and up to the field's end (ATSC A/53
/// Part 2, interleaving).
#[inline(always)]
fn stretch_from(p: usize, most: usize) -> Stretch
    requires word { p < BYTES }
    requires some { 0 < most }
    ensures at { result.at ≡ codeword_byte_place BRANCHES BRANCH_STEP p }
    ensures some { 0 < result.count }
    ensures few { result.count ≤ most }
    ensures spaced { (i : ℕ) → i < result.count
        → codeword_byte_place BRANCHES BRANCH_STEP (p + i) ≡ result.at + SPACING * i }
    ensures in_field { result.at < BYTES → result.at + SPACING * result.count < BYTES + SPACING }
{
    let at = p + BRANCHES * BRANCH_STEP * (p % BRANCHES);
    let count = most.min(BRANCHES - p % BRANCHES);
    if at < BYTES {
        Stretch {
            at,
            count: count.min((BYTES - 1 - at) / SPACING + 1),
        }
    } else {
        Stretch { at, count }
    }
}

/// Word k, gathered from its places.
fn gather_word(bytes: &[u8], behind: &[u8], k: usize) -> [u8; CODEWORD]
    requires long { length bytes.now ≡ BYTES }
    requires word { k < WORDS }
    requires whole { IsComplete CODEWORD BRANCHES BRANCH_STEP (BYTES + length behind.now) k }
    ensures { result ≡ word_at CODEWORD BRANCHES BRANCH_STEP (bytes.now ++ behind.now) k }
{
    let mut word = [0; CODEWORD];
    let mut j = 0;
    while j < CODEWORD {
        let Stretch { at, count } = stretch_from(CODEWORD * k + j, CODEWORD - j);
        if at < BYTES {
            gather_stretch(bytes, at, count, &mut word, j);
        } else {
            gather_stretch(behind, at - BYTES, count, &mut word, j);
        }
        j += count;
    }
    word
}

/// Gathers bytes of a word from byte j on. They stand `SPACING` apart from a place on.
fn gather_stretch(bytes: &[u8], at: usize, count: usize, word: &mut [u8; CODEWORD], j: usize)
    requires there { at + SPACING * count < length bytes.now + SPACING }
    requires word { j + count ≤ CODEWORD }
    ensures gathered { (i : ℕ) → i < count
        → slice_index word.new (j + i) ≡ slice_index bytes.now (at + SPACING * i) }
    ensures before { (i : ℕ) → i < j → slice_index word.new i ≡ slice_index word.old i }
{
    for i in 0..count {
        word[j + i] = bytes[at + SPACING * i];
    }
}

/// Lays the bytes of word k back to their places, where they are known.
fn lay_word(word: &[u8; CODEWORD], k: usize, known: &mut [Option<u8>], next: &mut [Option<u8>])
    requires known { length known.old ≡ BYTES }
    requires next { length next.old ≡ BYTES }
    requires word { k < WORDS }
    ensures laid { (j : ℕ) → j < CODEWORD
        → slice_index_or (known.new ++ next.new) (codeword_byte_place BRANCHES BRANCH_STEP (CODEWORD * k + j)) None
        ≡ Some (slice_index word.now j) }
    ensures others { (n : ℕ)
        → ((j : ℕ) → j < CODEWORD → n ≢ codeword_byte_place BRANCHES BRANCH_STEP (CODEWORD * k + j))
        → slice_index_or (known.new ++ next.new) n None ≡ slice_index_or (known.old ++ next.old) n None }
{
    let mut j = 0;
    while j < CODEWORD {
        let Stretch { at, count } = stretch_from(CODEWORD * k + j, CODEWORD - j);
        if at < BYTES {
            lay_stretch(word, j, count, known, at);
        } else {
            lay_stretch(word, j, count, next, at - BYTES);
        }
        j += count;
    }
}

/// Lays bytes of a word down from byte j on. They come to stand `SPACING` apart from a place on.
fn lay_stretch(word: &[u8; CODEWORD], j: usize, count: usize, known: &mut [Option<u8>], at: usize)
    requires there { at + SPACING * count < length known.old + SPACING }
    requires word { j + count ≤ CODEWORD }
    ensures laid { (i : ℕ) → i < count
        → slice_index_or known.new (at + SPACING * i) None ≡ Some (slice_index word.now (j + i)) }
    ensures others { (n : ℕ) → ((i : ℕ) → i < count → n ≢ at + SPACING * i)
        → slice_index_or known.new n None ≡ slice_index_or known.old n None }
{
    for i in 0..count {
        known[at + SPACING * i] = Some(word[j + i]);
    }
}
