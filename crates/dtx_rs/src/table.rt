//! The table by which a step divides four bytes of data at once.

ghost use Rattle.std.specs.Prelude.{◌≡◌, ℕ, ◌+◌, ◌-◌, ◌*◌, ◌/◌, ◌%◌, ◌<◌, ◌≤◌, [], ◌∷◌, ◌++◌, drop, length, map};
ghost use Rattle.std.specs.Prelude.{replicate, slice_index, slice_index_or, slice_set, take};
ghost use Rattle.dtx_galois.specs.Field.{sums};
ghost use Rattle.dtx_laws.specs.Register.{fed, register};
ghost use Rattle.dtx_rs.specs.Generator.{row, word_bytes};
ghost use Rattle.dtx_rs.specs.declared.divisor.TheConstants.{ELEMENTS};
ghost use Rattle.dtx_rs.specs.declared.words.TheConstants.{REST, STEP, WIDTH};

use crate::divisor::ELEMENTS;
use crate::register::feed;
use crate::words::{Rest, STEP, Split, WIDTH, WORDS, bytes_of, joined, parted, words_of};
use std::simd::prelude::*;

/// The rows of one place of a step, one for each byte. The first word of a row stands apart, since the other four fill
/// a vector.
#[derive(Drop)]
struct Place {
    firsts: [u32; ELEMENTS],
    rests: [Rest; ELEMENTS],
}

/// Row f of place k is the register that began with zeros, after the byte f and then k zeros.
#[derive(Drop)]
pub struct Table {
    pub divisor: [u8; WIDTH],
    places: [Place; STEP],
    ghost long: { length divisor ≡ WIDTH },
    ghost rows_hold: { (k f : ℕ) → k < STEP → f < ELEMENTS
        → word_bytes (slice_index (slice_index_or places k (record { firsts = []; rests = [] })).firsts f
        ∷ (slice_index_or (slice_index_or places k (record { firsts = []; rests = [] })).rests f
        (record { words = [] })).words) ≡ row divisor f k },
    ghost rests_long: { (k f : ℕ) → k < STEP → f < ELEMENTS
        → length (slice_index_or (slice_index_or places k (record { firsts = []; rests = [] })).rests f
        (record { words = [] })).words ≡ REST },
}

impl Table {
    /// The table of a divisor. Its highest coefficient, 1, is left out.
    pub fn new(divisor: &[u8; WIDTH]) -> Self
        ensures { result.divisor ≡ divisor.now }
    {
        let last = last_place(divisor);
        let third = place_before(divisor, &last);
        let second = place_before(divisor, &third);
        let first = place_before(divisor, &second);
        Table {
            divisor: *divisor,
            places: [last, third, second, first],
        }
    }

    /// The register that began with zeros, after all the data.
    pub fn parity(&self, head: &[u8]) -> [u8; WIDTH]
        ensures { result ≡ register self.now.divisor (replicate WIDTH 0) head.now }
    {
        let first = head.len() % STEP;
        let mut state = self.started(head);
        for step in 0..head.len() / STEP {
            state = self.fed_at(state, head, first + STEP * step);
        }
        bytes_of(&joined(state))
    }

    /// The registers that began with zeros, after all the data of each of four heads. The steps of the four take turns,
    /// so that none waits for the others.
    #[inline(always)]
    pub fn parity_of_four(
        &self,
        one: &[u8],
        two: &[u8],
        three: &[u8],
        four: &[u8],
    ) -> [[u8; WIDTH]; 4]
        requires two { length two.now ≡ length one.now }
        requires three { length three.now ≡ length one.now }
        requires four { length four.now ≡ length one.now }
        ensures { result ≡ map (register self.now.divisor (replicate WIDTH 0))
            (one.now ∷ two.now ∷ three.now ∷ four.now ∷ []) }
    {
        let first = one.len() % STEP;
        let mut of_one = self.started(one);
        let mut of_two = self.started(two);
        let mut of_three = self.started(three);
        let mut of_four = self.started(four);
        for step in 0..one.len() / STEP {
            let at = first + STEP * step;
            of_one = self.fed_at(of_one, one, at);
            of_two = self.fed_at(of_two, two, at);
            of_three = self.fed_at(of_three, three, at);
            of_four = self.fed_at(of_four, four, at);
        }
        [
            bytes_of(&joined(of_one)),
            bytes_of(&joined(of_two)),
            bytes_of(&joined(of_three)),
            bytes_of(&joined(of_four)),
        ]
    }

    /// The register after the bytes before the first whole step.
    fn started(&self, head: &[u8]) -> Split
        ensures { word_bytes (result.first ∷ result.rest) ≡ register self.now.divisor (replicate WIDTH 0)
            (take (length head.now % STEP) head.now) }
    {
        let zeros = Split {
            first: 0,
            rest: u32x4::splat(0),
        };
        self.fed(zeros, &padded(head))
    }

    /// The register after the data before place `at`, moved on by the four bytes from there.
    #[inline(always)]
    fn fed_at(&self, state: Split, head: &[u8], at: usize) -> Split
        requires bytes { at + STEP ≤ length head.now }
        requires before { word_bytes (state.first ∷ state.rest)
            ≡ register self.now.divisor (replicate WIDTH 0) (take at head.now) }
        ensures { word_bytes (result.first ∷ result.rest)
            ≡ register self.now.divisor (replicate WIDTH 0) (take (at + STEP) head.now) }
    {
        self.fed(state, &[head[at], head[at + 1], head[at + 2], head[at + 3]])
    }

    /// The register after four more bytes.
    #[inline(always)]
    fn fed(&self, state: Split, bytes: &[u8; STEP]) -> Split
        ensures { word_bytes (result.first ∷ result.rest)
            ≡ register self.now.divisor (word_bytes (state.first ∷ state.rest)) bytes.now }
    {
        let factors = (u32::from_le_bytes(*bytes) ^ state.first).to_le_bytes();
        let row3 = self.row(3, factors[0]);
        let row2 = self.row(2, factors[1]);
        let row1 = self.row(1, factors[2]);
        let row0 = self.row(0, factors[3]);
        Split {
            first: state.rest.to_array()[0]
                ^ (row3.first ^ (row2.first ^ (row1.first ^ row0.first))),
            rest: next_words(state.rest) ^ (row3.rest ^ (row2.rest ^ (row1.rest ^ row0.rest))),
        }
    }

    /// What a byte adds to the register, `k` places before the last of a step.
    #[inline(always)]
    fn row(&self, k: usize, factor: u8) -> Split
        requires { k < STEP }
        ensures row { word_bytes (result.first ∷ result.rest) ≡ row self.now.divisor factor k }
        ensures long { length result.rest ≡ REST }
    {
        let place = &self.places[k];
        Split {
            first: place.firsts[factor as usize],
            rest: place.rests[factor as usize].words,
        }
    }
}

impl Place {
    /// Rows of zeros.
    fn of_zeros() -> Self
        ensures firsts { length result.firsts ≡ ELEMENTS }
        ensures rests { length result.rests ≡ ELEMENTS }
    {
        let rest = Rest {
            words: u32x4::splat(0),
        };
        Place {
            firsts: [0; ELEMENTS],
            rests: [rest; ELEMENTS],
        }
    }

    /// Sets the row of the byte `f`.
    fn set(&mut self, f: usize, row: Split)
        requires { f < ELEMENTS }
        ensures firsts { self.new.firsts ≡ slice_set self.old.firsts f row.first }
        ensures rests { self.new.rests ≡ slice_set self.old.rests f (record { words = row.rest }) }
    {
        self.firsts[f] = row.first;
        self.rests[f].words = row.rest;
    }
}

/// The words of a register, moved on by one word.
#[inline(always)]
fn next_words(state: u32x4) -> u32x4
    ensures words { result ≡ drop 1 state ++ 0 ∷ [] }
    ensures long { length result ≡ REST }
{
    state.shuffle(u32x4::splat(0), [1, 2, 3, 4])
}

/// The bytes before the first whole step, with zeros in front that fill up a step.
fn padded(head: &[u8]) -> [u8; STEP]
    ensures { result ≡ replicate (STEP - length head.now % STEP) 0 ++ take (length head.now % STEP) head.now }
{
    let first = head.len() % STEP;
    let mut bytes = [0; STEP];
    bytes[STEP - first..].copy_from_slice(&head[..first]);
    bytes
}

/// The rows of a step's last place: the register that began with zeros, after each byte.
fn last_place(divisor: &[u8; WIDTH]) -> Place
    ensures rows { (f : ℕ) → f < ELEMENTS → word_bytes (slice_index result.firsts f
        ∷ (slice_index_or result.rests f (record { words = [] })).words) ≡ row divisor.now f 0 }
    ensures long { (f : ℕ) → f < ELEMENTS
        → length (slice_index_or result.rests f (record { words = [] })).words ≡ REST }
{
    let mut place = Place::of_zeros();
    for f in 0..ELEMENTS {
        place.set(f, parted(&next_row(divisor, &[0; WORDS], f as u8)));
    }
    place
}

/// The rows of the place before that of the rows `behind`. Each register takes one zero more.
fn place_before(divisor: &[u8; WIDTH], behind: &Place) -> Place
    ensures rows { (f : ℕ) → f < ELEMENTS → word_bytes (slice_index result.firsts f
        ∷ (slice_index_or result.rests f (record { words = [] })).words)
        ≡ fed divisor.now (word_bytes (slice_index behind.now.firsts f
        ∷ (slice_index_or behind.now.rests f (record { words = [] })).words)) 0 }
    ensures long { (f : ℕ) → f < ELEMENTS
        → length (slice_index_or result.rests f (record { words = [] })).words ≡ REST }
{
    let mut place = Place::of_zeros();
    for f in 0..ELEMENTS {
        let before = joined(Split {
            first: behind.firsts[f],
            rest: behind.rests[f].words,
        });
        place.set(f, parted(&next_row(divisor, &before, 0)));
    }
    place
}

/// The row after one more byte.
fn next_row(divisor: &[u8; WIDTH], row: &[u32; WORDS], byte: u8) -> [u32; WORDS]
    ensures { word_bytes result ≡ fed divisor.now (word_bytes row.now) byte }
{
    let mut bytes = bytes_of(row);
    feed(&mut bytes, divisor, byte);
    words_of(&bytes)
}
