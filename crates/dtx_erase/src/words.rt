//! Gathered words to packets.

ghost use Rattle.std.specs.Prelude.{◌≡◌, ℕ, Bool, List, true, false, ◌+◌, ◌*◌, ◌%◌, ◌<◌, ◌≤◌, ◌↔◌, ◌++◌, [], ◌∷◌, Ok};
ghost use Rattle.std.specs.Prelude.{IsTrue, MatchResult, length, map, slice_index, slice_index_or, take};
ghost use Rattle.dtx_laws.specs.Whitening.{whitened};
ghost use Rattle.dtx_packets.specs.Packets.{with_error};
ghost use Rattle.dtx_receiver.specs.Packets.{received_by};
ghost use Rattle.dtx_whiten.specs.Randomizer.{randomizer_bytes};
ghost use Rattle.dtx_erase.specs.Marks.{is_set};
ghost use Rattle.dtx_erase.specs.Mended.{mending};
ghost use Rattle.dtx_erase.specs.Mending.{IsAnswered};
ghost use Rattle.dtx_erase.specs.Sides.{mended_word};

use crate::erasing::Erase;
use dtx_laws::{TooMany, Whitener};
use dtx_outer::whiten;
use dtx_receiver::{Batch, MOST_RECEIVED, Received};
use dtx_sizes::{CODEWORD, FIELD_PACKETS, PACKET_DATA};
use dtx_whiten::Atsc;
use std::alloc::{AllocError, Global};
use std::marker::Model;

/// Mends words and unwhitens them.
#[derive(Drop)]
pub(crate) struct Words {
    code: Erase<CODEWORD, PACKET_DATA>,
    white: Atsc,
}

impl Model for Words {
    ghost use Rattle.std.specs.Prelude.{◌≡◌, List, ℕ};
    ghost use Rattle.dtx_whiten.specs.Randomizer.{randomizer_bytes};

    ghost Value = { List ℕ };

    ghost view = { λ w. ⟦<Atsc as Whitener>⟧.bytes w.white };

    ghost invariant = { λ w. ⟦<Atsc as Whitener>⟧.bytes w.white ≡ randomizer_bytes };
}

impl Words {
    /// A value with the code's tables and the randomizer's bytes. The only error is out of memory.
    pub(crate) fn new(alloc: Global) -> Result<Words, AllocError> {
        Ok(Words {
            code: Erase::new(),
            white: Atsc::new(alloc)?,
        })
    }

    /// Adds the packet of a word to the batch. A byte of the word is missing where its flag isn't 0. `place` is the
    /// packet's place among the 312 of a field.
    pub(crate) fn give(
        &self,
        place: u16,
        word: &[u8; CODEWORD],
        flags: &[u8; CODEWORD],
        batch: &mut Batch,
    )
        requires within { place < FIELD_PACKETS }
        requires room { length batch.old.packets.items < MOST_RECEIVED }
        ensures { batch.new.packets.items ≡ batch.old.packets.items
            ++ mended_word (PACKET_DATA * place) word.now flags.now ∷ [] }
    {
        let mut mended = *word;
        let answer = self.mend(&mut mended, flags);
        self.push(place, answer, &mended, batch);
    }

    /// Adds the packets of four words that follow each other to the batch. `place` is the place of the first.
    pub(crate) fn give_four(
        &self,
        place: u16,
        words: &[[u8; CODEWORD]; 4],
        flags: &[[u8; CODEWORD]; 4],
        batch: &mut Batch,
    )
        requires within { place < FIELD_PACKETS }
        requires words { (p : ℕ) → p < 4 → length (slice_index_or words.now p []) ≡ CODEWORD }
        requires flags { (p : ℕ) → p < 4 → length (slice_index_or flags.now p []) ≡ CODEWORD }
        requires room { length batch.old.packets.items + 4 ≤ MOST_RECEIVED }
        ensures { batch.new.packets.items ≡ batch.old.packets.items
            ++ map (λ p. mended_word (PACKET_DATA * ((place + p) % 312))
            (slice_index_or words.now p []) (slice_index_or flags.now p [])) (0 ∷ 1 ∷ 2 ∷ 3 ∷ []) }
    {
        let mut mended = *words;
        let answers = self.mend_four(&mut mended, flags);
        self.push(place, answers[0], &mended[0], batch);
        self.push((place + 1) % FIELD_PACKETS, answers[1], &mended[1], batch);
        self.push((place + 2) % FIELD_PACKETS, answers[2], &mended[2], batch);
        self.push((place + 3) % FIELD_PACKETS, answers[3], &mended[3], batch);
    }

    /// Mends four words. Where no byte is marked, they are corrected, all at once.
    fn mend_four(
        &self,
        words: &mut [[u8; CODEWORD]; 4],
        flags: &[[u8; CODEWORD]; 4],
    ) -> [Result<u8, TooMany>; 4]
        requires words { (p : ℕ) → p < 4 → length (slice_index_or words.old p []) ≡ CODEWORD }
        requires flags { (p : ℕ) → p < 4 → length (slice_index_or flags.now p []) ≡ CODEWORD }
        ensures { (p : ℕ) → p < 4 → IsAnswered CODEWORD PACKET_DATA (map is_set (slice_index_or flags.now p []))
            (slice_index_or words.old p []) (slice_index_or words.new p []) (slice_index_or result p (Ok 0)) }
    {
        if are_clear(flags) {
            return self.code.correct_four(words);
        }
        self.mend_each(words, flags)
    }

    /// Mends four words one by one.
    fn mend_each(
        &self,
        words: &mut [[u8; CODEWORD]; 4],
        flags: &[[u8; CODEWORD]; 4],
    ) -> [Result<u8, TooMany>; 4]
        ensures { (p : ℕ) → p < 4 → IsAnswered CODEWORD PACKET_DATA (map is_set (slice_index_or flags.now p []))
            (slice_index_or words.old p []) (slice_index_or words.new p []) (slice_index_or result p (Ok 0)) }
    {
        let mut answers = [Ok(0); 4];
        for p in 0..4 {
            answers[p] = self.mend(&mut words[p], &flags[p]);
        }
        answers
    }

    /// Mends a word by its flags.
    fn mend(&self, word: &mut [u8; CODEWORD], flags: &[u8; CODEWORD]) -> Result<u8, TooMany>
        ensures answer { IsAnswered CODEWORD PACKET_DATA (map is_set flags.now) word.old word.new result }
        ensures long { length word.new ≡ CODEWORD }
    {
        self.code.mend(word, &marks_of(flags))
    }

    /// Adds the packet of a word to the batch. `answer` is what its mending returned, and `word` the word that it left.
    fn push(
        &self,
        place: u16,
        answer: Result<u8, TooMany>,
        word: &[u8; CODEWORD],
        batch: &mut Batch,
    )
        requires within { place < FIELD_PACKETS }
        requires room { length batch.old.packets.items < MOST_RECEIVED }
        ensures packets { (gathered : List ℕ) (marks : List Bool) → length gathered ≡ CODEWORD
            → length marks ≡ CODEWORD
            → IsAnswered CODEWORD PACKET_DATA marks gathered word.now answer
            → batch.new.packets.items ≡ batch.old.packets.items
            ++ received_by (PACKET_DATA * place) gathered (mending CODEWORD PACKET_DATA marks gathered) ∷ [] }
        ensures one { length batch.new.packets.items ≡ length batch.old.packets.items + 1 }
    {
        let head = self.head(place, word);
        batch.packets.push(received(answer, &head));
    }

    /// The data of a word, unwhitened.
    fn head(&self, place: u16, word: &[u8; CODEWORD]) -> [u8; PACKET_DATA]
        requires { place < FIELD_PACKETS }
        ensures { result ≡ whitened randomizer_bytes (PACKET_DATA * place) (take PACKET_DATA word.now) }
    {
        whiten(
            &self.white,
            PACKET_DATA * place as usize,
            &word[..PACKET_DATA],
        )
    }
}

/// Whether no flag of four words is set.
fn are_clear(flags: &[[u8; CODEWORD]; 4]) -> bool
    ensures { IsTrue result ↔ ((p i : ℕ) → p < 4 → slice_index (slice_index_or flags.now p []) i ≡ 0) }
{
    is_clear(&flags[0]) & is_clear(&flags[1]) & is_clear(&flags[2]) & is_clear(&flags[3])
}

/// Whether no flag is set.
fn is_clear(flags: &[u8; CODEWORD]) -> bool
    ensures { IsTrue result ↔ ((i : ℕ) → slice_index flags.now i ≡ 0) }
{
    let mut any = false;
    for i in 0..CODEWORD {
        any |= flags[i] != 0;
    }
    !any
}

/// Which flags are set.
fn marks_of(flags: &[u8; CODEWORD]) -> [bool; CODEWORD]
    ensures { result ≡ map is_set flags.now }
{
    let mut marks = [false; CODEWORD];
    for i in 0..CODEWORD {
        marks[i] = is_set(flags[i]);
    }
    marks
}

/// Whether a flag is set.
fn is_set(flag: u8) -> bool
    ensures { result ≡ is_set flag }
{
    flag != 0
}

/// What is received of a word. `answer` is what its mending returned, and `head` its data.
fn received(answer: Result<u8, TooMany>, head: &[u8; PACKET_DATA]) -> Received
    ensures { MatchResult answer
        (λ fixed. result ≡ record { packet = record { 0 = 0x47 ∷ head.now }; fixed = fixed; good = true })
        (λ _e. result ≡ record { packet = record { 0 = with_error (0x47 ∷ head.now) }; fixed = 0; good = false }) }
{
    match answer {
        Ok(fixed) => Received::corrected(head, fixed),
        Err(TooMany) => Received::as_gathered(head),
    }
}
