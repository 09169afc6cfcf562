//! A field of a capture on its way through the rounds.

ghost use Rattle.std.specs.Prelude.{◌≡◌, ◌+◌, ◌-◌, ◌*◌, ◌/◌, ◌<◌, ◌≤◌, ◌++◌, IfOk, true, false, drop, length, take};
ghost use Rattle.std.specs.Prelude.{vec_len};
ghost use Rattle.std.specs.List.{flat_map};
ghost use Rattle.dtx_rounds.specs.FieldRound.{KnowsNothing, most_field_cost, words_known, IsWritten};

use crate::group_bytes::empty_bytes;
use dtx_sizes::{
    CODEWORD, FIELD_PACKETS, FIELD_SEGMENTS, GROUP_BYTES, GROUP_PACKETS, PRECODE, SEGMENT,
};
use dtx_soft::MOST_SEGMENT_COST;
use std::alloc::{AllocError, Global};

/// How many segments a field has, with its sync.
pub(crate) const SEGMENTS: usize = FIELD_SEGMENTS as usize;

/// How many words begin in a field.
pub(crate) const WORDS: usize = FIELD_PACKETS as usize;

/// How many bytes the data segments of a field have.
pub(crate) const BYTES: usize = CODEWORD * WORDS;

/// What the least paths of a field cost at most, in its 313 segments.
pub const MOST_FIELD_COST: u64 = 313 * MOST_SEGMENT_COST;

/// In how many symbols a field's segments can differ from those before: all of its data segments.
pub const MOST_MOVED: u64 = (SEGMENT * WORDS) as u64;

/// A field of a capture between two rounds: its symbols as they were received, the segments that were decided of them,
/// and what is known. A round knows a byte where the word is known whose byte stands there.
#[derive(Drop)]
pub struct Field {
    /// How many segments there are: 313, or fewer where the capture ends in this field.
    pub(crate) count: usize,
    pub(crate) heard: Vec<[i8; SEGMENT]>,
    pub(crate) decided: Vec<[i8; SEGMENT]>,
    /// What the least paths cost by which the segments were decided.
    pub(crate) cost: u64,
    /// The bytes that are known, at their places.
    pub(crate) known: Vec<Option<u8>>,
    /// Which of the words that begin in this field are known.
    pub(crate) words: [bool; WORDS],
    /// Whether more bytes are known than those by which the segments were decided.
    pub(crate) knows_more: bool,
    /// In how many symbols the last round's segments differ from those of the round before.
    pub(crate) moved: u64,
    /// Whether the bytes of the decided segments are kept.
    pub(crate) written: bool,
    /// The levels of the last twelve symbols before these segments, when their bytes were written.
    pub(crate) last: [u8; PRECODE],
    /// The bytes that are kept.
    pub(crate) bytes: Vec<[u8; GROUP_BYTES]>,
    ghost few: { count ≤ 313 },
    ghost cost_small: { cost ≤ most_field_cost },
    ghost moved_small: { moved ≤ 259584 },
    ghost heard_long: { vec_len heard ≡ 313 },
    ghost decided_long: { vec_len decided ≡ 313 },
    ghost known_long: { vec_len known ≡ 64584 },
    ghost bytes_long: { vec_len bytes ≡ 78 },
    ghost kept: { written ≡ true → IsWritten count decided.items last bytes.items },
}

impl Field {
    /// A field without segments. The only error is out of memory.
    pub fn new(alloc: Global) -> Result<Field, AllocError>
        ensures count { IfOk result (λ field. field.count ≡ 0) }
        ensures cost { IfOk result (λ field. field.cost ≡ 0) }
        ensures nothing { IfOk result (λ field. KnowsNothing field.known.items field.words field.knows_more
            field.moved) }
    {
        let mut field = Field {
            count: 0,
            heard: vec![in alloc; [0i8; SEGMENT]; SEGMENTS]?,
            decided: vec![in alloc; [0i8; SEGMENT]; SEGMENTS]?,
            cost: 0,
            known: vec![in alloc; None; BYTES]?,
            words: [false; WORDS],
            knows_more: false,
            moved: 0,
            written: false,
            last: [0; PRECODE],
            bytes: empty_bytes(alloc)?,
        };
        field.clear();
        Ok(field)
    }

    /// Sets the segments: `heard` has the symbols as they were received, `decided` those that were decided, by paths
    /// that cost so much. Nothing is known.
    pub fn set(&mut self, heard: &[[i8; SEGMENT]], decided: &[[i8; SEGMENT]], cost: u64)
        requires few { length heard.now ≤ SEGMENTS }
        requires same { length decided.now ≡ length heard.now }
        requires cost { cost ≤ MOST_FIELD_COST }
        ensures heard { take self.new.count self.new.heard.items ≡ heard.now }
        ensures decided { take self.new.count self.new.decided.items ≡ decided.now }
        ensures count { self.new.count ≡ length heard.now }
        ensures cost { self.new.cost ≡ cost }
        ensures words { length self.new.words ≡ WORDS }
        ensures nothing { KnowsNothing self.new.known.items self.new.words self.new.knows_more self.new.moved }
    {
        self.clear();
        copy(heard, &mut self.heard[..]);
        copy(decided, &mut self.decided[..]);
        self.count = heard.len();
        self.cost = cost;
    }

    /// Makes it a field without segments, of which nothing is known.
    pub(crate) fn clear(&mut self)
        ensures written { self.new.written ≡ false }
        ensures count { self.new.count ≡ 0 }
        ensures cost { self.new.cost ≡ 0 }
        ensures words { length self.new.words ≡ WORDS }
        ensures nothing { KnowsNothing self.new.known.items self.new.words self.new.knows_more self.new.moved }
    {
        self.written = false;
        self.count = 0;
        self.cost = 0;
        self.words = [false; WORDS];
        self.knows_more = false;
        self.moved = 0;
        for byte in &mut self.known[..] {
            *byte = None;
        }
    }

    /// The decided segments.
    pub fn decided(&self) -> &[[i8; SEGMENT]]
        ensures { result.now ≡ take self.now.count self.now.decided.items }
    {
        &self.decided[..self.count]
    }

    /// The bytes that are kept.
    pub(crate) fn bytes(&self) -> &[u8]
        ensures bytes { result.now ≡ flat_map (λ group. group) self.now.bytes.items }
        ensures long { length result.now ≡ BYTES }
    {
        self.bytes.as_flattened()
    }

    /// How many data segments are in whole groups.
    pub(crate) fn in_groups(&self) -> usize
        ensures is { result ≡ (self.now.count - 1) / 4 * 4 }
        ensures few { result ≤ WORDS }
        ensures whole { result ≡ 4 * (result / 4) }
        ensures room { 0 < self.now.count → result < self.now.count }
    {
        self.count.saturating_sub(1) / GROUP_PACKETS * GROUP_PACKETS
    }

    /// What the least paths cost by which the segments were decided.
    pub fn cost(&self) -> u64
        ensures cost { result ≡ self.now.cost }
        ensures most { result ≤ MOST_FIELD_COST }
    {
        self.cost
    }

    /// In how many symbols the last round's segments differ from those of the round before.
    pub fn moved(&self) -> u64
        ensures moved { result ≡ self.now.moved }
        ensures most { result ≤ MOST_MOVED }
    {
        self.moved
    }

    /// How many of the words that begin in this field are known.
    pub fn known_words(&self) -> u64
        ensures known { result ≡ words_known self.now.words }
        ensures few { result ≤ WORDS }
    {
        let mut count = 0;
        for k in 0..WORDS {
            if self.words[k] {
                count += 1;
            }
        }
        count
    }
}

/// Copies segments to the front of others.
fn copy(from: &[[i8; SEGMENT]], to: &mut [[i8; SEGMENT]])
    requires { length from.now ≤ length to.old }
    ensures copied { to.new ≡ from.now ++ drop (length from.now) to.old }
    ensures long { length to.new ≡ length to.old }
{
    to[..from.len()].copy_from_slice(from);
}
