//! One side of a run: its bytes, or its marks, from levels to gathered words.

ghost use Rattle.std.specs.Prelude.{◌≡◌, ℤ, IfOk, IsTrue, ◌↔◌, ◌+◌, ◌-◌, ◌*◌, ◌/◌, ◌%◌, ◌<◌, ◌≤◌, ◌++◌, ◌∷◌, []};
ghost use Rattle.std.specs.Prelude.{ℕ, List, length, drop, replicate, slice_index_or, take};
ghost use Rattle.std.specs.List.{flat_map};
ghost use Rattle.dtx_laws.specs.Branches.{HasWidths, gathering, leaving_all, after_all};
ghost use Rattle.dtx_outer.specs.Inner.{word_at};
ghost use Rattle.dtx_slice.specs.Unrolled.{precoder_bits_after};
ghost use Rattle.dtx_receiver.specs.Bytes.{groups_of, bytes_in, symbols_in};
ghost use Rattle.dtx_receiver.specs.Receiver.{AreGrouped};
ghost use Rattle.dtx_erase.specs.Sides.{Holds, IsFurther, word_of};

use dtx_laws::Gather;
use dtx_receiver::{Groups, HELD_GROUPS};
use dtx_sizes::{
    BRANCH_STEP, BRANCHES, CODEWORD, FIELD_PACKETS, GROUP_BYTES, GROUP_LEVELS, GROUP_PACKETS,
    SEGMENT,
};
use dtx_spread::Collect;
use std::alloc::{AllocError, Global};
use std::marker::Model;

/// How many of a group's bytes begin a word that the next group completes.
const BEGUN: usize = 156;

/// The room for gathered bytes: those that an earlier group began, and those of the groups that are gathered together.
const GATHERED: usize = BEGUN + GROUP_BYTES * HELD_GROUPS;

/// One side of a run. `Holds side run` says that it holds what the segments of the run leave. The side holds the bytes
/// of whole groups, so that it can gather those of several groups together.
#[derive(Drop)]
pub(crate) struct Side {
    groups: Groups,
    gather: Collect<BRANCHES, BRANCH_STEP>,
    begun: [u8; BEGUN],
    gathered: [u8; GATHERED],
}

impl Model for Side {
    ghost use Rattle.dtx_erase.specs.Sides.{Side as Kept};

    ghost Value = { Kept };

    ghost view = { λ s. record { groups = s.groups; branches = s.gather; begun = s.begun; gathered = s.gathered } };
}

impl Side {
    /// The side of no run. The only error is out of memory.
    pub(crate) fn new(alloc: Global) -> Result<Side, AllocError>
        ensures { IfOk result (λ side. side.groups.held ≡ []) }
    {
        Ok(Side {
            groups: Groups::new(),
            gather: Collect::new(alloc)?,
            begun: [0; BEGUN],
            gathered: [0; GATHERED],
        })
    }

    /// Begins a run with this field sync.
    pub(crate) fn begin(&mut self, sync: &[i8; SEGMENT])
        ensures { Holds self.new (sync.now ∷ []) }
    {
        self.groups.begin(sync);
        self.gather.known();
        self.gather.align();
    }

    /// Takes the next data segment of the run, at place `place` of its field. If a group becomes whole, the side holds
    /// its bytes.
    pub(crate) fn take(&mut self, place: u16, segment: &[i8; SEGMENT])
        requires place { place < FIELD_PACKETS }
        requires room { place % 4 ≡ 3 → length self.old.groups.held < HELD_GROUPS }
        ensures rest { self.new ≡ record self.old { groups = self.new.groups } }
        ensures grouped { (run : List (List ℤ)) (given : List ℕ) → AreGrouped self.old.groups run given
            → length run % 313 ≡ place + 1 → AreGrouped self.new.groups (run ++ segment.now ∷ []) given }
        ensures held { length self.new.groups.held ≡ length self.old.groups.held + (place % 4 + 1) / 4 }
        ensures bits { place % 4 ≡ 3 → self.new.groups.precoder_bits ≡ precoder_bits_after (place - place % 4)
            self.old.groups.precoder_bits self.new.groups.levels }
    {
        self.groups.take(place, segment);
    }

    /// Takes the next data segments of the run, given as the bytes of their symbols. `place` is the first one's place
    /// in its field. It returns how many groups became whole, whose words are gathered.
    pub(crate) fn take_all(&mut self, place: u16, segments: &[[u8; SEGMENT]]) -> usize
        requires place { place + length segments.now ≤ FIELD_PACKETS }
        requires most { length segments.now ≤ GROUP_PACKETS * HELD_GROUPS }
        requires none { self.old.groups.held ≡ [] }
        ensures count { result ≡ (place % 4 + length segments.now) / 4 }
        ensures none { self.new.groups.held ≡ [] }
        ensures further { (run : List (List ℤ)) → Holds self.old run → length run % 313 ≡ place + 1
            → IsFurther self.new result run (run ++ symbols_in segments.now) }
    {
        self.groups.take_all(place, segments);
        let count = self.lay_out();
        self.pass(count);
        count
    }

    /// Copies the bytes of the held groups into `gathered`, behind the 156 bytes that begin a word. It returns the
    /// number of these groups. Then none is held.
    pub(crate) fn lay_out(&mut self) -> usize
        ensures count { result ≡ length self.old.groups.held }
        ensures most { result ≤ HELD_GROUPS }
        ensures side { self.new ≡ record self.old {
          groups = record self.old.groups { held = [] };
          gathered = self.new.gathered;
        } }
        ensures bytes { take (GROUP_BYTES * result) (drop BEGUN self.new.gathered)
            ≡ flat_map (λ bytes. bytes) self.old.groups.held }
        ensures long { length (flat_map (λ bytes. bytes) self.old.groups.held) ≡ GROUP_BYTES * result }
        ensures begun { length self.old.begun ≡ BEGUN }
    {
        self.groups.put(&mut self.gathered[BEGUN..])
    }

    /// Passes the bytes of `count` groups, which are laid out, through the de-interleaver.
    pub(crate) fn pass(&mut self, count: usize)
        requires { count ≤ HELD_GROUPS }
        ensures groups { self.new.groups ≡ self.old.groups }
        ensures branches { self.new.branches ≡ after_all BRANCHES self.old.branches
            (take (GROUP_BYTES * count) (drop BEGUN self.old.gathered)) }
        ensures gathered { take (BEGUN + GROUP_BYTES * count) self.new.gathered ≡ self.old.begun
            ++ leaving_all BRANCHES self.old.branches (take (GROUP_BYTES * count) (drop BEGUN self.old.gathered)) }
        ensures begun { self.new.begun ≡ take BEGUN (drop (GROUP_BYTES * count) self.new.gathered) }
    {
        let end = BEGUN + GROUP_BYTES * count;
        self.gather.gather(&mut self.gathered[BEGUN..end]);
        let begun = self.begun;
        self.gathered[..BEGUN].copy_from_slice(&begun);
        self.begun = self.ends(GROUP_BYTES * count);
    }

    /// The 156 gathered bytes from a place on.
    fn ends(&self, from: usize) -> [u8; BEGUN]
        requires { from ≤ GROUP_BYTES * HELD_GROUPS }
        ensures { result ≡ take BEGUN (drop from self.now.gathered) }
    {
        let mut ends = [0; BEGUN];
        ends.copy_from_slice(&self.gathered[from..from + BEGUN]);
        ends
    }

    /// Word `p` of the words that were gathered last.
    fn word(&self, p: usize) -> [u8; CODEWORD]
        requires { p < GROUP_PACKETS * HELD_GROUPS }
        ensures { result ≡ word_of self.now.gathered p }
    {
        let mut word = [0; CODEWORD];
        word.copy_from_slice(&self.gathered[CODEWORD * p..CODEWORD * p + CODEWORD]);
        word
    }

    /// The four words that one of the last groups completed. `group` counts the groups that were gathered together
    /// last.
    pub(crate) fn words(&self, group: usize) -> [[u8; CODEWORD]; 4]
        requires { group < HELD_GROUPS }
        ensures words { (p : ℕ) → p < 4 → slice_index_or result p [] ≡ word_of self.now.gathered (4 * group + p) }
        ensures long { (p : ℕ) → p < 4 → length (slice_index_or result p []) ≡ CODEWORD }
    {
        let mut words = [[0; CODEWORD]; 4];
        for p in 0..4 {
            words[p] = self.word(4 * group + p);
        }
        words
    }

    /// Gives proofs a fact, and does nothing when it runs: each branch of the de-interleaver holds as many bytes as it
    /// delays by.
    pub(crate) fn known(&self)
        ensures { HasWidths BRANCHES (gathering BRANCHES BRANCH_STEP) self.now.branches }
    {
        self.gather.known();
    }

    /// Whether all kept levels are 0: those of the last whole group, with the ones that the group under way has
    /// overwritten.
    pub(crate) fn is_lowest(&self) -> bool
        ensures { IsTrue result ↔ (self.now.groups.levels ≡ replicate GROUP_LEVELS 0) }
    {
        are_lowest(self.groups.levels())
    }

    /// Whether the bytes of `count` groups, which are laid out, are all 0.
    pub(crate) fn is_blank(&self, count: usize) -> bool
        requires { count ≤ HELD_GROUPS }
        ensures { IsTrue result ↔ (take (GROUP_BYTES * count) (drop BEGUN self.now.gathered)
            ≡ replicate (GROUP_BYTES * count) 0) }
    {
        are_zero(&self.gathered[BEGUN..BEGUN + GROUP_BYTES * count])
    }

    /// Whether the bytes that begin a word are all 0.
    pub(crate) fn is_empty(&self) -> bool
        ensures { IsTrue result ↔ (self.now.begun ≡ replicate BEGUN 0) }
    {
        are_zero(&self.begun[..])
    }

    /// Stands in for `groups` groups of zeros, where all that is kept is 0. The de-interleaver takes only the zeros
    /// that these groups have beyond whole turns of 52 bytes. What was gathered becomes zeros.
    pub(crate) fn move_on(&mut self, groups: usize)
        requires { groups ≤ HELD_GROUPS }
        ensures { self.new ≡ record self.old {
          branches = after_all BRANCHES self.old.branches (replicate (48 * groups % 52) 0);
          gathered = replicate GATHERED 0;
        } }
    {
        let over = 48 * groups % BRANCHES;
        let mut zeros = [0; BRANCHES];
        self.gather.gather(&mut zeros[..over]);
        self.gathered = [0; GATHERED];
    }

    /// The word that is left at the end of a run, where 52 divides the number of data segments.
    pub(crate) fn last_word(&mut self) -> [u8; CODEWORD]
        ensures groups { self.new.groups ≡ self.old.groups }
        ensures word { (run : List (List ℤ)) (k : ℕ) → Holds self.old run → k + 52 ≡ 4 * groups_of run → k % 52 ≡ 0
            → result ≡ word_at 207 52 4 (bytes_in run) k }
    {
        let mut rest = [0; CODEWORD - BEGUN];
        self.gather.gather(&mut rest);
        let mut word = [0; CODEWORD];
        join(&self.begun, 0, &rest, &mut word);
        word
    }
}

/// Writes the bytes of `before` from place `skip` on, and those of `behind` after them.
fn join(before: &[u8], skip: usize, behind: &[u8], out: &mut [u8])
    requires skip { skip ≤ length before.now }
    requires out { length before.now - skip + length behind.now ≡ length out.old }
    ensures { out.new ≡ drop skip before.now ++ behind.now }
{
    let begun = before.len() - skip;
    out[..begun].copy_from_slice(&before[skip..]);
    out[begun..].copy_from_slice(behind);
}

/// Whether all levels of a group are 0.
fn are_lowest(levels: &[u8; GROUP_LEVELS]) -> bool
    ensures { IsTrue result ↔ (levels.now ≡ replicate GROUP_LEVELS 0) }
{
    are_zero(&levels[..])
}

/// Whether all bytes are 0.
fn are_zero(bytes: &[u8]) -> bool
    ensures { IsTrue result ↔ (bytes.now ≡ replicate (length bytes.now) 0) }
{
    let mut any = false;
    for i in 0..bytes.len() {
        any |= bytes[i] != 0;
    }
    !any
}
