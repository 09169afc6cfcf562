//! A refiner, which makes segments from symbols as they come.

ghost use Rattle.std.specs.Prelude.{◌≡◌, ℤ, ◌+◌, ◌-◌, ◌*◌, ◌<◌, ◌≤◌, ◌++◌, true, false, [], List, IfOk, length, take};
ghost use Rattle.dtx_receiver.specs.Bytes.{bytes_in};
ghost use Rattle.dtx_acquire.specs.Acquired.{acquired, acquired_runs};
ghost use Rattle.dtx_rounds.specs.Known.{known_count};
ghost use Rattle.dtx_rounds.specs.Rounds.{heard_of, refined, refined_rest, refined_so_far, round_cost, round_moved};
ghost use Rattle.dtx_refine.specs.Refiner.{HasEnded, HasStepped, IsEnding, IsOver, StandsFor};

use crate::passes::Passes;
use dtx_acquire::Acquirer;
use dtx_rounds::laws::the_numbers_of_a_round_are_those_of_its_fields;
use dtx_sizes::{FIELD_SEGMENTS, MOST_SYMBOLS, SEGMENT};
use dtx_soft::MAX_SCALE;
use std::alloc::{AllocError, Global};
use std::marker::Model;

/// How many rounds a refiner has at most (the profile's own limit).
pub const MOST_ROUNDS: usize = 32;

/// Finds the fields of a capture as an `Acquirer` does, and passes each through rounds, in which the words that are
/// known pin the paths of the trellis around them (the profile's own; ATSC A/53 Part 2, trellis coding). It is given
/// the symbols in pieces of any length, and gives whole segments. It allocates only in `new`. `StandsFor refiner
/// symbols` is its invariant: it was given these symbols, and its rounds took all fields that are settled whatever
/// follows.
#[derive(Drop)]
pub struct Refiner {
    acquirer: Acquirer,
    passes: Passes,
    /// Whether the symbols have ended.
    ended: bool,
}

impl Model for Refiner {
    ghost use Rattle.std.specs.Prelude.{◌+◌, ◌*◌, ◌≤◌, length};
    ghost use Rattle.dtx_refine.specs.Refiner.{Refining, refining};

    ghost Value = { Refining };

    ghost view = { λ r. refining r.acquirer r.passes r.ended };

    // A field and a segment are 261248 symbols. So segments are few enough that no number below overflows.
    ghost invariant = { λ r. (832 * r.acquirer.segments + length r.acquirer.held ≤ r.acquirer.symbols + 261248)
        × (r.acquirer.symbols ≤ 520832000000) × (r.passes.numbers.done + r.passes.held ≤ r.acquirer.segments) };
}

impl Refiner {
    /// A new refiner, for symbols at this scale, with so many rounds. The only error is out of memory.
    pub fn new(alloc: Global, scale: u8, rounds: usize) -> Result<Refiner, AllocError>
        requires from { 0 < scale }
        requires to { scale ≤ MAX_SCALE }
        requires some { 0 < rounds }
        requires most { rounds ≤ MOST_ROUNDS }
        ensures stands { IfOk result (λ refiner. StandsFor refiner []) }
        ensures given { IfOk result (λ refiner. refiner.given ≡ []) }
        ensures scale { IfOk result (λ refiner. refiner.scale ≡ scale) }
        ensures rounds { IfOk result (λ refiner. refiner.rounds ≡ rounds) }
        ensures symbols { IfOk result (λ refiner. refiner.symbols ≡ 0) }
    {
        Ok(Refiner {
            acquirer: Acquirer::new(alloc, scale)?,
            passes: Passes::new(alloc, scale, rounds)?,
            ended: false,
        })
    }

    /// Takes symbols that follow those given before, and returns how many it took. It takes no more than it has room
    /// for until the next field is whole. `given` has the segments that they bring. The caller calls again with the
    /// rest.
    pub fn take(&mut self, symbols: &[i8]) -> usize
        requires most { self.old.symbols + length symbols.now ≤ MOST_SYMBOLS }
        ensures within { result ≤ length symbols.now }
        ensures some { (before : List ℤ) → StandsFor self.old before → 0 < length symbols.now → 0 < result }
        ensures stands { (before : List ℤ) → StandsFor self.old before
            → StandsFor self.new (before ++ take result symbols.now) }
        ensures given { (before : List ℤ) → StandsFor self.old before
            → refined_so_far self.old.scale (before ++ take result symbols.now) self.old.rounds
            ≡ refined_so_far self.old.scale before self.old.rounds ++ self.new.given }
        ensures room { SEGMENT * length self.new.given + length self.new.held ≤ length self.old.held + result }
        ensures scale { self.new.scale ≡ self.old.scale }
        ensures rounds { self.new.rounds ≡ self.old.rounds }
        ensures symbols { self.new.symbols ≡ self.old.symbols + result }
    {
        let count = self.acquirer.take(symbols);
        self.passes.take(&self.acquirer);
        count
    }

    /// Ends the symbols: gives the segments of the next field that is left. The answer is false where there is none.
    /// The caller calls until then. The numbers below are then those of all symbols.
    pub fn finish(&mut self) -> bool
        ensures begins { (symbols : List ℤ) → StandsFor self.old symbols → IsEnding self.old symbols [] }
        ensures more { (symbols : List ℤ) (before : List (List ℤ)) → IsEnding self.old symbols before
            → IsEnding self.new symbols (before ++ self.new.given) }
        ensures all { (symbols : List ℤ) (before : List (List ℤ)) → IsEnding self.old symbols before
            → result ≡ false → before ≡ refined_rest self.old.scale symbols self.old.rounds }
        ensures runs { (symbols : List ℤ) (before : List (List ℤ)) → IsEnding self.old symbols before
            → result ≡ false → self.new.runs ≡ acquired_runs symbols }
        ensures segments { (symbols : List ℤ) (before : List (List ℤ)) → IsEnding self.old symbols before
            → result ≡ false → self.new.segments ≡ length (acquired self.old.scale symbols) }
        ensures known { (symbols : List ℤ) (before : List (List ℤ)) → IsEnding self.old symbols before
            → result ≡ false → self.new.known
            ≡ known_count (bytes_in (refined self.old.scale symbols (self.old.rounds - 1))) }
        ensures cost { (symbols : List ℤ) (before : List (List ℤ)) → IsEnding self.old symbols before
            → result ≡ false → self.new.cost
            ≡ round_cost self.old.scale (heard_of symbols) (refined self.old.scale symbols (self.old.rounds - 1)) }
        ensures moved { (symbols : List ℤ) (before : List (List ℤ)) → IsEnding self.old symbols before
            → result ≡ false → self.new.moved
            ≡ round_moved self.old.scale (heard_of symbols) (refined self.old.scale symbols (self.old.rounds - 1)) }
        ensures few { length self.new.given ≤ FIELD_SEGMENTS }
        ensures some { (symbols : List ℤ) (before : List (List ℤ)) → IsEnding self.old symbols before
            → result ≡ true → 0 < length self.new.given }
        ensures none { result ≡ false → self.new.given ≡ [] }
        ensures waiting { self.new.waiting + length self.new.given ≤ self.old.waiting }
        ensures fewer { result ≡ true → self.new.waiting < self.old.waiting }
        ensures scale { self.new.scale ≡ self.old.scale }
        ensures rounds { self.new.rounds ≡ self.old.rounds }
        ensures symbols { self.new.symbols ≡ self.old.symbols }
    {
        self.step()
    }

    /// The segments that the last call of `take` or `finish` has brought.
    pub fn given(&self) -> &[[i8; SEGMENT]]
        ensures { result.now ≡ self.now.given }
    {
        self.passes.given()
    }

    /// Gives proofs a fact, and has no effect: fewer symbols are held than those of a field and one segment.
    pub fn holds_few(&self)
        ensures { (symbols : List ℤ) → StandsFor self.now symbols → length self.now.held < 261248 }
    {
        let _ended = self.ended;
    }

    /// How many symbols were taken.
    pub fn symbols(&self) -> u64
        ensures { result ≡ self.now.symbols }
    {
        self.acquirer.symbols()
    }

    /// How many runs have given segments.
    pub fn runs(&self) -> u64
        ensures { result ≡ self.now.runs }
    {
        self.acquirer.runs()
    }

    /// How many segments were acquired.
    pub fn segments(&self) -> u64
        ensures { result ≡ self.now.segments }
    {
        self.acquirer.segments()
    }

    /// How many words the last round knew, of all fields that had it.
    pub fn known(&self) -> u64
        ensures { result ≡ self.now.known }
    {
        self.passes.numbers.known
    }

    /// What the least paths of the last round cost, of all fields that had it.
    pub fn cost(&self) -> u64
        ensures { result ≡ self.now.cost }
    {
        self.passes.numbers.cost
    }

    /// In how many symbols the last round's segments differ from those that it was given, of all fields that had it.
    pub fn moved(&self) -> u64
        ensures { result ≡ self.now.moved }
    {
        self.passes.numbers.moved
    }

    /// How many symbols are in no segment that was acquired.
    pub fn loose(&self) -> u64
        ensures { result ≡ self.now.symbols - SEGMENT * self.now.segments }
    {
        self.acquirer.loose()
    }

    /// Ends the symbols if they have not ended. Gives the segments of the next field that is left, if there is one.
    fn step(&mut self) -> bool
        ensures ended { (symbols : List ℤ) (before : List (List ℤ)) → IsEnding self.old symbols before
            → HasEnded self.new symbols (before ++ self.new.given) }
        ensures all { (symbols : List ℤ) (before : List (List ℤ)) → IsEnding self.old symbols before
            → result ≡ false → IsOver self.new symbols }
        ensures some { (symbols : List ℤ) (before : List (List ℤ)) → IsEnding self.old symbols before
            → result ≡ true → 0 < length self.new.given }
        ensures stepped { HasStepped self.old self.new result }
    {
        if self.ended {
            self.next()
        } else if self.end() {
            true
        } else {
            self.next()
        }
    }

    /// Ends the symbols, and passes the last field through the rounds.
    fn end(&mut self) -> bool
        requires { self.old.ended ≡ false }
        ensures ended { (symbols : List ℤ) → StandsFor self.old symbols → HasEnded self.new symbols self.new.given }
        ensures some { (symbols : List ℤ) → StandsFor self.old symbols
            → result ≡ true → 0 < length self.new.given }
        ensures stepped { HasStepped self.old self.new result }
    {
        self.ended = true;
        self.acquirer.finish();
        self.passes.take(&self.acquirer);
        self.passes.gives
    }

    /// Gives the next of the fields that the rounds hold.
    fn next(&mut self) -> bool
        requires { self.old.ended ≡ true }
        ensures ended { (symbols : List ℤ) (before : List (List ℤ)) → HasEnded self.old symbols before
            → HasEnded self.new symbols (before ++ self.new.given) }
        ensures all { (symbols : List ℤ) (before : List (List ℤ)) → HasEnded self.old symbols before
            → result ≡ false → IsOver self.new symbols }
        ensures some { (symbols : List ℤ) (before : List (List ℤ)) → HasEnded self.old symbols before
            → result ≡ true → 0 < length self.new.given }
        ensures stepped { HasStepped self.old self.new result }
    {
        the_numbers_of_a_round_are_those_of_its_fields();
        self.passes.next();
        self.passes.gives
    }
}
