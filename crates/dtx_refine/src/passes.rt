//! The fields of a capture on their way through all rounds.

ghost use Rattle.std.specs.Prelude.{ℕ, ℤ, ◌≡◌, ◌+◌, ◌*◌, ◌<◌, ◌≤◌, IfOk, true, false, List, [], length};
ghost use Rattle.dtx_acquire.specs.Acquired.{acquired};
ghost use Rattle.dtx_rounds.specs.Known.{known_word};
ghost use Rattle.dtx_rounds.specs.Rounds.{fields_in, heard_of};
ghost use Rattle.dtx_rounds.specs.RunField.{IsInRun};

use crate::numbers::{MOST_FIELDS, Numbers};
use dtx_acquire::Acquirer;
use dtx_rounds::laws::a_capture_begins_as_it_was_acquired;
use dtx_rounds::{Field, Rounds};
use dtx_sizes::{FIELD_SEGMENTS, SEGMENT};
use dtx_soft::MAX_SCALE;
use std::alloc::{AllocError, Global};

/// Rounds, with the field that goes through them, and the numbers of all fields that had them.
#[derive(Drop)]
pub(crate) struct Passes {
    rounds: Rounds,
    /// How many rounds there are.
    count: usize,
    /// The field that goes through the rounds. Where `gives` is true, it had all of them.
    field: Field,
    pub(crate) gives: bool,
    /// How many fields the rounds hold.
    held: u64,
    pub(crate) numbers: Numbers,
    ghost some: { 0 < count },
}

impl Passes {
    ghost use Rattle.dtx_refine.specs.Refiner.{ArePassed, HasEndedOne, HasTaken, IsField, given_of};

    /// So many rounds, which no field has come to. The only error is out of memory.
    pub(crate) fn new(alloc: Global, scale: u8, rounds: usize) -> Result<Passes, AllocError>
        requires from { 0 < scale }
        requires to { scale ≤ MAX_SCALE }
        requires some { 0 < rounds }
        ensures passed { IfOk result (λ passes. (symbols : List ℤ) → ArePassed scale symbols 0 passes) }
        ensures gives { IfOk result (λ passes. passes.gives ≡ false) }
        ensures count { IfOk result (λ passes. passes.count ≡ rounds) }
        ensures held { IfOk result (λ passes. passes.held ≡ 0) }
        ensures done { IfOk result (λ passes. passes.numbers.done ≡ 0) }
    {
        Ok(Passes {
            rounds: Rounds::new(alloc, scale, rounds)?,
            count: rounds,
            field: Field::new(alloc)?,
            gives: false,
            held: 0,
            numbers: Numbers::new(),
        })
    }

    /// Passes the field that the acquirer gave, if it gave one, through the rounds.
    pub(crate) fn take(&mut self, acquirer: &Acquirer)
        requires few { length acquirer.now.given ≤ FIELD_SEGMENTS }
        requires same { length acquirer.now.heard ≡ length acquirer.now.given }
        requires room { self.old.numbers.done + self.old.held + length acquirer.now.given ≤ MOST_FIELDS }
        ensures taken { (symbols : List ℤ) (t : ℕ) → ArePassed acquirer.now.scale symbols t self.old
            → (0 < length acquirer.now.given → IsField acquirer.now symbols t)
            → HasTaken acquirer.now.scale symbols t (fields_in acquirer.now.given) self.old self.new }
        ensures total { self.new.numbers.done + self.new.held
            ≤ self.old.numbers.done + self.old.held + length acquirer.now.given }
        ensures held { self.new.held ≤ self.old.held + 1 }
        ensures still { self.new.gives ≡ true → self.new.held ≤ self.old.held }
        ensures some { self.new.gives ≡ true → 0 < length acquirer.now.given }
        ensures count { self.new.count ≡ self.old.count }
    {
        if acquirer.given().len() > 0 {
            self.pass(acquirer);
        } else {
            self.gives = false;
        }
    }

    /// Gives the next of the fields that the rounds hold behind the end of the symbols, if they hold one.
    pub(crate) fn next(&mut self)
        requires { self.old.numbers.done + self.old.held ≤ MOST_FIELDS }
        ensures ended { (scale : ℕ) (symbols : List ℤ)
            → ArePassed scale symbols (fields_in (acquired scale symbols)) self.old
            → HasEndedOne scale symbols self.old self.new }
        ensures total { self.new.numbers.done + self.new.held ≡ self.old.numbers.done + self.old.held }
        ensures held { self.new.held ≤ self.old.held }
        ensures less { self.new.gives ≡ true → self.new.held < self.old.held }
        ensures count { self.new.count ≡ self.old.count }
    {
        if self.held > 0 {
            self.end();
        } else {
            self.gives = false;
        }
    }

    /// The segments that the last call of `take` or `next` has brought.
    pub(crate) fn given(&self) -> &[[i8; SEGMENT]]
        ensures { result.now ≡ given_of self.now }
    {
        let segments = self.field.decided();
        let count = if self.gives { segments.len() } else { 0 };
        &segments[..count]
    }

    /// Passes the field that the acquirer gave through the rounds.
    fn pass(&mut self, acquirer: &Acquirer)
        requires few { length acquirer.now.given ≤ FIELD_SEGMENTS }
        requires same { length acquirer.now.heard ≡ length acquirer.now.given }
        requires some { 0 < length acquirer.now.given }
        requires room { self.old.numbers.done + self.old.held < MOST_FIELDS }
        ensures taken { (symbols : List ℤ) (t : ℕ) → ArePassed acquirer.now.scale symbols t self.old
            → IsField acquirer.now symbols t → HasTaken acquirer.now.scale symbols t 1 self.old self.new }
        ensures total { self.new.numbers.done + self.new.held ≡ self.old.numbers.done + self.old.held + 1 }
        ensures held { self.new.held ≤ self.old.held + 1 }
        ensures still { self.new.gives ≡ true → self.new.held ≤ self.old.held }
        ensures count { self.new.count ≡ self.old.count }
    {
        Passes::set(&mut self.field, acquirer);
        self.gives = self.rounds.take(&mut self.field);
        if self.gives {
            self.numbers.add(&self.field);
        } else {
            self.held += 1;
        }
    }

    /// Sets a field to the one that the acquirer gave.
    fn set(field: &mut Field, acquirer: &Acquirer)
        requires few { length acquirer.now.given ≤ FIELD_SEGMENTS }
        requires same { length acquirer.now.heard ≡ length acquirer.now.given }
        requires some { 0 < length acquirer.now.given }
        ensures { (symbols : List ℤ) (t : ℕ) → 0 < acquirer.now.scale → acquirer.now.scale ≤ MAX_SCALE
            → IsField acquirer.now symbols t → IsInRun acquirer.now.scale (heard_of symbols)
            (acquired acquirer.now.scale symbols) (known_word []) t field.new }
    {
        a_capture_begins_as_it_was_acquired();
        field.set(acquirer.heard(), acquirer.given(), acquirer.field_cost());
    }

    /// Gives the next of the fields that the rounds hold.
    fn end(&mut self)
        requires some { 0 < self.old.held }
        requires room { self.old.numbers.done + self.old.held ≤ MOST_FIELDS }
        ensures ended { (scale : ℕ) (symbols : List ℤ)
            → ArePassed scale symbols (fields_in (acquired scale symbols)) self.old
            → HasEndedOne scale symbols self.old self.new }
        ensures total { self.new.numbers.done + self.new.held ≡ self.old.numbers.done + self.old.held }
        ensures held { self.new.held ≤ self.old.held }
        ensures less { self.new.gives ≡ true → self.new.held < self.old.held }
        ensures count { self.new.count ≡ self.old.count }
    {
        self.gives = self.rounds.finish(&mut self.field);
        if self.gives {
            self.held -= 1;
            self.numbers.add(&self.field);
        }
    }
}
