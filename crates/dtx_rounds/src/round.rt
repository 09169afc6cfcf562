//! One round, which is a field behind the one before it.

ghost use Rattle.std.specs.Prelude.{◌≡◌, ◌<◌, ℕ, ℤ, IfOk, true, false, List, length};
ghost use Rattle.dtx_rounds.specs.RunField.{AreSegments, GivesLast, GoesOn, Holds, IsInRun, IsTurned};
ghost use Rattle.dtx_rounds.specs.Found.{bytes_of};
ghost use Rattle.dtx_rounds.specs.Known.{known_word};

use crate::field::{BYTES, Field, WORDS};
use crate::group_bytes::write_bytes;
use crate::means::Means;
use crate::pinning::decide;
use crate::words::find_words;
use dtx_slice::last_levels;
use std::alloc::{AllocError, Global};

/// A round over the fields of a run. It holds one field, since a word may end in the field behind the one in which it
/// begins.
#[derive(Drop)]
pub(crate) struct Round {
    /// Whether a field is held.
    on: bool,
    /// Its bytes are those of its segments, as they were before this round.
    held: Field,
}

impl Round {
    /// A round that holds no field. The only error is out of memory.
    pub(crate) fn new(alloc: Global) -> Result<Round, AllocError>
        ensures off { IfOk result (λ round. round.on ≡ false) }
    {
        Ok(Round {
            on: false,
            held: Field::new(alloc)?,
        })
    }

    /// Takes the next field. Where one is held, that one has its round: it is given in place of the next one, and the
    /// answer is true.
    pub(crate) fn take(&mut self, means: &mut Means, field: &mut Field) -> bool
        ensures had { result ≡ self.old.on }
        ensures on { self.new.on ≡ true }
        ensures scale { means.new.decoder ≡ means.old.decoder }
        ensures first { self.old.on ≡ false → (scale : ℕ) (heard given : List (List ℤ)) (before : List ℕ)
            → AreSegments given → 0 < length given → IsInRun scale heard given (known_word before) 0 field.old
            → Holds scale heard given before 0 self.new.held }
        ensures next { self.old.on ≡ true
            → GoesOn means.old.decoder self.old.held field.old field.new self.new.held }
    {
        if self.on {
            self.next(means, field);
            true
        } else {
            self.begin(field);
            false
        }
    }

    /// Takes the first field.
    fn begin(&mut self, field: &mut Field)
        ensures on { self.new.on ≡ true }
        ensures holds { (scale : ℕ) (heard given : List (List ℤ)) (before : List ℕ) → AreSegments given
            → 0 < length given → IsInRun scale heard given (known_word before) 0 field.old
            → Holds scale heard given before 0 self.new.held }
    {
        let last = last_levels(&field.decided[0]);
        write_bytes(&last, field);
        self.on = true;
        std::mem::swap(&mut self.held, field);
    }

    /// Takes the next field, and gives the held one in its place.
    fn next(&mut self, means: &mut Means, field: &mut Field)
        ensures on { self.new.on ≡ self.old.on }
        ensures scale { means.new.decoder ≡ means.old.decoder }
        ensures rounded { GoesOn means.old.decoder self.old.held field.old field.new self.new.held }
    {
        // A whole field ends with the last symbols of the twelve coders.
        let last = last_levels(&self.held.decided[WORDS]);
        write_bytes(&last, field);
        turn(means, &mut self.held, field);
        std::mem::swap(&mut self.held, field);
    }

    /// Ends the fields: the one that is held has its round. The answer is false where none is held.
    pub(crate) fn finish(&mut self, means: &mut Means, field: &mut Field) -> bool
        ensures had { result ≡ self.old.on }
        ensures on { self.new.on ≡ false }
        ensures scale { means.new.decoder ≡ means.old.decoder }
        ensures last { self.old.on ≡ true → GivesLast means.old.decoder self.old.held field.new }
    {
        let had = self.on;
        if had {
            self.end(means, field);
        }
        had
    }

    /// Gives the held field, behind which there is none.
    fn end(&mut self, means: &mut Means, field: &mut Field)
        ensures on { self.new.on ≡ false }
        ensures scale { means.new.decoder ≡ means.old.decoder }
        ensures rounded { GivesLast means.old.decoder self.old.held field.new }
    {
        field.clear();
        turn(means, &mut self.held, field);
        self.on = false;
        std::mem::swap(&mut self.held, field);
    }
}

/// The round of a held field, before the next one, whose bytes stand behind all those of the held one.
fn turn(means: &mut Means, held: &mut Field, next: &mut Field)
    ensures turned { IsTurned means.old.decoder held.old next.old held.new next.new }
    ensures scale { means.new.decoder ≡ means.old.decoder }
    ensures long { length (bytes_of held.old) ≡ BYTES }
{
    prove!(held.bytes().len() == BYTES);
    find_words(&means.corrector, held, next);
    decide(means, held);
}
