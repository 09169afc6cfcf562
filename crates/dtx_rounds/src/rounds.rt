//! Rounds, one behind the other.

ghost use Rattle.std.specs.Prelude.{◌≡◌, ◌*◌, ◌<◌, ◌≤◌, nat_le, ℕ, ℤ, IfOk, true, false, List, [], length};
ghost use Rattle.dtx_receiver.specs.Bytes.{bytes_in};
ghost use Rattle.dtx_rounds.specs.RunField.{AreSegments, IsInRun, IsRounded};
ghost use Rattle.dtx_rounds.specs.Known.{known_word};
ghost use Rattle.dtx_rounds.specs.RunRounds.{AreFinished, AreMade, AreTaken, AreAt, AreOff, EndsOn, IsAt, IsEndedFirst};
ghost use Rattle.dtx_rounds.specs.RunRounds.{IsRun, PassesOn, given_by, given_count, on_count};
ghost use Rattle.dtx_rounds.specs.Rounds.{fields_in, rounded};

use crate::field::Field;
use crate::means::Means;
use crate::round::Round;
use dtx_soft::MAX_SCALE;
use std::alloc::{AllocError, Global};

/// Rounds over the fields of a capture, each a field behind the one before it. `AreMade scale heard given count t f
/// rounds` says that so many rounds took the first `t` fields of a run, and that `f` of these have had all rounds.
#[derive(Drop)]
pub struct Rounds {
    means: Means,
    rounds: Vec<Round>,
}

impl Rounds {
    /// So many rounds, at this scale. The only error is out of memory.
    pub fn new(alloc: Global, scale: u8, count: usize) -> Result<Rounds, AllocError>
        requires some { 0 < scale }
        requires most { scale ≤ MAX_SCALE }
        ensures begun { IfOk result (λ rounds. (heard given : List (List ℤ))
            → AreMade scale heard given count 0 0 rounds) }
    {
        Ok(Rounds {
            means: Means::new(alloc, scale)?,
            rounds: empty_rounds(alloc, count)?,
        })
    }

    /// Takes the next field of a capture, of which nothing is known. Where each round holds a field, one has had all
    /// rounds: it is given in its place, and the answer is true. The fields are given in order.
    pub fn take(&mut self, field: &mut Field) -> bool
        ensures taken { (scale count t f : ℕ) (heard given : List (List ℤ)) → AreSegments given
            → length heard ≡ length given → 313 * t < length given → AreMade scale heard given count t f self.old
            → IsInRun scale heard given (known_word []) t field.old
            → AreTaken scale heard given count t f result self.new field.new }
    {
        pass(&mut self.means, &mut self.rounds[..], field)
    }

    /// Ends the fields: gives the next of those that are held, and the answer is false where there is none. The caller
    /// calls until then.
    pub fn finish(&mut self, field: &mut Field) -> bool
        ensures finished { (scale count t f : ℕ) (heard given : List (List ℤ)) → AreSegments given
            → length heard ≡ length given → t ≡ fields_in given → AreMade scale heard given count t f self.old
            → AreFinished scale heard given count t f result self.new field.new }
    {
        end(&mut self.means, &mut self.rounds[..], field)
    }
}

/// So many rounds that hold no field. The only error is out of memory.
fn empty_rounds(alloc: Global, count: usize) -> Result<Vec<Round>, AllocError>
    ensures off { IfOk result (λ rounds. AreOff rounds.items) }
    ensures long { IfOk result (λ rounds. length rounds.items ≡ count) }
{
    let mut rounds = Vec::new(alloc);
    while rounds.len() < count {
        rounds.push(Round::new(alloc)?)?;
    }
    Ok(rounds)
}

/// Passes a field through rounds. Where one of them holds none yet, that one keeps it, and the answer is false. Where
/// all of them hold one, the answer is true.
fn pass(means: &mut Means, rounds: &mut [Round], field: &mut Field) -> bool
    ensures scale { means.new.decoder ≡ means.old.decoder }
    ensures passed { PassesOn means.old.decoder rounds.old field.old rounds.new result field.new }
    ensures still { length rounds.old ≡ 0 → field.new ≡ field.old }
    ensures full { result ≡ nat_le (length rounds.old) (on_count rounds.old) }
{
    match rounds.split_first_mut() {
        None => true,
        Some((round, rest)) => {
            if round.take(means, field) {
                pass(means, rest, field)
            } else {
                false
            }
        }
    }
}

/// Gives the next field of those that rounds hold, once no more comes to the first of them. The answer is false where
/// none is held.
fn end(means: &mut Means, rounds: &mut [Round], field: &mut Field) -> bool
    ensures scale { means.new.decoder ≡ means.old.decoder }
    ensures ended { EndsOn means.old.decoder rounds.old rounds.new result field.new }
{
    match rounds.split_first_mut() {
        None => false,
        Some((round, rest)) => {
            if end_first(means, round, rest, field) {
                true
            } else {
                end(means, rest, field)
            }
        }
    }
}

/// Ends the first of some rounds, and passes the field that it gives through the others.
fn end_first(means: &mut Means, round: &mut Round, rest: &mut [Round], field: &mut Field) -> bool
    ensures scale { means.new.decoder ≡ means.old.decoder }
    ensures off { round.new.on ≡ false }
    ensures ended { (heard given : List (List ℤ)) (before : List ℕ) (t : ℕ) → IsRun heard given before
        → t ≡ fields_in given
        → IsAt means.old.decoder heard given before t round.old
        → AreAt means.old.decoder heard (rounded means.old.decoder heard given) (bytes_in given) (given_by round.old t)
        rest.old
        → IsEndedFirst means.old.decoder heard (rounded means.old.decoder heard given) (bytes_in given) t
        (given_by round.old t) rest.old rest.new result field.new }
    ensures last { (heard given : List (List ℤ)) (before : List ℕ) (t : ℕ) → IsRun heard given before
        → t ≡ fields_in given → IsAt means.old.decoder heard given before t round.old → result ≡ true
        → length rest.old ≡ 0
        → IsRounded means.old.decoder heard given (given_count (given_by round.old t) rest.old) field.new }
{
    if round.finish(means, field) {
        pass(means, rest, field)
    } else {
        false
    }
}
