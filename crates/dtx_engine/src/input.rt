// The input of a command.
ghost use Rattle.std.specs.Prelude.{◌≡◌, IfErr, IfSome};
ghost use Rattle.std.specs.FinMap as files;
ghost use Rattle.dtx_outside.specs.Counts.{HasGone};
ghost use Rattle.dtx_meaning.specs.Status.{IsOfInput, blame_of_answer, ended};
ghost use Rattle.dtx_engine.specs.Course.{IsAsked};
ghost use Rattle.dtx_engine.specs.Recipe.{IsAnswerOf, Recipe};
ghost use Rattle.dtx_engine.specs.Stages.{IsForeseenAsk};

use dtx_meaning::{Status, of_read};
use dtx_outside::Shelf;

/// An input of a command: its name, and its number among the command's inputs, in the order of the words.
#[derive(Clone, Copy)]
pub struct Input<'a> {
    /// Its name.
    pub name: &'a str,
    /// Its number, which `Absent` carries.
    pub number: u8,
}

/// Reads one byte of the input of that number. A command does so before it begins any output. So an absent or
/// unreadable input leaves all outputs as they were. The error is `Absent` with the number, `ReadFault` or `Memory`.
#[tactic(auto, using(crate::proofs::AnswersLemmas::read_answers))]
pub fn ask_for<S: Shelf>(shelf: &mut S, which: u8, input: &str) -> Result<(), Status>
    ensures told { IfSome (S.files shelf.old) (λ held. IsAsked (files.get held input.now) which result) }
    ensures input { IfErr result (IsOfInput which) }
    ensures answer { (recipe : Recipe) → IfErr result (λ status. IsAnswerOf recipe (ended status)) }
    ensures kept { S.files shelf.new ≡ S.files shelf.old }
    ensures gone { HasGone (S.counts shelf.old) (S.counts shelf.new) (blame_of_answer result) }
    ensures foreseen { IsForeseenAsk (S.foreseen.readable input.now) result }
{
    let mut first = [0u8; 1];
    match shelf.read(input, 0, &mut first) {
        Ok(_) => Ok(()),
        Err(cause) => Err(of_read(which, cause)),
    }
}
