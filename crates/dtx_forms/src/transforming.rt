// `.. IN OUT` and `dvb .. IN OUT`: what an engine makes of an input alone.
ghost use Rattle.std.specs.Prelude.{◌≡◌, is_some, [], ◌∷◌, Some, IfOk};
ghost use Rattle.dtx_engine.specs.Recipe.{IsAnswerOf, Recipe, transformed};
ghost use Rattle.dtx_words.specs.Names.{repeated};
ghost use Rattle.dtx_words.specs.declared.rows.Command.{Command};
ghost use Rattle.dtx_forms.specs.Answers.{IsKnown};
ghost use Rattle.dtx_forms.specs.Job.{IsPerformed, IsJobPerformed};
ghost use Rattle.dtx_forms.specs.Stages.{IsStaged, stages_of};
ghost use Rattle.dtx_forms.specs.Transform.{dvb_job, transform_job};

use dtx_engine::Engine;
use dtx_meaning::{Outcome, Status, ended};
use dtx_outside::{Shelf, Word};
use std::alloc::{AllocError, Global};

/// An engine that makes what a command writes from its one input: one output, or an output and a log.
pub trait Transforming: Engine + Drop {
    ghost use Rattle.dtx_meaning.specs.declared.status.Outcome.{Outcome};

    /// The command that it carries out.
    ghost command: { Command };

    /// Its recipe.
    ghost makes: { Recipe };

    /// An engine that was given nothing. The only error is out of memory.
    fn new(alloc: Global) -> Result<Self, AllocError>
        ensures given { IfOk result (λ engine. Self.stands engine []) }
        ensures makes { IfOk result (λ engine. Self.recipe engine ≡ makes) };

    /// Each answer that can come is one that the command may give.
    ghost knows: { (outcome : Outcome) → IsAnswerOf makes outcome → IsKnown command outcome };
}

/// Makes OUT from IN: gives the units of IN to an engine, and writes what it makes.
#[tactic(auto, using(crate::proofs::StagesLemmas::ended_staged))]
pub fn transform<E: Transforming, S: Shelf>(alloc: Global, words: &[Word], shelf: &mut S) -> Outcome
    ensures performed { IsJobPerformed (transform_job E.command E.shape E.makes) words.now result
        (S.files shelf.old) (S.files shelf.new)
        (S.counts shelf.old) (S.counts shelf.new) }
    ensures stages { IsStaged S.foreseen ((transform_job E.command E.shape E.makes).stages words.now) result.status
        (S.files shelf.old) (S.files shelf.new) (S.counts shelf.old) (S.counts shelf.new) }
{
    match words {
        [_, input, output] => {
            transform_files::<E, S>(alloc, input.as_str(), output.as_str(), shelf)
        }
        _ => ended(Status::Usage),
    }
}

/// Does what `transform` does, for the words `dvb .. IN OUT`: the second one names the command.
#[tactic(auto, using(crate::proofs::StagesLemmas::ended_staged))]
pub fn transform_dvb<E: Transforming, S: Shelf>(
    alloc: Global,
    words: &[Word],
    shelf: &mut S,
) -> Outcome
    ensures performed { IsJobPerformed (dvb_job E.command E.shape E.makes) words.now result
        (S.files shelf.old) (S.files shelf.new)
        (S.counts shelf.old) (S.counts shelf.new) }
    ensures stages { IsStaged S.foreseen ((dvb_job E.command E.shape E.makes).stages words.now) result.status
        (S.files shelf.old) (S.files shelf.new) (S.counts shelf.old) (S.counts shelf.new) }
{
    match words {
        [_, _, input, output] => {
            transform_files::<E, S>(alloc, input.as_str(), output.as_str(), shelf)
        }
        _ => ended(Status::Usage),
    }
}

/// Makes the output of that name from the input of that name. It refuses equal names.
#[inline(never)]
#[tactic(auto, using(crate::proofs::StagesLemmas::ended_staged))]
fn transform_files<E: Transforming, S: Shelf>(
    alloc: Global,
    input: &str,
    output: &str,
    shelf: &mut S,
) -> Outcome
    ensures performed { IsPerformed E.command (transformed E.shape E.makes input.now output.now)
        (Some (is_some (repeated (input.now ∷ output.now ∷ [])))) 1 result (S.files shelf.old) (S.files shelf.new)
        (S.counts shelf.old) (S.counts shelf.new) }
    ensures stages { IsStaged S.foreseen (Some (stages_of E.shape E.makes input.now (output.now ∷ []))) result.status
        (S.files shelf.old) (S.files shelf.new) (S.counts shelf.old) (S.counts shelf.new) }
{
    match E::new(alloc) {
        Ok(mut engine) => dtx_engine::transform(alloc, &mut engine, input, output, shelf),
        Err(_) => ended(Status::Memory),
    }
}
