// `.. IN OUT LOG`: what an engine makes of an input alone, and its log.
ghost use Rattle.std.specs.Prelude.{◌≡◌, ◌≢◌, false, is_some, [], ◌∷◌, Some, IfSome};
ghost use Rattle.std.specs.FinMap as held_at;
ghost use Rattle.dtx_engine.specs.Recipe.{IsAnswerOf, meaning};
ghost use Rattle.dtx_meaning.specs.Meaning.{IsCarriedOut};
ghost use Rattle.dtx_meaning.specs.Status.{IsOfInput, blame_of};
ghost use Rattle.dtx_outside.specs.Counts.{HasGone};
ghost use Rattle.dtx_words.specs.Names.{repeated};
ghost use Rattle.dtx_forms.specs.Job.{IsPerformed, IsJobPerformed};
ghost use Rattle.dtx_forms.specs.Logged.{logged, logged_job};
ghost use Rattle.dtx_forms.specs.Stages.{IsStaged, stages_of};

use crate::Transforming;
use dtx_engine::{Engine, Input, TwoOutputs, carry_out};
use dtx_meaning::{Outcome, Status, ended};
use dtx_outside::{Shelf, Word};
use dtx_words::repeated_name;
use std::alloc::Global;

/// The files of a command with a log: its input, what it makes of it, and the log.
#[derive(Clone, Copy)]
pub(crate) struct LoggedFiles<'a> {
    pub(crate) input: &'a str,
    pub(crate) output: &'a str,
    pub(crate) log: &'a str,
}

/// Gives the units of IN to an engine, which makes OUT and LOG of them.
#[tactic(auto, using(crate::proofs::StagesLemmas::ended_staged))]
pub fn transform_logged<E: Transforming, S: Shelf>(
    alloc: Global,
    words: &[Word],
    shelf: &mut S,
) -> Outcome
    ensures performed { IsJobPerformed (logged_job E.command E.shape E.makes) words.now result
        (S.files shelf.old) (S.files shelf.new)
        (S.counts shelf.old) (S.counts shelf.new) }
    ensures stages { IsStaged S.foreseen ((logged_job E.command E.shape E.makes).stages words.now) result.status
        (S.files shelf.old) (S.files shelf.new) (S.counts shelf.old) (S.counts shelf.new) }
{
    match words {
        [_, input, output, log] => {
            let files = LoggedFiles {
                input: input.as_str(),
                output: output.as_str(),
                log: log.as_str(),
            };
            logged_files::<E, S>(alloc, files, shelf)
        }
        _ => ended(Status::Usage),
    }
}

/// Gives the units of the input to the engine, where no two of the names are equal.
#[tactic(auto, using(crate::proofs::StagesLemmas::ended_staged))]
fn logged_files<E: Transforming, S: Shelf>(
    alloc: Global,
    files: LoggedFiles<'_>,
    shelf: &mut S,
) -> Outcome
    ensures performed { IsPerformed E.command
        (logged E.shape E.makes files.entry.input.now files.entry.output.now files.entry.log.now)
        (Some (is_some (repeated (files.entry.input.now ∷ files.entry.output.now ∷ files.entry.log.now ∷ []))))
        1 result (S.files shelf.old) (S.files shelf.new)
        (S.counts shelf.old) (S.counts shelf.new) }
    ensures stages { IsStaged S.foreseen
        (Some (stages_of E.shape E.makes files.entry.input.now (files.entry.output.now ∷ files.entry.log.now ∷ [])))
        result.status (S.files shelf.old) (S.files shelf.new) (S.counts shelf.old) (S.counts shelf.new) }
{
    match repeated_name(&[files.input, files.output, files.log]) {
        Some(_) => ended(Status::Same),
        None => logged_apart::<E, S>(alloc, files, shelf),
    }
}

/// Gives the units of the input to the engine, where the names differ.
#[inline(never)]
#[tactic(auto, using(crate::proofs::StagesLemmas::ended_staged))]
fn logged_apart<E: Transforming, S: Shelf>(
    alloc: Global,
    files: LoggedFiles<'_>,
    shelf: &mut S,
) -> Outcome
    requires output { files.input.now ≢ files.output.now }
    requires log { files.input.now ≢ files.log.now }
    requires both { files.output.now ≢ files.log.now }
    ensures performed { IsPerformed E.command
        (λ held. meaning E.shape E.makes 0 (files.entry.output.now ∷ files.entry.log.now ∷ [])
        (held_at.get held files.entry.input.now))
        (Some false) 1 result (S.files shelf.old) (S.files shelf.new)
        (S.counts shelf.old) (S.counts shelf.new) }
    ensures stages { IsStaged S.foreseen
        (Some (stages_of E.shape E.makes files.entry.input.now (files.entry.output.now ∷ files.entry.log.now ∷ [])))
        result.status (S.files shelf.old) (S.files shelf.new) (S.counts shelf.old) (S.counts shelf.new) }
{
    match E::new(alloc) {
        Ok(mut engine) => make_both(alloc, &mut engine, files, shelf),
        Err(cause) => ended(Status::from(cause)),
    }
}

/// Gives the input to an engine that was given nothing, and writes both files.
#[tactic(auto, using(crate::proofs::StagesLemmas::ended_staged))]
pub(crate) fn make_both<E: Engine, S: Shelf>(
    alloc: Global,
    engine: &mut E,
    files: LoggedFiles<'_>,
    shelf: &mut S,
) -> Outcome
    requires fresh { E.stands engine.old [] }
    requires output { files.input.now ≢ files.output.now }
    requires log { files.input.now ≢ files.log.now }
    requires both { files.output.now ≢ files.log.now }
    ensures carried { IfSome (S.files shelf.old) (λ held. IsCarriedOut
        (meaning E.shape (E.recipe engine.old) 0 (files.entry.output.now ∷ files.entry.log.now ∷ [])
        (held_at.get held files.entry.input.now))
        (Some held) result (S.files shelf.new)) }
    ensures input { IsOfInput 0 result.status }
    ensures answer { IsAnswerOf (E.recipe engine.old) result }
    ensures gone { HasGone (S.counts shelf.old) (S.counts shelf.new) (blame_of result.status) }
    ensures stages { IsStaged S.foreseen
        (Some (stages_of E.shape (E.recipe engine.old) files.entry.input.now
        (files.entry.output.now ∷ files.entry.log.now ∷ [])))
        result.status (S.files shelf.old) (S.files shelf.new) (S.counts shelf.old) (S.counts shelf.new) }
{
    let input = Input {
        name: files.input,
        number: 0,
    };
    match TwoOutputs::new(alloc, files.output, files.log) {
        Ok(mut outlet) => carry_out(alloc, engine, input, &mut outlet, shelf),
        Err(cause) => ended(Status::from(cause)),
    }
}
