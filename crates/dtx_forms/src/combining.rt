// `.. A B OUT`: what a command makes of two inputs.
ghost use Rattle.std.specs.Prelude.{◌≢◌, false, is_some, ℕ, List, [], ◌∷◌, Some};
ghost use Rattle.dtx_meaning.specs.Meaning.{Meaning};
ghost use Rattle.dtx_outside.specs.Shelf.{Files};
ghost use Rattle.dtx_words.specs.Names.{repeated};
ghost use Rattle.dtx_words.specs.declared.rows.Command.{Command};
ghost use Rattle.dtx_forms.specs.Job.{IsPerformed, IsJobPerformed};
ghost use Rattle.dtx_forms.specs.Transform.{combine_job, combined};
ghost use Rattle.dtx_forms.specs.Stages.{IsStaged, Stages};

use dtx_meaning::{Outcome, Status, ended};
use dtx_outside::{Shelf, Word};
use dtx_words::repeated_name;
use std::alloc::Global;

/// A command that makes one output of two inputs.
pub trait Combining {
    /// The command.
    ghost command: { Command };

    /// What the command means with these two inputs and this output. The output's name differs from both inputs'.
    ghost means: { List ℕ → List ℕ → List ℕ → Files → Meaning };

    /// In which stages it reads these two inputs, and writes this output.
    ghost stages: { List ℕ → List ℕ → List ℕ → Stages };

    /// Makes the output from the inputs. Its name differs from theirs.
    fn combine_apart<S: Shelf>(
        alloc: Global,
        first: &str,
        second: &str,
        output: &str,
        shelf: &mut S,
    ) -> Outcome
        requires first { first.now ≢ output.now }
        requires second { second.now ≢ output.now }
        ensures performed { IsPerformed command (means first.now second.now output.now) (Some false) 2 result
            (S.files shelf.old) (S.files shelf.new) (S.counts shelf.old) (S.counts shelf.new) }
        ensures stages { IsStaged S.foreseen (Some (stages first.now second.now output.now)) result.status
            (S.files shelf.old) (S.files shelf.new) (S.counts shelf.old) (S.counts shelf.new) };
}

/// Makes OUT from A and B. It refuses equal names.
#[tactic(auto, using(crate::proofs::StagesLemmas::ended_staged))]
pub fn combine<C: Combining, S: Shelf>(alloc: Global, words: &[Word], shelf: &mut S) -> Outcome
    ensures performed { IsJobPerformed (combine_job C.command C.means C.stages) words.now result
        (S.files shelf.old) (S.files shelf.new) (S.counts shelf.old) (S.counts shelf.new) }
    ensures stages { IsStaged S.foreseen ((combine_job C.command C.means C.stages).stages words.now) result.status
        (S.files shelf.old) (S.files shelf.new) (S.counts shelf.old) (S.counts shelf.new) }
{
    match words {
        [_, first, second, output] => {
            combine_files::<C, S>(
                alloc,
                first.as_str(),
                second.as_str(),
                output.as_str(),
                shelf,
            )
        }
        _ => ended(Status::Usage),
    }
}

/// Makes the output from the inputs of these names. It refuses equal names.
#[tactic(auto, using(crate::proofs::StagesLemmas::ended_staged))]
fn combine_files<C: Combining, S: Shelf>(
    alloc: Global,
    first: &str,
    second: &str,
    output: &str,
    shelf: &mut S,
) -> Outcome
    ensures performed { IsPerformed C.command (combined C.means first.now second.now output.now)
        (Some (is_some (repeated (first.now ∷ second.now ∷ output.now ∷ [])))) 2 result
        (S.files shelf.old) (S.files shelf.new) (S.counts shelf.old) (S.counts shelf.new) }
    ensures stages { IsStaged S.foreseen (Some (C.stages first.now second.now output.now)) result.status
        (S.files shelf.old) (S.files shelf.new) (S.counts shelf.old) (S.counts shelf.new) }
{
    match repeated_name(&[first, second, output]) {
        Some(_) => ended(Status::Same),
        None => C::combine_apart(alloc, first, second, output, shelf),
    }
}
