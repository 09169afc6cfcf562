// `hurt IN CHANGES OUT`: a file with damage laid over its bytes.
ghost use Rattle.dtx_recipes.specs.Hurt.{hurt_job};
ghost use Rattle.dtx_forms.specs.Stages.{IsStaged};
ghost use Rattle.dtx_forms.specs.Job.{IsJobPerformed};

use crate::laying::Laying;
use dtx_engine::{Input, carry_to_one};
use dtx_forms::{Combining, changes_in, combine};
use dtx_meaning::{Outcome, ended};
use dtx_outside::{Shelf, Word};
use std::alloc::Global;

/// Writes the bytes of IN to OUT with the damage of CHANGES laid over them (the profile's own). Each byte that an entry
/// covers becomes that entry's `put`, in two's complement. Where an entry ends past the end of the file, `hurt` writes
/// OUT all the same and answers which entry it is. The numbers are the bytes of IN, and how many of them some entry
/// covers.
pub fn hurt<S: Shelf>(alloc: Global, words: &[Word], shelf: &mut S) -> Outcome
    ensures performed { IsJobPerformed hurt_job words.now result (S.files shelf.old) (S.files shelf.new)
        (S.counts shelf.old) (S.counts shelf.new) }
    ensures stages { IsStaged S.foreseen (hurt_job.stages words.now) result.status
        (S.files shelf.old) (S.files shelf.new) (S.counts shelf.old) (S.counts shelf.new) }
{
    combine::<Hurting, S>(alloc, words, shelf)
}

/// The command `hurt`, as a command of two inputs: a file and the changes.
struct Hurting;

impl Combining for Hurting {
    ghost use Rattle.dtx_words.specs.declared.rows.Command.TheVariants as command;
    ghost use Rattle.dtx_recipes.specs.Hurt.{hurt_file, hurt_stages};

    ghost command = { command.Hurt };

    ghost means = { hurt_file };

    ghost stages = { hurt_stages };

    fn combine_apart<S: Shelf>(
        alloc: Global,
        input: &str,
        changes: &str,
        output: &str,
        shelf: &mut S,
    ) -> Outcome {
        match changes_in(alloc, shelf, 1, changes) {
            Ok(damage) => {
                let file = Input {
                    name: input,
                    number: 0,
                };
                let mut laying = Laying::new(&damage);
                carry_to_one(alloc, &mut laying, file, output, shelf)
            }
            Err(status) => ended(status),
        }
    }
}
