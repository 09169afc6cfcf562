// `adapt PLAN IN OUT`: the feed of a stream.
ghost use Rattle.std.specs.Prelude.{◌≢◌, false, [], ◌∷◌, Some};
ghost use Rattle.std.specs.FinMap as files;
ghost use Rattle.dtx_engine.specs.Recipe.{meaning};
ghost use Rattle.dtx_plan.specs.Sound.{IsSound};
ghost use Rattle.dtx_words.specs.declared.rows.Command.TheVariants as command;
ghost use Rattle.dtx_recipes.specs.Adapt.{adapt_job, feeding};
ghost use Rattle.dtx_forms.specs.Stages.{IsStaged, stages_of};
ghost use Rattle.dtx_forms.specs.Job.{IsPerformed, IsJobPerformed};
ghost use Rattle.dtx_forms.specs.Shapes as shapes;

use crate::feeder::Feeder;
use dtx_engine::{Input, carry_to_one};
use dtx_forms::{Combining, combine, plan_in};
use dtx_meaning::{Outcome, Status, ended};
use dtx_outside::{Shelf, Word};
use dtx_plan::Plan;
use std::alloc::Global;

/// Writes the feed of the stream IN to OUT, under the plan of PLAN. The packets of IN have 188 bytes each and begin
/// with 0x47. Byte 0 of packet k becomes the cadence mark 0xB8 where 624 divides k, and stays 0x47 elsewhere. Each
/// placeholder, of packet identifier 0x1FFA, becomes an operations packet (the profile's own, in the manner of ATSC
/// A/110). An operations packet says from which states and when its group is sent. The numbers are the packets, the
/// placeholders filled, and the bytes behind the last whole packet.
pub fn adapt<S: Shelf>(alloc: Global, words: &[Word], shelf: &mut S) -> Outcome
    ensures performed { IsJobPerformed adapt_job words.now result (S.files shelf.old) (S.files shelf.new)
        (S.counts shelf.old) (S.counts shelf.new) }
    ensures stages { IsStaged S.foreseen (adapt_job.stages words.now) result.status
        (S.files shelf.old) (S.files shelf.new) (S.counts shelf.old) (S.counts shelf.new) }
{
    combine::<Adapting, S>(alloc, words, shelf)
}

/// The command `adapt`, as a command of two inputs: a plan and a stream.
struct Adapting;

impl Combining for Adapting {
    ghost use Rattle.dtx_words.specs.declared.rows.Command.TheVariants as command;
    ghost use Rattle.dtx_recipes.specs.Adapt.{adapt_stages, adapted};

    ghost command = { command.Adapt };

    ghost means = { adapted };

    ghost stages = { adapt_stages };

    fn combine_apart<S: Shelf>(
        alloc: Global,
        plan: &str,
        input: &str,
        output: &str,
        shelf: &mut S,
    ) -> Outcome {
        match plan_in(alloc, shelf, 0, plan) {
            Ok(said) => adapt_under(alloc, &said, input, output, shelf),
            Err(status) => ended(status),
        }
    }
}

/// Makes the feed of the stream `input` under a plan.
#[inline(never)]
fn adapt_under<S: Shelf>(
    alloc: Global,
    plan: &Plan,
    input: &str,
    output: &str,
    shelf: &mut S,
) -> Outcome
    requires sound { IsSound plan.now }
    requires differ { input.now ≢ output.now }
    ensures performed { IsPerformed command.Adapt
        (λ held. meaning shapes.packets (feeding plan.now) 1 (output.now ∷ []) (files.get held input.now))
        (Some false) 2 result (S.files shelf.old) (S.files shelf.new)
        (S.counts shelf.old) (S.counts shelf.new) }
    ensures stages { IsStaged S.foreseen
        (Some (stages_of shapes.packets (feeding plan.now) input.now (output.now ∷ [])))
        result.status (S.files shelf.old) (S.files shelf.new) (S.counts shelf.old) (S.counts shelf.new) }
{
    let stream = Input {
        name: input,
        number: 1,
    };
    match Feeder::new(alloc, plan) {
        Ok(mut feeder) => carry_to_one(alloc, &mut feeder, stream, output, shelf),
        Err(cause) => ended(Status::from(cause)),
    }
}
