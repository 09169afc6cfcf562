// `.. SCALE IN OUT` and `.. SCALE ROUNDS IN OUT`: what an engine makes of a capture of symbols.
ghost use Rattle.std.specs.Prelude.{◌≡◌, ◌<◌, ◌≤◌, is_some, ℕ, [], ◌∷◌, Some, IfOk, IfSome};
ghost use Rattle.std.specs.Option.{option_and};
ghost use Rattle.dtx_engine.specs.Recipe.{IsAnswerOf, Recipe};
ghost use Rattle.dtx_words.specs.Names.{repeated};
ghost use Rattle.dtx_words.specs.declared.rows.Command.{Command};
ghost use Rattle.dtx_forms.specs.Answers.{IsKnown};
ghost use Rattle.dtx_forms.specs.Capture.{IsRounds, IsScale, IsSetting, captured, rounds_job, scaled_job, setting_of};
ghost use Rattle.dtx_forms.specs.Job.{IsPerformed, IsJobPerformed, task_meaning, task_stages};
ghost use Rattle.dtx_forms.specs.Stages.{IsStaged};

use dtx_engine::Engine;
use dtx_meaning::{Outcome, Status, ended};
use dtx_outside::{Shelf, Word};
use dtx_words::{MOST_ROUNDS, MOST_SCALE, number_within};
use std::alloc::{AllocError, Global};

/// How a capture is decided: how many of its steps make a unit of the standard's levels, and in how many rounds.
#[derive(Clone, Copy)]
pub struct Setting {
    pub scale: u8,
    pub rounds: usize,
}

/// An engine that makes what a command writes from its one input, a capture.
pub trait Capturing: Engine + Drop {
    ghost use Rattle.dtx_meaning.specs.declared.status.Outcome.{Outcome};

    /// The command that it carries out.
    ghost command: { Command };

    /// Its recipe for a scale and a number of rounds.
    ghost makes: { ℕ → ℕ → Recipe };

    /// An engine that was given nothing. The only error is out of memory.
    fn new(alloc: Global, setting: Setting) -> Result<Self, AllocError>
        requires { IsSetting setting }
        ensures given { IfOk result (λ engine. Self.stands engine []) }
        ensures makes { IfOk result (λ engine. Self.recipe engine ≡ makes setting.scale setting.rounds) };

    /// Each answer that can come is one that the command may give.
    ghost knows: { (scale rounds : ℕ) (outcome : Outcome) → IsAnswerOf (makes scale rounds) outcome
        → IsKnown command outcome };
}

/// Makes OUT from the capture IN, of which SCALE steps make a unit. SCALE is 1 to 18, in decimal digits without sign
/// and without a leading zero. The engine is given one round, since the words name no other number.
#[tactic(auto, using(crate::proofs::StagesLemmas::ended_staged))]
pub fn transform_scaled<E: Capturing, S: Shelf>(
    alloc: Global,
    words: &[Word],
    shelf: &mut S,
) -> Outcome
    ensures performed { IsJobPerformed (scaled_job E.command E.shape E.makes) words.now result
        (S.files shelf.old) (S.files shelf.new) (S.counts shelf.old) (S.counts shelf.new) }
    ensures stages { IsStaged S.foreseen ((scaled_job E.command E.shape E.makes).stages words.now) result.status
        (S.files shelf.old) (S.files shelf.new) (S.counts shelf.old) (S.counts shelf.new) }
{
    match words {
        [_, scale, input, output] => {
            let scale = number_within(1, MOST_SCALE, scale.as_str());
            let setting = both_read(scale, Some(1));
            transform_capture::<E, S>(alloc, setting, input.as_str(), output.as_str(), shelf)
        }
        _ => ended(Status::Usage),
    }
}

/// Does what `transform_scaled` does, in ROUNDS rounds. ROUNDS is 1 to 32, written as SCALE is.
#[tactic(auto, using(crate::proofs::StagesLemmas::ended_staged))]
pub fn transform_in_rounds<E: Capturing, S: Shelf>(
    alloc: Global,
    words: &[Word],
    shelf: &mut S,
) -> Outcome
    ensures performed { IsJobPerformed (rounds_job E.command E.shape E.makes) words.now result
        (S.files shelf.old) (S.files shelf.new) (S.counts shelf.old) (S.counts shelf.new) }
    ensures stages { IsStaged S.foreseen ((rounds_job E.command E.shape E.makes).stages words.now) result.status
        (S.files shelf.old) (S.files shelf.new) (S.counts shelf.old) (S.counts shelf.new) }
{
    match words {
        [_, scale, rounds, input, output] => {
            let scale = number_within(1, MOST_SCALE, scale.as_str());
            let rounds = number_within(1, MOST_ROUNDS, rounds.as_str());
            let setting = both_read(scale, rounds);
            transform_capture::<E, S>(alloc, setting, input.as_str(), output.as_str(), shelf)
        }
        _ => ended(Status::Usage),
    }
}

/// The setting of both numbers, where both are there.
fn both_read(scale: Option<u64>, rounds: Option<u64>) -> Option<Setting>
    requires scale { IfSome scale IsScale }
    requires rounds { IfSome rounds IsRounds }
    ensures setting { result ≡ setting_of scale rounds }
    ensures ranges { IfSome result IsSetting }
{
    match (scale, rounds) {
        (Some(scale), Some(rounds)) => Some(Setting {
            scale: scale as u8,
            rounds: rounds as usize,
        }),
        _ => None,
    }
}

/// Makes the output of that name from the input of that name, where the numbers were read. It refuses equal names.
#[inline(never)]
#[tactic(auto, using(crate::proofs::StagesLemmas::ended_staged))]
fn transform_capture<E: Capturing, S: Shelf>(
    alloc: Global,
    setting: Option<Setting>,
    input: &str,
    output: &str,
    shelf: &mut S,
) -> Outcome
    requires { IfSome setting IsSetting }
    ensures performed { IsPerformed E.command (task_meaning (captured E.shape E.makes setting input.now output.now))
        (option_and setting (Some (is_some (repeated (input.now ∷ output.now ∷ []))))) 1 result
        (S.files shelf.old) (S.files shelf.new) (S.counts shelf.old) (S.counts shelf.new) }
    ensures stages { IsStaged S.foreseen (task_stages (captured E.shape E.makes setting input.now output.now))
        result.status (S.files shelf.old) (S.files shelf.new) (S.counts shelf.old) (S.counts shelf.new) }
{
    match setting {
        Some(setting) => match E::new(alloc, setting) {
            Ok(mut engine) => dtx_engine::transform(alloc, &mut engine, input, output, shelf),
            Err(_) => ended(Status::Memory),
        },
        None => ended(Status::Usage),
    }
}
