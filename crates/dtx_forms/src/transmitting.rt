// `.. IN ADDRESS DELAY OUT LOG`: what a transmitter sends for an input, and its log.
ghost use Rattle.std.specs.Prelude.{◌≡◌, ◌≢◌, false, is_some, ℕ, [], ◌∷◌, Some, IfOk};
ghost use Rattle.std.specs.FinMap as held_at;
ghost use Rattle.std.specs.Option.{option_and};
ghost use Rattle.dtx_engine.specs.Recipe.{IsAnswerOf, Recipe, meaning};
ghost use Rattle.dtx_words.specs.Names.{repeated};
ghost use Rattle.dtx_words.specs.Fitting.{number_in};
ghost use Rattle.dtx_words.specs.declared.rows.Command.{Command};
ghost use Rattle.dtx_forms.specs.Answers.{IsKnown};
ghost use Rattle.dtx_forms.specs.Job.{IsPerformed, IsJobPerformed, task_meaning, task_stages};
ghost use Rattle.dtx_forms.specs.Logged.{logged, transmit_job, transmit_with};
ghost use Rattle.dtx_forms.specs.Stages.{IsStaged, stages_of};

use crate::logging::{LoggedFiles, make_both};
use dtx_meaning::{Outcome, Status, ended};
use dtx_outside::{Shelf, Word};
use dtx_steps::{Step, Steps};
use dtx_words::{number_up_to, repeated_name};
use std::alloc::{AllocError, Global};

/// What a transmitter does at each step: it makes the symbols that it sends, and its log.
pub trait Transmitting: Step + Drop {
    ghost use Rattle.dtx_meaning.specs.declared.status.Outcome.{Outcome};

    /// The command that it carries out.
    ghost command: { Command };

    /// Its recipe for an address and a delay.
    ghost sends: { ℕ → ℕ → Recipe };

    /// The transmitter with this address, which was given nothing. The feed takes `delay` ticks of 100 ns to it. The
    /// only error is out of memory.
    fn new(alloc: Global, address: u16, delay: u32) -> Result<Self, AllocError>
        ensures given { IfOk result (λ step. Self.stands step []) }
        ensures sends { IfOk result (λ step. Self.recipe step ≡ sends address delay) };

    /// Each answer that can come is one that the command may give.
    ghost knows: { (address delay : ℕ) (outcome : Outcome) → IsAnswerOf (sends address delay) outcome
        → IsKnown command outcome };
}

/// Gives the units of IN to one transmitter. Its symbols go to OUT, and its log to LOG. ADDRESS is that of the
/// transmitter, 0 to 65,535. DELAY is how many ticks of 100 ns the feed takes to it, 0 to 4,294,967,295. Both are
/// decimal digits without sign, and without a leading zero unless the number is `0`.
#[tactic(auto, using(crate::proofs::StagesLemmas::ended_staged))]
pub fn transmit<E: Transmitting, S: Shelf>(alloc: Global, words: &[Word], shelf: &mut S) -> Outcome
    ensures performed { IsJobPerformed (transmit_job E.command E.shape E.sends) words.now result
        (S.files shelf.old) (S.files shelf.new)
        (S.counts shelf.old) (S.counts shelf.new) }
    ensures stages { IsStaged S.foreseen ((transmit_job E.command E.shape E.sends).stages words.now) result.status
        (S.files shelf.old) (S.files shelf.new) (S.counts shelf.old) (S.counts shelf.new) }
{
    match words {
        [_, input, address, delay, output, log] => {
            let files = LoggedFiles {
                input: input.as_str(),
                output: output.as_str(),
                log: log.as_str(),
            };
            transmit_read::<E, S>(alloc, address.as_str(), delay.as_str(), files, shelf)
        }
        _ => ended(Status::Usage),
    }
}

/// Reads the address and the delay, and gives the units of the input to that transmitter.
#[tactic(auto, using(crate::proofs::StagesLemmas::ended_staged))]
fn transmit_read<E: Transmitting, S: Shelf>(
    alloc: Global,
    address: &str,
    delay: &str,
    files: LoggedFiles<'_>,
    shelf: &mut S,
) -> Outcome
    ensures performed { IsPerformed E.command
        (task_meaning (transmit_with E.shape E.sends (number_in 65535 address.now) (number_in 4294967295 delay.now)
        files.entry.input.now files.entry.output.now files.entry.log.now))
        (option_and (number_in 65535 address.now) (option_and (number_in 4294967295 delay.now)
        (Some (is_some (repeated (files.entry.input.now ∷ files.entry.output.now ∷ files.entry.log.now ∷ []))))))
        1 result (S.files shelf.old) (S.files shelf.new)
        (S.counts shelf.old) (S.counts shelf.new) }
    ensures stages { IsStaged S.foreseen
        (task_stages (transmit_with E.shape E.sends (number_in 65535 address.now) (number_in 4294967295 delay.now)
        files.entry.input.now files.entry.output.now files.entry.log.now))
        result.status (S.files shelf.old) (S.files shelf.new) (S.counts shelf.old) (S.counts shelf.new) }
{
    match number_up_to(u16::MAX as u64, address) {
        Some(address) => match number_up_to(u32::MAX as u64, delay) {
            Some(delay) => {
                transmit_files::<E, S>(alloc, address as u16, delay as u32, files, shelf)
            }
            None => ended(Status::Usage),
        },
        None => ended(Status::Usage),
    }
}

/// Gives the units of the input to that transmitter. It refuses equal names.
#[tactic(auto, using(crate::proofs::StagesLemmas::ended_staged))]
fn transmit_files<E: Transmitting, S: Shelf>(
    alloc: Global,
    address: u16,
    delay: u32,
    files: LoggedFiles<'_>,
    shelf: &mut S,
) -> Outcome
    ensures performed { IsPerformed E.command
        (logged E.shape (E.sends address delay) files.entry.input.now files.entry.output.now files.entry.log.now)
        (Some (is_some (repeated (files.entry.input.now ∷ files.entry.output.now ∷ files.entry.log.now ∷ []))))
        1 result (S.files shelf.old) (S.files shelf.new)
        (S.counts shelf.old) (S.counts shelf.new) }
    ensures stages { IsStaged S.foreseen
        (Some (stages_of E.shape (E.sends address delay) files.entry.input.now
        (files.entry.output.now ∷ files.entry.log.now ∷ [])))
        result.status (S.files shelf.old) (S.files shelf.new) (S.counts shelf.old) (S.counts shelf.new) }
{
    match repeated_name(&[files.input, files.output, files.log]) {
        Some(_) => ended(Status::Same),
        None => transmit_apart::<E, S>(alloc, address, delay, files, shelf),
    }
}

/// Gives the units of the input to that transmitter, where the names differ.
#[inline(never)]
#[tactic(auto, using(crate::proofs::StagesLemmas::ended_staged))]
fn transmit_apart<E: Transmitting, S: Shelf>(
    alloc: Global,
    address: u16,
    delay: u32,
    files: LoggedFiles<'_>,
    shelf: &mut S,
) -> Outcome
    requires output { files.input.now ≢ files.output.now }
    requires log { files.input.now ≢ files.log.now }
    requires both { files.output.now ≢ files.log.now }
    ensures performed { IsPerformed E.command
        (λ held. meaning E.shape (E.sends address delay) 0 (files.entry.output.now ∷ files.entry.log.now ∷ [])
        (held_at.get held files.entry.input.now))
        (Some false) 1 result (S.files shelf.old) (S.files shelf.new)
        (S.counts shelf.old) (S.counts shelf.new) }
    ensures stages { IsStaged S.foreseen
        (Some (stages_of E.shape (E.sends address delay) files.entry.input.now
        (files.entry.output.now ∷ files.entry.log.now ∷ [])))
        result.status (S.files shelf.old) (S.files shelf.new) (S.counts shelf.old) (S.counts shelf.new) }
{
    match E::new(alloc, address, delay) {
        Ok(step) => make_both(alloc, &mut Steps::new(step), files, shelf),
        Err(cause) => ended(Status::from(cause)),
    }
}
