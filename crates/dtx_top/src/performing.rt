// Performs the command that the words fit, but doesn't print its line.
ghost use Rattle.std.specs.Prelude.{◌≡◌, Some};
ghost use Rattle.dtx_top.specs.Ends.{IsCommandPerformed};
ghost use Rattle.dtx_top.specs.Jobs.{HasStagesOf};

use crate::net_command::{NetOutcome, net};
use crate::trial_command::trial;
use arrayvec::ArrayString;
use dtx_jobs::{acquire, code, excite, level, mend, receive, refine, repeat, soft, watch};
use dtx_meaning::{Outcome, Status, ended};
use dtx_outside::{Shelf, Word};
use dtx_packet_jobs::{adapt, dvb_code, dvb_read, hurt, make, place};
use dtx_words::Command;
use std::alloc::Global;

/// Performs the command that the words fit, and doesn't print its line. Without a command the status is `Usage`.
pub(crate) fn perform<S: Shelf>(
    alloc: Global,
    command: Option<Command>,
    words: &[Word],
    shelf: &mut S,
) -> NetOutcome
    ensures performed { IsCommandPerformed command words.now result.outcome result.name.bytes (S.files shelf.old)
        (S.files shelf.new) (S.counts shelf.old) (S.counts shelf.new) }
    ensures stages { HasStagesOf S.foreseen command words.now result.outcome.status (S.files shelf.old)
        (S.files shelf.new) (S.counts shelf.old) (S.counts shelf.new) }
{
    match command {
        Some(command) => perform_one(alloc, command, words, shelf),
        None => nameless(ended(Status::Usage)),
    }
}

/// Performs this command with these words, and doesn't print its line.
#[tactic(auto, using(crate::proofs::Performed::performed))]
fn perform_one<S: Shelf>(
    alloc: Global,
    command: Command,
    words: &[Word],
    shelf: &mut S,
) -> NetOutcome
    ensures performed { IsCommandPerformed (Some command) words.now result.outcome result.name.bytes
        (S.files shelf.old) (S.files shelf.new) (S.counts shelf.old) (S.counts shelf.new) }
    ensures stages { HasStagesOf S.foreseen (Some command) words.now result.outcome.status (S.files shelf.old)
        (S.files shelf.new) (S.counts shelf.old) (S.counts shelf.new) }
{
    match command {
        Command::Adapt => nameless(adapt(alloc, words, shelf)),
        Command::Code => nameless(code(alloc, words, shelf)),
        Command::Excite => nameless(excite(alloc, words, shelf)),
        Command::Receive => nameless(receive(alloc, words, shelf)),
        Command::Net => net(alloc, words, shelf),
        Command::Make => nameless(make(alloc, words, shelf)),
        Command::Hurt => nameless(hurt(alloc, words, shelf)),
        Command::Place => nameless(place(alloc, words, shelf)),
        Command::Trial => nameless(trial(alloc, words, shelf)),
        Command::Soft => nameless(soft(alloc, words, shelf)),
        Command::Mend => nameless(mend(alloc, words, shelf)),
        Command::DvbCode => nameless(dvb_code(alloc, words, shelf)),
        Command::DvbRead => nameless(dvb_read(alloc, words, shelf)),
        Command::Repeat => nameless(repeat(alloc, words, shelf)),
        Command::Acquire => nameless(acquire(alloc, words, shelf)),
        Command::Watch => nameless(watch(alloc, words, shelf)),
        Command::Level => nameless(level(alloc, words, shelf)),
        Command::Refine => nameless(refine(alloc, words, shelf)),
    }
}

/// An outcome without a name of its own. The name in its line, if any, is one among the words, or that of a file of
/// `trial`.
fn nameless(outcome: Outcome) -> NetOutcome
    ensures { result.outcome ≡ outcome }
{
    NetOutcome {
        outcome,
        name: ArrayString::new(),
    }
}
