// `run`: the one call that does all of the program's work.
ghost use Rattle.std.specs.Prelude.{◌≡◌, IfSome};
ghost use Rattle.dtx_outside.specs.Counts.{Rose};
ghost use Rattle.dtx_meaning.specs.Meaning.{IsDone, IsUnprinted};
ghost use Rattle.dtx_words.specs.Fitting.{command_of};
ghost use Rattle.dtx_words.specs.Names.{line_name};
ghost use Rattle.dtx_top.specs.Ends.{HasEnded, HasHeadlineOf, HasProgressOf, IsAllDone, IsByWords};
ghost use Rattle.dtx_top.specs.Lines.{name_kept, HasLine, IsSomeLine, IsToldLine};
ghost use Rattle.dtx_top.specs.Jobs.{means, HasStagesOf};
ghost use Rattle.dtx_top.specs.Trial.{trial_names};

use crate::net_command::NetOutcome;
use crate::performing::perform;
use dtx_meaning::Status;
use dtx_outside::{Shelf, Sink, Word};
use dtx_words::{Command, command, feed_name, finish, line, name_among, name_in_line, trial_name};
use std::alloc::Global;

/// Performs the command that the words give, over the files of the shelf, and then prints its line to the sink. The
/// words are those after the program's name. Returns how the command ended.
///
/// What each command does stands with its variant of `dtx_words::Command`. Words that fit no command are answered
/// `Usage`.
pub fn run<S: Shelf, O: Sink>(alloc: Global, words: &[Word], shelf: &mut S, out: &mut O) -> Status
    // If the files are told, one of three things holds. Either the result is the answer of the words' meaning, and its
    // outputs are whole. Or an I/O error or lack of memory was met, and each of the first outputs, none perhaps, holds
    // a prefix of its bytes. Or the command was done and its outputs are whole, but its line could not be printed. In
    // each case no other file was touched.
    ensures carried { IfSome (S.files shelf.old) (λ held. IsDone (means words.now held) (Some held) result
        (Rose (O.counts out.old).faults (O.counts out.new).faults) (S.files shelf.new)) }

    // Let the files be told. Let the result be `WriteFault`, while the shelf counted no error of writing. Then the
    // command was done and its outputs are whole, but its line could not be printed.
    ensures unprinted { IfSome (S.files shelf.old) (λ held. result ≡ Status.WriteFault
        → ¬ Rose (S.counts shelf.old).write_faults (S.counts shelf.new).write_faults
        → IsUnprinted (means words.now held) (Some held) result
        (Rose (O.counts out.old).faults (O.counts out.new).faults) (S.files shelf.new)) }

    // If the files are told, the line is that of the result, with the numbers of the meaning, and with the name that
    // the words or the plan give. It is whole unless the sink refused, and else a prefix is printed. Where the sink
    // failed at the line of `Done`, the result is `WriteFault`. Where the sink lacked memory for a line, the result is
    // `Memory`. In both cases a prefix of that line is printed.
    ensures line { IfSome (S.files shelf.old) (λ held. HasLine (IsToldLine (command_of words.now) words.now held) result
        (O.counts out.old) (O.counts out.new) (O.written out.old) (O.written out.new)) }

    // Told or not: no count falls. After an I/O error or an absent input its count has risen (`Rose`): that of the
    // shelf, or that of the sink where the line could not be printed. After any other result the shelf's counts stand,
    // but for `Memory` where the sink lacked memory for the line.
    ensures gone { HasEnded (S.counts shelf.old) (S.counts shelf.new) (O.counts out.old) (O.counts out.new) result }

    // Told or not: the line is that of the result. It has the right number of numbers, but their values are left open.
    ensures untold_line { HasLine (IsSomeLine (command_of words.now) words.now) result
        (O.counts out.old) (O.counts out.new) (O.written out.old) (O.written out.new) }

    // Told or not: what the words alone say of the result. It is `Usage` only where they fit no command, and there
    // always, unless memory runs out. It is `Same` only where two file names are equal, and then always, unless memory
    // runs out. This is not said of `net`, whose plan gives names too. An absent input is one that the words
    // name, or one of the four that `net` reads or the three that `trial` reads. Each refusal is one that the command
    // can give (`Knows`).
    ensures words { IsByWords (command_of words.now) words.now result }

    // In which stages a command works whose words name an input. Let the files be told, and let it be foreseen, for
    // each shelf of this kind, how many bytes of an input can be read. If none can be, each file is as before. Let the
    // other file of `adapt` and `hurt` be readable whole. Let reading fail behind the first n bytes of the input, and
    // let no write error be counted. Then each output holds what is made of these n bytes, but for less than a piece.
    // At most 131,072 bytes at its end may be missing. Of `net` only this is said: if no byte of its plan can be read,
    // each file is as before.
    ensures stages { HasStagesOf S.foreseen (command_of words.now) words.now result (S.files shelf.old)
        (S.files shelf.new) (S.counts shelf.old) (S.counts shelf.new) }

    // How far a network came, whatever the result. One number of steps holds for the files of all transmitters. Each of
    // them that was begun holds what these steps give, and a prefix of what the next step adds. They are begun only
    // after the feed is whole, and `net.ts` only after the last step.
    ensures progress { IfSome (S.files shelf.old) (λ held.
        HasProgressOf (command_of words.now) words.now held result (S.files shelf.new)) }

    // The headline, for every packet stream and schedule. An exciter is given, from any earlier state, the adapter's
    // feed unchanged through three cadence marks and on. From its first listing whose group starts 52 or more packets
    // later, it emits exactly the A/53 symbols of that feed. It does so at moments that differ between transmitters
    // only by the signalled offsets. Symbols with at most ten wrong bytes per codeword give the feed's packets back.
    // This holds whenever the command was done, even if printing its line failed.
    ensures headline { IfSome (S.files shelf.old) (λ held.
        IsAllDone result (S.counts shelf.old) (S.counts shelf.new)
        → HasHeadlineOf (command_of words.now) words.now held (S.files shelf.new)) }
{
    let command = command(words);
    let performed = perform(alloc, command, words, shelf);
    let name = name_of(command, words, &performed);
    let printed = line(command, &performed.outcome, name, out);
    finish(performed.outcome.status, printed)
}

/// The name in the line: one among the words, the one that a network keeps, or that of a trial's file.
fn name_of<'a>(command: Option<Command>, words: &'a [Word], performed: &'a NetOutcome) -> &'a str
    ensures { result.now ≡ name_kept command words.now performed.now.outcome.status performed.now.name.bytes }
{
    match (command, performed.outcome.status) {
        (Some(Command::Net), Status::Absent(0)) => name_in_line(command, words, Status::Absent(0)),
        (Some(Command::Net), _) => performed.name.as_str(),
        (Some(Command::Trial), status) => trial_input(status),
        (command, status) => name_in_line(command, words, status),
    }
}

/// The name in the line of a trial: that of the input that isn't there. The words of a trial name no file.
fn trial_input(status: Status) -> &'static str
    ensures { result.now ≡ line_name status trial_names }
{
    name_among(status, &[trial_name(), feed_name(), "tx-3.sym"])
}
