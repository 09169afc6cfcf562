// The line that a command prints at its end.
ghost use Rattle.std.specs.Prelude.{◌≡◌, ◌≤◌, ◌++◌, [], length, map, codes, decimal};
ghost use Rattle.dtx_outside.specs.Sink.{IsCounted};
ghost use Rattle.dtx_words.specs.Line.{bare_line, done_line, finished, labels_of, line_of, numbered, refusal_line};
ghost use Rattle.dtx_words.specs.Line.{usage_line};
ghost use Rattle.dtx_words.specs.Printed.{IsPut};
ghost use Rattle.dtx_words.specs.Rows.{row_of};
ghost use Rattle.dtx_meaning.specs.declared.status.Status.TheVariants.{Plan};

use crate::Command;
use crate::put::put_all;
use crate::rows::{FIRST_WORDS, row};
use dtx_meaning::{Outcome, Status};
use dtx_outside::{Sink, SinkNo};
use dtx_plan::PlanNo;
use itoa::Buffer;

/// Prints the line of an outcome. For `Done` it has the labels of the command's row, each with its number: as many as
/// the outcome has. For any other status it is the line of the refusal, which ends with `name` for `Same` and `Absent`.
/// After an error a prefix of the line was printed.
pub fn line<O: Sink>(
    command: Option<Command>,
    outcome: &Outcome,
    name: &str,
    out: &mut O,
) -> Result<(), SinkNo>
    ensures written { IsPut (line_of command outcome.now name.now) (O.written out.old) result (O.written out.new) }
    ensures gone { IsCounted (O.counts out.old) result (O.counts out.new) }
{
    let status = outcome.status;
    match status {
        Status::Done => put_done(command, outcome, out),
        Status::Usage => put_usage(out),
        Status::Same => put_name("same ", name, out),
        Status::Absent(_) => put_name("absent ", name, out),
        Status::Plan(no) => put_plan(no, out),
        Status::Packet(k) => put_count("packet ", k, out),
        Status::OutOfFeed(event) => put_count("out of feed ", event as u64, out),
        Status::OutOfAir(entry) => put_count("out of air ", entry as u64, out),
        Status::TooLong
        | Status::NoSync
        | Status::ReadFault
        | Status::WriteFault
        | Status::Memory => put_line(bare_line(status), out),
    }
}

/// Prints the line of a command that is done.
fn put_done<O: Sink>(command: Option<Command>, outcome: &Outcome, out: &mut O) -> Result<(), SinkNo>
    ensures written { IsPut (done_line command outcome.now) (O.written out.old) result (O.written out.new) }
    ensures gone { IsCounted (O.counts out.old) result (O.counts out.new) }
{
    put_numbered(labels(command), outcome.numbers.as_slice(), out)?;
    put_all(out, &["\n"])
}

/// The labels of the command's row.
fn labels(command: Option<Command>) -> &'static [&'static str]
    ensures { map (λ label. label.now) result.now ≡ labels_of command }
{
    match command {
        Some(command) => row(command).labels,
        None => &[],
    }
}

/// Prints each label that has a number, followed by that.
fn put_numbered<O: Sink>(labels: &[&str], numbers: &[u64], out: &mut O) -> Result<(), SinkNo>
    ensures written { IsPut (numbered (map (λ label. label.now) labels.now) numbers.now) (O.written out.old) result
        (O.written out.new) }
    ensures gone { IsCounted (O.counts out.old) result (O.counts out.new) }
{
    let count = labels.len().min(numbers.len());
    for i in 0..count {
        put_number(labels[i], numbers[i], out)?;
    }
    Ok(())
}

/// Prints a label, followed by a number.
fn put_number<O: Sink>(label: &str, number: u64, out: &mut O) -> Result<(), SinkNo>
    ensures written { IsPut (label.now ++ decimal number) (O.written out.old) result (O.written out.new) }
    ensures gone { IsCounted (O.counts out.old) result (O.counts out.new) }
{
    let mut digits = Buffer::new();
    put_all(out, &[label, digits.format(number)])
}

/// Prints the usage line: the first words of all commands.
fn put_usage<O: Sink>(out: &mut O) -> Result<(), SinkNo>
    ensures written { IsPut usage_line (O.written out.old) result (O.written out.new) }
    ensures gone { IsCounted (O.counts out.old) result (O.counts out.new) }
{
    let mut before = "usage: dtx ";
    for command in FIRST_WORDS {
        put_verb(before, command, out)?;
        before = "|";
    }
    put_all(out, &["\n"])
}

/// Prints a text, followed by the first word of a command.
fn put_verb<O: Sink>(before: &'static str, command: Command, out: &mut O) -> Result<(), SinkNo>
    ensures written { IsPut (before.now ++ (row_of command).verb) (O.written out.old) result (O.written out.new) }
    ensures gone { IsCounted (O.counts out.old) result (O.counts out.new) }
{
    put_all(out, &[before, row(command).verb])
}

/// The line of a refusal that has neither a name nor a number.
fn bare_line(status: Status) -> &'static str
    ensures { result.now ≡ bare_line status }
{
    match status {
        Status::TooLong => "too long\n",
        Status::NoSync => "no sync\n",
        Status::ReadFault => "read fault\n",
        Status::WriteFault => "write fault\n",
        Status::Memory => "no memory\n",
        _ => "",
    }
}

/// Prints a line.
fn put_line<O: Sink>(line: &str, out: &mut O) -> Result<(), SinkNo>
    ensures written { IsPut line.now (O.written out.old) result (O.written out.new) }
    ensures gone { IsCounted (O.counts out.old) result (O.counts out.new) }
{
    put_all(out, &[line])
}

/// Prints a line: some words and a name.
fn put_name<O: Sink>(words: &str, name: &str, out: &mut O) -> Result<(), SinkNo>
    ensures written { IsPut (words.now ++ name.now ++ codes "\n") (O.written out.old) result (O.written out.new) }
    ensures gone { IsCounted (O.counts out.old) result (O.counts out.new) }
{
    put_all(out, &[words, name, "\n"])
}

/// Prints a line: some words and a number.
fn put_count<O: Sink>(words: &str, number: u64, out: &mut O) -> Result<(), SinkNo>
    ensures written { IsPut (words.now ++ decimal number ++ codes "\n") (O.written out.old) result
        (O.written out.new) }
    ensures gone { IsCounted (O.counts out.old) result (O.counts out.new) }
{
    let mut digits = Buffer::new();
    put_all(out, &[words, digits.format(number), "\n"])
}

/// Prints the line of a plan that is refused.
fn put_plan<O: Sink>(no: PlanNo, out: &mut O) -> Result<(), SinkNo>
    ensures written { IsPut (refusal_line (Plan no) []) (O.written out.old) result (O.written out.new) }
    ensures gone { IsCounted (O.counts out.old) result (O.counts out.new) }
{
    let mut digits = Buffer::new();
    put_all(
        out,
        &[
            "plan ",
            no.key.word(),
            " ",
            digits.format(no.item),
            " ",
            no.rule.word(),
            "\n",
        ],
    )
}

/// The final status of a command, given how printing its line ended. If the sink failed, `Done` becomes `WriteFault`,
/// and any other status stays. If the sink lacked memory, any status becomes `Memory`.
pub fn finish(status: Status, printed: Result<(), SinkNo>) -> Status
    ensures { result ≡ finished status printed }
{
    match printed {
        Ok(()) => status,
        Err(SinkNo::Failed) if status == Status::Done => Status::WriteFault,
        Err(SinkNo::Memory) => Status::Memory,
        Err(SinkNo::Failed) => status,
    }
}
