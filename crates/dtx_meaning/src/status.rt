// How a call of the program ends, as a status and the numbers of its line.
ghost use Rattle.std.specs.Prelude.{◌≡◌, ◌≤◌, length};
ghost use Rattle.dtx_meaning.specs.Status.{IsOfInput, code_of, done, ended, of_plan, of_read, refused_behind};
ghost use Rattle.dtx_meaning.specs.declared.numbers.TheConstants.{MOST_NUMBERS};

use crate::Numbers;
use dtx_outside::{ReadNo, WriteNo};
use dtx_plan::{PlanFault, PlanNo};
use std::alloc::AllocError;

/// How a call ends. Inputs are numbered from 0, in the order of the words that name them. Those of `net` are the plan,
/// the stream, the feed and the symbols that are received. Those of `trial` are the last three of these.
#[derive(Clone, Copy, PartialEq, Eq)]
pub enum Status {
    /// The command was done, and its inputs were read to their ends.
    Done,
    /// The words fit no command.
    Usage,
    /// Two of the command's file names are equal.
    Same,
    /// The input of this number isn't there.
    Absent(u8),
    /// The plan, or the list of changes, breaks this rule first.
    Plan(PlanNo),
    /// The packet of this number is the first whose byte 0 isn't allowed.
    Packet(u64),
    /// An input holds more than the command takes.
    TooLong,
    /// The event of this number is the first that reads past the end of the feed.
    OutOfFeed(u32),
    /// The entry of damage of this number is the first that ends past the end of the file.
    OutOfAir(u32),
    /// No field sync is found in the symbols.
    NoSync,
    /// Reading failed.
    ReadFault,
    /// Writing failed, or printing the line of `Done` failed.
    WriteFault,
    /// Out of memory.
    Memory,
}

impl Status {
    /// The exit code of the program.
    pub fn code(&self) -> u8
        ensures { result ≡ code_of self.now }
    {
        match self {
            Status::Done => 0,
            Status::Usage => 2,
            Status::Same => 3,
            Status::Absent(_) => 4,
            Status::Plan(_) => 5,
            Status::Packet(_) => 6,
            Status::TooLong => 7,
            Status::OutOfFeed(_) => 8,
            Status::OutOfAir(_) => 9,
            Status::NoSync => 10,
            Status::ReadFault => 11,
            Status::WriteFault => 12,
            Status::Memory => 13,
        }
    }
}

/// How a command ended, and the numbers of its line.
#[derive(Clone, Copy)]
pub struct Outcome {
    /// How it ended.
    pub status: Status,
    /// If it is done, the numbers of its line.
    pub numbers: Numbers,
}

/// All was done, and the line has these numbers.
pub fn done(numbers: &[u64]) -> Outcome
    requires { length numbers.now ≤ MOST_NUMBERS }
    ensures { result ≡ done numbers.now }
{
    Outcome {
        status: Status::Done,
        numbers: Numbers::new(numbers),
    }
}

/// The outcome with this status, without numbers.
pub fn ended(status: Status) -> Outcome
    ensures { result ≡ ended status }
{
    Outcome {
        status,
        numbers: Numbers::new(&[]),
    }
}

/// The final status where a call ended as `first`, and a later call was refused. Lack of memory doesn't replace an
/// answer that a count was raised for: an I/O error or an absent file.
pub fn refused_behind(first: Status, refusal: Status) -> Status
    ensures { result ≡ refused_behind first refusal }
{
    match (first, refusal) {
        (Status::Absent(_) | Status::ReadFault | Status::WriteFault, Status::Memory) => first,
        _ => refusal,
    }
}

/// The status after a refusal to read the input of this number.
pub fn of_read(input: u8, cause: ReadNo) -> Status
    ensures status { result ≡ of_read input cause }
    ensures input { IsOfInput input result }
{
    match cause {
        ReadNo::Absent => Status::Absent(input),
        ReadNo::Failed => Status::ReadFault,
        ReadNo::Memory => Status::Memory,
    }
}

/// The status where no plan, or no list of changes, could be read.
pub fn of_plan(fault: PlanFault) -> Status
    ensures { result ≡ of_plan fault }
{
    match fault {
        PlanFault::No(no) => Status::Plan(no),
        PlanFault::Memory => Status::Memory,
    }
}

impl From<WriteNo> for Status {
    ghost use Rattle.std.specs.Prelude.{◌≡◌};
    ghost use Rattle.dtx_meaning.specs.Status.{of_write};

    ghost from_gives = { λ cause status. status ≡ of_write cause };

    fn from(cause: WriteNo) -> Status {
        match cause {
            WriteNo::Failed => Status::WriteFault,
            WriteNo::Memory => Status::Memory,
        }
    }
}

impl From<AllocError> for Status {
    ghost use Rattle.std.specs.Prelude.{◌≡◌};
    ghost use Rattle.dtx_meaning.specs.declared.status.Status.TheVariants.{Memory};

    ghost from_gives = { λ cause status. status ≡ Memory };

    fn from(_cause: AllocError) -> Status {
        Status::Memory
    }
}
