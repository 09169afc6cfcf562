// When gathered bytes are added to a file.

use dtx_outside::{Call, FILE_PAGE, MemoryShelf, Output, PIECE, Shelf};
use std::alloc::{AllocError, Global};

// Three pieces of this length don't fit where two do.
const LENGTH: usize = 50_000;

static NAME: &str = "out";

// What is done over a file, and what is seen of it.
#[derive(Clone, Copy)]
enum Step {
    // The first append fails in its midst.
    Fail,
    Begin,
    // A piece is written, or more bytes than are gathered, and the file has so many bytes then, where they are taken.
    Write(Option<usize>),
    WriteMany(Option<usize>),
    // What is left is written, and the file has so many bytes then.
    Flush(Option<usize>),
    Has(usize),
    Appends(u64),
}

// A gathering of bytes over a new file.
#[derive(Drop)]
struct Gathering {
    output: Output<PIECE>,
    shelf: MemoryShelf,
}

impl Gathering {
    fn new(alloc: Global) -> Result<Gathering, AllocError> {
        Ok(Gathering {
            output: Output::new(alloc)?,
            shelf: MemoryShelf::new(alloc),
        })
    }

    fn do_all(&mut self, steps: &[Step]) -> bool {
        for step in steps {
            if !self.does(step) {
                return false;
            }
        }
        true
    }

    // Whether a step goes as it says.
    fn does(&mut self, step: &Step) -> bool {
        match *step {
            Step::Fail => self.shelf.fail(Call::Append, 0).is_ok(),
            Step::Begin => self.shelf.begin(NAME).is_ok(),
            Step::Write(length) => self.write(&[7; LENGTH]) == length,
            Step::WriteMany(length) => self.write(&[7; PIECE + LENGTH]) == length,
            Step::Flush(length) => self.flush() == length,
            Step::Has(length) => self.length() == length,
            Step::Appends(count) => self.shelf.calls(Call::Append) == count,
        }
    }

    fn write(&mut self, bytes: &[u8]) -> Option<usize> {
        match self.output.write(&mut self.shelf, NAME, bytes) {
            Ok(()) => Some(self.length()),
            Err(_) => None,
        }
    }

    fn flush(&mut self) -> Option<usize> {
        match self.output.flush(&mut self.shelf, NAME) {
            Ok(()) => Some(self.length()),
            Err(_) => None,
        }
    }

    fn length(&self) -> usize {
        match self.shelf.get(NAME) {
            Some(bytes) => bytes.len(),
            None => 0,
        }
    }
}

// Whether memory is there and the steps go as they say, one after the other.
fn go(alloc: Global, steps: &[Step]) -> bool {
    match Gathering::new(alloc) {
        Ok(mut gathering) => gathering.do_all(steps),
        Err(_) => false,
    }
}

// The third of three pieces goes to the file as far as it makes whole pages of the first two.
const THREE: [Step; 6] = [
    Step::Begin,
    Step::Write(Some(0)),
    Step::Write(Some(0)),
    Step::Write(Some(25 * FILE_PAGE)),
    Step::Flush(Some(3 * LENGTH)),
    Step::Appends(2),
];

#[test]
fn whole_pages_are_added_when_the_next_bytes_do_not_fit(rt: HostRuntime) {
    assert!(rt; go(rt.alloc(), &THREE));
}

// More bytes than are gathered: the end of a page, and then all whole pages.
const MANY: [Step; 6] = [
    Step::Begin,
    Step::WriteMany(Some(44 * FILE_PAGE)),
    Step::Appends(1),
    Step::WriteMany(Some(88 * FILE_PAGE)),
    Step::Appends(3),
    Step::Flush(Some(2 * (PIECE + LENGTH))),
];

#[test]
fn many_bytes_are_added_at_once_but_for_a_part_of_a_page(rt: HostRuntime) {
    assert!(rt; go(rt.alloc(), &MANY));
}

// Half of the third piece's whole pages.
const HALF: usize = 25 * FILE_PAGE / 2;

// The first append fails in its midst.
const FAILING: [Step; 8] = [
    Step::Fail,
    Step::Begin,
    Step::Write(Some(0)),
    Step::Write(Some(0)),
    Step::Write(None),
    Step::Has(HALF),
    Step::Flush(Some(HALF)),
    Step::Appends(1),
];

#[test]
fn a_failing_append_leaves_a_front_part_and_nothing_gathered(rt: HostRuntime) {
    assert!(rt; go(rt.alloc(), &FAILING));
}
