// Files of the host, and what others do with them meanwhile.

use dtx_host::{HostShelf, Progress};
use dtx_outside::{ReadNo, Shelf, WriteNo};
use std::fs;
use std::rt::Files;

/// What the shelf is asked of a file, with its answer, and what others do with the file.
#[derive(Clone, Copy)]
enum Step {
    Read(u8, Result<&'static [u8], ReadNo>),
    Begin(Result<(), WriteNo>),
    Append(&'static [u8], Result<(), WriteNo>),
    Written(&'static [u8]),
    Renamed(&'static str),
    Removed,
}

/// Whether the shelf answers so. What it reads is at most eight bytes.
fn is_answered(shelf: &mut impl Shelf, name: &str, step: &Step) -> bool {
    match *step {
        Step::Read(place, wanted) => reads(shelf, name, place, wanted),
        Step::Begin(wanted) => shelf.begin(name) == wanted,
        Step::Append(bytes, wanted) => shelf.append(name, bytes) == wanted,
        _ => true,
    }
}

fn reads(shelf: &mut impl Shelf, name: &str, place: u8, wanted: Result<&[u8], ReadNo>) -> bool {
    let mut into = [0u8; 8];
    let read = shelf.read(name, place as u64, &mut into);
    match wanted {
        Ok(bytes) => read == Ok(bytes.len()) && into.starts_with(bytes),
        Err(no) => read == Err(no),
    }
}

/// Whether others can do what they do.
fn is_done(files: &impl Files, name: &str, step: &Step) -> bool {
    match *step {
        Step::Written(bytes) => fs::write(files, name, bytes).is_ok(),
        Step::Renamed(other) => fs::rename(files, name, other).is_ok(),
        Step::Removed => fs::remove_file(files, name).is_ok(),
        _ => true,
    }
}

/// Whether the steps are answered as they say.
fn are_answered(files: &impl Files, shelf: &mut impl Shelf, steps: &[(&str, Step)]) -> bool {
    for (name, step) in steps {
        if !is_done(files, name, step) || !is_answered(shelf, name, step) {
            return false;
        }
    }
    true
}

/// Whether they are by a new shelf, and whether a file was not begun then because it was met before.
fn answered(rt: &HostRuntime, steps: &[(&str, Step)], overlap: bool) -> bool {
    let progress = Progress::new(rt, false);
    let mut shelf = HostShelf::new(rt, &progress);
    are_answered(rt, &mut shelf, steps) && shelf.overlap() == overlap
}

const OUT: &str = "dtx_host_test";

const FILES: &[(&str, Step)] = &[
    (OUT, Step::Written(b"old")),
    (OUT, Step::Removed),
    (OUT, Step::Read(0, Err(ReadNo::Absent))),
    (OUT, Step::Begin(Ok(()))),
    (OUT, Step::Append(b"abc", Ok(()))),
    (OUT, Step::Append(b"de", Ok(()))),
    (OUT, Step::Read(1, Ok(b"bcde"))),
    (OUT, Step::Read(5, Ok(b""))),
    ("no_such_folder/f", Step::Begin(Err(WriteNo::Failed))),
    ("no_such_folder/f", Step::Append(b"a", Err(WriteNo::Failed))),
    ("no_such_folder/f", Step::Read(0, Err(ReadNo::Absent))),
    (".", Step::Begin(Err(WriteNo::Failed))),
    (".", Step::Append(b"a", Err(WriteNo::Failed))),
    (".", Step::Read(0, Err(ReadNo::Failed))),
    (OUT, Step::Read(0, Ok(b"abcde"))),
    (OUT, Step::Removed),
];

#[test]
fn files_are_written_and_read(rt: HostRuntime) {
    assert!(rt; answered(&rt, FILES, false));
}

const READ: &str = "dtx_host_read";

const BEGUN: &str = "dtx_host_begun";

const MET: &[(&str, Step)] = &[
    (READ, Step::Written(b"abc")),
    (READ, Step::Read(0, Ok(b"abc"))),
    (BEGUN, Step::Begin(Ok(()))),
    ("./dtx_host_read", Step::Begin(Err(WriteNo::Failed))),
    ("./dtx_host_begun", Step::Begin(Err(WriteNo::Failed))),
    (READ, Step::Read(0, Ok(b"abc"))),
    (READ, Step::Removed),
    (BEGUN, Step::Removed),
];

#[test]
fn a_file_that_was_read_or_begun_is_not_begun_again(rt: HostRuntime) {
    assert!(rt; answered(&rt, MET, true));
}

const CHANGED: &str = "dtx_host_changed";

const OTHER: &str = "dtx_host_other";

const KEPT: &str = "dtx_host_kept";

const CHANGES: &[(&str, Step)] = &[
    (CHANGED, Step::Written(b"abc")),
    (CHANGED, Step::Append(b"d", Err(WriteNo::Failed))),
    (CHANGED, Step::Read(3, Err(ReadNo::Failed))),
    (CHANGED, Step::Read(0, Ok(b"abc"))),
    (CHANGED, Step::Renamed(KEPT)),
    (OTHER, Step::Written(b"xyz")),
    (OTHER, Step::Renamed(CHANGED)),
    (CHANGED, Step::Read(0, Err(ReadNo::Failed))),
    (KEPT, Step::Renamed(CHANGED)),
    (CHANGED, Step::Written(b"ab")),
    (CHANGED, Step::Read(2, Ok(b""))),
    (CHANGED, Step::Read(3, Err(ReadNo::Failed))),
    (CHANGED, Step::Removed),
    (CHANGED, Step::Read(2, Err(ReadNo::Failed))),
    (CHANGED, Step::Read(0, Err(ReadNo::Failed))),
];

const CUT: &[(&str, Step)] = &[
    (CHANGED, Step::Begin(Ok(()))),
    (CHANGED, Step::Append(b"abc", Ok(()))),
    (CHANGED, Step::Written(b"ab")),
    (CHANGED, Step::Append(b"d", Err(WriteNo::Failed))),
    (CHANGED, Step::Removed),
    (CHANGED, Step::Append(b"d", Err(WriteNo::Failed))),
];

#[test]
fn a_file_that_others_change_meanwhile_is_a_fault(rt: HostRuntime) {
    assert!(rt; answered(&rt, CHANGES, false));
    assert!(rt; answered(&rt, CUT, false));
}

const HELD: &str = "dtx_host_held";

/// A file that was written twice, and what others do with it then.
static WAYS: [(&str, &[(&str, Step)]); 4] = [
    ("lost", LOST),
    ("replaced", REPLACED),
    ("shorter", SHORTER),
    ("longer", LONGER),
];

const LOST: &[(&str, Step)] = &[
    (HELD, Step::Begin(Ok(()))),
    (HELD, Step::Append(b"ab", Ok(()))),
    (HELD, Step::Append(b"cd", Ok(()))),
    (HELD, Step::Removed),
    (HELD, Step::Append(b"e", Err(WriteNo::Failed))),
];

const REPLACED: &[(&str, Step)] = &[
    (HELD, Step::Begin(Ok(()))),
    (HELD, Step::Append(b"ab", Ok(()))),
    (HELD, Step::Append(b"cd", Ok(()))),
    (OTHER, Step::Written(b"abcd")),
    (OTHER, Step::Renamed(HELD)),
    (HELD, Step::Append(b"e", Err(WriteNo::Failed))),
    (HELD, Step::Removed),
];

const SHORTER: &[(&str, Step)] = &[
    (HELD, Step::Begin(Ok(()))),
    (HELD, Step::Append(b"ab", Ok(()))),
    (HELD, Step::Append(b"cd", Ok(()))),
    (HELD, Step::Written(b"abc")),
    (HELD, Step::Append(b"e", Err(WriteNo::Failed))),
    (HELD, Step::Removed),
];

const LONGER: &[(&str, Step)] = &[
    (HELD, Step::Begin(Ok(()))),
    (HELD, Step::Append(b"ab", Ok(()))),
    (HELD, Step::Append(b"cd", Ok(()))),
    (HELD, Step::Written(b"abcde")),
    (HELD, Step::Append(b"e", Err(WriteNo::Failed))),
    (HELD, Step::Removed),
];

#[test]
fn a_file_that_others_change_between_two_appends_is_a_fault(rt: HostRuntime) {
    for (way, steps) in &WAYS {
        assert!(rt; answered(&rt, steps, false), "{way}");
    }
}
