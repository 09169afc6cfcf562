// The program `dtx`: it calls `run` with the words of its command line, the host's files and standard output.
#![tactic(auto)]

use dtx_host::{HostShelf, HostSink, Progress};
use dtx_outside::Word;
use dtx_top::{Status, run};
use std::fs::File;
use std::io::{ErrorKind, IsTerminal};
use std::process::ExitCode;
use std::rt::{Env, Files};
use std::{env, io};

/// The line on standard error where an output was refused, so that no input and no other output is lost.
const OVERLAP: &str =
    "dtx: an output is the same file as an input, another output or standard output";

/// The line on standard error where an input that is read once, such as a pipe, was to be read a second time.
const AGAIN: &str =
    "dtx: an input is a pipe that was already read, and a pipe can be read only once";

fn main(rt: HostRuntime) -> ExitCode {
    let _standing = stand_in(&rt);
    match words(&rt) {
        Ok(words) => {
            let progress = Progress::new(&rt, rt.stderr().is_terminal());
            let mut shelf = HostShelf::new(&rt, &progress);
            let mut out = HostSink::new(&rt, &progress);
            let status = run(rt.alloc(), &words, &mut shelf, &mut out);
            progress.wipe(&rt);
            if shelf.overlap() {
                let _ = eprintln!(rt; "{OVERLAP}");
            }
            if shelf.again() {
                let _ = eprintln!(rt; "{AGAIN}");
            }
            ExitCode::from(status.code())
        }
        Err(e) if e.kind() == ErrorKind::OutOfMemory => ExitCode::from(Status::Memory.code()),
        Err(_) => ExitCode::FAILURE,
    }
}

/// Opens /dev/null for reading three times. Each open takes the lowest descriptor that is free, so each standard stream
/// that is closed gets one of them. Otherwise a file of the command could take the place of such a stream, and what is
/// printed would go into that file. Now printing to it fails.
fn stand_in<R: Files>(rt: &R) -> [io::Result<R::File>; 3] {
    [
        File::open(rt, "/dev/null"),
        File::open(rt, "/dev/null"),
        File::open(rt, "/dev/null"),
    ]
}

/// The words after the program's name. The error is out of memory, or a word that isn't UTF-8.
fn words(rt: &(impl Env + AllocGlobal)) -> io::Result<Vec<Word>> {
    let mut words = Vec::new(rt.alloc());
    for text in env::args(rt)?.skip(1) {
        words.push(Word::new(text))?;
    }
    Ok(words)
}
