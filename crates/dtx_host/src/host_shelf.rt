// The host's files as a shelf. It counts its refusals. What the files hold is not told: proofs don't see it.
ghost use Rattle.std.specs.Prelude.{◌≡◌, ◌<◌, ◌≤◌, ◌+◌, ◌^◌, IfOk, IfSome, IsSomeAnd, length};
ghost use Rattle.std.specs.FinMap as map;
ghost use Rattle.dtx_outside.specs.Counts.{HasGone, blame_of_read, blame_of_write};
ghost use Rattle.dtx_outside.specs.Foreseen.{nothing_foreseen};
ghost use Rattle.dtx_outside.specs.Refusals.{no_counts, counts_read, counts_written};
ghost use Rattle.dtx_outside.specs.Shelf.{untold, Gives, IsBegun, IsAppended};

use crate::host_files::HostFiles;
use crate::progress::Progress;
use dtx_outside::{ReadNo, Refusals, Shelf, WriteNo};
use std::io::Input;
use std::marker::Model;
use std::rt::Files;
use std::time::Clock;

/// The files of the host. A file stays open from its first append on, until too many are open. Each other call opens
/// its file and closes it again. So a run may use any number of files.
///
/// A pipe, a terminal or a socket that is read stays open, and is read once, in order. A pipe that is written stays
/// open from `begin` on.
///
/// `begin` refuses a regular file that was read or begun before, under any name, a pipe that is read, and the file or
/// pipe that standard output goes to. It changes nothing then. So no input is lost where another path or a link leads
/// to it. It refuses a disk too.
///
/// `append` refuses a file that was not begun under its name, or whose length isn't that of all bytes appended. From 64
/// KiB on the length is checked once in 64 KiB, and after an append to another file.
///
/// `read` fails where the name stood for another file before, where the file is gone, and where it is shorter than what
/// was read of it.
#[derive(Drop)]
pub struct HostShelf<'a, R: Files> {
    files: HostFiles<'a, R>,
    refusals: Refusals,
}

impl<'a, R: Files> Model for HostShelf<'a, R> {
    ghost use Rattle.dtx_outside.specs.Counts.{Counts};

    ghost Value = { Counts };

    ghost view = { λ s. s.refusals };
}

impl<'a, R: Files + AllocGlobal + Clock + Eprint + Input> HostShelf<'a, R> {
    /// The host's files, with all counts 0. Each read is shown by `progress`.
    pub fn new(rt: &'a R, progress: &'a Progress) -> HostShelf<'a, R>
        ensures { result ≡ no_counts }
    {
        HostShelf {
            files: HostFiles::new(rt, progress),
            refusals: Refusals::new(),
        }
    }

    /// Whether `begin` has refused a file because this run had read or begun it, under any name, or prints to it.
    pub fn overlap(&self) -> bool {
        self.files.overlap()
    }

    /// Whether a pipe was to be read a second time, under any name.
    pub fn again(&self) -> bool {
        self.files.again()
    }
}

impl<R: Files + AllocGlobal + Clock + Eprint + Input> Shelf for HostShelf<'_, R> {
    ghost files = { λ _. untold };

    ghost counts = { λ s. s };

    ghost foreseen = { nothing_foreseen };

    fn known(&self) {}

    fn read(&mut self, name: &str, place: u64, into: &mut [u8]) -> Result<usize, ReadNo>
        requires wanted { 0 < length into.old }
        requires room { place + length into.old < 2 ^ 64 }

        // The trait's clauses on what was read, and on the counts.
        ensures bound { IfOk result (λ n. n ≤ length into.new) }
        ensures bytes { IfOk result (λ n. IfSome untold (λ held.
            IsSomeAnd (map.get held name.now) (λ file. Gives file place n into.new))) }
        ensures gone { HasGone self.old self.new (blame_of_read result) }

        // It counts what it answers, and nothing else.
        ensures counted { self.new ≡ counts_read result self.old }
    {
        let read = self.files.read(name, place, into);
        self.refusals.note_read(read)
    }

    fn begin(&mut self, name: &str) -> Result<(), WriteNo>

        // The trait's clauses on the files, and on the counts.
        ensures files { IsBegun name.now untold result untold }
        ensures gone { HasGone self.old self.new (blame_of_write result) }

        // It counts what it answers, and nothing else.
        ensures counted { self.new ≡ counts_written result self.old }
    {
        let begun = self.files.begin(name);
        self.refusals.note_write(begun)
    }

    fn append(&mut self, name: &str, bytes: &[u8]) -> Result<(), WriteNo>

        // The trait's clauses on the files, and on the counts.
        ensures files { IsAppended name.now bytes.now untold result untold }
        ensures gone { HasGone self.old self.new (blame_of_write result) }

        // It counts what it answers, and nothing else.
        ensures counted { self.new ≡ counts_written result self.old }
    {
        let added = self.files.append(name, bytes);
        self.refusals.note_write(added)
    }
}
