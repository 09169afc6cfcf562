// What each call of the shelf does in the host's file system, through the runtime that `main` is given.
ghost use Rattle.std.specs.Prelude.{◌≤◌, IfOk, length};

use crate::files_met::{FilesMet, Met};
use crate::found::{FileFacts, FileId, empty, found_open, found_under, has_places, open, read_at};
use crate::pipe::{Pipe, Pipes};
use crate::progress::Progress;
use dtx_outside::{ReadNo, WriteNo};
use std::fs::{OpenFile, OpenOptions};
use std::io::{Input, Read, Seek};
use std::rt::Files;
use std::time::Clock;

/// The host's files. The value remembers those that were read or begun, and holds the pipes that are read.
#[derive(Drop)]
pub(crate) struct HostFiles<'a, R: Files> {
    rt: &'a R,
    progress: &'a Progress,
    met: FilesMet<R::File>,
    pipes: Pipes<R::File>,
    overlap: bool,
}

impl<'a, R: Files + AllocGlobal + Clock + Eprint + Input> HostFiles<'a, R> {
    pub(crate) fn new(rt: &'a R, progress: &'a Progress) -> HostFiles<'a, R> {
        HostFiles {
            rt,
            progress,
            met: FilesMet::new(rt.alloc()),
            pipes: Pipes::new(rt.alloc()),
            overlap: false,
        }
    }

    /// Whether `begin` has refused a file because this run had read or begun it, under any name, or prints to it.
    pub(crate) fn overlap(&self) -> bool {
        self.overlap
    }

    /// Whether a pipe was to be read a second time.
    pub(crate) fn again(&self) -> bool {
        self.pipes.again()
    }

    /// Reads once: from the pipe that is held under the name, or else from the file of that name, which is opened for
    /// it.
    pub(crate) fn read(&mut self, name: &str, place: u64, into: &mut [u8]) -> Result<usize, ReadNo>
        ensures { IfOk result (λ n. n ≤ length into.new) }
    {
        match self.pipes.held(name) {
            Some(pipe) => read_held(self.rt, self.progress, pipe, place, into),
            None => self.read_unheld(name, place, into),
        }
    }

    fn read_unheld(&mut self, name: &str, place: u64, into: &mut [u8]) -> Result<usize, ReadNo>
        ensures { IfOk result (λ n. n ≤ length into.new) }
    {
        match named_pipe(self.rt, name, place) {
            Some(id) => self.read_named_pipe(name, id, into),
            None => self.read_named(name, place, into),
        }
    }

    /// Reads the first bytes of a pipe or a socket. It first checks whether the pipe may be read, since opening it may
    /// wait. Standard input isn't opened again: a socket can't be, and a named pipe could wait for a writer that never
    /// comes.
    fn read_named_pipe(&mut self, name: &str, id: FileId, into: &mut [u8]) -> Result<usize, ReadNo>
        ensures { IfOk result (λ n. n ≤ length into.new) }
    {
        if self.is_taken(name, id) {
            return Err(ReadNo::Failed);
        }
        if is_standard_input(self.rt, id) {
            self.read_pipe(name, id, None, into)
        } else {
            self.read_named(name, 0, into)
        }
    }

    /// Whether a pipe may not be read. There are three cases. This run reads it already, and two readers would share
    /// its bytes. This run writes it. Or its name stood for another file before.
    fn is_taken(&mut self, name: &str, id: FileId) -> bool {
        self.pipes.meets_again(id) || self.met.was_met(id) || self.met.knows(name)
    }

    /// Opens the file and reads once.
    fn read_named(&mut self, name: &str, place: u64, into: &mut [u8]) -> Result<usize, ReadNo>
        ensures { IfOk result (λ n. n ≤ length into.new) }
    {
        match self.open(OpenOptions::new().read(true), name) {
            Ok(file) => self.read_opened(file, name, place, into),
            // The name stood for a file before, which is gone now. That is a failure, not an absent input.
            Err(ReadNo::Absent) if self.met.knows(name) => Err(ReadNo::Failed),
            Err(no) => Err(no),
        }
    }

    fn read_opened(
        &mut self,
        mut file: R::File,
        name: &str,
        place: u64,
        into: &mut [u8],
    ) -> Result<usize, ReadNo>
        ensures { IfOk result (λ n. n ≤ length into.new) }
    {
        match opened_pipe(&mut file, place) {
            Some(id) => self.read_pipe(name, id, Some(file), into),
            None => self.read_file(&mut file, name, place, into),
        }
    }

    fn read_file(
        &mut self,
        file: &mut R::File,
        name: &str,
        place: u64,
        into: &mut [u8],
    ) -> Result<usize, ReadNo>
        ensures { IfOk result (λ n. n ≤ length into.new) }
    {
        let found = found_open(file)?;
        self.met.note_read(name, &found, place)?;
        let n = read_at(file, place, into)?;
        let read_to = place.saturating_add(n as u64);
        self.progress.note(self.rt, n as u64, read_to, found.len);
        Ok(n)
    }

    /// Holds a pipe, if it may be read, and reads its first bytes.
    fn read_pipe(
        &mut self,
        name: &str,
        id: FileId,
        file: Option<R::File>,
        into: &mut [u8],
    ) -> Result<usize, ReadNo>
        ensures { IfOk result (λ n. n ≤ length into.new) }
    {
        match self.hold(name, id, file) {
            Ok(()) => self.read_first(name, into),
            Err(no) => Err(no),
        }
    }

    fn hold(&mut self, name: &str, id: FileId, file: Option<R::File>) -> Result<(), ReadNo> {
        if self.is_taken(name, id) {
            return Err(ReadNo::Failed);
        }
        self.pipes.hold(name, id, file)
    }

    fn read_first(&mut self, name: &str, into: &mut [u8]) -> Result<usize, ReadNo>
        ensures { IfOk result (λ n. n ≤ length into.new) }
    {
        match self.pipes.held(name) {
            Some(pipe) => read_held(self.rt, self.progress, pipe, 0, into),
            None => Err(ReadNo::Failed),
        }
    }

    /// Opens the file, creates it where it isn't there, and empties it. It refuses a file that this run has read or
    /// begun, and that of standard output. It checks the name first, so that such a file isn't even opened. Then it
    /// checks the open file, since the name may stand for another one by now. Once the file is open, every error is
    /// `Failed`, since the file may have been created.
    pub(crate) fn begin(&mut self, name: &str) -> Result<(), WriteNo> {
        let kept = self.met.make_room(name)?;
        match self.open_anew(name) {
            Ok(file) => self.take(kept, file),
            Err(no) => Err(no),
        }
    }

    fn open_anew(&mut self, name: &str) -> Result<R::File, WriteNo> {
        if self.overlaps_under(name) {
            return Err(WriteNo::Failed);
        }
        match self.open(OpenOptions::new().write(true).create(true), name) {
            Ok(file) => Ok(file),
            Err(no) => Err(in_writing(no)),
        }
    }

    fn overlaps_under(&mut self, name: &str) -> bool {
        match found_under(self.rt, name) {
            Ok(found) => self.overlaps(&found),
            Err(_) => false,
        }
    }

    /// Whether the file may not be begun. If so, `overlap` is true from now on.
    fn overlaps(&mut self, found: &FileFacts) -> bool {
        let overlaps = self.met.would_lose(found)
            || self.pipes.has(found.id)
            || is_printed_to(self.rt, found);
        self.overlap |= overlaps;
        overlaps
    }

    /// Empties an open file, and remembers it as begun.
    fn take(&mut self, name: String, file: R::File) -> Result<(), WriteNo> {
        match self.emptied(&file) {
            Ok(found) => self.met.note_begun(name, &found, file),
            Err(no) => Err(no),
        }
    }

    /// Empties the open file. It refuses a disk, where each append would overwrite the one before.
    fn emptied(&mut self, file: &R::File) -> Result<FileFacts, WriteNo> {
        let Ok(found) = found_open(file) else {
            return Err(WriteNo::Failed);
        };
        if self.overlaps(&found) || found.is_disk {
            return Err(WriteNo::Failed);
        }
        if found.is_file {
            empty(file)?;
        }
        Ok(found)
    }

    /// Appends the bytes to a file that was begun, and refuses any other. The file is held open from its first append
    /// on. A later append only looks up its name, where that is due.
    pub(crate) fn append(&mut self, name: &str, bytes: &[u8]) -> Result<(), WriteNo> {
        if let Some(file) = self.met.held(name) {
            return append_held(self.rt, name, file, bytes);
        }
        self.append_unheld(name, bytes)
    }

    fn append_unheld(&mut self, name: &str, bytes: &[u8]) -> Result<(), WriteNo> {
        let file = match self.open(OpenOptions::new().append(true), name) {
            Ok(file) => file,
            Err(no) => return Err(in_writing(no)),
        };
        match found_open(&file) {
            Ok(found) => self.met.hold(name, &found, file, bytes),
            Err(_) => Err(WriteNo::Failed),
        }
    }

    /// Opens a file. A failure may mean that the host allows no more open files. So all files that are held are closed
    /// then, and it tries once more.
    fn open(&mut self, how: &OpenOptions, name: &str) -> Result<R::File, ReadNo> {
        match open(self.rt, how, name) {
            Err(_) if self.met.let_go() => open(self.rt, how, name),
            opened => opened,
        }
    }
}

fn append_held<R: Files>(
    rt: &R,
    name: &str,
    file: &mut Met<R::File>,
    bytes: &[u8],
) -> Result<(), WriteNo> {
    if file.is_due() {
        let found = found_under(rt, name)?;
        file.note_seen(&found)?;
    }
    file.append(bytes)
}

fn read_held<R: Clock + Eprint + Input, F: Read>(
    rt: &R,
    progress: &Progress,
    pipe: &mut Pipe<F>,
    place: u64,
    into: &mut [u8],
) -> Result<usize, ReadNo>
    ensures { IfOk result (λ n. n ≤ length into.new) }
{
    let n = pipe.read(rt, place, into)?;
    progress.note(rt, n as u64, place.saturating_add(n as u64), 0);
    Ok(n)
}

/// The pipe or socket of that name, where nothing of it was read yet (`place` is 0).
fn named_pipe<R: Files>(rt: &R, name: &str, place: u64) -> Option<FileId> {
    if place > 0 {
        return None;
    }
    match found_under(rt, name) {
        Ok(found) if found.is_pipe => Some(found.id),
        _ => None,
    }
}

fn is_standard_input<R: Files>(rt: &R, id: FileId) -> bool {
    match found_under(rt, "/dev/stdin") {
        Ok(found) => found.id == id,
        Err(_) => false,
    }
}

/// The open file, where it can't be read at an offset and nothing of it was read yet (`place` is 0).
fn opened_pipe<F: OpenFile + Seek>(file: &mut F, place: u64) -> Option<FileId> {
    if place > 0 || has_places(file) {
        return None;
    }
    match found_open(file) {
        Ok(found) => Some(found.id),
        Err(_) => None,
    }
}

/// Whether standard output goes to that file or pipe. Then the line that the program prints would overwrite what is
/// written there, or follow it.
fn is_printed_to<R: Files>(rt: &R, found: &FileFacts) -> bool {
    match found_under(rt, "/dev/stdout") {
        Ok(printed) => (found.is_file || found.is_pipe) && printed.id == found.id,
        Err(_) => false,
    }
}

/// The error of a write whose file could not be opened.
fn in_writing(no: ReadNo) -> WriteNo {
    match no {
        ReadNo::Memory => WriteNo::Memory,
        ReadNo::Absent | ReadNo::Failed => WriteNo::Failed,
    }
}
