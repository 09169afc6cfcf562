// Inputs that can't be read at an offset: pipes, terminals and sockets. Each is held open, and read once, in order.
ghost use Rattle.std.specs.Prelude.{◌≤◌, IfOk, length};

use crate::found::{FileId, read_next};
use dtx_outside::ReadNo;
use std::alloc::{AllocError, Global};
use std::io::{Input, Read};

/// How many bytes of the last read are kept, from its end. Each command reads one byte of an input before it begins its
/// outputs, and reads that byte again with its first piece. And what a piece leaves of a group, at most 831 bytes, is
/// read again with the next piece. Keeping them costs little beside a read.
const KEPT: usize = 1024;

/// An input that is read once, in order.
#[derive(Drop)]
pub(crate) struct Pipe<F> {
    name: String,
    id: FileId,
    /// The open file. It is `None` for standard input, which is open already.
    file: Option<F>,
    /// How many bytes were read.
    reached: u64,
    /// The last bytes of the last read.
    kept: Vec<u8>,
    /// Whether the end was met. Nothing is read after that.
    ended: bool,
    /// Whether a second reading of it was tried.
    again: bool,
}

impl<F: Read> Pipe<F> {
    /// Reads once, from offset `place` on. Where `place` is how many bytes were read, it reads the next ones. Where
    /// `place` is a little less, it gives kept bytes. Any other `place` fails.
    pub(crate) fn read(
        &mut self,
        input: &impl Input,
        place: u64,
        into: &mut [u8],
    ) -> Result<usize, ReadNo>
        ensures { IfOk result (λ n. n ≤ length into.new) }
    {
        let back = self.reached.wrapping_sub(place);
        if back == 0 {
            return self.read_on(input, into);
        }
        if back > self.kept.len() as u64 {
            self.again = true;
            return Err(ReadNo::Failed);
        }
        let first = self.kept.len() - back as usize;
        Ok(copy_front(&self.kept[first..], into))
    }

    /// Reads the next bytes, and keeps the last of them.
    fn read_on(&mut self, input: &impl Input, into: &mut [u8]) -> Result<usize, ReadNo>
        ensures { IfOk result (λ n. n ≤ length into.new) }
    {
        if self.ended {
            return Ok(0);
        }
        let n = self.read_some(input, into)?;
        self.keep(&into[..n])?;
        Ok(n)
    }

    /// Reads from the open file, or from standard input.
    fn read_some(&mut self, input: &impl Input, into: &mut [u8]) -> Result<usize, ReadNo>
        ensures { IfOk result (λ n. n ≤ length into.new) }
    {
        match &mut self.file {
            Some(file) => read_next(file, into),
            None => read_standard(input, into),
        }
    }

    /// Keeps the last of the bytes that were read. If there are none, the pipe has ended.
    fn keep(&mut self, bytes: &[u8]) -> Result<(), ReadNo> {
        if bytes.is_empty() {
            self.ended = true;
            return Ok(());
        }
        self.reached = self.reached.saturating_add(bytes.len() as u64);
        self.kept.clear();
        match self
            .kept
            .extend_from_slice(&bytes[bytes.len().saturating_sub(KEPT)..])
        {
            Ok(()) => Ok(()),
            Err(_) => Err(ReadNo::Memory),
        }
    }
}

/// Reads once from standard input.
fn read_standard<I: Input>(input: &I, into: &mut [u8]) -> Result<usize, ReadNo>
    ensures { IfOk result (λ n. n ≤ length into.new) }
{
    let mut reader = input.reader();
    read_next(&mut reader, into)
}

/// Copies as many of the first bytes as fit, and answers their number.
fn copy_front(bytes: &[u8], into: &mut [u8]) -> usize
    ensures { result ≤ length into.new }
{
    let count = bytes.len().min(into.len());
    into[..count].copy_from_slice(&bytes[..count]);
    count
}

/// All pipes, terminals and sockets that are read.
#[derive(Drop)]
pub(crate) struct Pipes<F> {
    alloc: Global,
    held: Vec<Pipe<F>>,
}

impl<F: Read + Drop> Pipes<F> {
    pub(crate) fn new(alloc: Global) -> Pipes<F> {
        Pipes {
            alloc,
            held: Vec::new(alloc),
        }
    }

    /// The pipe that is held under that name.
    pub(crate) fn held(&mut self, name: &str) -> Option<&mut Pipe<F>> {
        let place = self.place_of(name)?;
        self.held.get_mut(place)
    }

    /// Whether that pipe is held, under whatever name.
    pub(crate) fn has(&self, id: FileId) -> bool {
        for pipe in self.held.iter() {
            if pipe.id == id {
                return true;
            }
        }
        false
    }

    /// Whether a second reading of a pipe was tried.
    pub(crate) fn again(&self) -> bool {
        for pipe in self.held.iter() {
            if pipe.again {
                return true;
            }
        }
        false
    }

    /// Whether that pipe is held, under any name. If so, `again` is true from now on.
    pub(crate) fn meets_again(&mut self, id: FileId) -> bool {
        for pipe in self.held.iter_mut() {
            if pipe.id == id {
                pipe.again = true;
                return true;
            }
        }
        false
    }

    /// Holds a pipe of which nothing was read. Without an open file it is standard input. The only error is out of
    /// memory.
    pub(crate) fn hold(&mut self, name: &str, id: FileId, file: Option<F>) -> Result<(), ReadNo> {
        match self.add(name, id, file) {
            Ok(()) => Ok(()),
            Err(_) => Err(ReadNo::Memory),
        }
    }

    fn add(&mut self, name: &str, id: FileId, file: Option<F>) -> Result<(), AllocError> {
        let name = String::from_str(self.alloc, name)?;
        let kept = Vec::with_capacity(self.alloc, KEPT)?;
        self.held.push(Pipe {
            name,
            id,
            file,
            reached: 0,
            kept,
            ended: false,
            again: false,
        })?;
        Ok(())
    }

    fn place_of(&self, name: &str) -> Option<usize> {
        for place in 0..self.held.len() {
            if self.held[place].name.as_str() == name {
                return Some(place);
            }
        }
        None
    }
}
