// The calls of the host's runtime. Each answer is reduced to what the shelf needs.
ghost use Rattle.std.specs.Prelude.{◌≤◌, IfOk, length};

use dtx_outside::{ReadNo, WriteNo};
use std::fs::{Metadata, OpenFile, OpenOptions};
use std::io::{ErrorKind, Read, Seek, SeekFrom, Write};
use std::os::unix::fs::{FileTypeExt, MetadataExt};
use std::rt::Files;
use std::{fs, io};

/// The identity of a file of the host: its device and its number there. All names of one file, and links to it, share
/// it.
#[derive(Clone, Copy, PartialEq)]
pub(crate) struct FileId {
    device: u64,
    number: u64,
}

/// What the host says of a file, found under a name or open.
#[derive(Clone, Copy)]
pub(crate) struct FileFacts {
    pub(crate) id: FileId,
    pub(crate) len: u64,
    pub(crate) is_file: bool,
    /// A pipe or a socket.
    pub(crate) is_pipe: bool,
    pub(crate) is_disk: bool,
}

/// What the host says of the file of that name.
pub(crate) fn found_under<R: Files>(rt: &R, name: &str) -> Result<FileFacts, WriteNo> {
    match fs::metadata(rt, name) {
        Ok(found) => Ok(found_of(&found)),
        Err(e) => Err(write_refusal(&e)),
    }
}

/// What the host says of that open file.
pub(crate) fn found_open<F: OpenFile>(file: &F) -> Result<FileFacts, ReadNo> {
    match file.metadata() {
        Ok(found) => Ok(found_of(&found)),
        Err(e) => Err(read_refusal(&e)),
    }
}

fn found_of(found: &Metadata) -> FileFacts {
    let kind = found.file_type();
    FileFacts {
        id: FileId {
            device: found.dev(),
            number: found.ino(),
        },
        len: found.len(),
        is_file: found.is_file(),
        is_pipe: kind.is_fifo() || kind.is_socket(),
        is_disk: kind.is_block_device(),
    }
}

/// Opens a file. The error is `Absent` where no file has that name.
pub(crate) fn open<R: Files>(rt: &R, how: &OpenOptions, name: &str) -> Result<R::File, ReadNo> {
    match how.open(rt, name) {
        Ok(file) => Ok(file),
        Err(e) if e.kind() == ErrorKind::NotFound => Err(ReadNo::Absent),
        Err(e) => Err(read_refusal(&e)),
    }
}

/// Reads once, from offset `place` of the file on.
pub(crate) fn read_at<F: Read + Seek>(
    file: &mut F,
    place: u64,
    into: &mut [u8],
) -> Result<usize, ReadNo>
    ensures { IfOk result (λ n. n ≤ length into.new) }
{
    if let Err(e) = file.seek(SeekFrom::Start(place)) {
        return Err(read_refusal(&e));
    }
    read_next(file, into)
}

/// Reads once, from the current offset of the file on.
pub(crate) fn read_next<F: Read>(file: &mut F, into: &mut [u8]) -> Result<usize, ReadNo>
    ensures { IfOk result (λ n. n ≤ length into.new) }
{
    match file.read(into) {
        Ok(n) => Ok(n),
        Err(e) => Err(read_refusal(&e)),
    }
}

/// Whether the file can be read at an offset. A pipe, a terminal and a socket can't.
pub(crate) fn has_places<F: Seek>(file: &mut F) -> bool {
    file.seek(SeekFrom::Start(0)).is_ok()
}

/// Empties the open file.
pub(crate) fn empty<F: OpenFile>(file: &F) -> Result<(), WriteNo> {
    match file.set_len(0) {
        Ok(()) => Ok(()),
        Err(_) => Err(WriteNo::Failed),
    }
}

/// Writes all of the bytes. On failure a prefix of them may have been written. So the error is never `Memory`, after
/// which all is as before.
pub(crate) fn add<F: Write>(file: &mut F, bytes: &[u8]) -> Result<(), WriteNo> {
    match file.write_all(bytes) {
        Ok(()) => Ok(()),
        Err(_) => Err(WriteNo::Failed),
    }
}

fn read_refusal(e: &io::Error) -> ReadNo {
    if e.kind() == ErrorKind::OutOfMemory {
        ReadNo::Memory
    } else {
        ReadNo::Failed
    }
}

fn write_refusal(e: &io::Error) -> WriteNo {
    if e.kind() == ErrorKind::OutOfMemory {
        WriteNo::Memory
    } else {
        WriteNo::Failed
    }
}
