// The host's files that were met, which means that this run has read or begun them, each under its name. For a begun
// file this also holds the length that it must have, and the open file while that is held.
use crate::found::{FileFacts, FileId, add};
use dtx_outside::{ReadNo, WriteNo};
use std::alloc::{AllocError, Global};
use std::io::Write;

/// How many files are held open at a time, but for the pipes.
const MOST_HELD: usize = 64;

/// A held file's name is looked up to see that it still stands for this file. Up to this length that is done before
/// each append. From then on it is done once in so many bytes, and after an append to another file.
const LOOK_BYTES: u64 = 65_536;

/// A file that was read or begun under a name.
#[derive(Drop)]
pub(crate) struct Met<F> {
    name: String,
    id: FileId,
    is_pipe: bool,
    /// How many bytes were appended since the file was begun. `None` for a file that was only read.
    added: Option<u64>,
    /// What `added` was when the file was last looked up by its name.
    seen: u64,
    /// The open file, while it is held.
    file: Option<F>,
}

impl<F: Write + Drop> Met<F> {
    /// Whether the name of the file has to be looked up before the next append.
    pub(crate) fn is_due(&self) -> bool {
        match self.added {
            Some(added) => added < LOOK_BYTES || added.saturating_sub(self.seen) >= LOOK_BYTES,
            None => true,
        }
    }

    /// Compares the file with what was found under its name, and notes that this was done. It fails where the file was
    /// not begun, is another one, or doesn't have the length of all bytes appended. Then the name was given to another
    /// file, or another program writes to this one.
    pub(crate) fn note_seen(&mut self, found: &FileFacts) -> Result<(), WriteNo> {
        match self.added {
            Some(added) if self.is_as_found(found, added) => {
                self.seen = added;
                Ok(())
            }
            _ => Err(WriteNo::Failed),
        }
    }

    fn is_as_found(&self, found: &FileFacts, len: u64) -> bool {
        self.id == found.id && (!found.is_file || found.len == len)
    }

    /// Appends bytes. It fails where the file was not begun, or isn't held open.
    pub(crate) fn append(&mut self, bytes: &[u8]) -> Result<(), WriteNo> {
        match (self.added, &mut self.file) {
            (Some(added), Some(file)) => {
                self.added = Some(added.saturating_add(bytes.len() as u64));
                add(file, bytes)
            }
            _ => Err(WriteNo::Failed),
        }
    }

    /// Holds this open file in place of the one held before. Answers whether one more file is held that may be closed,
    /// which a pipe may not.
    fn hold(&mut self, file: F) -> bool {
        let is_more = self.file.is_none() && !self.is_pipe;
        self.file = Some(file);
        is_more
    }

    fn has_name(&self, name: &str) -> bool {
        self.name.as_str() == name
    }

    fn is_begun(&self, name: &str) -> bool {
        self.added.is_some() && self.has_name(name)
    }
}

/// All files that were read or begun, in that order, except devices that were only read. A device or a pipe may be
/// listed more than once, since beginning it loses nothing.
///
/// A pipe that was begun stays open, for two reasons. Its reader takes a closing for the end. And opening a pipe that
/// has no reader any more would wait.
#[derive(Drop)]
pub(crate) struct FilesMet<F> {
    alloc: Global,
    met: Vec<Met<F>>,
    /// The place in `met` of the begun file that was looked up last. The next lookup is mostly for the same file, or
    /// for one beside it.
    last: usize,
    /// How many files are held open, not counting pipes.
    held: usize,
}

impl<F: Write + Drop> FilesMet<F> {
    pub(crate) fn new(alloc: Global) -> FilesMet<F> {
        FilesMet {
            alloc,
            met: Vec::new(alloc),
            last: 0,
            held: 0,
        }
    }

    /// Remembers a file that is to be read from offset `place` on. It fails where the name stood for another file
    /// before, where no file was there when earlier bytes were read, and where the file is now shorter than `place`.
    /// Otherwise the bytes read would not be those of one file.
    pub(crate) fn note_read(
        &mut self,
        name: &str,
        found: &FileFacts,
        place: u64,
    ) -> Result<(), ReadNo> {
        match self.id_under(name) {
            Some(id) => is_still_there(id, found, place),
            None if !found.is_file => Ok(()),
            None if place == 0 => self.keep_read(name, found.id),
            None => Err(ReadNo::Failed),
        }
    }

    /// Whether a file was read or begun under that name.
    pub(crate) fn knows(&self, name: &str) -> bool {
        self.id_under(name).is_some()
    }

    /// Allocates the memory that one more begun file takes, and gives its name as a `String`.
    pub(crate) fn make_room(&mut self, name: &str) -> Result<String, AllocError> {
        self.met.reserve(1)?;
        String::from_str(self.alloc, name)
    }

    /// Whether beginning the file would lose what it holds for this run: it is a regular file that was read or begun
    /// before.
    pub(crate) fn would_lose(&self, found: &FileFacts) -> bool {
        found.is_file && self.was_met(found.id)
    }

    /// Whether that file was read or begun before, under whatever name.
    pub(crate) fn was_met(&self, id: FileId) -> bool {
        for met in self.met.iter() {
            if met.id == id {
                return true;
            }
        }
        false
    }

    /// Remembers a file that was begun and is empty. A pipe is held open.
    pub(crate) fn note_begun(
        &mut self,
        name: String,
        found: &FileFacts,
        file: F,
    ) -> Result<(), WriteNo> {
        let begun = Met {
            name,
            id: found.id,
            is_pipe: found.is_pipe,
            added: Some(0),
            seen: 0,
            file: if found.is_pipe { Some(file) } else { None },
        };
        match self.met.push(begun) {
            Ok(_) => Ok(()),
            Err(_) => Err(WriteNo::Failed),
        }
    }

    /// The file that was begun under that name, where it is held open.
    pub(crate) fn held(&mut self, name: &str) -> Option<&mut Met<F>> {
        let met = self.begun(name)?;
        if met.file.is_some() { Some(met) } else { None }
    }

    /// Holds an open file as the one that was begun under the name, and appends bytes to it. Where as many files are
    /// held as may be, all of them are closed first. A file mostly gets many appends in a row, so the new one is the
    /// one to hold.
    pub(crate) fn hold(
        &mut self,
        name: &str,
        found: &FileFacts,
        file: F,
        bytes: &[u8],
    ) -> Result<(), WriteNo> {
        let met = self.begun_as(name, found)?;
        let is_more = met.hold(file);
        let added = met.append(bytes);
        if is_more {
            self.held = self.held.saturating_add(1);
        }
        added
    }

    /// Closes all files that are held open, except pipes. Answers whether there were any.
    pub(crate) fn let_go(&mut self) -> bool {
        let any = self.held > 0;
        for met in self.met.iter_mut() {
            if !met.is_pipe {
                met.file = None;
            }
        }
        self.held = 0;
        any
    }

    /// The file that was begun under that name, where `found` is that file. There is room to hold it open then.
    fn begun_as(&mut self, name: &str, found: &FileFacts) -> Result<&mut Met<F>, WriteNo> {
        if self.held >= MOST_HELD {
            self.let_go();
        }
        match self.begun(name) {
            Some(met) => {
                met.note_seen(found)?;
                Ok(met)
            }
            None => Err(WriteNo::Failed),
        }
    }

    /// The file that was begun under that name. If the last lookup was for another one, its name is due for a check.
    fn begun(&mut self, name: &str) -> Option<&mut Met<F>> {
        let place = self.place_begun(name)?;
        let met = self.met.get_mut(place)?;
        if place != self.last {
            self.last = place;
            met.seen = 0;
        }
        Some(met)
    }

    /// Looks from one place before the last lookup on, then among all.
    fn place_begun(&self, name: &str) -> Option<usize> {
        match self.place_from(self.last.saturating_sub(1), name) {
            Some(place) => Some(place),
            None => self.place_from(0, name),
        }
    }

    /// The first place, from `first` on, of a file that was begun under that name.
    fn place_from(&self, first: usize, name: &str) -> Option<usize> {
        for place in first..self.met.len() {
            if self.met[place].is_begun(name) {
                return Some(place);
            }
        }
        None
    }

    fn keep_read(&mut self, name: &str, id: FileId) -> Result<(), ReadNo> {
        match self.add_read(name, id) {
            Ok(()) => Ok(()),
            Err(_) => Err(ReadNo::Memory),
        }
    }

    fn add_read(&mut self, name: &str, id: FileId) -> Result<(), AllocError> {
        let name = String::from_str(self.alloc, name)?;
        self.met.push(Met {
            name,
            id,
            is_pipe: false,
            added: None,
            seen: 0,
            file: None,
        })?;
        Ok(())
    }

    /// The identity of the first file that was read or begun under that name.
    fn id_under(&self, name: &str) -> Option<FileId> {
        for met in self.met.iter() {
            if met.has_name(name) {
                return Some(met.id);
            }
        }
        None
    }
}

fn is_still_there(id: FileId, found: &FileFacts, place: u64) -> Result<(), ReadNo> {
    if id != found.id || (found.is_file && place > found.len) {
        Err(ReadNo::Failed)
    } else {
        Ok(())
    }
}
