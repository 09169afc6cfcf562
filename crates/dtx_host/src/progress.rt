// A line on a terminal that shows how far long work has come.
use std::cell::Cell;
use std::time::{Clock, Instant};

/// After how many milliseconds the line first appears.
const PATIENCE: u64 = 1000;

/// How many milliseconds pass at least before the line is updated.
const RENEWAL: u64 = 250;

/// A line on standard error, where that is a terminal. It shows how much of the current input was read, and how fast.
/// It appears after a second, is updated a few times a second, and is wiped before anything else is printed. No
/// contract depends on it.
#[derive(Drop)]
pub struct Progress {
    /// When the work began. Nothing is ever shown where this is `None`.
    begun: Option<Instant>,
    /// How many milliseconds after `begun` the line is written next.
    due: Cell<u64>,
    /// How many bytes were read since `begun`.
    read: Cell<u64>,
    shown: Cell<bool>,
}

impl Progress {
    /// Starts the clock. Where `watched` is false, no line is ever shown.
    pub fn new(clock: &impl Clock, watched: bool) -> Progress {
        let begun = if watched {
            Instant::now(clock).ok()
        } else {
            None
        };
        Progress {
            begun,
            due: Cell::new(PATIENCE),
            read: Cell::new(0),
            shown: Cell::new(false),
        }
    }

    /// Notes that a read of `bytes` bytes has ended at offset `place` of a file of `whole` bytes. For a pipe, whose
    /// length isn't known, `whole` is 0.
    pub(crate) fn note(&self, rt: &(impl Clock + Eprint), bytes: u64, place: u64, whole: u64) {
        let Some(begun) = self.begun else {
            return;
        };
        let read = self.read.get().saturating_add(bytes);
        self.read.set(read);
        let Ok(passed) = begun.elapsed(rt) else {
            return;
        };
        let passed = u64::try_from(passed.as_millis()).unwrap_or(u64::MAX);
        if passed < self.due.get() {
            return;
        }
        self.due.set(passed.saturating_add(RENEWAL));
        self.shown.set(true);
        show(rt, place, whole, read / passed.max(1));
    }

    /// Wipes the line, if one is shown.
    pub fn wipe(&self, rt: &impl Eprint) {
        if self.shown.get() {
            self.shown.set(false);
            let _ = eprint!(rt; "\r                               \r");
        }
    }
}

/// Writes the line. It shows how far the current input was read, and how fast: `speed` is in kB a second. It is as wide
/// for a file as for a pipe.
fn show(rt: &impl Eprint, place: u64, whole: u64, speed: u64) {
    let (millions, tenths) = (speed / 1000, speed % 1000 / 100);
    let _ = if whole == 0 {
        let read = place / 1_000_000;
        eprint!(rt; "\rdtx: {read:>7} MB, {millions:>5}.{tenths} MB/s")
    } else {
        let percent = place.min(whole) as u128 * 100 / whole as u128;
        eprint!(rt; "\rdtx: {percent:>3} % read, {millions:>5}.{tenths} MB/s")
    };
}
