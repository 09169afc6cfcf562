// The engine of `watch`: watches a feed, one piece of packets at a time.
ghost use Rattle.std.specs.Prelude.{◌≡◌, ◌+◌, ◌≤◌, ◌++◌, length};
ghost use Rattle.dtx_watch.specs.WatchText.{note_text, watch_text};
ghost use Rattle.dtx_recipes.specs.Watch.{HasRoom, tally_of_one, tally_with};

use arrayvec::{ArrayString, ArrayVec};
use dtx_engine::{Buffer, Shape};
use dtx_forms::{Stepping, single_packets};
use dtx_meaning::{Outcome, done};
use dtx_packets::{PIECE_PACKETS, Packet};
use dtx_recipes::WatchTally;
use dtx_sizes::PACKET;
use dtx_steps::Step;
use dtx_watch::{MOST_NOTES, Note, WATCH_LINE, Watcher, write_note};
use std::alloc::{AllocError, Global};

/// Room for the lines that one packet brings, in bytes.
const LINES_BYTES: usize = WATCH_LINE * MOST_NOTES;

/// Room for the lines that the packets of a piece bring, in bytes.
const WATCHED_BYTES: usize = LINES_BYTES * PIECE_PACKETS;

/// A watcher, what the last piece brought, and the numbers of all packets so far.
#[derive(Drop)]
pub(crate) struct Watching {
    watcher: Box<Watcher>,
    /// The notes that the last packet brought.
    notes: ArrayVec<Note, MOST_NOTES>,
    line: ArrayString<WATCH_LINE>,
    tally: WatchTally,
    /// The lines that the last piece brought.
    lines: Buffer<WATCHED_BYTES>,
}

impl Watching {
    /// Gathers the lines of the notes, and counts them.
    fn gather(&mut self)
        requires room { length self.old.lines + LINES_BYTES ≤ WATCHED_BYTES }
        requires tally { HasRoom self.old.tally MOST_NOTES }
        ensures lines { self.new.lines ≡ self.old.lines ++ watch_text self.old.notes.items }
        ensures tally { self.new.tally ≡ tally_with self.old.tally self.old.notes.items }
        ensures long { length self.new.lines ≤ length self.old.lines + LINES_BYTES }
        ensures watcher { self.new.watcher ≡ self.old.watcher }
    {
        for i in 0..self.notes.len() {
            let note = self.notes.as_slice()[i];
            self.put(&note);
        }
    }

    /// Appends the line of a note to the lines, and counts the note.
    fn put(&mut self, note: &Note)
        requires room { length self.old.lines + WATCH_LINE ≤ WATCHED_BYTES }
        requires tally { HasRoom self.old.tally 1 }
        ensures lines { self.new.lines ≡ self.old.lines ++ note_text note.now }
        ensures tally { self.new.tally ≡ tally_of_one self.old.tally note.now.what }
        ensures long { length self.new.lines ≤ length self.old.lines + WATCH_LINE }
        ensures watcher { self.new.watcher ≡ self.old.watcher }
        ensures notes { self.new.notes ≡ self.old.notes }
    {
        write_note(note, &mut self.line);
        self.lines.push(self.line.as_str().as_bytes());
        self.tally.add(note);
    }
}

impl Step for Watching {
    ghost use Rattle.std.specs.Prelude.{◌≤◌, ◌+◌, ◌*◌, length};
    ghost use Rattle.dtx_engine.specs.Made.{only};
    ghost use Rattle.dtx_forms.specs.Shapes as shapes;
    ghost use Rattle.dtx_recipes.specs.Watch.{watching};
    ghost use Rattle.dtx_recipes.proofs.WatchLemmas.{watches_none, watches_more};
    ghost use Rattle.dtx_jobs.specs.declared.watching.TheConstants.{LINES_BYTES, WATCHED_BYTES};
    ghost use Rattle.dtx_jobs.specs.Watching.{WasWatched};

    ghost shape = { shapes.single_packets };

    ghost recipe = { λ _. watching };

    ghost stands = { WasWatched };

    ghost holds = { λ s. only s.lines };

    ghost is_ready = { λ s _ packets. length s.lines + LINES_BYTES * packets ≤ WATCHED_BYTES };

    fn sizes(&self) -> Shape {
        single_packets()
    }

    fn allows(&self, _index: u64, _unit: &[u8]) -> bool {
        true
    }

    fn clear(&mut self) {
        self.lines.clear();
    }

    /// Watches one packet, which may have any bytes, and gathers the lines that it brings.
    fn step(&mut self, _first: u64, bytes: &mut [u8]) -> usize {
        let (packets, _) = bytes.as_chunks::<PACKET>();
        self.watcher.take(&Packet(packets[0]), &mut self.notes);
        self.tally.packets += 1;
        self.gather();
        1
    }

    fn finish(&mut self, loose: usize) -> Outcome {
        self.watcher.finish(&mut self.notes);
        self.gather();
        done(&self.tally.numbers(loose))
    }

    fn made(&self) -> &[u8] {
        self.lines.bytes()
    }

    fn log(&self) -> &[u8] {
        &[]
    }

    ghost starts = { λ _. watches_none };

    ghost grows = { λ _ a b whole. watches_more a b whole };
}

impl Stepping for Watching {
    ghost use Rattle.dtx_words.specs.declared.rows.Command.TheVariants as command;
    ghost use Rattle.dtx_recipes.proofs.AnswersLemmas.{watch_knows};
    ghost use Rattle.dtx_recipes.specs.Watch.{watching};

    ghost command = { command.Watch };

    ghost makes = { watching };

    fn new(alloc: Global) -> Result<Watching, AllocError> {
        Ok(Watching {
            watcher: Box::new(alloc, Watcher::new(alloc)?)?,
            notes: ArrayVec::new(),
            line: ArrayString::new(),
            tally: WatchTally::new(),
            lines: Buffer::new(alloc)?,
        })
    }

    ghost knows = { watch_knows };
}
