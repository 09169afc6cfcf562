// What an exciter sends and logs, as the bytes of two files.
ghost use Rattle.std.specs.Prelude.{◌≡◌, ◌+◌, ◌*◌, ◌≤◌, ◌++◌, [], ℕ, IfOk, length, map, take};
ghost use Rattle.dtx_exciter.specs.Log.{line_of};
ghost use Rattle.dtx_files.specs.LogText.{log_text};
ghost use Rattle.dtx_files.specs.Symbols.{byte_of_symbol};
ghost use Rattle.dtx_recipes.specs.Life.{tally_with, HasRoom};
ghost use Rattle.dtx_recipes.specs.Repeat.{restart_with};

use crate::symbol_buffer::SymbolBuffer;
use arrayvec::ArrayString;
use dtx_coder::{AIR_SEGMENTS, AIR_SYMBOLS, Air};
use dtx_engine::Buffer;
use dtx_exciter::Told;
use dtx_files::{LOG_LINE, write_line, write_restart};
use dtx_recipes::LifeTally;
use dtx_sizes::SEGMENT;
use std::alloc::{AllocError, Global};

/// What the last piece brought, at most `S` symbols and `L` bytes of lines, and the numbers of all packets so far.
#[derive(Drop)]
pub(crate) struct Sending<const S: usize, const L: usize> {
    /// The segments that the exciter sent for the last packet.
    pub(crate) air: Air,
    /// The line of the last packet, or nothing.
    line: ArrayString<LOG_LINE>,
    pub(crate) tally: LifeTally,
    /// The symbols that the last piece brought.
    pub(crate) symbols: SymbolBuffer<S>,
    /// The lines of the log that the last piece brought.
    pub(crate) lines: Buffer<L>,
}

impl<const S: usize, const L: usize> Sending<S, L> {
    /// Empty, with all numbers 0. The only error is out of memory.
    pub(crate) fn new(alloc: Global) -> Result<Sending<S, L>, AllocError>
        ensures tally { IfOk result (λ sending.
            sending.tally ≡ record { packets = 0; segments = 0; presets = 0; mutes = 0 }) }
        ensures symbols { IfOk result (λ sending. sending.symbols ≡ []) }
        ensures lines { IfOk result (λ sending. sending.lines ≡ []) }
    {
        Ok(Sending {
            air: Air::new(),
            line: ArrayString::new(),
            tally: LifeTally::new(),
            symbols: SymbolBuffer::new(alloc)?,
            lines: Buffer::new(alloc)?,
        })
    }

    /// Forgets what the last piece brought. The numbers stay.
    pub(crate) fn clear(&mut self)
        ensures tally { self.new.tally ≡ self.old.tally }
        ensures symbols { self.new.symbols ≡ [] }
        ensures lines { self.new.lines ≡ [] }
    {
        self.symbols.clear();
        self.lines.clear();
    }

    /// Counts one packet more, which the exciter answered with `told`. Gathers the segments in `air` and the answer's
    /// line.
    pub(crate) fn add(&mut self, told: Told)
        requires counts { HasRoom self.old.tally self.old.air.segments }
        requires few { self.old.air.segments ≤ AIR_SEGMENTS }
        requires symbols { length self.old.symbols + AIR_SYMBOLS ≤ S }
        requires lines { length self.old.lines + LOG_LINE ≤ L }
        ensures tally { (n m : ℕ) → self.new.tally ≡ tally_with self.old.tally self.old.air.segments
            (line_of n m told) }
        ensures symbols { self.new.symbols ≡ self.old.symbols
            ++ map byte_of_symbol (take (SEGMENT * self.old.air.segments) self.old.air.symbols) }
        ensures long { length self.new.symbols ≤ length self.old.symbols + SEGMENT * self.old.air.segments }
        ensures lines { self.new.lines ≡ self.old.lines
            ++ log_text (line_of self.old.tally.segments self.old.air.segments told) }
        ensures short { length self.new.lines ≤ length self.old.lines + LOG_LINE }
    {
        let segments = self.air.segments;
        write_line(told, self.tally.segments, segments, &mut self.line);
        self.tally.add(told, segments);
        let count = SEGMENT * segments as usize;
        self.symbols.push(&self.air.symbols[..count]);
        self.lines.push(self.line.as_str().as_bytes());
    }

    /// Appends the line of a restart to the lines, where runs begin and runs began before.
    pub(crate) fn restart(&mut self, begins: u64, runs: u64)
        requires lines { length self.old.lines + LOG_LINE ≤ L }
        ensures tally { self.new.tally ≡ self.old.tally }
        ensures symbols { self.new.symbols ≡ self.old.symbols }
        ensures lines { self.new.lines ≡ self.old.lines
            ++ log_text (restart_with begins runs self.old.tally.segments) }
        ensures short { length self.new.lines ≤ length self.old.lines + LOG_LINE }
    {
        let again = begins > 0 && runs > 0;
        if again {
            write_restart(self.tally.segments, &mut self.line);
            self.lines.push(self.line.as_str().as_bytes());
        }
    }
}
