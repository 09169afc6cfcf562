//! The tables of a soft decoder.

ghost use Rattle.std.specs.Prelude.{◌≡◌, ℕ, ◌+◌, ◌*◌, ◌<◌, ◌≤◌, EachIndex, IfOk, length, slice_index, vec_len};
ghost use Rattle.dtx_soft.specs.Paths.{cost};
ghost use Rattle.dtx_soft.specs.Least.{HoldPotentials, IsLeast};
ghost use Rattle.dtx_soft.specs.declared.walker.TheConstants.{ENTRIES};

use crate::nearest::{LEVELS, MAX_SCALE};
use crate::table::Table;
use crate::walk::{Found, MAX_SYMBOLS, fill_potentials, find};
use std::alloc::{AllocError, Global};

/// The number of entries of the table of potentials: one more than the greatest number of symbols.
pub(crate) const ENTRIES: usize = MAX_SYMBOLS + 1;

/// The nearer levels of each symbol, and the potentials of the symbols that were decoded last.
#[derive(Drop)]
pub(crate) struct Walker {
    pub(crate) table: Table,
    pub(crate) potentials: Vec<[u32; 4]>,
    ghost room: { vec_len potentials ≡ ENTRIES },
}

impl Walker {
    /// The tables for levels at a scale. The only error is out of memory.
    pub(crate) fn new(alloc: Global, scale: u8) -> Result<Walker, AllocError>
        requires { scale ≤ MAX_SCALE }
        ensures { IfOk result (λ walker. walker.table.scale ≡ scale) }
    {
        Ok(Walker {
            table: Table::new(alloc, scale)?,
            potentials: vec![in alloc; [0u32; 4]; ENTRIES]?,
        })
    }

    /// Finds the least path over symbols, and writes its levels. The potentials go to the front of their table.
    pub(crate) fn find(&mut self, symbols: &[i8], levels: &mut [u8]) -> Found
        requires few { length symbols.now ≤ MAX_SYMBOLS }
        requires room { length levels.old ≡ length symbols.now }
        ensures least { IsLeast self.old.table.scale symbols.now result.start levels.new }
        ensures cost { result.cost ≡ cost self.old.table.scale symbols.now levels.new }
        ensures small { EachIndex levels.new (λ t. slice_index levels.new t < LEVELS) }
        ensures potentials { HoldPotentials self.old.table.scale symbols.now self.new.potentials.items }
        ensures table { self.new.table ≡ self.old.table }
    {
        find(&self.table, symbols, &mut self.potentials[..], levels)
    }

    /// Writes the potentials of symbols to the front of their table.
    pub(crate) fn hold(&mut self, symbols: &[i8])
        requires few { length symbols.now ≤ MAX_SYMBOLS }
        ensures potentials { HoldPotentials self.old.table.scale symbols.now self.new.potentials.items }
        ensures table { self.new.table ≡ self.old.table }
    {
        fill_potentials(&self.table, symbols, &mut self.potentials[..]);
    }
}
