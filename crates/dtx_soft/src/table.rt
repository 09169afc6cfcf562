//! The table of the rows of all symbols, at one scale.

ghost use Rattle.std.specs.Prelude.{◌≡◌, ◌≤◌, IfOk};
ghost use Rattle.dtx_soft.specs.Nearest.{AreNearest, IsTable};
ghost use Rattle.dtx_soft.specs.declared.nearest.TheConstants.{MAX_SCALE};

use crate::nearest::{EMPTY, MAX_SCALE, Nearest, SYMBOLS, fill};
use std::alloc::{AllocError, Global};

/// The table: for each symbol, the nearer of each two levels that lead to the same next state.
#[derive(Drop)]
pub(crate) struct Table {
    pub(crate) scale: u8,
    rows: Vec<Nearest>,
    ghost small: { scale ≤ MAX_SCALE },
    ghost right: { IsTable scale rows.items },
}

impl Table {
    /// The table for levels at a scale. The only error is out of memory.
    pub(crate) fn new(alloc: Global, scale: u8) -> Result<Table, AllocError>
        requires { scale ≤ MAX_SCALE }
        ensures { IfOk result (λ table. table.scale ≡ scale) }
    {
        let mut rows = vec![in alloc; EMPTY; SYMBOLS]?;
        fill(&mut rows[..], scale);
        Ok(Table { scale, rows })
    }

    /// The row of a symbol.
    #[inline(always)]
    pub(crate) fn row(&self, symbol: i8) -> &Nearest
        ensures { AreNearest self.now.scale symbol result.now }
    {
        &self.rows[(symbol as i16 + 128) as usize]
    }
}
