//! The room in which a call keeps bytes while they go through. A call writes here before it reads, so it doesn't matter
//! what an earlier one left.

use crate::columns::ROWS;

/// The room of sixteen columns.
const ROOM: usize = 16 * ROWS;

/// The room of sixteen rows, or of the columns of as many places as there can be, sixteen bytes apart.
const FEW: usize = 1024;

/// The columns that come to the rings, those that leave them, and the rows of a short call.
#[derive(Drop)]
pub(crate) struct Columns {
    pub(crate) come: [u8; ROOM],
    pub(crate) gone: [u8; ROOM],
    pub(crate) rows: [u8; FEW],
}

impl Columns {
    /// Columns of zeros.
    pub(crate) fn new() -> Columns {
        Columns {
            come: [0; ROOM],
            gone: [0; ROOM],
            rows: [0; FEW],
        }
    }
}
