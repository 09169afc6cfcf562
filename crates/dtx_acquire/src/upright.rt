//! The test of field syncs in a capture that isn't turned.

ghost use Rattle.dtx_acquire.specs.Agreement.{agrees};

use crate::searching::{MAY_BE_UNLIKE, SyncTest};

/// The test that a place agrees with a field sync.
pub(crate) struct Upright;

impl SyncTest for Upright {
    ghost passes = { agrees };

    #[inline(always)]
    fn passes(&self, symbols: &[i8], place: usize, count: u32) -> bool {
        count <= MAY_BE_UNLIKE
    }
}
