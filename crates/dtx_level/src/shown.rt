//! The test of field syncs in a capture of any gain and polarity.

ghost use Rattle.std.specs.Prelude.{◌≡◌};
ghost use Rattle.dtx_level.specs.Shown.{are_shown, shows};

use crate::pattern::Pattern;
use dtx_acquire::{MAY_BE_UNLIKE, SyncTest};

/// How many of the first 515 symbols of a field sync have another sign at least, where the capture is turned.
const TURNED: u32 = 387;

/// The test that a place shows a field sync.
impl SyncTest for Pattern {
    ghost passes = { shows };

    #[inline(always)]
    fn passes(&self, symbols: &[i8], place: usize, count: u32) -> bool {
        if count > MAY_BE_UNLIKE && count < TURNED {
            return false;
        }
        are_shown(count, self.standing(symbols, place).gain)
    }
}

/// Whether `count` other signs among 515 show a sync at this gain: few where the gain is above 0, or most where it is
/// below.
fn are_shown(count: u32, gain: i64) -> bool
    ensures { result ≡ are_shown count gain }
{
    count <= MAY_BE_UNLIKE && gain > 0 || count >= TURNED && gain < 0
}
