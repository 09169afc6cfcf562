//! A field sync.

ghost use Rattle.std.specs.Prelude.{◌≡◌};
ghost use Rattle.dtx_frame.specs.Segments.{field_sync};

use crate::tables::{FIRST, FRONT, SECOND};
use dtx_sizes::{PRECODE, SEGMENT};

/// Writes the sync of a first or a second field (ATSC A/53 Part 2, data field sync). `last` holds the last twelve
/// symbols of the segment before. The mode bits, the reserved symbols, and the inversion of the middle short sequence
/// in the second field are the profile's own.
pub fn field_sync(second: bool, last: &[i8; PRECODE], out: &mut [i8; SEGMENT])
    ensures { out.new ≡ field_sync second last.now }
{
    let front = if second { &SECOND } else { &FIRST };
    out[..FRONT].copy_from_slice(front);
    out[FRONT..].copy_from_slice(last);
}
