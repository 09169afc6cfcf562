//! Data segments.

ghost use Rattle.std.specs.Prelude.{◌≡◌, ℕ, ◌+◌, ◌*◌, ◌<◌, ◌++◌, EachIndex, drop, length, slice_index};
ghost use Rattle.std.specs.Prelude.{take};
ghost use Rattle.dtx_frame.specs.Segments.{data_segment, segment_sync};

use crate::tables::IN_FRONT;
use dtx_sizes::{GROUP_PACKETS, GROUP_SYMBOLS, SEGMENT, SEGMENT_LEVELS, SEGMENT_SYNC};

/// Writes the segment of these levels: its sync, and each level as twice the level less 7 (ATSC A/53 Part 2, data
/// segment sync).
pub fn data_segment(levels: &[u8; SEGMENT_LEVELS], out: &mut [i8; SEGMENT])
    requires { EachIndex levels.now (λ d. slice_index levels.now d < 8) }
    ensures { out.new ≡ data_segment levels.now }
{
    out[..SEGMENT_SYNC].copy_from_slice(&IN_FRONT);
    for d in 0..SEGMENT_LEVELS {
        out[SEGMENT_SYNC + d] = 2 * levels[d] as i8 - 7;
    }
}

/// Writes the sync in front of each of a group's four data segments, whose data symbols stay (ATSC A/53 Part 2, data
/// segment sync).
pub fn put_segment_syncs(symbols: &mut [i8; GROUP_SYMBOLS])
    ensures segments { (s : ℕ) → s < GROUP_PACKETS → take SEGMENT (drop (SEGMENT * s) symbols.new)
        ≡ segment_sync ++ take SEGMENT_LEVELS (drop (SEGMENT * s + SEGMENT_SYNC) symbols.old) }
    ensures long { length symbols.new ≡ GROUP_SYMBOLS }
{
    for s in 0..GROUP_PACKETS {
        let at = SEGMENT * s;
        symbols[at..at + SEGMENT_SYNC].copy_from_slice(&IN_FRONT);
    }
}
