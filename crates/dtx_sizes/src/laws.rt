//! The values of the sizes, and the relations between them.
ghost use Rattle.std.specs.Prelude.{◌≡◌, ◌+◌, ◌*◌};

use crate::codewords::{BRANCH_STEP, BRANCHES, CODEWORD, FLUSHING_PACKETS};
use crate::fields::{FIELD_PACKETS, FIELD_SEGMENTS, FRAME_PACKETS, GROUP_PACKETS};
use crate::limits::{
    MOST_ENTRIES, MOST_FRAMES, MOST_PACKETS, MOST_PAGES, MOST_SEGMENTS, MOST_SYMBOLS,
    MOST_TRANSMITTERS, PAGE_ENTRIES, SECOND_TICKS,
};
use crate::packets::{PACKET, PACKET_DATA};
use crate::segments::{
    CODER_BYTES, CODERS, GROUP_BYTES, GROUP_LEVELS, GROUP_SYMBOLS, PRECODE, ROUNDS, SEGMENT,
    SEGMENT_LEVELS, SEGMENT_ROUNDS, SEGMENT_SYNC,
};

/// Packets and codewords.
pub fn bytes()
    ensures packet { PACKET ≡ 188 }
    ensures data { PACKET_DATA + 1 ≡ PACKET }
    ensures codeword { PACKET_DATA + 20 ≡ CODEWORD }
    ensures codeword_is { CODEWORD ≡ 207 }
    ensures branches { BRANCHES ≡ 52 }
    ensures step { BRANCH_STEP ≡ 4 }
    ensures filling { FLUSHING_PACKETS ≡ BRANCHES }
{}

/// Segments and groups of four.
pub fn symbols()
    ensures segment { SEGMENT ≡ 832 }
    ensures parts { SEGMENT_SYNC + SEGMENT_LEVELS ≡ SEGMENT }
    ensures sync { SEGMENT_SYNC ≡ 4 }
    ensures precode { PRECODE ≡ CODERS }
    ensures coders { CODERS ≡ 12 }
    ensures segment_rounds { CODERS * SEGMENT_ROUNDS ≡ SEGMENT_LEVELS }
    ensures rounds { ROUNDS ≡ GROUP_PACKETS * SEGMENT_ROUNDS }
    ensures bytes { GROUP_BYTES ≡ GROUP_PACKETS * CODEWORD }
    ensures coder_bytes { GROUP_BYTES ≡ CODERS * CODER_BYTES }
    ensures levels { GROUP_LEVELS ≡ GROUP_PACKETS * SEGMENT_LEVELS }
    ensures group_symbols { GROUP_SYMBOLS ≡ GROUP_PACKETS * SEGMENT }
{}

/// Fields and frames.
pub fn fields()
    ensures group { GROUP_PACKETS ≡ 4 }
    ensures field { FIELD_PACKETS ≡ 312 }
    ensures segments { FIELD_SEGMENTS ≡ FIELD_PACKETS + 1 }
    ensures frame { FRAME_PACKETS ≡ 2 * FIELD_PACKETS }
{}

/// The limits.
pub fn limits()
    ensures frames { MOST_FRAMES ≡ 1000000 }
    ensures packets { MOST_PACKETS ≡ MOST_FRAMES * FRAME_PACKETS }
    ensures segments { MOST_SEGMENTS ≡ MOST_FRAMES * (2 * FIELD_SEGMENTS) }
    ensures symbols { MOST_SYMBOLS ≡ MOST_SEGMENTS * SEGMENT }
    ensures entries { MOST_ENTRIES ≡ 35 }
    ensures page { PAGE_ENTRIES ≡ 34 }
    ensures transmitters { MOST_TRANSMITTERS ≡ MOST_PAGES * PAGE_ENTRIES }
    ensures ticks { SECOND_TICKS ≡ 10000000 }
{}
