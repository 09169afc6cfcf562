//! The sizes of packets, codewords, segments, fields and frames, and the limits of streams: each number in one place,
//! with its unit.
#![tactic(auto)]

mod codewords;
mod fields;
pub mod laws;
mod limits;
mod packets;
mod segments;

pub use codewords::{BRANCH_STEP, BRANCHES, CODEWORD, FLUSHING_PACKETS};
pub use fields::{
    FIELD_PACKETS, FIELD_SEGMENTS, FRAME_PACKETS, FieldPlace, GROUP_PACKETS, field_place,
};
pub use limits::{
    MOST_ENTRIES, MOST_FRAMES, MOST_PACKETS, MOST_PAGES, MOST_SEGMENTS, MOST_SYMBOLS,
    MOST_TRANSMITTERS, PAGE_ENTRIES, SECOND_TICKS,
};
pub use packets::{MARK, NULL_PID, OPERATIONS_PID, PACKET, PACKET_DATA, SYNC};
pub use segments::{
    CODER_BYTES, CODERS, GROUP_BYTES, GROUP_LEVELS, GROUP_SYMBOLS, PRECODE, ROUNDS, SEGMENT,
    SEGMENT_LEVELS, SEGMENT_ROUNDS, SEGMENT_SYNC,
};
