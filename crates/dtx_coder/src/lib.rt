//! The group coder: from four transport packets to the symbols of their segments.
#![tactic(auto)]

mod air;
mod batch;
mod coder;
pub mod laws;
mod outer_coding;
mod sender;
mod tables;

pub use air::{AIR_SEGMENTS, AIR_SYMBOLS, Air};
pub use batch::{BATCH_PACKETS, Batch};
pub use coder::Coder;
pub use tables::Tables;
