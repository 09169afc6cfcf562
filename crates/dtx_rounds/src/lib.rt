//! Rounds over the segments of a capture: the words that are known pin the paths of the trellis around them.
#![tactic(auto)]

mod field;
mod group_bytes;
pub mod laws;
mod means;
mod pinning;
mod pins;
mod round;
mod rounds;
mod words;

pub use field::{Field, MOST_FIELD_COST, MOST_MOVED};
pub use rounds::Rounds;
