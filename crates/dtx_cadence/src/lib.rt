//! The cadence marks of a feed, and the anchor that they give.
#![tactic(auto)]

mod anchor;
pub mod laws;
mod marks;

pub use anchor::{Anchor, Seen};
pub use marks::mark;
