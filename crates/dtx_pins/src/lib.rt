//! Least paths of the twelve trellis coders under pins. A pin is a pair that a coder is known to have been given.
#![tactic(auto)]

mod back;
mod field;
mod forth;
mod lanes;
pub mod laws;
mod pinned;
mod start;
mod step;
mod told;
mod weights;

pub use pinned::{Decision, NO_PIN, Pinned};
