//! From a capture to whole segments in rounds: an acquirer, and rounds behind it.
#![tactic(auto)]

mod numbers;
mod passes;
mod refiner;

pub use refiner::{MOST_ROUNDS, Refiner};
