//! Engines that take their input a step at a time: the walk over a piece, once for all of them.
#![tactic(auto)]

mod step;
mod steps;

pub use step::Step;
pub use steps::Steps;
