//! A repeater: a receiver and an exciter. The exciter is given the received packets, with their cadence marks restored.
#![tactic(auto)]

pub mod laws;
mod marks;
mod repeater;

pub use repeater::Repeater;
