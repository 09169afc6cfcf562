//! A law of what the command `repeat` makes of a feed that it receives.
#![tactic(auto)]

pub mod laws;
