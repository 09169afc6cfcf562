//! The adapter. It makes the feed of a stream and a plan. The feed's operations packets say when exciters send, and
//! from which states of their coders.
#![tactic(auto)]

mod adapter;
mod filler;
pub mod laws;
mod page;
mod run;

pub use adapter::Adapter;
