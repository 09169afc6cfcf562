//! Made streams, which are workloads given by a seed and a length, and damage laid over the bytes of a file.
#![tactic(auto)]

pub mod laws;
mod laying;
mod made;

pub use laying::{damaged_in, lay};
pub use made::packet;
