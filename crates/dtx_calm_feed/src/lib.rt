//! What follows for a feed if a watcher's text of it is calm.
#![tactic(auto)]

pub mod laws;
