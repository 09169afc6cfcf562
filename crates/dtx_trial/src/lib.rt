//! What the command `trial` leaves in its files.
#![tactic(auto)]

pub mod laws;
