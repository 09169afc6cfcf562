//! What the commands give back of files: of files that commands wrote, and of these with damage. This crate has no
//! engine. Each law is on what the commands mean, or on what `run` leaves.
#![tactic(auto)]

pub mod laws;
