//! The data randomizer (ATSC A/53 Part 2, data randomizer): the bytes that are added to the packets of a data field.
#![tactic(auto)]

pub mod laws;
mod randomizer;
mod register;

pub use randomizer::Atsc;
