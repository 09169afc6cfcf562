//! The chain from packets to symbols and back: what is received of undamaged symbols.
#![tactic(auto)]

pub mod laws;
