//! Bursts on the air: wrong and missing symbols in a row.
#![tactic(auto)]

pub mod laws;
