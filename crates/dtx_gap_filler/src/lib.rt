//! A gap filler: a repeater that receives an adapter's feed from the air, and what it sends of it.
#![tactic(auto)]

pub mod laws;
