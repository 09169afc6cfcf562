//! The network: an adapter's feed, the exciters that lock to it, and the packets that their symbols give back.
#![tactic(auto)]

pub mod laws;
