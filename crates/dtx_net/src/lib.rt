//! The core of a network: all of its exciters. Each is given packets and restarted, in any order.
#![tactic(auto)]

mod changed;
pub mod laws;
mod net;

pub use changed::flipped;
pub use net::Net;
