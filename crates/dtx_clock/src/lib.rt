//! The network's clock: the stamps of frames, how long a packet is held, and the moments of segments.
#![tactic(auto)]

mod answers;
pub mod laws;
mod times;

pub use answers::{Late, Moment};
pub use times::{hold, moment, runs, stamp};
