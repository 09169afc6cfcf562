//! The exciter of one transmitter. It is given the packets of a feed, behind any others, and gives the segments that
//! the transmitter sends.
#![tactic(auto)]

mod answers;
mod exciter;
pub mod laws;
mod orders;
mod pages;
mod serving;
mod tables;

pub use answers::{Preset, Told, Why};
pub use exciter::Exciter;
pub use orders::{Corrector, is_flushed, ordered};
pub use tables::Tables;
