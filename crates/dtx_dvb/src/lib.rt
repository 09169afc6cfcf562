//! The outer coding of DVB's cable systems (EN 300 429): randomization, shortened Reed-Solomon
//! code and convolutional interleaving, there and back.
#![tactic(auto)]

pub mod laws;
mod randomizer;
mod receiving;
mod sending;
mod sizes;

pub use randomizer::Dvb;
pub use receiving::DvbIn;
pub use sending::DvbOut;
pub use sizes::{BLOCK, FOUR, FOUR_BLOCKS, PERIOD_PACKETS, WAITING};
