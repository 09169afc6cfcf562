//! The receiver: from the symbols of segments to transport packets.
#![tactic(auto)]

mod batch;
mod decoder;
mod groups;
pub mod laws;
mod outer_decoding;
mod progress;
mod receiver;
mod run_decoder;
mod symbols;
mod tracking;

pub use batch::{Batch, HELD_GROUPS, MOST_RECEIVED, Received};
pub use decoder::{Decoder, Receiver};
pub use groups::Groups;
pub use progress::{Progress, begun};
pub use receiver::RunReceiver;
pub use run_decoder::RunDecoder;
pub use symbols::to_symbols;
pub use tracking::Tracking;
