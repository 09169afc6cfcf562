//! Transport packets, and a reader of the packets of a file.
#![tactic(auto)]

mod cutting;
mod packet;
mod reader;
mod refusal;

pub use packet::Packet;
pub use reader::{PIECE_PACKETS, PacketReader};
pub use refusal::NextNo;
