//! Mends words with missing bytes: a missing byte costs one parity byte, and a wrong byte costs two. `MendReceiver`
//! receives segments with missing symbols by it.
#![tactic(auto)]

mod decoder;
mod erasing;
pub mod laws;
mod mark_side;
mod marks;
mod side;
mod values;
mod words;

pub use decoder::{MendDecoder, MendReceiver};
pub use erasing::Erase;
