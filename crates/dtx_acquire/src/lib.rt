//! From a capture to whole segments: where fields begin, and which symbols were sent.
#![tactic(auto)]

mod acquirer;
mod deciding;
mod giver;
pub mod laws;
mod restoring;
mod searching;
mod signs;
mod step;
mod symbol_window;
mod upright;

pub use acquirer::Acquirer;
pub use searching::{MAY_BE_UNLIKE, SyncTest, is_sync_at, search};
pub use signs::is_second;
pub use symbol_window::{MOST_HELD, SymbolWindow};
