//! Segments of symbols: data segments and field syncs, and how a field sync is detected.
#![tactic(auto)]

mod data;
mod detection;
pub mod laws;
mod sync;
mod tables;

pub use data::{data_segment, put_segment_syncs};
pub use detection::{is_second, looks};
pub use sync::field_sync;
