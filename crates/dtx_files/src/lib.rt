//! The files of a transmitter: its symbols as bytes, and the text of its log.
#![tactic(auto)]

pub mod laws;
mod log_text;
mod symbols;

pub use log_text::{LOG_LINE, write_line, write_restart};
pub use symbols::{bring, to_bytes};
