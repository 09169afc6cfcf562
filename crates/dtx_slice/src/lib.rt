//! Symbols back to levels, and the levels of the twelve trellis coders back to bytes.
#![tactic(auto)]

pub mod laws;
mod slicing;
mod unroll;
mod walk;

pub use slicing::{last_levels, level, levels, put_levels};
pub use unroll::Unroll;
