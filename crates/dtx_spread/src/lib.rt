//! The interleaver and the de-interleaver.
#![tactic(auto)]

mod branches;
mod collect;
mod columns;
mod few;
mod groups;
mod lines;
mod moving;
mod rings;
mod scratch;
mod tiles;
mod widths;

pub use branches::Branches;
pub use collect::Collect;
