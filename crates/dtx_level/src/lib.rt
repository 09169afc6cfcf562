//! Levels a capture by its field syncs. The capture may have any gain and polarity, and a constant in it.
#![tactic(auto)]

mod giver;
pub mod laws;
mod leveller;
mod levels;
mod measure;
mod measure_text;
mod pattern;
mod shown;
mod step;
mod tally;

pub use leveller::Leveller;
pub use measure::Measure;
pub use measure_text::{MEASURE_LINE, write_measure};
