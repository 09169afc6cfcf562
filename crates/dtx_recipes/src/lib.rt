//! What each command but `net` and `trial` makes of its input, as definitions: recipes, answers and jobs. Their laws
//! stand in `proofs/`. The code is the numbers that some answers tell.
#![tactic(auto)]

mod life_tally;
mod tally;
mod watch_tally;

pub use life_tally::LifeTally;
pub use tally::Tally;
pub use watch_tally::WatchTally;
