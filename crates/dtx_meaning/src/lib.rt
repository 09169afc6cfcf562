//! What a command means: how it answers and what it writes, as a function of the files. Also when a meaning counts as
//! carried out.
#![tactic(auto)]

pub mod laws;
mod numbers;
mod status;

pub use numbers::{MOST_NUMBERS, Numbers};
pub use status::{Outcome, Status, done, ended, of_plan, of_read, refused_behind};
