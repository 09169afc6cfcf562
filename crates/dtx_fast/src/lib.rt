//! The faster corrector of codewords. It corrects nearly all words of up to three wrong bytes in closed form. For all
//! others it finds the locator by the method of Berlekamp and Massey and the values by Forney's quotient.
#![tactic(auto)]

mod fast;
mod few;
mod guesses;
pub mod laws;
mod places;
mod recurrence;
mod repair;
mod rows;
mod tables;
mod wrong_byte;

pub use fast::Fast;
pub use recurrence::{Recurrence, find_recurrence};
pub use repair::error_value;
