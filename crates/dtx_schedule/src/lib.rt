//! Plays the schedule of a network, step by step, into the files of its transmitters.
#![tactic(auto)]

mod beginning;
mod event;
mod giving;
mod inside;
pub mod laws;
mod pair;
mod part;
mod playing;
mod playout;

pub use inside::first_past_feed;
pub use playing::{PlayedSchedule, play};
