//! The twelve trellis coders: from the interleaved bytes of a group to the symbols of its four segments.
#![tactic(auto)]

mod lanes;
pub mod laws;
mod states;
mod twelve;
mod walk;

pub use states::States;
pub use twelve::Twelve;
