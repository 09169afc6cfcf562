//! The outer coding: data to the bytes that leave the interleaver, and the way back.
#![tactic(auto)]

mod inner;
pub mod laws;
mod outer;
mod whitening;

pub use inner::{Inner, Taken};
pub use outer::Outer;
pub use whitening::whiten;
