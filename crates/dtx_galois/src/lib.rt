//! The field of 256 elements in which the Reed-Solomon code computes.
#![tactic(auto)]

mod element;
pub mod laws;
mod operators;
mod polynomial;
mod tables;

pub use element::{ALPHA, FIELD_POLYNOMIAL, Gf};
pub use polynomial::eval;
pub use tables::ORDER;
