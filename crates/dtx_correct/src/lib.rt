//! The linear corrector of codewords: it solves the equations of a locator by elimination.
#![tactic(auto)]

mod elimination;
mod linear;
mod locator;

pub use linear::Linear;
