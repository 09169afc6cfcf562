//! The operations packet, of kind 1 or of kind 2: the fields that it carries, how it is written, and how it is read.
#![tactic(auto)]

mod fields;
pub mod laws;
mod numbers;
mod packing;
mod paging;
mod reading;
mod refusal;
mod rules;
mod writing;

pub use fields::{Entry, Ops};
pub use paging::Paging;
pub use reading::read;
pub use refusal::OpsNo;
pub use writing::write;
