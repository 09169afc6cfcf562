//! The Reed-Solomon encoder (ATSC A/53 Part 2, Reed-Solomon encoder). It puts parity bytes behind data, so that both
//! together are a codeword.
#![tactic(auto)]

mod divisor;
mod encoder;
mod register;
mod table;
mod words;

pub use encoder::Rs;
