//! Laws of files that commands wrote and commands read.
pub mod acquiring;
pub mod air;
pub mod both_ends;
pub mod calls;
pub mod dvb_bytes;
pub mod exciting;
pub mod single_frequency;
