//! The traits of encoders, correctors, interleavers, de-interleavers and whiteners, what correctors share, and the laws
//! of all of them.
#![tactic(auto)]

pub mod correcting;
mod corrector;
mod encoder;
mod gather;
pub mod laws;
mod shared;
mod spread;
mod whitener;

pub use corrector::{Correct, TooMany};
pub use encoder::{Encode, PARITY};
pub use gather::Gather;
pub use spread::Spread;
pub use whitener::Whitener;
