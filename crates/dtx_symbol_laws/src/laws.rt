//! Laws of `mend` and of `repeat`.
pub mod mending;
pub mod repeating;
