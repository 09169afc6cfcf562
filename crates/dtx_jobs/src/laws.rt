//! Laws of what `level` makes of a capture, and `watch` of a feed.
pub mod levelling;
pub mod watching;
