//! Soft decoding of the twelve trellis coders. For each coder it finds the path whose levels lie nearest to the
//! symbols.
#![tactic(auto)]

mod certificate;
mod coders;
mod field;
mod gaps;
pub mod laws;
mod near;
mod nearest;
mod rounds;
mod soft;
mod table;
mod trace;
mod walk;
mod walker;
mod width;

pub use certificate::proves;
pub use field::{FieldDecoder, total};
pub use gaps::LANES;
pub use nearest::{MAX_SCALE, MOST_SEGMENT_COST, square, squared_distance, symbol_at};
pub use rounds::{read_turned, write_turned};
pub use soft::Soft;
pub use walk::{Found, MAX_SYMBOLS, least_of};
