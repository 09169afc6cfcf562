//! The parts that correctors share: the syndromes of a word, the places at which a locator vanishes, the values of the
//! errors at marked places, and the test of the word that was tried.

mod outcome;
mod places;
mod syndromes;
mod values;

pub use outcome::{accept, distance, encoded_again};
pub use places::{marks_of, power_at};
pub use syndromes::syndromes_of;
pub use values::{cancel, patch};

/// The room of a list of places or of syndromes: more entries than a word has bytes.
pub const ROOM: usize = 256;
