//! What the program reads and writes: named files, a printed line, and the words of its command line.
#![tactic(auto)]

mod calls;
mod filling;
mod held;
mod memory_shelf;
mod memory_sink;
mod output;
mod refusals;
mod shelf;
mod sink;
mod sink_refusals;
mod word;

pub use filling::{ReadExtent, fill, fill_least};
pub use memory_shelf::{Call, MemoryShelf};
pub use memory_sink::MemorySink;
pub use output::{FILE_PAGE, Output, PIECE};
pub use refusals::Refusals;
pub use shelf::{ReadNo, Shelf, WriteNo};
pub use sink::{Sink, SinkNo};
pub use sink_refusals::SinkRefusals;
pub use word::Word;
