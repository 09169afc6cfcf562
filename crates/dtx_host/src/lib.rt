//! The program's shelf and sink: the host's files and its standard output. Also the line of progress on a terminal.
//! Proofs don't see what the files and the output hold.
#![tactic(auto)]

mod files_met;
mod found;
mod host_files;
mod host_shelf;
mod host_sink;
mod pipe;
mod progress;

pub use host_shelf::HostShelf;
pub use host_sink::HostSink;
pub use progress::Progress;
