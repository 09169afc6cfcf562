//! A watcher, whose notes show whether a feed is sound, and the text of its notes. They are on anchors and on
//! operations packets: which of these read, whether their states are those that the coders have there, and whether the
//! clock runs.
#![tactic(auto)]

pub mod laws;
mod notes;
mod stamped;
mod telling;
mod watch_text;
mod watcher;

pub use notes::{ClockNote, MOST_NOTES, Note, NoteKind, OpsNote, StatesNote};
pub use watch_text::{WATCH_LINE, write_note};
pub use watcher::Watcher;
