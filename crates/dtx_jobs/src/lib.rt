//! The commands that code a stream, or that read a feed or symbols. Each command has one function to call, a job and an
//! engine. The job's meaning is a function of the words and the files. The engine makes the outputs of that meaning.
#![tactic(auto)]

mod acquire_command;
mod acquiring;
mod acquisition;
mod code_command;
mod excitation;
mod excite_command;
pub mod laws;
mod level_command;
mod levelling;
mod mend_command;
mod receive_command;
mod reception;
mod refine_command;
mod refining;
mod repeat_command;
mod repetition;
mod restorer;
mod segment_receiver;
mod sending;
mod soft_command;
mod softening;
mod stream_coder;
mod symbol_buffer;
mod watch_command;
mod watching;

pub use acquire_command::acquire;
pub use code_command::code;
pub use excite_command::excite;
pub use level_command::level;
pub use mend_command::mend;
pub use receive_command::receive;
pub use reception::Reception;
pub use refine_command::refine;
pub use repeat_command::repeat;
pub use segment_receiver::SegmentReceiver;
pub use soft_command::soft;
pub use watch_command::watch;
