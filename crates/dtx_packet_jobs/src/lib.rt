//! The commands of packets and of plain bytes. Each has one function to call, a job and an engine. The job's meaning is
//! a function of the words and the files. The engine makes the outputs of that meaning. The commands make a stream,
//! damage a file, turn null packets into placeholders, adapt a stream, and send and read back a stream by the outer
//! coding of DVB.
#![tactic(auto)]

mod adapt_command;
mod dvb_code_command;
mod dvb_coding;
mod dvb_read_command;
mod dvb_reading;
mod dvb_shapes;
mod feeder;
mod hurt_command;
pub mod laws;
mod laying;
mod make_command;
mod past_end;
mod place_command;
mod placing;

pub use adapt_command::adapt;
pub use dvb_code_command::dvb_code;
pub use dvb_read_command::dvb_read;
pub use feeder::Feeder;
pub use hurt_command::hurt;
pub use make_command::{make, make_stream};
pub use past_end::first_past;
pub use place_command::place;
