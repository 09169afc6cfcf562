//! Jobs and their forms: one output from one input (which may be a capture at a scale), an output and a log from one
//! input, a transmitter's symbols and log, and one output from two inputs. Also how a plan or a file of changes is
//! read, and in which units the commands read their inputs.
#![tactic(auto)]

mod capturing;
mod changing;
mod combining;
mod damaged;
mod logging;
mod plan_file;
mod shapes;
mod stepping;
mod transforming;
mod transmitting;

pub use capturing::{Capturing, Setting, transform_in_rounds, transform_scaled};
pub use changing::Changing;
pub use combining::{Combining, combine};
pub use damaged::DamagedInput;
pub use logging::transform_logged;
pub use plan_file::{changes_in, plan_in};
pub use shapes::{
    CODED_PACKETS, PIECE_BYTES, PIECE_SEGMENTS, coded_packets, packets, segments, single_bytes,
    single_packets,
};
pub use stepping::Stepping;
pub use transforming::{Transforming, transform, transform_dvb};
pub use transmitting::{Transmitting, transmit};
