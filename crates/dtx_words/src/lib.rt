//! The words of the command line, how a command ends, and the line that it prints.
#![tactic(auto)]

mod fitting;
pub mod laws;
mod lines;
mod names;
mod network_names;
mod number;
mod put;
mod rows;

pub use dtx_meaning::Status;
pub use fitting::command;
pub use lines::{finish, line};
pub use names::{name_among, name_in_line, repeated_name};
pub use network_names::{
    NETWORK_NAME, feed_name, log_name, names_differ, received_name, symbol_name, trial_name,
};
pub use number::{number_up_to, number_within};
pub use rows::{Command, FEWEST_TRIAL, Field, MOST_ROUNDS, MOST_SCALE, MOST_TRIAL, SecondWord};
