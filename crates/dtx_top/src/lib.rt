//! The program: one call that does all of it.
#![tactic(auto)]

pub mod laws;
mod net_command;
mod network_names;
mod performing;
mod reception;
mod replaying;
mod top;
mod trial_command;
mod trial_plan;

pub use dtx_meaning::Status;
pub use top::run;
