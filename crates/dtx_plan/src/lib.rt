//! Reads plans of a network, and files of changes: gives what the text says, or the first rule that it breaks.
#![tactic(auto)]

mod damage;
mod damage_table;
mod event;
mod event_table;
mod key;
pub mod laws;
mod limits;
mod net_table;
mod plan;
mod read;
mod receive_table;
mod refusal;
mod root_table;
mod rows;
mod rule;
mod transmitter;
mod transmitter_table;
mod transmitters;

pub use damage::{Damage, Damages};
pub use event::{Event, Events};
pub use key::PlanKey;
pub use plan::{NetPlan, Plan, ReceivePlan};
pub use read::{read_changes, read_plan};
pub use refusal::{PlanFault, PlanNo};
pub use rule::PlanRule;
pub use transmitter::Transmitter;
pub use transmitters::Transmitters;
