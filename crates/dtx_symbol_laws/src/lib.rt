//! Laws of the commands that read symbol files: `receive`, `mend`, `repeat`, `soft`, `level`, `acquire` and `refine`.
//! There is no engine here. Each law is about the meaning of a command, or about what is acquired or refined.
#![tactic(auto)]

pub mod acquire_laws;
pub mod laws;
pub mod level_laws;
pub mod refine_laws;
pub mod soft_laws;
pub mod symbol_laws;
