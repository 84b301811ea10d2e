//! The run of `elements`, a proof checker for System E: what it answers to its words, and what it
//! writes.
#![tactic(auto)]

mod command;
mod runner;

pub use e_commands::{Status, exit_code};
pub use runner::run;
