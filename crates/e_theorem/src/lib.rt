//! Statements of theorems and defined notions, and their use at arguments.
#![tactic(auto)]

mod application;
mod notion;
mod pattern;
mod statement;

pub use application::{Applied, UseFault, all_renamed, expand, expand_first, use_of};
pub use notion::Notion;
pub use pattern::is_pattern;
pub use statement::Statement;
