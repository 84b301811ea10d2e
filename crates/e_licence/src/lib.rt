//! The licence of one step: whether a literal is allowed by the facts in a scope, or the facts
//! contradict each other, and why, and how the blanks of an application are filled; or that it
//! cannot be decided, since a linear system of the step is wide.
#![tactic(auto)]

mod blanks;
mod choices;
mod context;
mod contradiction;
mod held;
mod licensing;
mod limits;
mod ready;
mod restricted;
mod solving;
mod sweep;
mod verdicts;

pub use blanks::{Filled, match_blanks};
pub use choices::{FirstChoices, first_choices};
pub use context::Context;
pub use contradiction::{Refuted, refute};
pub use e_transfer::{are_limited_facts, is_well_formed_in};
pub use licensing::{Licensed, licence};
pub use limits::is_statement;
pub use verdicts::Verdicts;
