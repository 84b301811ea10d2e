//! Metric consequence: the rows that the facts of a step give for each kind of magnitude, whether a
//! metric literal follows from them, and why, or values of the terms that show that it does not.
#![tactic(auto)]

mod assigning;
mod by_kind;
mod certificates;
mod consequence;
mod evaluating;
mod in_two;
mod joining;
mod kind_system;
mod limits;
mod listing;
mod literals;
mod metric_facts;
mod solved_system;
mod step_facts;
mod systems;
mod totals;

pub use consequence::{Consequence, Metric, absurd, follows};
pub use limits::{are_few_facts, is_metric_goal, is_well_formed};
pub use metric_facts::MetricFacts;
pub use step_facts::StepFacts;
pub use systems::system;
