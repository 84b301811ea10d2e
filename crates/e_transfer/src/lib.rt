//! Transfer consequence: whether one instance of a transfer rule, between diagrams and magnitudes,
//! gives a literal from the facts of a step, and why; complete over all instances of a scope.
//!
//! A literal is searched for at each place of each rule. What it says of the variables binds them,
//! and the others are chosen one by one: a choice is given up at the first literal of the clause
//! that is not the goal and whose negation cannot hold.
#![tactic(auto)]

mod angles;
mod areas;
mod bound_facts;
mod candidates;
mod clause;
mod conditions;
mod equations;
mod finding;
mod instance_check;
mod instance_search;
mod kinds;
mod listing;
mod marks;
mod matches;
mod models;
mod numbers;
mod order;
mod plan;
mod prepared;
mod query;
mod rule_search;
mod sum_marks;
mod unify;
mod walk;

pub use conditions::{are_limited_facts, is_well_formed_in};
pub use finding::{Found, find, find_by_facts, find_prepared};
pub use prepared::{Prepared, prepare};
pub use walk::{CANDIDATES, Span, Task, Verdict, search};
