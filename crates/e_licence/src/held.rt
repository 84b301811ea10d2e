//! States that a context holds.

use e_literal::Scope;
use e_metric::MetricFacts;

/// A state that is held: the objects in scope, how many facts there were, and what was solved of
/// them.
#[derive(Drop)]
pub struct Held {
    pub scope: Scope,
    pub facts: usize,
    pub solved: Option<MetricFacts>,
}
