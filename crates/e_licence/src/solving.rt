//! What is known of facts before they are asked about.

ghost use Rattle.std.specs.Prelude.{ℕ, List, IfOk, IfSome};
ghost use Rattle.e_literal.specs.declared.literal.Lit.{Lit};
ghost use Rattle.e_metric.specs.Fronts.{AreFronts};
ghost use Rattle.e_licence.specs.HeldStates.{AreHeld};

use crate::held::Held;
use e_metric::MetricFacts;
use std::alloc::{AllocError, Global};

/// What is known of the first facts: what is solved of them, or else a copy of what was solved
/// where the last state was held, since that has to be there again when the state is released.
pub fn metric_facts_before(
    alloc: Global,
    own: Option<MetricFacts>,
    held: &[Held],
) -> Result<MetricFacts, AllocError>
    ensures { IfOk result (λ metric_facts. (facts : List Lit) (high : ℕ) → IfSome own
        (AreFronts facts) → AreHeld 0 high facts held.now → AreFronts facts metric_facts) }
{
    match own {
        Some(own) => Ok(own),
        None => metric_facts_outside(alloc, held),
    }
}

// A copy of what was solved where the last state was held.
fn metric_facts_outside(alloc: Global, held: &[Held]) -> Result<MetricFacts, AllocError>
    ensures { IfOk result (λ metric_facts. (facts : List Lit) (high : ℕ)
        → AreHeld 0 high facts held.now → AreFronts facts metric_facts) }
{
    match held.last() {
        Some(last) => copy_or_new(alloc, &last.solved),
        None => Ok(MetricFacts::new()),
    }
}

/// A copy, or nothing known where there is none.
pub fn copy_or_new(
    alloc: Global,
    metric_facts: &Option<MetricFacts>,
) -> Result<MetricFacts, AllocError>
    ensures { IfOk result (λ copy. (facts : List Lit) → IfSome metric_facts.now (AreFronts facts)
        → AreFronts facts copy) }
{
    match metric_facts {
        Some(metric_facts) => metric_facts.copy(alloc),
        None => Ok(MetricFacts::new()),
    }
}
