//! The facts of a step, and what is solved of their magnitudes.

ghost use Rattle.std.specs.Prelude.{◌≡◌};
ghost use Rattle.e_metric.specs.Fronts.{AreFronts};

use crate::metric_facts::MetricFacts;
use e_facts::Facts;
use std::marker::Model;

/// Facts, and what is solved of their magnitudes, for a struct that holds both. Contracts see the
/// facts.
#[derive(Drop)]
pub struct StepFacts<'a> {
    facts: &'a Facts,
    metric_facts: &'a MetricFacts,
}

impl<'a> Model for StepFacts<'a> {
    ghost use Rattle.std.specs.Prelude.{List};
    ghost use Rattle.e_literal.specs.declared.literal.Lit.{Lit};
    ghost use Rattle.e_metric.specs.Fronts.{AreFronts};

    ghost Value = { List Lit };

    ghost view = { λ k. k.facts.now };

    ghost invariant = { λ k. AreFronts k.facts.now k.metric_facts.now };
}

impl<'a> StepFacts<'a> {
    /// The facts, and what is solved of them.
    pub fn new(facts: &'a Facts, metric_facts: &'a MetricFacts) -> StepFacts<'a>
        requires { AreFronts facts.now metric_facts.now }
        ensures { result ≡ facts.now }
    {
        StepFacts {
            facts,
            metric_facts,
        }
    }

    /// What is solved of the facts.
    pub fn metric_facts(&self) -> &'a MetricFacts
        ensures { AreFronts self.now result.now }
    {
        self.metric_facts
    }
}
