//! The conditions of a search, as tests.

ghost use Rattle.std.specs.Prelude.{◌≡◌};
ghost use Rattle.std.specs.List.{list_all};
ghost use Rattle.e_literal.specs.Literal.{all_in_scope};
ghost use Rattle.e_clause.specs.LimitedFacts;

use e_facts::Facts;
use e_literal::{Lit, Scope, in_scope};
use e_metric::{are_few_facts, is_well_formed};

/// Whether the literal is in scope and well formed.
pub fn is_well_formed_in(scope: Scope, lit: &Lit) -> bool
    ensures { result ≡ LimitedFacts.is_well_formed_in scope lit.now }
{
    in_scope(lit, scope) && is_well_formed(lit)
}

/// Whether the facts are in scope and well formed, and their terms are few.
#[tactic(auto, using(crate::proofs::FactConditions::good_parts))]
pub fn are_limited_facts(scope: Scope, facts: &Facts) -> bool
    ensures { result ≡ LimitedFacts.are_limited_facts scope facts.now }
{
    are_in_scope(scope, facts) && are_few_facts(facts)
}

/// Whether each fact is in scope.
fn are_in_scope(scope: Scope, facts: &Facts) -> bool
    ensures { result ≡ list_all (all_in_scope scope) facts.now }
{
    facts.items().iter().all(|fact| in_scope(fact, scope))
}
