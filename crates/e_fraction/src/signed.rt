//! Forms: sums of terms with whole coefficients.

ghost use Rattle.std.specs.Prelude.{◌≡◌, [], IsTrue};
ghost use Rattle.std.specs.List.{list_any};
ghost use Rattle.e_literal.specs.Same.{term_eq};
ghost use Rattle.e_literal.specs.Rows.{coefficient};
ghost use Rattle.e_fraction.specs.Distinct.{have_distinct_terms};

use e_literal::Term;
use std::alloc::Global;
use std::marker::Model;

/// A sum of terms with coefficients, no term twice, which contracts see as the list of its pairs.
#[derive(Drop)]
pub struct Signed {
    summands: Vec<(i64, Term)>,
}

impl Model for Signed {
    ghost use Rattle.std.specs.Prelude.{IsTrue};
    ghost use Rattle.e_literal.specs.Rows.{Summands};
    ghost use Rattle.e_fraction.specs.Distinct.{have_distinct_terms};

    ghost Value = { Summands };

    ghost view = { λ s. s.summands.items };

    ghost invariant = { λ s. IsTrue (have_distinct_terms s.summands.items) };
}

impl Signed {
    /// The form of these summands. [`are_distinct`] tests the condition.
    pub fn new(summands: Vec<(i64, Term)>) -> Self
        requires { IsTrue (have_distinct_terms summands.items) }
        ensures { result ≡ summands.items }
    {
        Signed { summands }
    }

    /// The form 0.
    pub fn empty(alloc: Global) -> Self
        ensures { result ≡ [] }
    {
        Signed {
            summands: Vec::new(alloc),
        }
    }

    /// The summands in order.
    pub fn summands(&self) -> &[(i64, Term)]
        ensures value { result.now ≡ self.now }
        ensures distinct { IsTrue (have_distinct_terms self.now) }
    {
        self.summands.as_slice()
    }

    /// The coefficient of a term, 0 where it is not there.
    pub fn coefficient(&self, term: Term) -> i64
        ensures value { result ≡ coefficient self.now term }
        ensures distinct { IsTrue (have_distinct_terms self.now) }
    {
        coefficient_in(self.summands(), term)
    }
}

/// The coefficient of a term in a form, 0 where it is not there.
fn coefficient_in(summands: &[(i64, Term)], term: Term) -> i64
    requires { IsTrue (have_distinct_terms summands.now) }
    ensures { result ≡ coefficient summands.now term }
{
    for p in summands {
        if p.1 == term {
            return p.0;
        }
    }
    0
}

/// Whether no term comes twice.
pub fn are_distinct(summands: &[(i64, Term)]) -> bool
    ensures { result ≡ have_distinct_terms summands.now }
{
    match summands {
        [] => true,
        [first, rest @ ..] => !has_summand(rest, first.1) && are_distinct(rest),
    }
}

/// Whether the term is in the form.
pub fn has_summand(summands: &[(i64, Term)], term: Term) -> bool
    ensures { result ≡ list_any (λ q. term_eq q.1 term) summands.now }
{
    summands.iter().any(|p| p.1 == term)
}
