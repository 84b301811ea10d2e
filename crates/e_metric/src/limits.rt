//! The limits of facts and goals, as tests.

ghost use Rattle.std.specs.Prelude.{◌≡◌, ◌+◌, ◌<◌, ◌≤◌, ◌^◌, ◌&&◌, length, min, Some};
ghost use Rattle.std.specs.List.{list_all};
ghost use Rattle.e_literal.specs.Literal.{kind_of_term};
ghost use Rattle.e_literal.specs.WellFormed;
ghost use Rattle.e_literal.specs.WellFormed.{same_kind, is_bounded_coefficient};
ghost use Rattle.e_clause.specs.Assignment.{terms_of_atom, terms_of_lits};
ghost use Rattle.e_clause.specs.Laws.{is_well_formed_metric};
ghost use Rattle.e_clause.specs.LimitedFacts.{are_few, most_terms_of_step};

use e_facts::Facts;
use e_literal::{Atom, Kind, Lit, Mono, Term, kind, kind_of_sums};

// How many monomials the facts of a step may have.
const MOST_TERMS: usize = 1100;

// Whether the term is of the kind.
fn is_of(which: Kind, term: Term) -> bool
    ensures { result ≡ same_kind (kind_of_term term) which }
{
    match term {
        Term::Seg(_, _) => which == Kind::Segment,
        Term::Ang(_, _, _) | Term::Right => which == Kind::Angle,
        Term::Area(_, _, _) => which == Kind::Area,
    }
}

// Whether each monomial is of the kind, with a coefficient from 1 to 1,000,000.
fn are_bounded_monomials(which: Kind, sum: &[Mono]) -> bool
    ensures { result ≡ list_all
        (λ m. same_kind (kind_of_term m.term) which && is_bounded_coefficient m.coeff) sum.now }
{
    sum.iter().all(|m| is_of(which, m.term) && 1 <= m.coeff && m.coeff <= 1_000_000)
}

#[tactic(auto, using(crate::proofs::terms::WellFormedSums::parts))]
fn are_bounded_sums(x: &[Mono], y: &[Mono]) -> bool
    ensures { result ≡ WellFormed.are_well_formed_sums x.now y.now }
{
    let which = kind_of_sums(x, y);
    let monomials = x.len() + y.len();
    1 <= monomials
        && monomials <= 32
        && are_bounded_monomials(which, x)
        && are_bounded_monomials(which, y)
}

/// Whether the literal is well formed: a diagram literal, or one with 1 to 32 monomials of one kind
/// with coefficients from 1 to 1,000,000.
pub fn is_well_formed(lit: &Lit) -> bool
    ensures { result ≡ WellFormed.is_well_formed lit.now }
{
    match &lit.atom {
        Atom::MagEq(x, y) | Atom::MagLt(x, y) => are_bounded_sums(x.items(), y.items()),
        _ => true,
    }
}

/// Whether the literal is a metric one, and well formed.
pub fn is_metric_goal(goal: &Lit) -> bool
    ensures { result ≡ is_well_formed_metric (Some goal.now) }
{
    kind(goal).is_some() && is_well_formed(goal)
}

// How many monomials the literal has.
fn monomials(lit: &Lit) -> usize
    ensures value { result ≡ length (terms_of_atom lit.now.atom) }
    ensures bound { result < 2 ^ 62 }
{
    match &lit.atom {
        Atom::MagEq(x, y) | Atom::MagLt(x, y) => x.items().len() + y.items().len(),
        _ => 0,
    }
}

// Whether each fact is well formed.
fn are_well_formed(facts: &Facts) -> bool
    ensures { result ≡ list_all WellFormed.is_well_formed facts.now }
{
    facts.items().iter().all(|fact| is_well_formed(fact))
}

// How many monomials the metric facts have, or one more than they may have, where they have more.
fn capped_monomials(facts: &Facts) -> usize
    ensures { result ≡ min (length (terms_of_lits facts.now)) (most_terms_of_step + 1) }
{
    // Capped at each fact, since nothing bounds how many facts there are.
    let mut count = 0;
    for fact in facts.items() {
        count = (count + monomials(fact)).min(MOST_TERMS + 1);
    }
    count
}

/// Whether each fact is well formed, and the metric facts have at most 1,100 monomials.
pub fn are_few_facts(facts: &Facts) -> bool
    ensures { result ≡ (list_all WellFormed.is_well_formed facts.now && are_few facts.now) }
{
    are_well_formed(facts) && capped_monomials(facts) <= MOST_TERMS
}
