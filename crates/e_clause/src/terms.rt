//! Where a term is written.

ghost use Rattle.std.specs.Prelude.{◌≡◌};
ghost use Rattle.std.specs.List.{list_any};
ghost use Rattle.e_literal.specs.Same.{term_eq};
ghost use Rattle.e_clause.specs.Assignment.{lit_has_term};

use e_literal::{Atom, Lit, Mono, Term};

/// Whether the term is in the literal, as it is written.
#[tactic(auto, using(crate::proofs::WrittenTerms::in_literals))]
pub fn lit_has_term(lit: &Lit, term: Term) -> bool
    ensures { result ≡ lit_has_term term lit.now }
{
    match &lit.atom {
        Atom::MagEq(x, y) | Atom::MagLt(x, y) => {
            sum_has_term(x.items(), term) || sum_has_term(y.items(), term)
        }
        _ => false,
    }
}

fn sum_has_term(sum: &[Mono], term: Term) -> bool
    ensures { result ≡ list_any (λ m. term_eq term m.term) sum.now }
{
    sum.iter().any(|m| term == m.term)
}
