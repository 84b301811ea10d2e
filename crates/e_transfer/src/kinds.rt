//! Facts that are no instance of an equation over variables: they have a term of another kind.

ghost use Rattle.std.specs.Prelude.{◌≡◌, false};
ghost use Rattle.std.specs.List.{list_any};
ghost use Rattle.e_literal.specs.Same.{same_neg};
ghost use Rattle.e_clause.specs.Views.{atom_of};
ghost use Rattle.e_transfer.specs.Marks.{NoneSuffices};
ghost use Rattle.e_transfer.specs.declared.query.Strength.TheVariants as strength_is;
ghost use Rattle.e_transfer.specs.inner.Alike;

use e_clause::Shape;
use e_facts::Facts;
use e_literal::{Atom, Lit, Mono, Term, coefficient_in};

/// Whether the two terms are of one kind.
fn are_alike(term: Term, other: Term) -> bool
    ensures { result ≡ Alike.are_alike term other }
{
    matches!(
        (term, other),
        (Term::Seg(_, _), Term::Seg(_, _))
            | (Term::Ang(_, _, _), Term::Ang(_, _, _))
            | (Term::Area(_, _, _), Term::Area(_, _, _))
            | (Term::Right, Term::Right)
    )
}

/// Whether a term of the sum is of the kind of this one.
fn has_alike(sum: &[Mono], term: Term) -> bool
    ensures { result ≡ Alike.has_alike sum.now term }
{
    sum.iter().any(|m| are_alike(m.term, term))
}

/// Whether x or y has a term of the kind of this one, or it cancels in z - w.
fn is_alike(x: &[Mono], y: &[Mono], z: &[Mono], w: &[Mono], term: Term) -> bool
    ensures { result ≡ Alike.is_alike x.now y.now z.now w.now term }
{
    has_alike(x, term) || (has_alike(y, term) || coefficient_in(z, term) == coefficient_in(w, term))
}

/// Whether each term of the sum is so.
fn are_all_alike(x: &[Mono], y: &[Mono], z: &[Mono], w: &[Mono], sum: &[Mono]) -> bool
    ensures { result ≡ Alike.are_all_alike x.now y.now z.now w.now sum.now }
{
    sum.iter().all(|m| is_alike(x, y, z, w, m.term))
}

/// Whether the atom may be an instance of x = y.
fn may_be_equation(x: &[Mono], y: &[Mono], atom: &Atom) -> bool
    ensures { result ≡ Alike.may_be_equation x.now y.now atom.now }
{
    match atom {
        Atom::MagEq(z, w) => {
            let (z, w) = (z.items(), w.items());
            are_all_alike(x, y, z, w, z) && are_all_alike(x, y, z, w, w)
        }
        _ => false,
    }
}

fn has_sign(fact: &Lit, neg: bool) -> bool
    ensures { result ≡ same_neg fact.now.neg neg }
{
    if fact.neg { neg } else { !neg }
}

/// Whether the fact may be an instance of x = y, or of its negation.
fn may_be(neg: bool, x: &[Mono], y: &[Mono], fact: &Lit) -> bool
    ensures { result ≡ Alike.may_be neg x.now y.now fact.now }
{
    may_be_equation(x, y, &fact.atom) && has_sign(fact, neg)
}

/// Whether one of the facts may be an instance of x = y, or of its negation.
fn has_equation(facts: &[Lit], neg: bool, x: &[Mono], y: &[Mono]) -> bool
    ensures { result ≡ list_any (Alike.may_be neg x.now y.now) facts.now }
{
    facts.iter().any(|fact| may_be(neg, x, y, fact))
}

/// Whether one of the facts may be an instance of the shape, or of its negation.
pub fn may_be_a_fact(facts: &Facts, neg: bool, shape: &Shape) -> bool
    ensures { result ≡ false → NoneSuffices strength_is.Facts facts.now
        (record { neg = neg; atom = atom_of shape.now }) }
{
    match shape {
        Shape::MagEq(x, y) => has_equation(facts.items(), neg, x, y),
        _ => true,
    }
}
