//! Areas that no fact names: such an area may be of any size, so that it differs from another does
//! not follow.

ghost use Rattle.std.specs.Prelude.{◌≡◌, [], ◌∷◌, IfOk, OnOk, IsTrue, MatchOption, map};
ghost use Rattle.e_clause.specs.Assignment.{terms_of_atom};
ghost use Rattle.e_transfer.specs.Areas;
ghost use Rattle.e_transfer.specs.Areas.{name_areas_of, ListsAlso, AreTermsAlike};
ghost use Rattle.e_transfer.specs.Areas.{AreOneEach, AreEqualTerms};

use crate::clause::{clause_len, pattern_at};
use crate::marks::is_area;
use e_clause::{Pattern, Row, Shape};
use e_facts::Facts;
use e_literal::{Atom, Lit, Mono, Term, canonical};
use std::alloc::{AllocError, Global};

fn add_area(areas: &mut Vec<Term>, term: Term) -> Result<(), AllocError>
    ensures { OnOk result (ListsAlso (term ∷ []) areas.old.items areas.new.items) }
{
    if is_area(term) {
        areas.push(canonical(term))?;
    }
    Ok(())
}

fn add_sum(areas: &mut Vec<Term>, sum: &[Mono]) -> Result<(), AllocError>
    ensures { OnOk result (ListsAlso (map (λ m. m.term) sum.now) areas.old.items areas.new.items) }
{
    for m in sum {
        add_area(areas, m.term)?;
    }
    Ok(())
}

fn add_areas(areas: &mut Vec<Term>, fact: &Lit) -> Result<(), AllocError>
    ensures { OnOk result
        (ListsAlso (terms_of_atom fact.now.atom) areas.old.items areas.new.items) }
{
    if let Atom::MagEq(x, y) | Atom::MagLt(x, y) = &fact.atom {
        add_sum(areas, x.items())?;
        add_sum(areas, y.items())?;
    }
    Ok(())
}

/// The areas that the facts name, each in the one way of writing it.
pub fn areas_of(alloc: Global, facts: &Facts) -> Result<Vec<Term>, AllocError>
    ensures { IfOk result (λ v. IsTrue (name_areas_of v.items facts.now)) }
{
    let mut areas = Vec::new(alloc);
    for fact in facts.items() {
        add_areas(&mut areas, fact)?;
    }
    Ok(areas)
}

/// Whether the term is one of these.
pub fn is_one_of(areas: &[Term], term: Term) -> bool
    ensures { result ≡ Areas.is_among_areas areas.now term }
{
    let term = canonical(term);
    areas.iter().any(|area| term == *area)
}

/// The two terms, if each is taken as often as the other.
fn terms_alike(m: Mono, n: Mono) -> Option<(Term, Term)>
    ensures { MatchOption result (Unit {0}) (AreTermsAlike m n) }
{
    if m.coeff == n.coeff {
        Some((m.term, n.term))
    } else {
        None
    }
}

/// The two terms, where each sum is of one, and each is taken as often as the other.
pub fn terms_of_two(x: &[Mono], y: &[Mono]) -> Option<(Term, Term)>
    ensures { MatchOption result (Unit {0}) (AreOneEach x.now y.now) }
{
    match (x, y) {
        ([m], [n]) => terms_alike(*m, *n),
        _ => None,
    }
}

/// The two terms, where the pattern says of them alone that they are equal.
pub fn equal_terms(pattern: &Pattern) -> Option<(Term, Term)>
    ensures { MatchOption result (Unit {0}) (AreEqualTerms pattern.now) }
{
    match pattern {
        Pattern::Is(Shape::MagEq(x, y)) => terms_of_two(x, y),
        _ => None,
    }
}

/// Where a clause says of two terms alone that they are equal, and of which.
#[derive(Clone, Copy)]
pub struct Equality {
    pub at: usize,
    pub one: Term,
    pub other: Term,
}

/// The place of the clause that says of two terms alone that they are equal, if there is one.
pub fn place_of_equality(row: &Row) -> Option<Equality> {
    for at in 0..clause_len(row) {
        let (pattern, negated) = pattern_at(row, at);
        if !negated {
            if let Some((one, other)) = equal_terms(pattern) {
                return Some(Equality { at, one, other });
            }
        }
    }
    None
}
