//! Which numbers may come next in the search at one place of a clause: those with which a literal
//! that has to be a fact may be one.

ghost use Rattle.std.specs.Prelude.{◌≡◌, ◌≢◌, ◌<◌, ◌⊎◌, ℕ, List, length, slice_get, IfSome, Some, true, false};
ghost use Rattle.e_literal.specs.declared.literal.Lit.{Lit};
ghost use Rattle.e_clause.specs.Instance.{clause_of};
ghost use Rattle.e_clause.specs.Views.{atom_of, row_of};
ghost use Rattle.e_transfer.specs.inner.Candidates;
ghost use Rattle.e_transfer.specs.inner.Equations;
ghost use Rattle.e_transfer.specs.inner.Candidates.{variables_of_atom, option_at, AreSeen};
ghost use Rattle.e_transfer.specs.inner.ListedTerms.{IsUnlisted, AreSeenPoints, AreSeenZero};

use crate::bound_facts::{Known, fits, is_any};
use crate::clause::pattern_at;
use crate::listing::Triple;
use crate::marks::parts;
use crate::numbers::Numbers;
use crate::walk::CANDIDATES;
use e_clause::{Row, Shape};
use e_literal::Term;

/// The variables of a literal, in the order of its numbers.
pub type Variables = (Option<usize>, Option<usize>, Option<usize>);

/// One of the three numbers of a literal.
#[derive(Clone, Copy)]
pub enum Slot {
    First,
    Second,
    Third,
}

fn line(row: &Row, at: u16) -> Option<usize>
    ensures { result ≡ Some (Equations.line_variable (row_of row.now) at) }
{
    Some(row.points as usize + at as usize)
}

fn circle(row: &Row, at: u16) -> Option<usize>
    ensures { result ≡ Some (Equations.circle_variable (row_of row.now) at) }
{
    Some(row.points as usize + row.lines as usize + at as usize)
}

/// The variables of a diagram atom.
fn variables_of_shape(row: &Row, shape: &Shape) -> Variables
    ensures { result ≡ variables_of_atom (row_of row.now) (atom_of shape.now) }
{
    match shape {
        Shape::On(x, l) => (Some(*x as usize), line(row, *l), None),
        Shape::OnC(x, c) | Shape::Inside(x, c) | Shape::Center(x, c) => {
            (Some(*x as usize), circle(row, *c), None)
        }
        Shape::Between(x, y, z) => (Some(*x as usize), Some(*y as usize), Some(*z as usize)),
        Shape::Same(x, y, l) => (Some(*x as usize), Some(*y as usize), line(row, *l)),
        Shape::MeetLL(l, m) | Shape::EqL(l, m) => (line(row, *l), line(row, *m), None),
        Shape::MeetLC(l, c) => (line(row, *l), circle(row, *c), None),
        Shape::MeetCC(c, d) | Shape::EqC(c, d) => (circle(row, *c), circle(row, *d), None),
        Shape::EqP(x, y) => (Some(*x as usize), Some(*y as usize), None),
        Shape::MagEq(_, _) | Shape::MagLt(_, _) => (None, None, None),
    }
}

/// The variables of a term.
fn variables_of_term(term: Term) -> Variables
    ensures { result ≡ Candidates.variables_of_term term }
{
    match term {
        Term::Seg(x, y) => (Some(usize::from(x)), Some(usize::from(y)), None),
        Term::Ang(x, y, z) | Term::Area(x, y, z) => (
            Some(usize::from(x)),
            Some(usize::from(y)),
            Some(usize::from(z)),
        ),
        Term::Right => (None, None, None),
    }
}

/// The variables at a place of the clause.
pub fn variables_at(row: &Row, at: usize) -> Variables
    requires { at < length (clause_of (row_of row.now)) }
    ensures { (l : Lit) × (slice_get (clause_of (row_of row.now)) at ≡ Some l)
        × (result ≡ variables_of_atom (row_of row.now) l.atom) }
{
    let (pattern, negated) = pattern_at(row, at);
    let (shape, _neg) = parts(pattern, negated);
    variables_of_shape(row, shape)
}

/// The number of a variable, if it is chosen.
fn known_number(numbers: &Numbers, variable: Option<usize>) -> Option<u16>
    ensures { result ≡ Candidates.known_number numbers.now.positions.now numbers.now.part.now
        variable }
{
    let place = numbers.positions.get(variable?)?;
    match numbers.part.get(*place) {
        Some(number) => Some(*number),
        None => None,
    }
}

/// What is known of the numbers of the variables.
pub fn known_numbers(numbers: &Numbers, variables: Variables) -> Known
    ensures { result ≡ Candidates.known_numbers numbers.now.positions.now numbers.now.part.now
        variables }
{
    (
        known_number(numbers, variables.0),
        known_number(numbers, variables.1),
        known_number(numbers, variables.2),
    )
}

/// Whether the next number is that of the variable.
fn is_next(numbers: &Numbers, variable: Option<usize>) -> bool
    ensures { result ≡ Candidates.is_next numbers.now.positions.now numbers.now.part.now variable }
{
    match variable {
        Some(variable) => match numbers.positions.get(variable) {
            Some(place) => *place == numbers.part.len(),
            None => false,
        },
        None => false,
    }
}

/// The place of a variable among these whose number comes next, if there is one.
pub fn next_of(numbers: &Numbers, variables: Variables) -> Option<Slot>
    ensures { IfSome result (λ s. Candidates.is_next numbers.now.positions.now
        numbers.now.part.now (option_at s variables) ≡ true) }
{
    if is_next(numbers, variables.0) {
        return Some(Slot::First);
    }
    if is_next(numbers, variables.1) {
        return Some(Slot::Second);
    }
    if is_next(numbers, variables.2) {
        return Some(Slot::Third);
    }
    None
}

/// What is known without the number at a place.
fn without(known: Known, place: Slot) -> Known
    ensures { result ≡ Candidates.with_option place None known }
{
    match place {
        Slot::First => (None, known.1, known.2),
        Slot::Second => (known.0, None, known.2),
        Slot::Third => (known.0, known.1, None),
    }
}

fn number_at(triple: Triple, place: Slot) -> u16
    ensures { result ≡ Candidates.number_at place triple }
{
    match place {
        Slot::First => triple.0,
        Slot::Second => triple.1,
        Slot::Third => triple.2,
    }
}

/// Marks a number as seen.
fn add_seen(seen: &mut [bool; CANDIDATES], number: u16)
    ensures { (n : ℕ) → slice_get seen.new n ≡ Some false
        → (slice_get seen.old n ≡ Some false) × (n ≢ number) }
{
    let at = usize::from(number);
    if at < CANDIDATES {
        seen[at] = true;
    }
}

/// The numbers at a place of the triples that fit.
pub fn seen_numbers(known: Known, place: Slot, triples: &[Triple]) -> [bool; CANDIDATES]
    ensures { AreSeen known place triples.now result }
{
    let others = without(known, place);
    let mut seen = [false; CANDIDATES];
    for triple in triples {
        if fits(others, *triple) {
            add_seen(&mut seen, number_at(*triple, place));
        }
    }
    seen
}

/// Whether the points of the term are none of these, whatever numbers come next.
pub fn is_unlisted(numbers: &Numbers, points: &[Triple], term: Term) -> bool
    ensures { result ≡ true → (rest : List ℕ) → IsUnlisted points.now numbers.now rest term }
{
    !is_any(known_numbers(numbers, variables_of_term(term)), points)
}

/// The numbers that may come next with which the points of the term are among these.
pub fn seen_points(numbers: &Numbers, points: &[Triple], term: Term) -> Option<[bool; CANDIDATES]>
    ensures { IfSome result (AreSeenPoints points.now numbers.now term) }
{
    let variables = variables_of_term(term);
    let place = next_of(numbers, variables)?;
    Some(seen_numbers(known_numbers(numbers, variables), place, points))
}

/// The numbers that may come next with which the points of the segment are among these, or are one
/// point.
pub fn seen_zero(numbers: &Numbers, points: &[Triple], term: Term) -> Option<[bool; CANDIDATES]>
    ensures { IfSome result (AreSeenZero points.now numbers.now term) }
{
    let variables = variables_of_term(term);
    let place = next_of(numbers, variables)?;
    let known = known_numbers(numbers, variables);
    let other = match place {
        Slot::First => known.1?,
        Slot::Second => known.0?,
        Slot::Third => return None,
    };
    let mut seen = seen_numbers(known, place, points);
    add_seen(&mut seen, other);
    Some(seen)
}

/// The numbers that both see.
pub fn seen_by_both(one: &[bool; CANDIDATES], other: &[bool; CANDIDATES]) -> [bool; CANDIDATES]
    ensures { (n : ℕ) → slice_get result n ≡ Some false
        → (slice_get one.now n ≡ Some false) ⊎ (slice_get other.now n ≡ Some false) }
{
    let mut seen = *one;
    for n in 0..CANDIDATES {
        if !other[n] {
            seen[n] = false;
        }
    }
    seen
}

/// The numbers that one of the two sees.
pub fn seen_by_one(one: &[bool; CANDIDATES], other: &[bool; CANDIDATES]) -> [bool; CANDIDATES]
    ensures { (n : ℕ) → slice_get result n ≡ Some false
        → (slice_get one.now n ≡ Some false) × (slice_get other.now n ≡ Some false) }
{
    let mut seen = *one;
    for n in 0..CANDIDATES {
        if other[n] {
            seen[n] = true;
        }
    }
    seen
}
