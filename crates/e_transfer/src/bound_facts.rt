//! Whether a fact may be what an instance needs at a place of its clause, by what is known of its
//! variables.

ghost use Rattle.std.specs.Prelude.{◌≡◌, ℕ, ◌<◌, length, slice_get, Some, false};
ghost use Rattle.std.specs.List.{list_any};
ghost use Rattle.e_clause.specs.Instance.{clause_of};
ghost use Rattle.e_clause.specs.Table.{table};
ghost use Rattle.e_clause.specs.Views.{atom_of, row_of};
ghost use Rattle.e_transfer.specs.GivenGoals.{NoneWithEquations};
ghost use Rattle.e_transfer.specs.Marks;
ghost use Rattle.e_transfer.specs.inner.Angles;
ghost use Rattle.e_transfer.specs.inner.BoundFacts;
ghost use Rattle.e_transfer.specs.inner.BoundFacts.{NoneHoldsWith};

use crate::clause::{clause_len, pattern_at};
use crate::equations::Equation;
use crate::listing::Triple;
use crate::marks::{has_to_be_fact, mark, parts, relation_of};
use crate::query::Query;
use e_clause::{Row, Shape};

/// What is known of the numbers of a literal.
pub type Known = (Option<u16>, Option<u16>, Option<u16>);

/// The number of a variable, if the equations give it one.
fn known(equations: &[Equation], variable: usize) -> Option<u16>
    ensures { result ≡ BoundFacts.known_of equations.now variable }
{
    for equation in equations {
        if let Equation::Is(bound, number) = equation {
            if *bound == variable {
                return Some(*number);
            }
        }
    }
    None
}

fn point(equations: &[Equation], at: u16) -> Option<u16>
    ensures { result ≡ BoundFacts.known_of equations.now at }
{
    known(equations, at as usize)
}

fn line(row: &Row, equations: &[Equation], at: u16) -> Option<u16>
    ensures { result ≡ BoundFacts.known_line (row_of row.now) equations.now at }
{
    known(equations, row.points as usize + at as usize)
}

fn circle(row: &Row, equations: &[Equation], at: u16) -> Option<u16>
    ensures { result ≡ BoundFacts.known_circle (row_of row.now) equations.now at }
{
    known(
        equations,
        row.points as usize + row.lines as usize + at as usize,
    )
}

/// What is known of the numbers of a diagram atom over variables.
fn known_of_shape(row: &Row, es: &[Equation], shape: &Shape) -> Known
    ensures { result ≡ BoundFacts.known_of_atom (row_of row.now) es.now (atom_of shape.now) }
{
    match shape {
        Shape::On(x, l) => (point(es, *x), line(row, es, *l), None),
        Shape::OnC(x, c) | Shape::Inside(x, c) | Shape::Center(x, c) => {
            (point(es, *x), circle(row, es, *c), None)
        }
        Shape::Between(x, y, z) => (point(es, *x), point(es, *y), point(es, *z)),
        Shape::Same(x, y, l) => (point(es, *x), point(es, *y), line(row, es, *l)),
        Shape::MeetLL(l, m) | Shape::EqL(l, m) => (line(row, es, *l), line(row, es, *m), None),
        Shape::MeetLC(l, c) => (line(row, es, *l), circle(row, es, *c), None),
        Shape::MeetCC(c, d) | Shape::EqC(c, d) => (circle(row, es, *c), circle(row, es, *d), None),
        Shape::EqP(x, y) => (point(es, *x), point(es, *y), None),
        Shape::MagEq(_, _) | Shape::MagLt(_, _) => (None, None, None),
    }
}

// Whether nothing is known: else what the relations of the facts tell is all that is known. It is a
// matter of speed alone.
pub fn is_unknown(known: Known) -> bool {
    known.0.is_none() && known.1.is_none() && known.2.is_none()
}

/// Whether a number may be this one, by what is known of it.
fn may_be(known: Option<u16>, number: u16) -> bool
    ensures { result ≡ Angles.may_be known number }
{
    match known {
        Some(known) => known == number,
        None => true,
    }
}

/// Whether the numbers are those that are known.
pub fn fits(known: Known, numbers: Triple) -> bool
    ensures { result ≡ BoundFacts.fits known numbers }
{
    may_be(known.0, numbers.0) && (may_be(known.1, numbers.1) && may_be(known.2, numbers.2))
}

/// Whether one of the three numbers is those that are known.
pub fn is_any(known: Known, numbers: &[Triple]) -> bool
    ensures { result ≡ list_any (BoundFacts.fits known) numbers.now }
{
    numbers.iter().any(|triple| fits(known, *triple))
}

/// Whether a fact with the mark has such numbers.
fn may_be_fact(query: &Query, mark: usize, known: Known) -> bool
    requires { mark < 28 }
    ensures { result ≡ BoundFacts.may_be_among mark known query.now.facts.now }
{
    is_any(known, query.listing[mark].items())
}

/// Whether an instance whose variables are so may have at this place of the clause the goal, or a
/// literal whose negation holds.
fn may_hold(query: &Query, goal_mark: usize, row: &Row, es: &[Equation], at: usize) -> bool
    requires in_clause { at < length (clause_of (row_of row.now)) }
    requires of_goal { goal_mark ≡ Marks.lit_mark query.now.goal.now }
    ensures { result ≡ false → NoneHoldsWith query.now.strength query.now.facts.now
        query.now.goal.now (row_of row.now) es.now at }
{
    let (pattern, negated) = pattern_at(row, at);
    let (shape, neg) = parts(pattern, negated);
    let relation = relation_of(shape);
    if !has_to_be_fact(relation, neg, goal_mark) {
        return true;
    }
    let known = known_of_shape(row, es, shape);
    if is_unknown(known) {
        return true;
    }
    may_be_fact(query, mark(relation, !neg), known)
}

/// Whether at each place of the clause an instance whose variables are so may have the goal, or a
/// literal whose negation holds.
pub fn may_all_hold(query: &Query, goal_mark: usize, row: &Row, es: &[Equation]) -> bool
    requires of_goal { goal_mark ≡ Marks.lit_mark query.now.goal.now }
    ensures { result ≡ false → (rule place : ℕ) → slice_get table rule ≡ Some (row_of row.now)
        → NoneWithEquations query.now.strength query.now.scope query.now.facts.now
        query.now.goal.now rule place es.now }
{
    (0..clause_len(row)).all(|at| may_hold(query, goal_mark, row, es, at))
}
