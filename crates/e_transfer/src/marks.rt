//! Which relations occur among the facts, and with which sign: what an instance needs of another
//! relation or sign is no fact.

ghost use Rattle.std.specs.Prelude.{◌≡◌, ◌≢◌, ℕ, ◌<◌, ◌+◌, length, slice_get, IsTrue, Some, true, false};
ghost use Rattle.e_literal.specs.Literal.{negation};
ghost use Rattle.e_literal.specs.declared.literal.Lit.{Lit};
ghost use Rattle.e_clause.specs.Instance.{clause_of};
ghost use Rattle.e_clause.specs.RuleKinds.{rule_count, diagram_rule_count};
ghost use Rattle.e_clause.specs.Rows;
ghost use Rattle.e_clause.specs.Table.{table};
ghost use Rattle.e_clause.specs.Views.{atom_of, row_of};
ghost use Rattle.e_transfer.specs.GivenGoals.{signed_literal, NoneAt};
ghost use Rattle.e_transfer.specs.Marks;
ghost use Rattle.e_transfer.specs.Marks.{are_marked, NoneHolds};

use crate::clause::{clause_len, pattern_at};
use crate::kinds::may_be_a_fact;
use crate::order::marks_needed;
use crate::query::{Query, asks_facts};
use e_clause::{Pattern, Row, Shape};
use e_facts::Facts;
use e_literal::{Atom, Lit, Mono, Term};

// The relations, numbered: those between objects come first, and then the two between sums.
const ON: usize = 0;

const ON_CIRCLE: usize = 1;

const INSIDE: usize = 2;

const CENTER: usize = 3;

const BETWEEN: usize = 4;

const SAME_SIDE: usize = 5;

const LINES_MEET: usize = 6;

const LINE_MEETS_CIRCLE: usize = 7;

const CIRCLES_MEET: usize = 8;

const EQUAL_POINTS: usize = 9;

const EQUAL_LINES: usize = 10;

const EQUAL_CIRCLES: usize = 11;

const EQUAL_SUMS: usize = 12;

const LESS_SUM: usize = 13;

/// How many relations there are between objects.
const OF_DIAGRAMS: usize = EQUAL_SUMS;

/// Two marks for each relation: of it, and of its negation.
pub const MARKS: usize = 2 * (LESS_SUM + 1);

/// The number of the atom's relation.
fn relation(atom: &Atom) -> usize
    ensures is { result ≡ Marks.relation_number atom.now }
    ensures below { result < 14 }
{
    match atom {
        Atom::On(_, _) => ON,
        Atom::OnC(_, _) => ON_CIRCLE,
        Atom::Inside(_, _) => INSIDE,
        Atom::Center(_, _) => CENTER,
        Atom::Between(_, _, _) => BETWEEN,
        Atom::Same(_, _, _) => SAME_SIDE,
        Atom::MeetLL(_, _) => LINES_MEET,
        Atom::MeetLC(_, _) => LINE_MEETS_CIRCLE,
        Atom::MeetCC(_, _) => CIRCLES_MEET,
        Atom::EqP(_, _) => EQUAL_POINTS,
        Atom::EqL(_, _) => EQUAL_LINES,
        Atom::EqC(_, _) => EQUAL_CIRCLES,
        Atom::MagEq(_, _) => EQUAL_SUMS,
        Atom::MagLt(_, _) => LESS_SUM,
    }
}

/// The number of the relation of an atom over variables.
pub fn relation_of(shape: &Shape) -> usize
    ensures is { result ≡ Marks.relation_number (atom_of shape.now) }
    ensures below { result < 14 }
{
    match shape {
        Shape::On(_, _) => ON,
        Shape::OnC(_, _) => ON_CIRCLE,
        Shape::Inside(_, _) => INSIDE,
        Shape::Center(_, _) => CENTER,
        Shape::Between(_, _, _) => BETWEEN,
        Shape::Same(_, _, _) => SAME_SIDE,
        Shape::MeetLL(_, _) => LINES_MEET,
        Shape::MeetLC(_, _) => LINE_MEETS_CIRCLE,
        Shape::MeetCC(_, _) => CIRCLES_MEET,
        Shape::EqP(_, _) => EQUAL_POINTS,
        Shape::EqL(_, _) => EQUAL_LINES,
        Shape::EqC(_, _) => EQUAL_CIRCLES,
        Shape::MagEq(_, _) => EQUAL_SUMS,
        Shape::MagLt(_, _) => LESS_SUM,
    }
}

/// The mark of a relation, or of its negation.
pub fn mark(relation: usize, neg: bool) -> usize
    requires { relation < 14 }
    ensures is { result ≡ Marks.mark_number relation neg }
    ensures below { result < 28 }
{
    if neg { 2 * relation + 1 } else { 2 * relation }
}

/// The mark of the literal's negation.
pub fn turned_mark_of(lit: &Lit) -> usize
    ensures { result ≡ Marks.lit_mark (negation lit.now) }
{
    mark(relation(&lit.atom), !lit.neg)
}

/// The mark of the literal's relation and sign.
pub fn mark_of(lit: &Lit) -> usize
    ensures is { result ≡ Marks.lit_mark lit.now }
    ensures below { result < 28 }
{
    mark(relation(&lit.atom), lit.neg)
}

/// Whether the literal says that two sums are equal.
pub fn is_equation(lit: &Lit) -> bool
    ensures { result ≡ false → Marks.lit_mark lit.now ≢ Marks.mark_number 12 false }
{
    mark_of(lit) == mark(EQUAL_SUMS, false)
}

// Whether the relation is the equality of points. It is a matter of speed alone.
pub fn is_equality_of_points(relation: usize) -> bool {
    relation == EQUAL_POINTS
}

/// The marks of the facts.
pub fn marks_of(facts: &Facts) -> [bool; MARKS]
    ensures { IsTrue (are_marked result facts.now) }
{
    let mut marks = [false; MARKS];
    for fact in facts.items() {
        marks[mark_of(fact)] = true;
    }
    marks
}

/// Whether the term is an area.
pub fn is_area(term: Term) -> bool
    ensures { result ≡ Marks.is_area_term term }
{
    matches!(term, Term::Area(_, _, _))
}

fn are_areas(sum: &[Mono]) -> bool
    ensures { result ≡ Marks.all_are_areas sum.now }
{
    sum.iter().all(|m| is_area(m.term))
}

/// Whether the literal says that areas differ, or that one is less: it is false where all areas are
/// 0.
fn is_strict_of_areas(neg: bool, shape: &Shape) -> bool
    ensures { result ≡ Marks.is_strict_on_areas neg (atom_of shape.now) }
{
    match (neg, shape) {
        (true, Shape::MagEq(x, y)) | (false, Shape::MagLt(x, y)) => are_areas(x) && are_areas(y),
        _ => false,
    }
}

/// The atom of a pattern, or of its negation, and its sign.
pub fn parts(pattern: &Pattern, negated: bool) -> (&Shape, bool)
    ensures { signed_literal negated pattern.now
        ≡ record { neg = result.1; atom = atom_of result.0.now } }
{
    match pattern {
        Pattern::Is(shape) => (shape, negated),
        Pattern::Not(shape) => (shape, !negated),
    }
}

/// Whether a literal of this relation and sign is of diagrams, and has not the goal's mark: then
/// what negates it has to be a fact.
pub fn has_to_be_fact(relation: usize, neg: bool, goal_mark: usize) -> bool
    requires { relation < 14 }
    ensures diagram { result ≡ true → relation < 12 }
    ensures unlike { result ≡ true → Marks.mark_number relation neg ≢ goal_mark }
{
    relation < OF_DIAGRAMS && mark(relation, neg) != goal_mark
}

/// The relation and the sign at a place of the clause.
pub fn relation_at(row: &Row, at: usize) -> (usize, bool)
    requires { at < length (clause_of (row_of row.now)) }
    ensures is { (l : Lit) × (slice_get (clause_of (row_of row.now)) at ≡ Some l)
        × (result.0 ≡ Marks.relation_number l.atom) × (result.1 ≡ l.neg) }
    ensures below { result.0 < 14 }
{
    let (pattern, negated) = pattern_at(row, at);
    let (shape, neg) = parts(pattern, negated);
    (relation_of(shape), neg)
}

/// Whether a literal whose negation has this mark does not fit: it is not the goal, whose negation
/// has another, and its negation has to be a fact, but none has the mark.
fn is_lacking(query: &Query, goal_turned: usize, needed: usize) -> bool
    requires { goal_turned ≡ Marks.lit_mark (negation query.now.goal.now) }
    ensures { result ≡ true → (l : Lit) → needed ≡ Marks.lit_mark (negation l)
        → (r : Rows.Row) → (at : ℕ) → slice_get (clause_of r) at ≡ Some l
        → NoneHolds query.now.strength query.now.facts.now query.now.goal.now r at }
{
    if needed == goal_turned || needed >= MARKS {
        return false;
    }
    if needed >= 2 * OF_DIAGRAMS && !asks_facts(query.strength) {
        return false;
    }
    !query.marks[needed]
}

/// Whether each instance of the transfer clause at this place of the table lacks a fact.
pub fn lacks_fact(query: &Query, goal_turned: usize, at: u8) -> bool
    requires in_table { diagram_rule_count + at < rule_count }
    requires of_goal { goal_turned ≡ Marks.lit_mark (negation query.now.goal.now) }
    ensures { result ≡ true → (place : ℕ) → NoneAt query.now.strength query.now.scope
        query.now.facts.now query.now.goal.now (diagram_rule_count + at) place }
{
    let marks = marks_needed(at);
    for needed in marks {
        if is_lacking(query, goal_turned, usize::from(*needed)) {
            return true;
        }
    }
    false
}

/// Whether the negation of a literal at this place may hold. Where facts alone are asked it does not
/// if it is an equation, or says that sums differ, and each such fact has a term of another kind;
/// else it does not where it says that areas differ, or that one is less, and there are values with
/// which the facts are true and all areas are 0.
fn may_follow(query: &Query, row: &Row, at: usize) -> bool
    requires { at < length (clause_of (row_of row.now)) }
    ensures { result ≡ false → (l : Lit) × (slice_get (clause_of (row_of row.now)) at ≡ Some l)
        × Marks.NoneSuffices query.now.strength query.now.facts.now (negation l) }
{
    let (pattern, negated) = pattern_at(row, at);
    let (shape, neg) = parts(pattern, negated);
    if asks_facts(query.strength) {
        return may_be_a_fact(query.facts, !neg, shape);
    }
    let Some(hints) = query.hints else {
        return true;
    };
    if !hints.flat_model {
        return true;
    }
    !is_strict_of_areas(!neg, shape)
}

/// Whether an instance may have the goal, which has this mark, at the last place of the clause, or
/// there a literal whose negation may hold.
pub fn last_may_hold(query: &Query, goal_mark: usize, row: &Row) -> bool
    requires of_goal { goal_mark ≡ Marks.lit_mark query.now.goal.now }
    ensures { result ≡ false → (rule place : ℕ) → slice_get table rule ≡ Some (row_of row.now)
        → NoneAt query.now.strength query.now.scope query.now.facts.now query.now.goal.now
        rule place }
{
    let count = clause_len(row);
    if count == 0 {
        return true;
    }
    let (relation, neg) = relation_at(row, count - 1);
    let own = mark(relation, neg);
    if own == goal_mark {
        return true;
    }
    may_follow(query, row, count - 1)
}
