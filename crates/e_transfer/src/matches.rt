//! How a goal may match a place of a clause, and what it says of the variables then.

ghost use Rattle.std.specs.Prelude.{◌≡◌, ◌≤◌, ◌⊎◌, ◌++◌, map, take, if◌then◌else◌};
ghost use Rattle.std.specs.Prelude.{List, option_to_list, IfOk, OnOk, IsTrue, [], ◌∷◌};
ghost use Rattle.e_literal.specs.Literal.{negation};
ghost use Rattle.e_literal.specs.declared.object.Mono.{Mono};
ghost use Rattle.e_clause.specs.Views.{atom_of, lit_of_pattern, row_of};
ghost use Rattle.e_transfer.specs.inner.Equations.{equations_of_points, have_contrary};
ghost use Rattle.e_transfer.specs.inner.Matches;
ghost use Rattle.e_transfer.specs.inner.Matches.{AgreeAlso, Cover, CoverAtom, CoverSums};
ghost use Rattle.e_transfer.specs.inner.Matches.{AreTermsLeft, AreTermsOf, all_cancel};
ghost use Rattle.e_transfer.specs.inner.Matches.{none_cancels, points_of_term, points_of_sum};
ghost use Rattle.e_transfer.specs.inner.Matches.{cancellations_of_terms, cancellations_of_sum};

use crate::equations::{
    Equation, Points, add_equations, equations_of_atom, equations_of_terms, gives_other,
};
use e_clause::{Pattern, Row, Shape};
use e_literal::{Atom, Items, Lit, Mono, Term, coefficient_in, is_one_term};
use std::alloc::{AllocError, Global};

/// Matches: each is a list of equations.
pub type MatchList = Vec<Items<Equation>>;

/// A term may be written in at most so many orders.
const MOST_ORDERS: usize = 6;

/// Two say so much at most.
const MOST_EQUATIONS: usize = 6;

/// The orders in which a term may be written, and how many they are: what comes after them is not
/// meant.
fn orders(term: Term) -> ([Term; MOST_ORDERS], usize)
    ensures orders { take result.1 result.0 ≡ Matches.term_orders term }
    ensures few { result.1 ≤ 6 }
{
    match term {
        Term::Seg(a, b) => {
            let other = Term::Seg(b, a);
            ([term, other, term, other, term, other], 2)
        }
        Term::Ang(a, b, c) => {
            let other = Term::Ang(c, b, a);
            ([term, other, term, other, term, other], 2)
        }
        Term::Area(a, b, c) => {
            let orders = [
                term,
                Term::Area(a, c, b),
                Term::Area(b, a, c),
                Term::Area(b, c, a),
                Term::Area(c, a, b),
                Term::Area(c, b, a),
            ];
            (orders, MOST_ORDERS)
        }
        Term::Right => ([term; MOST_ORDERS], 1),
    }
}

/// Adds a match, if there is one.
fn add_some(matches: &mut MatchList, equations: Option<Items<Equation>>) -> Result<(), AllocError>
    ensures { OnOk result (matches.new.items ≡ matches.old.items ++ option_to_list equations) }
{
    if let Some(equations) = equations {
        matches.push(equations)?;
    }
    Ok(())
}

/// Adds the ways in which the term may be the goal's.
fn add_points(points: &mut Vec<Points>, term: Term, goal: Term) -> Result<(), AllocError>
    ensures { OnOk result (points.new.items ≡ points.old.items ++ points_of_term term goal) }
{
    match (term, goal) {
        (Term::Seg(x, y), Term::Seg(a, b)) => {
            points.extend_from_slice(&[Points::Two(x, y, a, b), Points::Two(x, y, b, a)])
        }
        (Term::Ang(x, y, z), Term::Ang(a, b, c)) => points.extend_from_slice(&[
            Points::Three(x, y, z, a, b, c),
            Points::Three(x, y, z, c, b, a),
        ]),
        (Term::Area(x, y, z), Term::Area(a, b, c)) => points.extend_from_slice(&[
            Points::Three(x, y, z, a, b, c),
            Points::Three(x, y, z, a, c, b),
            Points::Three(x, y, z, b, a, c),
            Points::Three(x, y, z, b, c, a),
            Points::Three(x, y, z, c, a, b),
            Points::Three(x, y, z, c, b, a),
        ]),
        (Term::Right, Term::Right) => points.extend_from_slice(&[Points::Nothing]),
        _ => Ok(()),
    }
}

/// The ways in which one term of two sums may be the goal's.
fn points_in_sums(
    alloc: Global,
    x: &[Mono],
    y: &[Mono],
    goal: Term,
) -> Result<Vec<Points>, AllocError>
    ensures { IfOk result (λ v. v.items ≡ points_of_sum goal x.now ++ points_of_sum goal y.now) }
{
    let mut points = Vec::new(alloc);
    for m in x {
        add_points(&mut points, m.term, goal)?;
    }
    for m in y {
        add_points(&mut points, m.term, goal)?;
    }
    Ok(points)
}

/// Each of these as a match.
fn matches_of_points(alloc: Global, points: &[Points]) -> Result<MatchList, AllocError>
    ensures { IfOk result (λ v. v.items ≡ map equations_of_points points.now) }
{
    let mut matches = Vec::new(alloc);
    for one in points {
        matches.push(equations_of(alloc, *one)?)?;
    }
    Ok(matches)
}

fn equations_of(alloc: Global, points: Points) -> Result<Items<Equation>, AllocError>
    ensures { IfOk result (λ v. v ≡ equations_of_points points) }
{
    let mut equations = Vec::new(alloc);
    add_equations(&mut equations, points)?;
    Ok(Items::new(equations))
}

/// Adds the ways in which two terms over variables may be one.
fn add_cancellations(
    alloc: Global,
    matches: &mut MatchList,
    term: Term,
    other: Term,
) -> Result<(), AllocError>
    ensures { OnOk result
        (matches.new.items ≡ matches.old.items ++ cancellations_of_terms term other) }
{
    let (orders, many) = orders(other);
    let list = &orders[..many];
    for order in list {
        add_some(matches, equations_of_terms(alloc, term, *order)?)?;
    }
    Ok(())
}

/// The ways in which two sums may cancel: the first term of the one is a term of the other.
fn cancellations(alloc: Global, x: &[Mono], y: &[Mono]) -> Result<MatchList, AllocError>
    ensures { IfOk result (λ v. v.items ≡ Matches.cancelling_matches x.now y.now) }
{
    match x {
        [first, ..] if first.coeff != 0 => cancellations_with(alloc, first.term, y),
        _ => match_without_equations(alloc),
    }
}

/// The ways in which a term may be one with a term of a sum.
fn cancellations_with(alloc: Global, term: Term, sum: &[Mono]) -> Result<MatchList, AllocError>
    ensures { IfOk result (λ v. v.items ≡ cancellations_of_sum term sum.now) }
{
    let mut matches = Vec::new(alloc);
    for m in sum {
        add_cancellations(alloc, &mut matches, term, m.term)?;
    }
    Ok(matches)
}

/// The one match that binds no variable.
fn match_without_equations(alloc: Global) -> Result<MatchList, AllocError>
    ensures { IfOk result (λ v. v.items ≡ [] ∷ []) }
{
    let mut matches = Vec::new(alloc);
    matches.push(Items::empty(alloc))?;
    Ok(matches)
}

/// What both say together.
fn equations_of_both(
    alloc: Global,
    first: Points,
    second: Points,
) -> Result<Items<Equation>, AllocError>
    ensures { IfOk result (λ v. v ≡ equations_of_points first ++ equations_of_points second) }
{
    let mut equations = Vec::with_capacity(alloc, MOST_EQUATIONS)?;
    add_equations(&mut equations, first)?;
    add_equations(&mut equations, second)?;
    Ok(Items::new(equations))
}

/// Whether a variable is one point by the first, and another by the second.
fn are_contrary(first: Points, second: Points) -> bool
    ensures { result ≡ have_contrary (equations_of_points first) (equations_of_points second) }
{
    match first {
        Points::Nothing => false,
        Points::Two(x, y, a, b) => gives_other(second, x, a) || gives_other(second, y, b),
        Points::Three(x, y, z, a, b, c) => {
            gives_other(second, x, a) || gives_other(second, y, b) || gives_other(second, z, c)
        }
    }
}

/// Each match of the first with each of the second, but for those that contradict each other.
fn product(alloc: Global, first: &[Points], second: &[Points]) -> Result<MatchList, AllocError>
    ensures { IfOk result (λ v. AgreeAlso (Matches.match_product (map equations_of_points first.now)
        (map equations_of_points second.now)) v.items) }
{
    let mut matches = Vec::new(alloc);
    for a in first {
        add_each(alloc, &mut matches, *a, second)?;
    }
    Ok(matches)
}

/// Adds one match with each of the others.
fn add_each(
    alloc: Global,
    matches: &mut MatchList,
    first: Points,
    second: &[Points],
) -> Result<(), AllocError>
    ensures { OnOk result (AgreeAlso (matches.old.items ++ map (λ b. equations_of_points first ++ b)
        (map equations_of_points second.now)) matches.new.items) }
{
    for b in second {
        add_both(alloc, matches, first, *b)?;
    }
    Ok(())
}

/// Adds two matches together, unless they contradict each other.
fn add_both(
    alloc: Global,
    matches: &mut MatchList,
    first: Points,
    second: Points,
) -> Result<(), AllocError>
    ensures { OnOk result (AgreeAlso (matches.old.items
        ++ (equations_of_points first ++ equations_of_points second) ∷ []) matches.new.items) }
{
    if are_contrary(first, second) {
        return Ok(());
    }
    matches.push(equations_of_both(alloc, first, second)?)?;
    Ok(())
}

/// Adds terms of a sum that do not cancel in x - y, each once, until there are two.
fn add_not_cancelling(
    terms: &mut Vec<Term>,
    sum: &[Mono],
    x: &[Mono],
    y: &[Mono],
) -> Result<(), AllocError>
    ensures hold { OnOk result (IsTrue (none_cancels x.now y.now terms.old.items)
        → IsTrue (none_cancels x.now y.now terms.new.items)) }
    ensures empty { OnOk result (terms.new.items ≡ [] → (terms.old.items ≡ [])
        × IsTrue (all_cancel x.now y.now sum.now)) }
{
    for m in sum {
        if coefficient_in(x, m.term) != coefficient_in(y, m.term) {
            add_once(terms, m.term)?;
        }
    }
    Ok(())
}

/// Adds a term, unless two are there, or one that is this term.
fn add_once(terms: &mut Vec<Term>, term: Term) -> Result<(), AllocError>
    ensures cases { OnOk result ((terms.new.items ≡ terms.old.items ++ term ∷ [])
        ⊎ ((terms.new.items ≡ terms.old.items) × ¬ (terms.old.items ≡ []))) }
{
    if terms.len() < 2 && !terms.iter().any(|t| is_one_term(*t, term)) {
        terms.push(term)?;
    }
    Ok(())
}

/// Terms of x - y that do not cancel, no two of them one term: all of them, or two.
fn terms_not_cancelling(alloc: Global, x: &[Mono], y: &[Mono]) -> Result<Vec<Term>, AllocError>
    ensures { IfOk result (λ v. AreTermsLeft x.now y.now v.items) }
{
    let mut terms = Vec::new(alloc);
    add_not_cancelling(&mut terms, x, x, y)?;
    add_not_cancelling(&mut terms, y, x, y)?;
    Ok(terms)
}

/// Terms of the goal's sums that do not cancel in their difference: all of them, or two.
pub fn terms_of_goal(alloc: Global, goal: &Lit) -> Result<Vec<Term>, AllocError>
    ensures { IfOk result (λ v. AreTermsOf goal.now.atom v.items) }
{
    match &goal.atom {
        Atom::MagEq(z, w) | Atom::MagLt(z, w) => terms_not_cancelling(alloc, z.items(), w.items()),
        _ => Ok(Vec::new(alloc)),
    }
}

/// The ways in which x - y, over variables, may have the normal form of z - w or of its negative, of
/// which these terms are left.
fn matches_of_sums(
    alloc: Global,
    x: &[Mono],
    y: &[Mono],
    terms: &[Term],
) -> Result<MatchList, AllocError>
    ensures { (z w : List Mono) → AreTermsLeft z w terms.now
        → IfOk result (λ v. CoverSums x.now y.now z w v.items) }
{
    match terms {
        [] => cancellations(alloc, x, y),
        [term] => {
            let points = points_in_sums(alloc, x, y, *term)?;
            matches_of_points(alloc, &points)
        }
        [first, second, ..] => {
            let one = points_in_sums(alloc, x, y, *first)?;
            let other = points_in_sums(alloc, x, y, *second)?;
            product(alloc, &one, &other)
        }
    }
}

/// The ways in which the atom of a row may be the goal's, of which these terms are left.
fn matches_of_shape(
    alloc: Global,
    row: &Row,
    shape: &Shape,
    goal: &Atom,
    terms: &[Term],
) -> Result<MatchList, AllocError>
    requires of_goal { AreTermsOf goal.now terms.now }
    ensures { IfOk result (λ v. CoverAtom (row_of row.now) (atom_of shape.now) goal.now v.items) }
{
    match (shape, goal) {
        (Shape::MagEq(x, y), Atom::MagEq(_, _)) | (Shape::MagLt(x, y), Atom::MagLt(_, _)) => {
            matches_of_sums(alloc, x, y, terms)
        }
        (shape, goal) => {
            let mut matches = Vec::new(alloc);
            add_some(&mut matches, equations_of_atom(alloc, row, shape, goal)?)?;
            Ok(matches)
        }
    }
}

/// The ways in which the pattern, or its negation, may be the goal, of which these terms are left.
pub fn matches(
    alloc: Global,
    row: &Row,
    pattern: &Pattern,
    negated: bool,
    goal: &Lit,
    terms: &[Term],
) -> Result<MatchList, AllocError>
    requires of_goal { AreTermsOf goal.now.atom terms.now }
    ensures { IfOk result (λ v. Cover (row_of row.now) (if negated then negation
        (lit_of_pattern pattern.now) else lit_of_pattern pattern.now) goal.now v.items) }
{
    let (neg, shape) = match pattern {
        Pattern::Is(shape) => (negated, shape),
        Pattern::Not(shape) => (!negated, shape),
    };
    if neg != goal.neg {
        return Ok(Vec::new(alloc));
    }
    matches_of_shape(alloc, row, shape, &goal.atom, terms)
}
