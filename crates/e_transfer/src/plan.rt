//! In which order the variables of a rule are chosen, and from which numbers.

ghost use Rattle.std.specs.Prelude.{◌≡◌, ℕ, ◌<◌, ◌++◌, map, ◌==◌, IfOk, OnOk};
ghost use Rattle.std.specs.Prelude.{IsTrue, length, slice_index, nat_lt};
ghost use Rattle.std.specs.List.{list_all};
ghost use Rattle.e_clause.specs.Views.{atom_of, lit_of_pattern, row_of};
ghost use Rattle.e_transfer.specs.inner.Equations;
ghost use Rattle.e_transfer.specs.inner.PartsOfChoices;
ghost use Rattle.e_transfer.specs.inner.PartsOfChoices.{sum_last, term_last, atom_last};
ghost use Rattle.e_transfer.specs.inner.Bindings;
ghost use Rattle.e_transfer.specs.inner.Plans;
ghost use Rattle.e_transfer.specs.inner.Plans.{total_of, has_variable, Grows, RepresentativesAre};
ghost use Rattle.e_transfer.specs.inner.Plans.{OrderIs, PositionsAre, IsPlanFor};

use crate::clause::clause_len;
use crate::unify::{Binding, binding_of, representative};
use crate::walk::Span;
use e_clause::{Pattern, Row, Shape};
use e_literal::{Mono, Scope, Sort, Term, count};
use std::alloc::{AllocError, Global};

/// The order of a search.
#[derive(Drop)]
pub struct Plan {
    /// For each variable, the place in the order of the one that represents it.
    pub positions: Vec<usize>,
    /// For each literal of the clause, the last of the places of its variables.
    pub ready_at: Vec<usize>,
    /// For each place in the order, the numbers to choose from.
    pub spans: Vec<Span>,
}

/// For each variable one that represents it.
fn representatives_of(alloc: Global, bindings: &[Binding]) -> Result<Vec<usize>, AllocError>
    ensures { IfOk result (λ v. RepresentativesAre bindings.now v.items) }
{
    let mut representatives = Vec::with_capacity(alloc, bindings.len())?;
    for v in 0..bindings.len() {
        representatives.push(representative(bindings, v))?;
    }
    Ok(representatives)
}

/// Puts a variable last in the order, unless it is there.
fn add_once(order: &mut Vec<usize>, total: usize, variable: usize) -> Result<(), AllocError>
    requires { variable < total }
    ensures grows { OnOk result (Grows total order.old.items order.new.items) }
    ensures there { OnOk result (IsTrue (has_variable order.new.items variable)) }
{
    if !order.contains(&variable) {
        order.push(variable)?;
    }
    Ok(())
}

/// The variables with a known number.
fn add_bound(order: &mut Vec<usize>, bindings: &[Binding]) -> Result<(), AllocError>
    ensures { OnOk result (Grows (length bindings.now) order.old.items order.new.items) }
{
    for (v, binding) in bindings.iter().enumerate() {
        if let Binding::Is(_) = binding {
            add_once(order, bindings.len(), v)?;
        }
    }
    Ok(())
}

/// The preferred variables, by those that represent them.
fn add_preferred(
    order: &mut Vec<usize>,
    representatives: &[usize],
    total: usize,
    preferred: &[u8],
) -> Result<(), AllocError>
    ensures { OnOk result (Grows total order.old.items order.new.items) }
{
    for v in preferred {
        if let Some(representative) = representatives.get(*v as usize) {
            if *representative < total {
                add_once(order, total, *representative)?;
            }
        }
    }
    Ok(())
}

/// The variables that represent all: those with a known number, then the preferred ones in their
/// order, then the rest.
fn order_of(
    alloc: Global,
    bindings: &[Binding],
    representatives: &[usize],
    preferred: &[u8],
) -> Result<Vec<usize>, AllocError>
    requires { RepresentativesAre bindings.now representatives.now }
    ensures { IfOk result (λ v. OrderIs (length bindings.now) representatives.now v.items) }
{
    let mut order = Vec::with_capacity(alloc, bindings.len())?;
    add_bound(&mut order, bindings)?;
    add_preferred(&mut order, representatives, bindings.len(), preferred)?;
    for representative in representatives {
        add_once(&mut order, bindings.len(), *representative)?;
    }
    Ok(order)
}

/// The place of a variable in the order.
fn position_in(order: &[usize], variable: usize) -> usize
    requires { IsTrue (has_variable order.now variable) }
    ensures below { result < length order.now }
    ensures at { slice_index order.now result ≡ variable }
{
    match order.iter().position(|v| *v == variable) {
        Some(position) => position,
        None => unreachable!(),
    }
}

fn positions_of(
    alloc: Global,
    representatives: &[usize],
    order: &[usize],
) -> Result<Vec<usize>, AllocError>
    requires { (v : ℕ) → v < length representatives.now
        → IsTrue (has_variable order.now (slice_index representatives.now v)) }
    ensures { IfOk result (λ v. PositionsAre representatives.now order.now v.items) }
{
    let mut positions = Vec::with_capacity(alloc, representatives.len())?;
    for representative in representatives {
        positions.push(position_in(order, *representative))?;
    }
    Ok(positions)
}

/// The sort of a variable: points come first, then lines, then circles.
pub fn sort_of(row: &Row, variable: usize) -> Sort
    ensures { result ≡ PartsOfChoices.variable_sort (row_of row.now) variable }
{
    let points = row.points as usize;
    let lines = row.lines as usize;
    if variable < points {
        Sort::Point
    } else if variable < points + lines {
        Sort::Line
    } else {
        Sort::Circle
    }
}

/// The numbers for a variable: the known one, or none if no object has it; or those of all objects.
fn span_for(count: u16, binding: Binding) -> Span
    ensures { result ≡ Plans.variable_span count binding }
{
    match binding {
        Binding::Is(number) if number < count => Span {
            from: number,
            to: number + 1,
        },
        Binding::Is(_) => Span { from: 0, to: 0 },
        _ => Span { from: 0, to: count },
    }
}

fn spans_of(
    alloc: Global,
    row: &Row,
    scope: Scope,
    bindings: &[Binding],
    order: &[usize],
) -> Result<Vec<Span>, AllocError>
    ensures { IfOk result
        (λ v. v.items ≡ Plans.plan_spans (row_of row.now) scope bindings.now order.now) }
{
    let mut spans = Vec::with_capacity(alloc, order.len())?;
    for v in order {
        let count = count(scope, sort_of(row, *v));
        spans.push(span_for(count, binding_of(bindings, *v)))?;
    }
    Ok(spans)
}

/// The place of a variable.
fn place(positions: &[usize], variable: usize) -> usize
    ensures { result ≡ slice_index positions.now variable }
{
    match positions.get(variable) {
        Some(place) => *place,
        None => 0,
    }
}

fn point(positions: &[usize], at: u16) -> usize
    ensures { result ≡ slice_index positions.now at }
{
    place(positions, at as usize)
}

fn line(row: &Row, positions: &[usize], at: u16) -> usize
    ensures { result ≡ slice_index positions.now (Equations.line_variable (row_of row.now) at) }
{
    place(positions, row.points as usize + at as usize)
}

fn circle(row: &Row, positions: &[usize], at: u16) -> usize
    ensures { result ≡ slice_index positions.now (Equations.circle_variable (row_of row.now) at) }
{
    place(
        positions,
        row.points as usize + row.lines as usize + at as usize,
    )
}

/// The last of the places of a term's variables.
pub fn last_of_term(positions: &[usize], term: Term) -> usize
    ensures { result ≡ PartsOfChoices.term_last positions.now term }
{
    match term {
        Term::Seg(x, y) => point(positions, x).max(point(positions, y)),
        Term::Ang(x, y, z) | Term::Area(x, y, z) => point(positions, x)
            .max(point(positions, y))
            .max(point(positions, z)),
        Term::Right => 0,
    }
}

fn last_of_sum(positions: &[usize], sum: &[Mono]) -> usize
    ensures { result ≡ PartsOfChoices.sum_last positions.now sum.now }
{
    match sum {
        [] => 0,
        [m, rest @ ..] => last_of_term(positions, m.term).max(last_of_sum(positions, rest)),
    }
}

/// The last of the places of a shape's variables.
fn last_of_shape(row: &Row, positions: &[usize], shape: &Shape) -> usize
    ensures { result ≡ atom_last (row_of row.now) positions.now (atom_of shape.now) }
{
    match shape {
        Shape::On(x, l) => point(positions, *x).max(line(row, positions, *l)),
        Shape::OnC(x, c) | Shape::Inside(x, c) | Shape::Center(x, c) => {
            point(positions, *x).max(circle(row, positions, *c))
        }
        Shape::Between(x, y, z) => point(positions, *x)
            .max(point(positions, *y))
            .max(point(positions, *z)),
        Shape::Same(x, y, l) => point(positions, *x)
            .max(point(positions, *y))
            .max(line(row, positions, *l)),
        Shape::MeetLL(l, m) | Shape::EqL(l, m) => line(row, positions, *l).max(line(
            row, positions, *m,
        )),
        Shape::MeetLC(l, c) => line(row, positions, *l).max(circle(row, positions, *c)),
        Shape::MeetCC(c, d) | Shape::EqC(c, d) => {
            circle(row, positions, *c).max(circle(row, positions, *d))
        }
        Shape::EqP(x, y) => point(positions, *x).max(point(positions, *y)),
        Shape::MagEq(x, y) | Shape::MagLt(x, y) => {
            last_of_sum(positions, x).max(last_of_sum(positions, y))
        }
    }
}

fn last_of_pattern(row: &Row, positions: &[usize], pattern: &Pattern) -> usize
    ensures { result ≡ atom_last (row_of row.now) positions.now (lit_of_pattern pattern.now).atom }
{
    match pattern {
        Pattern::Is(shape) | Pattern::Not(shape) => last_of_shape(row, positions, shape),
    }
}

fn add_ready_at(
    ready_at: &mut Vec<usize>,
    row: &Row,
    positions: &[usize],
    patterns: &[Pattern],
) -> Result<(), AllocError>
    ensures { OnOk result (ready_at.new.items ≡ ready_at.old.items ++ map
        (λ l. atom_last (row_of row.now) positions.now l.atom) (map lit_of_pattern patterns.now)) }
{
    for p in patterns {
        ready_at.push(last_of_pattern(row, positions, p))?;
    }
    Ok(())
}

/// The plan for a rule in a scope, where some variables are bound, with the preferred variables
/// early. Which are preferred is a matter of speed alone.
pub fn make_plan(
    alloc: Global,
    row: &Row,
    scope: Scope,
    bindings: &[Binding],
    preferred: &[u8],
) -> Result<Plan, AllocError>
    requires { length bindings.now ≡ total_of (row_of row.now) }
    ensures { IfOk result (IsPlanFor (row_of row.now) scope bindings.now) }
{
    let representatives = representatives_of(alloc, bindings)?;
    let order = order_of(alloc, bindings, &representatives, preferred)?;
    let positions = positions_of(alloc, &representatives, &order)?;
    let spans = spans_of(alloc, row, scope, bindings, &order)?;
    let mut ready_at = Vec::with_capacity(alloc, clause_len(row))?;
    add_ready_at(&mut ready_at, row, &positions, row.premises)?;
    add_ready_at(&mut ready_at, row, &positions, row.conclusions)?;
    Ok(Plan {
        positions,
        ready_at,
        spans,
    })
}
