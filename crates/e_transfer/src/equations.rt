//! What a goal says of the variables of a rule.

ghost use Rattle.std.specs.Prelude.{◌≡◌, ◌+◌, ◌++◌, ◌∷◌, [], IfOk, OnOk};
ghost use Rattle.std.specs.List.{list_any};
ghost use Rattle.e_clause.specs.Views.{atom_of, row_of};
ghost use Rattle.e_transfer.specs.inner.Equations;
ghost use Rattle.e_transfer.specs.inner.Equations.{contrary, equations_of_points};
ghost use Rattle.e_transfer.specs.declared.equations.Equation.TheVariants as bound;

use e_clause::{Row, Shape};
use e_literal::{Atom, Items, Term};
use std::alloc::{AllocError, Global};

/// What is known of one variable, or of two. Variables are named by their places among the rule's
/// arguments.
#[derive(Clone, Copy)]
pub enum Equation {
    /// The variable is the object with this number.
    Is(usize, u16),
    /// The two variables are one object.
    Same(usize, usize),
}

/// Which points the variables of a term are: the variables come first, and then the points.
#[derive(Clone, Copy)]
pub enum Points {
    /// The term has none.
    Nothing,
    Two(u16, u16, u16, u16),
    Three(u16, u16, u16, u16, u16, u16),
}

fn two(alloc: Global, first: Equation, second: Equation) -> Result<Items<Equation>, AllocError>
    ensures { IfOk result (λ b. b ≡ first ∷ second ∷ []) }
{
    Ok(Items::new(Vec::from_slice(alloc, &[first, second])?))
}

fn three(
    alloc: Global,
    first: Equation,
    second: Equation,
    third: Equation,
) -> Result<Items<Equation>, AllocError>
    ensures { IfOk result (λ b. b ≡ first ∷ second ∷ third ∷ []) }
{
    Ok(Items::new(Vec::from_slice(alloc, &[first, second, third])?))
}

/// That the point variable at this place is the point with this number.
fn point(at: u16, number: u16) -> Equation
    ensures { result ≡ bound.Is at number }
{
    Equation::Is(at as usize, number)
}

fn line(row: &Row, at: u16, number: u16) -> Equation
    ensures { result ≡ bound.Is (Equations.line_variable (row_of row.now) at) number }
{
    Equation::Is(row.points as usize + at as usize, number)
}

fn circle(row: &Row, at: u16, number: u16) -> Equation
    ensures { result ≡ bound.Is (Equations.circle_variable (row_of row.now) at) number }
{
    Equation::Is(
        row.points as usize + row.lines as usize + at as usize,
        number,
    )
}

/// What a diagram atom says of the variables of a shape, or none where they are of different
/// relations.
pub fn equations_of_atom(
    alloc: Global,
    row: &Row,
    shape: &Shape,
    goal: &Atom,
) -> Result<Option<Items<Equation>>, AllocError>
    ensures { IfOk result
        (λ o. o ≡ Equations.equations_from_atom (row_of row.now) (atom_of shape.now) goal.now) }
{
    let equations = match (shape, goal) {
        (Shape::On(x, l), Atom::On(a, b)) => two(alloc, point(*x, *a), line(row, *l, *b)),
        (Shape::OnC(x, c), Atom::OnC(a, b))
        | (Shape::Inside(x, c), Atom::Inside(a, b))
        | (Shape::Center(x, c), Atom::Center(a, b)) => {
            two(alloc, point(*x, *a), circle(row, *c, *b))
        }
        (Shape::Between(x, y, z), Atom::Between(a, b, c)) => {
            three(alloc, point(*x, *a), point(*y, *b), point(*z, *c))
        }
        (Shape::Same(x, y, l), Atom::Same(a, b, c)) => {
            three(alloc, point(*x, *a), point(*y, *b), line(row, *l, *c))
        }
        (Shape::MeetLL(l, m), Atom::MeetLL(a, b)) | (Shape::EqL(l, m), Atom::EqL(a, b)) => {
            two(alloc, line(row, *l, *a), line(row, *m, *b))
        }
        (Shape::MeetLC(l, c), Atom::MeetLC(a, b)) => {
            two(alloc, line(row, *l, *a), circle(row, *c, *b))
        }
        (Shape::MeetCC(c, d), Atom::MeetCC(a, b)) | (Shape::EqC(c, d), Atom::EqC(a, b)) => {
            two(alloc, circle(row, *c, *a), circle(row, *d, *b))
        }
        (Shape::EqP(x, y), Atom::EqP(a, b)) => two(alloc, point(*x, *a), point(*y, *b)),
        _ => return Ok(None),
    };
    Ok(Some(equations?))
}

/// Adds what is known of the variables of a term.
pub fn add_equations(equations: &mut Vec<Equation>, points: Points) -> Result<(), AllocError>
    ensures { OnOk result
        (equations.new.items ≡ equations.old.items ++ equations_of_points points) }
{
    match points {
        Points::Nothing => Ok(()),
        Points::Two(x, y, a, b) => equations.extend_from_slice(&[point(x, a), point(y, b)]),
        Points::Three(x, y, z, a, b, c) => {
            equations.extend_from_slice(&[point(x, a), point(y, b), point(z, c)])
        }
    }
}

/// Whether a variable is another point than this.
pub fn gives_other(points: Points, variable: u16, number: u16) -> bool
    ensures { result
        ≡ list_any (contrary (bound.Is variable number)) (equations_of_points points) }
{
    match points {
        Points::Nothing => false,
        Points::Two(x, y, a, b) => {
            are_contrary(variable, number, x, a) || are_contrary(variable, number, y, b)
        }
        Points::Three(x, y, z, a, b, c) => {
            are_contrary(variable, number, x, a)
                || are_contrary(variable, number, y, b)
                || are_contrary(variable, number, z, c)
        }
    }
}

/// Whether two numbers are given to one variable.
fn are_contrary(v: u16, n: u16, w: u16, m: u16) -> bool
    ensures { result ≡ contrary (bound.Is v n) (bound.Is w m) }
{
    v == w && n != m
}

fn same(x: u16, y: u16) -> Equation
    ensures { result ≡ bound.Same x y }
{
    Equation::Same(x as usize, y as usize)
}

/// What it says of the variables of two terms that they are one, place by place, or none where they
/// are of different kinds.
pub fn equations_of_terms(
    alloc: Global,
    term: Term,
    other: Term,
) -> Result<Option<Items<Equation>>, AllocError>
    ensures { IfOk result (λ o. o ≡ Equations.equations_from_terms term other) }
{
    let equations = match (term, other) {
        (Term::Seg(x, y), Term::Seg(a, b)) => two(alloc, same(x, a), same(y, b))?,
        (Term::Ang(x, y, z), Term::Ang(a, b, c)) | (Term::Area(x, y, z), Term::Area(a, b, c)) => {
            three(alloc, same(x, a), same(y, b), same(z, c))?
        }
        (Term::Right, Term::Right) => Items::empty(alloc),
        _ => return Ok(None),
    };
    Ok(Some(equations))
}
