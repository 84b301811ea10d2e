//! The numbers of a clause's variables by the first numbers of a choice, and what they make of its
//! literals.

ghost use Rattle.std.specs.Prelude.{◌≡◌, ◌<◌, length, map, slice_get, slice_index, IfOk, IfSome, Some};
ghost use Rattle.e_literal.specs.Rename.{term_at, mono_at};
ghost use Rattle.e_clause.specs.Instance;
ghost use Rattle.e_clause.specs.Instance.{clause_of, lit_at, line_arg, circle_arg};
ghost use Rattle.e_clause.specs.Rows;
ghost use Rattle.e_clause.specs.Views.{atom_of, row_of};
ghost use Rattle.e_transfer.specs.Marks.{relation_number};
ghost use Rattle.e_transfer.specs.SumMarks;
ghost use Rattle.e_transfer.specs.SumMarks.{mark_total};
ghost use Rattle.e_transfer.specs.inner.PartsOfChoices;
ghost use Rattle.e_transfer.specs.inner.PartsOfChoices.{chosen_arguments, arguments_by, atom_by};

use crate::clause::{literal_at, pattern_at};
use crate::marks::parts;
use crate::plan::sort_of;
use crate::sum_marks::{mark_of_totals, share};
use e_clause::{Row, Shape};
use e_literal::{Atom, Items, Lit, Mono, Obj, Term};
use std::alloc::{AllocError, Global};
use std::mem;

/// The row of a clause, the place of each of its variables in a choice, and the first numbers of
/// one.
#[derive(Clone, Copy)]
pub struct Numbers<'a> {
    pub row: &'a Row,
    pub positions: &'a [usize],
    pub part: &'a [u16],
}

/// The number at a place of a choice, by its first numbers; 0 where it is not chosen yet.
fn number(part: &[u16], place: usize) -> u16
    ensures { result ≡ slice_index part.now place }
{
    match part.get(place) {
        Some(number) => *number,
        None => 0,
    }
}

/// The arguments by the first numbers of a choice.
fn arguments(
    alloc: Global,
    row: &Row,
    positions: &[usize],
    part: &[u16],
) -> Result<Items<Obj>, AllocError>
    ensures { IfOk result
        (λ a. a ≡ PartsOfChoices.chosen_arguments (row_of row.now) positions.now part.now) }
{
    let mut args = Vec::with_capacity(alloc, positions.len())?;
    for (v, place) in positions.iter().enumerate() {
        args.push(Obj {
            sort: sort_of(row, v),
            num: number(part, *place),
        })?;
    }
    Ok(Items::new(args))
}

/// The number of a variable, as it is among the arguments.
fn number_of(positions: &[usize], part: &[u16], variable: usize) -> u16
    ensures { (r : Rows.Row)
        → result ≡ Instance.number (chosen_arguments r positions.now part.now) variable }
{
    match positions.get(variable) {
        Some(place) => number(part, *place),
        None => 0,
    }
}

impl<'a> Numbers<'a> {
    /// The arguments.
    pub fn arguments(&self, alloc: Global) -> Result<Items<Obj>, AllocError>
        ensures { IfOk result (λ a. a ≡ arguments_by self.now) }
    {
        arguments(alloc, self.row, self.positions, self.part)
    }

    fn point(&self, at: u16) -> u16
        ensures { result ≡ Instance.number (arguments_by self.now) at }
    {
        number_of(self.positions, self.part, usize::from(at))
    }

    fn line(&self, at: u16) -> u16
        ensures { result ≡ line_arg (row_of self.now.row.now) (arguments_by self.now) at }
    {
        let variable = usize::from(self.row.points) + usize::from(at);
        number_of(self.positions, self.part, variable)
    }

    fn circle(&self, at: u16) -> u16
        ensures { result ≡ circle_arg (row_of self.now.row.now) (arguments_by self.now) at }
    {
        let first = usize::from(self.row.points) + usize::from(self.row.lines);
        number_of(self.positions, self.part, first + usize::from(at))
    }

    /// A term over variables with their numbers.
    pub fn term(&self, term: Term) -> Term
        ensures { result ≡ term_at (Instance.number (arguments_by self.now)) term }
    {
        match term {
            Term::Area(x, y, z) => Term::Area(self.point(x), self.point(y), self.point(z)),
            Term::Seg(x, y) => Term::Seg(self.point(x), self.point(y)),
            Term::Ang(x, y, z) => Term::Ang(self.point(x), self.point(y), self.point(z)),
            Term::Right => Term::Right,
        }
    }

    /// The atom of a shape, unless it compares sums: it takes no memory.
    fn diagram_atom(&self, shape: &Shape) -> Option<Atom>
        ensures is { IfSome result (λ a. a ≡ atom_by self.now (atom_of shape.now)) }
        ensures diagram { IfSome result (λ a. relation_number a < 12) }
    {
        let atom = match shape {
            Shape::On(x, l) => Atom::On(self.point(*x), self.line(*l)),
            Shape::OnC(x, c) => Atom::OnC(self.point(*x), self.circle(*c)),
            Shape::Inside(x, c) => Atom::Inside(self.point(*x), self.circle(*c)),
            Shape::Center(x, c) => Atom::Center(self.point(*x), self.circle(*c)),
            Shape::Between(x, y, z) => {
                Atom::Between(self.point(*x), self.point(*y), self.point(*z))
            }
            Shape::Same(x, y, l) => Atom::Same(self.point(*x), self.point(*y), self.line(*l)),
            Shape::MeetLL(l, m) => Atom::MeetLL(self.line(*l), self.line(*m)),
            Shape::MeetLC(l, c) => Atom::MeetLC(self.line(*l), self.circle(*c)),
            Shape::MeetCC(c, d) => Atom::MeetCC(self.circle(*c), self.circle(*d)),
            Shape::EqP(x, y) => Atom::EqP(self.point(*x), self.point(*y)),
            Shape::EqL(l, m) => Atom::EqL(self.line(*l), self.line(*m)),
            Shape::EqC(c, d) => Atom::EqC(self.circle(*c), self.circle(*d)),
            Shape::MagEq(_, _) | Shape::MagLt(_, _) => return None,
        };
        Some(atom)
    }

    /// The total of a sum over variables, with their numbers.
    fn total(&self, sum: &[Mono]) -> u128
        ensures { result ≡ mark_total
            (map (mono_at (Instance.number (arguments_by self.now))) sum.now) }
    {
        let mut total = 0u128;
        for mono in sum {
            total += u128::from(share(mono.coeff, self.term(mono.term)));
        }
        total
    }

    /// The mark of the sums of a shape, if it compares sums: it takes no memory.
    pub fn sum_mark(&self, shape: &Shape) -> Option<usize>
        ensures is { IfSome result
            (λ n. n ≡ SumMarks.sum_mark (atom_by self.now (atom_of shape.now))) }
        ensures below { IfSome result (λ n. n < 256) }
    {
        match shape {
            Shape::MagEq(x, y) | Shape::MagLt(x, y) => {
                Some(mark_of_totals(self.total(x), self.total(y)))
            }
            _ => None,
        }
    }

    /// The literal at a place of the clause, unless it compares sums: it takes no memory.
    pub fn diagram(&self, at: usize) -> Option<Lit>
        requires { at < length (clause_of (row_of self.now.row.now)) }
        ensures is { IfSome result (λ l. slice_get (map (lit_at (row_of self.now.row.now)
            (arguments_by self.now)) (clause_of (row_of self.now.row.now))) at ≡ Some l) }
        ensures diagram { IfSome result (λ l. relation_number l.atom < 12) }
    {
        let (pattern, negated) = pattern_at(self.row, at);
        let (shape, neg) = parts(pattern, negated);
        match self.diagram_atom(shape) {
            Some(atom) => Some(Lit { neg, atom }),
            None => None,
        }
    }

    /// Whether the literal at a place of the clause compares sums.
    pub fn compares_sums(&self, at: usize) -> bool
        requires { at < length (clause_of (row_of self.now.row.now)) }
    {
        let (pattern, negated) = pattern_at(self.row, at);
        let (shape, _neg) = parts(pattern, negated);
        matches!(shape, Shape::MagEq(_, _) | Shape::MagLt(_, _))
    }

    /// The literal at a place of the clause.
    pub fn literal(&self, alloc: Global, at: usize) -> Result<Lit, AllocError>
        requires { at < length (clause_of (row_of self.now.row.now)) }
        ensures { IfOk result (λ l. slice_get (map (lit_at (row_of self.now.row.now)
            (arguments_by self.now)) (clause_of (row_of self.now.row.now))) at ≡ Some l) }
    {
        let args = self.arguments(alloc)?;
        let lit = literal_at(alloc, self.row, args.items(), at);
        mem::drop(args);
        lit
    }
}
