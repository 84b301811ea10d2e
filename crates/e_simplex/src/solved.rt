//! Tables in which every row is satisfied, and what comes of more constraints.

ghost use Rattle.std.specs.Prelude.{◌≡◌, ◌+◌, ◌^◌, ◌<◌, ◌++◌, ◌∷◌, [], length, IfOk, OnOk};
ghost use Rattle.e_simplex.specs.Constraints.{numbers_from, FixedTo};
ghost use Rattle.e_simplex.specs.Solved.{IsBegunTable, IsSolved, IsSolvedAs, IsTableOutcome, IsFit};
ghost use Rattle.e_simplex.specs.Solved.{constraints_of, columns_of};

use crate::constraints::{Constraint, is_zero};
use crate::solve::End;
use crate::table::Table;
use e_literal::Items;
use std::alloc::{AllocError, Global};
use std::{mem, slice};

/// What comes of constraints: every one is satisfied, or multipliers refute them, or a minor is
/// large.
#[derive(Drop)]
pub enum Outcome {
    Holds(Table),
    Absurd(Vec<i128>),
    TooWide,
}

/// `count` numbers from 0 on.
fn count_up(alloc: Global, count: usize) -> Result<Vec<usize>, AllocError>
    ensures { IfOk result (λ v. v.items ≡ numbers_from 0 count) }
{
    let mut all = Vec::with_capacity(alloc, count)?;
    for i in 0..count {
        all.push(i)?;
    }
    Ok(all)
}

/// Which numbers are fixed at 0: that of the column of constants, and the slacks of constraints
/// that say 0.
fn fixed_numbers(
    alloc: Global,
    constraints: &[Constraint],
    w: usize,
) -> Result<Vec<bool>, AllocError>
    requires some { 0 < w }
    requires counted { w + length constraints.now < 2 ^ 64 }
    ensures { IfOk result (λ v.
        FixedTo (w + length constraints.now) constraints.now w v.items) }
{
    let mut fixed = Vec::with_capacity(alloc, w + constraints.len())?;
    fixed.push(true)?;
    for _column in 1..w {
        fixed.push(false)?;
    }
    for constraint in constraints {
        fixed.push(is_zero(constraint.sense))?;
    }
    Ok(fixed)
}

/// An equal constraint.
fn copy_of_constraint(alloc: Global, constraint: &Constraint) -> Result<Constraint, AllocError>
    ensures { IfOk result (λ l. l ≡ constraint.now) }
{
    Ok(Constraint {
        sense: constraint.sense,
        form: Items::new(Vec::from_slice(alloc, constraint.form.items())?),
    })
}

/// Adds equal constraints.
fn add_copies(
    alloc: Global,
    all: &mut Vec<Constraint>,
    constraints: &[Constraint],
) -> Result<(), AllocError>
    ensures { OnOk result (all.new.items ≡ all.old.items ++ constraints.now) }
{
    for constraint in constraints {
        all.push(copy_of_constraint(alloc, constraint)?)?;
    }
    Ok(())
}

/// The constraints, and more.
fn constraints_with(
    alloc: Global,
    constraints: &[Constraint],
    more: &[Constraint],
) -> Result<Vec<Constraint>, AllocError>
    ensures { IfOk result (λ v. v.items ≡ constraints.now ++ more.now) }
{
    let mut all = Vec::with_capacity(alloc, constraints.len().saturating_add(more.len()))?;
    add_copies(alloc, &mut all, constraints)?;
    add_copies(alloc, &mut all, more)?;
    Ok(all)
}

/// Equal constraints.
fn copies_of_constraints(
    alloc: Global,
    constraints: &[Constraint],
) -> Result<Vec<Constraint>, AllocError>
    ensures { IfOk result (λ v. v.items ≡ constraints.now) }
{
    let mut all = Vec::with_capacity(alloc, constraints.len())?;
    add_copies(alloc, &mut all, constraints)?;
    Ok(all)
}

/// Equal entries, with room for more.
pub fn copies_with_room<T: Copy>(
    alloc: Global,
    entries: &[T],
    room: usize,
) -> Result<Vec<T>, AllocError>
    ensures { IfOk result (λ v. v.items ≡ entries.now) }
{
    let mut copies = Vec::with_capacity(alloc, entries.len().saturating_add(room))?;
    copies.extend_from_slice(entries)?;
    Ok(copies)
}

/// What comes of constraints over `width` columns.
pub fn solve_constraints(
    alloc: Global,
    constraints: Vec<Constraint>,
    width: usize,
) -> Result<Outcome, AllocError>
    requires { IsFit width constraints.items }
    ensures { IfOk result (IsTableOutcome width constraints.items) }
{
    let table = Table::new(alloc, constraints, width)?;
    table.outcome(alloc)
}

impl Table {
    /// The table of constraints over `width` columns, with no row yet. It has room for as many rows
    /// again, since more constraints mostly come.
    fn new(alloc: Global, constraints: Vec<Constraint>, width: usize) -> Result<Table, AllocError>
        requires { IsFit width constraints.items }
        ensures { IfOk result (IsBegunTable width constraints.items) }
    {
        let fixed = fixed_numbers(alloc, &constraints, width)?;
        let columns = count_up(alloc, width)?;
        let basis = Vec::with_capacity(alloc, constraints.len())?;
        let room = constraints.len().saturating_mul(2).saturating_mul(width);
        let entries = Vec::with_capacity(alloc, room)?;
        Ok(Table {
            constraints,
            fixed,
            basis,
            columns,
            entries,
            det: 1,
        })
    }

    /// Equal constraints with an equal table.
    pub fn copy(&self, alloc: Global) -> Result<Table, AllocError>
        ensures { IfOk result (IsSolvedAs self.now) }
    {
        let fixed = Vec::from_slice(alloc, &self.fixed)?;
        let basis = Vec::from_slice(alloc, &self.basis)?;
        let columns = Vec::from_slice(alloc, &self.columns)?;
        let entries = Vec::from_slice(alloc, &self.entries)?;
        let constraints = copies_of_constraints(alloc, &self.constraints)?;
        Ok(Table {
            constraints,
            fixed,
            basis,
            columns,
            entries,
            det: self.det,
        })
    }

    /// The constraints and more, with the rows of the first, and room for those of the others: they
    /// come without another copy of the entries.
    fn with_constraints(&self, alloc: Global, more: &[Constraint]) -> Result<Table, AllocError>
        requires solved { IsSolved (columns_of self.now) (constraints_of self.now) self.now }
        requires fit { IsFit (columns_of self.now) (constraints_of self.now ++ more.now) }
        ensures { IfOk result
            (IsBegunTable (columns_of self.now) (constraints_of self.now ++ more.now)) }
    {
        let w = self.columns.len();
        let basis = copies_with_room(alloc, &self.basis, more.len())?;
        let columns = Vec::from_slice(alloc, &self.columns)?;
        let entries = copies_with_room(alloc, &self.entries, more.len().saturating_mul(w))?;
        let constraints = constraints_with(alloc, &self.constraints, more)?;
        let fixed = fixed_numbers(alloc, &constraints, w)?;
        Ok(Table {
            constraints,
            fixed,
            basis,
            columns,
            entries,
            det: self.det,
        })
    }

    /// What comes of the constraints.
    fn outcome(mut self, alloc: Global) -> Result<Outcome, AllocError>
        requires fit { IsFit (columns_of self) (constraints_of self) }
        requires begun { IsBegunTable (columns_of self) (constraints_of self) self }
        ensures { IfOk result (IsTableOutcome (columns_of self) (constraints_of self)) }
    {
        let first = self.basis.len();
        let fits = match self.add_rows(alloc) {
            Ok(fits) => fits,
            Err(error) => {
                mem::drop(self);
                return Err(error);
            }
        };
        if !fits {
            mem::drop(self);
            return Ok(Outcome::TooWide);
        }
        match self.solve_and_free(alloc, first) {
            Ok(End::Feasible) => Ok(Outcome::Holds(self)),
            Ok(End::Infeasible(row)) => {
                let found = self.weights(alloc, row);
                mem::drop(self);
                Ok(Outcome::Absurd(found?))
            }
            Ok(End::TooWide) => {
                mem::drop(self);
                Ok(Outcome::TooWide)
            }
            Err(error) => {
                mem::drop(self);
                Err(error)
            }
        }
    }

    /// How many columns the table has.
    pub fn width(&self) -> usize
        ensures { result ≡ columns_of self.now }
    {
        self.columns.len()
    }

    /// What comes of the constraints and more, in this table.
    pub fn grown(self, alloc: Global, more: Vec<Constraint>) -> Result<Outcome, AllocError>
        requires solved { IsSolved (columns_of self) (constraints_of self) self }
        requires fit { IsFit (columns_of self) (constraints_of self ++ more.items) }
        ensures { IfOk result
            (IsTableOutcome (columns_of self) (constraints_of self ++ more.items)) }
    {
        let mut table = self;
        for constraint in more {
            table.fixed.push(is_zero(constraint.sense))?;
            table.constraints.push(constraint)?;
        }
        table.outcome(alloc)
    }

    /// What comes of the constraints and more. The solved table stays as it is.
    pub fn with_all(&self, alloc: Global, more: &[Constraint]) -> Result<Outcome, AllocError>
        requires solved { IsSolved (columns_of self.now) (constraints_of self.now) self.now }
        requires fit { IsFit (columns_of self.now) (constraints_of self.now ++ more.now) }
        ensures { IfOk result
            (IsTableOutcome (columns_of self.now) (constraints_of self.now ++ more.now)) }
    {
        if let [constraint] = more {
            if let Some(weights) = self.refutation(alloc, constraint)? {
                return Ok(Outcome::Absurd(weights));
            }
        }
        let table = self.with_constraints(alloc, more)?;
        table.outcome(alloc)
    }

    /// What comes of the constraints and one more. The solved table stays as it is.
    pub fn with(&self, alloc: Global, constraint: &Constraint) -> Result<Outcome, AllocError>
        requires solved { IsSolved (columns_of self.now) (constraints_of self.now) self.now }
        requires fit { IsFit (columns_of self.now)
            (constraints_of self.now ++ constraint.now ∷ []) }
        ensures { IfOk result (IsTableOutcome (columns_of self.now)
            (constraints_of self.now ++ constraint.now ∷ [])) }
    {
        self.with_all(alloc, slice::from_ref(constraint))
    }
}
