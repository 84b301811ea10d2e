//! Rows that are solved once, and asked about with further rows.

ghost use Rattle.std.specs.Prelude.{◌≡◌, ℕ, ◌++◌, ◌+◌, ◌<◌, ◌≤◌, ◌^◌, length, IfOk, OnOk};
ghost use Rattle.std.specs.Prelude.{IsTrue, false};
ghost use Rattle.e_literal.specs.Minor.{IsWide};
ghost use Rattle.e_literal.specs.Solution.{HasSolution};
ghost use Rattle.e_fraction.specs.Limits.{most_rows_of_system, all_small};
ghost use Rattle.e_fraction.specs.Views.{views_of_rows};
ghost use Rattle.e_simplex.specs.Answer.{AreValuesOf, IsVerdict, IsHolds, IsAbsurd};
ghost use Rattle.e_simplex.specs.Naming.{AreOnce, AllNamed, named_constraints};
ghost use Rattle.e_simplex.specs.Preparing.{IsPreparedRows};
ghost use Rattle.e_simplex.specs.Solved.{IsSolved, columns_of, spare_columns};
ghost use Rattle.e_simplex.specs.SolvedRows.{IsTableFor};

use crate::decision::{Absurdity, Verdict, decide, refuted_once, verdict_of, verdict_of_solved};
use crate::naming::{plain_constraints, terms_and_fresh, terms_of, terms_with};
use crate::solved::{Outcome, solve_constraints};
use crate::table::Table;
use e_fraction::{Row, Signed};
use e_literal::{Term, Values};
use std::alloc::{AllocError, Global};
use std::marker::Model;
use std::mem;

/// How many columns a table has that no term of its rows has, for terms of further rows: a question
/// with more new terms has all rows solved again.
const SPARE: usize = 8;

/// Rows that have a solution: their table, solved, and values that satisfy them. Contracts see the
/// rows.
#[derive(Drop)]
pub struct SolvedRows {
    rows: Vec<Row>,
    terms: Vec<Term>,
    solved: Table,
    values: Values,
}

impl Model for SolvedRows {
    ghost use Rattle.std.specs.Prelude.{List};
    ghost use Rattle.e_fraction.specs.declared.row.Row.{Row};
    ghost use Rattle.e_simplex.specs.SolvedRows.{AreSolved};

    ghost Value = { List Row };

    ghost view = { λ s. s.rows.items };

    ghost invariant = { λ s. AreSolved s.rows.items s.terms.items s.solved s.values };
}

/// Rows, solved, or that no values satisfy, or with a large minor.
#[derive(Drop)]
pub enum Prepared {
    SolvedRows(SolvedRows),
    /// The rows, and what refutes them.
    Absurd(Vec<Row>, Absurdity),
    TooWide,
}

/// An equal row.
fn copy_of_row(alloc: Global, row: &Row) -> Result<Row, AllocError>
    ensures { IfOk result (λ r. r ≡ row.now) }
{
    Ok(Row {
        sense: row.sense,
        form: Signed::new(Vec::from_slice(alloc, row.form.summands())?),
    })
}

/// Adds equal rows.
fn add_copies(alloc: Global, all: &mut Vec<Row>, rows: &[Row]) -> Result<(), AllocError>
    ensures { OnOk result (all.new.items ≡ all.old.items ++ rows.now) }
{
    for row in rows {
        all.push(copy_of_row(alloc, row)?)?;
    }
    Ok(())
}

/// Equal rows.
fn copies_of_rows(alloc: Global, rows: &[Row]) -> Result<Vec<Row>, AllocError>
    ensures { IfOk result (λ v. v.items ≡ rows.now) }
{
    let mut all = Vec::with_capacity(alloc, rows.len())?;
    add_copies(alloc, &mut all, rows)?;
    Ok(all)
}

/// The rows, and more.
fn rows_with(alloc: Global, rows: &[Row], more: &[Row]) -> Result<Vec<Row>, AllocError>
    ensures { IfOk result (λ v. v.items ≡ rows.now ++ more.now) }
{
    let mut all = Vec::with_capacity(alloc, rows.len().saturating_add(more.len()))?;
    add_copies(alloc, &mut all, rows)?;
    add_copies(alloc, &mut all, more)?;
    Ok(all)
}

/// The rows, and more, in place.
fn rows_and(mut rows: Vec<Row>, more: Vec<Row>) -> Result<Vec<Row>, AllocError>
    ensures { IfOk result (λ v. v.items ≡ rows.items ++ more.items) }
{
    for row in more {
        rows.push(row)?;
    }
    Ok(rows)
}

/// What comes of rows whose table is solved.
fn with_values(
    alloc: Global,
    rows: Vec<Row>,
    terms: Vec<Term>,
    solved: Table,
) -> Result<Prepared, AllocError>
    requires few { length rows.items ≤ most_rows_of_system }
    requires coefficients { IsTrue (all_small rows.items) }
    requires once { AreOnce terms.items }
    requires named { AllNamed terms.items (views_of_rows rows.items) }
    requires room { length terms.items < columns_of solved }
    requires counted { columns_of solved ≤ 2 ^ 63 + spare_columns }
    requires solved { IsSolved (columns_of solved)
        (named_constraints false terms.items (views_of_rows rows.items)) solved }
    ensures { IfOk result (IsPreparedRows rows.items) }
{
    match verdict_of_solved(alloc, &rows, &[], &terms, &solved) {
        Ok(Verdict::Holds(values)) => Ok(Prepared::SolvedRows(SolvedRows {
            rows,
            terms,
            solved,
            values,
        })),
        Ok(Verdict::Absurd(absurdity)) => {
            mem::drop(solved);
            Ok(Prepared::Absurd(rows, absurdity))
        }
        Ok(Verdict::TooWide) => {
            mem::drop(solved);
            Ok(Prepared::TooWide)
        }
        Err(error) => {
            mem::drop(solved);
            Err(error)
        }
    }
}

/// Solves rows, to be asked about with further rows. The conditions are those of [`decide`]. The
/// answer is `SolvedRows` where values satisfy every row, or `Absurd` with multipliers that refute
/// the rows, or `TooWide`, which comes only where some minor of the rows has size at least 2^63,
/// and so their width is at least 2^63 too.
pub fn prepare(alloc: Global, rows: Vec<Row>) -> Result<Prepared, AllocError>
    requires few { length rows.items ≤ most_rows_of_system }
    requires coefficients { IsTrue (all_small rows.items) }
    ensures { IfOk result (IsPreparedRows rows.items) }
{
    let terms = terms_of(alloc, &rows)?;
    let constraints = plain_constraints(alloc, &terms, &rows)?;
    match solve_constraints(alloc, constraints, terms.len() + 1 + SPARE)? {
        Outcome::TooWide => Ok(Prepared::TooWide),
        Outcome::Absurd(weights) => {
            let once = refuted_once(alloc, &rows, &[], &weights)?;
            Ok(Prepared::Absurd(rows, once))
        }
        Outcome::Holds(solved) => with_values(alloc, rows, terms, solved),
    }
}

/// What comes of rows whose table is solved and further rows, from the solved table. Where those
/// have more new terms than the table has columns to spare, all rows are decided from nothing.
fn decided_with(
    alloc: Global,
    rows: &[Row],
    terms: &[Term],
    solved: &Table,
    more: &[Row],
) -> Result<Verdict, AllocError>
    requires few { length (rows.now ++ more.now) ≤ most_rows_of_system }
    requires coefficients { IsTrue (all_small (rows.now ++ more.now)) }
    requires table { IsTableFor rows.now terms.now solved.now }
    ensures { IfOk result (IsVerdict (views_of_rows (rows.now ++ more.now))) }
{
    let terms = terms_with(alloc, terms, more)?;
    if solved.width() <= terms.len() {
        let all = rows_with(alloc, rows, more)?;
        return decide(alloc, &all);
    }
    let constraints = plain_constraints(alloc, &terms, more)?;
    if constraints.is_empty() {
        return verdict_of_solved(alloc, rows, more, &terms, solved);
    }
    let outcome = match solved.with_all(alloc, &constraints) {
        Ok(outcome) => outcome,
        Err(error) => {
            mem::drop(constraints);
            return Err(error);
        }
    };
    let verdict = verdict_of(alloc, rows, more, &terms, &outcome);
    mem::drop(outcome);
    verdict
}

impl SolvedRows {
    /// The rows, in order.
    pub fn rows(&self) -> &[Row]
        ensures { result.now ≡ self.now }
    {
        &self.rows
    }

    /// Values that satisfy every row.
    pub fn values(&self) -> &Values
        ensures { AreValuesOf (views_of_rows self.now) result.now }
    {
        &self.values
    }

    /// Equal rows, solved.
    pub fn copy(&self, alloc: Global) -> Result<SolvedRows, AllocError>
        ensures { IfOk result (λ s. s ≡ self.now) }
    {
        let terms = Vec::from_slice(alloc, &self.terms)?;
        let pairs = Vec::from_slice(alloc, self.values.items())?;
        let rows = copies_of_rows(alloc, &self.rows)?;
        let solved = self.solved.copy(alloc)?;
        Ok(SolvedRows {
            rows,
            terms,
            solved,
            values: Values::new(pairs),
        })
    }

    /// [`decide`] of the rows and more after them, from the solved table; the rows stay as they
    /// are. Where `more` has over 8 terms that no row here has, all rows are decided from nothing.
    pub fn decide_with(&self, alloc: Global, more: &[Row]) -> Result<Verdict, AllocError>
        requires few { length (self.now ++ more.now) ≤ most_rows_of_system }
        requires coefficients { IsTrue (all_small (self.now ++ more.now)) }
        ensures verdict { IfOk result (IsVerdict (views_of_rows (self.now ++ more.now))) }
        ensures holds { IfOk result (λ v. ¬ IsWide (views_of_rows (self.now ++ more.now))
            → HasSolution (views_of_rows (self.now ++ more.now)) → IsHolds v) }
        ensures absurd { IfOk result (λ v. ¬ IsWide (views_of_rows (self.now ++ more.now))
            → ¬ HasSolution (views_of_rows (self.now ++ more.now)) → IsAbsurd v) }
    {
        decided_with(alloc, &self.rows, &self.terms, &self.solved, more)
    }

    /// [`prepare`] of the rows and more after them, from the solved table. Where `more` has over 8
    /// terms that no row here has, all rows are solved from nothing.
    pub fn with(self, alloc: Global, more: Vec<Row>) -> Result<Prepared, AllocError>
        requires few { length (self ++ more.items) ≤ most_rows_of_system }
        requires coefficients { IsTrue (all_small (self ++ more.items)) }
        ensures { IfOk result (IsPreparedRows (self ++ more.items)) }
    {
        let SolvedRows {
            rows,
            terms,
            solved,
            values,
        } = self;
        mem::drop(values);
        let terms = terms_and_fresh(terms, &more)?;
        if solved.width() <= terms.len() {
            mem::drop(solved);
            return prepare(alloc, rows_and(rows, more)?);
        }
        let constraints = plain_constraints(alloc, &terms, &more)?;
        let rows = rows_and(rows, more)?;
        match solved.grown(alloc, constraints)? {
            Outcome::TooWide => Ok(Prepared::TooWide),
            Outcome::Absurd(weights) => {
                let once = refuted_once(alloc, &rows, &[], &weights)?;
                Ok(Prepared::Absurd(rows, once))
            }
            Outcome::Holds(grown) => with_values(alloc, rows, terms, grown),
        }
    }
}
