//! Terms and their columns.

ghost use Rattle.std.specs.Prelude.{◌≡◌, ◌<◌, ◌^◌, IfOk, OnOk, ◌++◌, IsTrue, length, true, false};
ghost use Rattle.e_literal.specs.declared.object.Term.{Term};
ghost use Rattle.e_fraction.specs.Views.{sense_of, views_of_rows};
ghost use Rattle.e_fraction.specs.Limits.{has_small_coefficients, all_small};
ghost use Rattle.e_simplex.specs.Constraints.{IsSmallConstraint, AllSmallConstraints};
ghost use Rattle.e_simplex.specs.Naming.{place_of, IsIn, AreOnce, Continues, FormNamed, AllNamed};
ghost use Rattle.e_simplex.specs.Naming.{named_form, named_constraints, constraint_sense, keeps};

use crate::constraints::{Constraint, ConstraintSense, Monomial};
use crate::solved::copies_with_room;
use e_fraction::{Row, RowSense};
use e_literal::{Items, Term};
use std::alloc::{AllocError, Global};

/// The most terms of a form: the sums of a longer one could leave 128 bits.
const MOST_TERMS: usize = 0x1_0000_0000;

/// Where the term comes first, or how many terms there are.
pub fn place(terms: &[Term], term: Term) -> usize
    ensures value { result ≡ place_of terms.now term }
    ensures counted { length terms.now < 2 ^ 64 }
{
    terms
        .iter()
        .position(|known| term == *known)
        .unwrap_or(terms.len())
}

/// The terms, and after them those of the row that are not among them.
fn with_terms(mut terms: Vec<Term>, row: &Row) -> Result<Vec<Term>, AllocError>
    requires { AreOnce terms.items }
    ensures once { IfOk result (λ v. AreOnce v.items) }
    ensures row { IfOk result (λ v. FormNamed v.items row.now.form) }
    ensures continues { IfOk result (λ v. Continues terms.items v.items) }
{
    let form = row.form.summands();
    for (_, term) in form {
        if place(&terms, *term) == terms.len() {
            terms.push(*term)?;
        }
    }
    Ok(terms)
}

/// The terms, and after them those of the rows that are not among them, in the order in which they
/// come first.
pub fn terms_with(alloc: Global, terms: &[Term], rows: &[Row]) -> Result<Vec<Term>, AllocError>
    requires { AreOnce terms.now }
    ensures once { IfOk result (λ v. AreOnce v.items) }
    ensures all { IfOk result (λ v. AllNamed v.items (views_of_rows rows.now)) }
    ensures continues { IfOk result (λ v. Continues terms.now v.items) }
{
    terms_and_fresh(copies_with_room(alloc, terms, 8)?, rows)
}

/// The terms, and after them those of the rows that are not among them, in place.
pub fn terms_and_fresh(terms: Vec<Term>, rows: &[Row]) -> Result<Vec<Term>, AllocError>
    requires { AreOnce terms.items }
    ensures once { IfOk result (λ v. AreOnce v.items) }
    ensures all { IfOk result (λ v. AllNamed v.items (views_of_rows rows.now)) }
    ensures continues { IfOk result (λ v. Continues terms.items v.items) }
{
    let mut all = terms;
    for row in rows {
        all = with_terms(all, row)?;
    }
    Ok(all)
}

/// The terms of the rows, each once, in the order in which they come first.
pub fn terms_of(alloc: Global, rows: &[Row]) -> Result<Vec<Term>, AllocError>
    ensures once { IfOk result (λ v. AreOnce v.items) }
    ensures all { IfOk result (λ v. AllNamed v.items (views_of_rows rows.now)) }
{
    terms_with(alloc, &[], rows)
}

fn sense(of_row: RowSense) -> ConstraintSense
    ensures { result ≡ constraint_sense (sense_of of_row) }
{
    match of_row {
        RowSense::Zero => ConstraintSense::Zero,
        RowSense::AtLeast => ConstraintSense::AtLeast,
        RowSense::More | RowSense::Not => ConstraintSense::More,
    }
}

/// The constraint of a row. One with too many terms is out of memory.
fn constraint_of_row(alloc: Global, row: &Row, terms: &[Term]) -> Result<Constraint, AllocError>
    requires once { AreOnce terms.now }
    requires named { FormNamed terms.now row.now.form }
    requires coefficients { IsTrue (has_small_coefficients row.now.form) }
    ensures small { IfOk result IsSmallConstraint }
    ensures sense { IfOk result (λ l. l.sense ≡ constraint_sense (sense_of row.now.sense)) }
    ensures form { IfOk result (λ l. l.form ≡ named_form terms.now row.now.form) }
{
    let summands = row.form.summands();
    if summands.len() > MOST_TERMS {
        return Err(AllocError);
    }
    let mut form = Vec::with_capacity(alloc, summands.len())?;
    for (coefficient, term) in summands {
        form.push(Monomial {
            coefficient: *coefficient,
            column: place(terms, *term) + 1,
        })?;
    }
    Ok(Constraint {
        sense: sense(row.sense),
        form: Items::new(form),
    })
}

/// Whether the row is wanted: one that says `not 0`, or another.
pub fn is_kept(not: bool, sense: RowSense) -> bool
    ensures { result ≡ keeps not (sense_of sense) }
{
    match sense {
        RowSense::Not => not,
        RowSense::Zero | RowSense::AtLeast | RowSense::More => !not,
    }
}

/// Adds the constraints of the rows that say `not 0`, or of the others.
fn add_constraints_where(
    constraints: &mut Vec<Constraint>,
    alloc: Global,
    not: bool,
    terms: &[Term],
    rows: &[Row],
) -> Result<(), AllocError>
    requires once { AreOnce terms.now }
    requires named { AllNamed terms.now (views_of_rows rows.now) }
    requires coefficients { IsTrue (all_small rows.now) }
    ensures value { OnOk result (constraints.new.items ≡ constraints.old.items
        ++ named_constraints not terms.now (views_of_rows rows.now)) }
    ensures small { AllSmallConstraints constraints.old.items →
        OnOk result (AllSmallConstraints constraints.new.items) }
{
    for row in rows {
        if is_kept(not, row.sense) {
            constraints.push(constraint_of_row(alloc, row, terms)?)?;
        }
    }
    Ok(())
}

/// The constraints of the rows that do not say `not 0`.
pub fn plain_constraints(
    alloc: Global,
    terms: &[Term],
    rows: &[Row],
) -> Result<Vec<Constraint>, AllocError>
    requires once { AreOnce terms.now }
    requires named { AllNamed terms.now (views_of_rows rows.now) }
    requires coefficients { IsTrue (all_small rows.now) }
    ensures value { IfOk result (λ v.
        v.items ≡ named_constraints false terms.now (views_of_rows rows.now)) }
    ensures small { IfOk result (λ v. AllSmallConstraints v.items) }
{
    let mut constraints = Vec::with_capacity(alloc, rows.len())?;
    add_constraints_where(&mut constraints, alloc, false, terms, rows)?;
    Ok(constraints)
}

/// The constraints of the rows, in two parts, that say `not 0`: their forms are tried as more than
/// 0.
pub fn tried_constraints(
    alloc: Global,
    terms: &[Term],
    rows: &[Row],
    more: &[Row],
) -> Result<Vec<Constraint>, AllocError>
    requires once { AreOnce terms.now }
    requires named { AllNamed terms.now (views_of_rows (rows.now ++ more.now)) }
    requires coefficients { IsTrue (all_small (rows.now ++ more.now)) }
    ensures value { IfOk result (λ v.
        v.items ≡ named_constraints true terms.now (views_of_rows (rows.now ++ more.now))) }
    ensures small { IfOk result (λ v. AllSmallConstraints v.items) }
{
    let mut constraints = Vec::with_capacity(alloc, more.len())?;
    add_constraints_where(&mut constraints, alloc, true, terms, rows)?;
    add_constraints_where(&mut constraints, alloc, true, terms, more)?;
    Ok(constraints)
}
