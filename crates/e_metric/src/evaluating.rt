//! Rows under values of their terms.

ghost use Rattle.std.specs.Prelude.{◌≡◌, true, IfSome, IfOk};
ghost use Rattle.e_literal.specs.Solution;
ghost use Rattle.e_literal.specs.Solution.{IsSo, Satisfy};
ghost use Rattle.e_fraction.specs.Views.{sense_of, views_of_rows};
ghost use Rattle.e_simplex.specs.Answer;
ghost use Rattle.e_metric.specs.inner.FurtherRows;

use crate::assigning::assigned_value;
use e_facts::Facts;
use e_fraction::{Row, RowSense};
use e_literal::{Term, Values, canonical};
use std::alloc::{AllocError, Global};

// The value of a form, unless a number is too large.
fn form_value(values: &[(Term, u128)], form: &[(i64, Term)]) -> Option<i128>
    ensures { IfSome result (λ n. n ≡ Solution.form_value form.now (Answer.assigned_value values.now)) }
{
    match form {
        [] => Some(0),
        [(coefficient, term), rest @ ..] => {
            let value = i128::try_from(assigned_value(values, *term)).ok()?;
            let own = i128::from(*coefficient).checked_mul(value)?;
            let more = form_value(values, rest)?;
            own.checked_add(more)
        }
    }
}

// Whether a row is seen to be so.
fn is_so(values: &[(Term, u128)], row: &Row) -> bool
    ensures { result ≡ true → IsSo (sense_of row.now.sense)
        (Solution.form_value row.now.form (Answer.assigned_value values.now)) }
{
    match form_value(values, row.form.summands()) {
        None => false,
        Some(value) => match row.sense {
            RowSense::Zero => value == 0,
            RowSense::AtLeast => value >= 0,
            RowSense::More => value > 0,
            RowSense::Not => value != 0,
        },
    }
}

/// Whether each row is seen to be so with these values.
pub fn are_so(values: &[(Term, u128)], rows: &[Row]) -> bool
    ensures { result ≡ true → Satisfy (Answer.assigned_value values.now) (views_of_rows rows.now) }
{
    for row in rows {
        if !is_so(values, row) {
            return false;
        }
    }
    true
}

// A value that a term may have of which no fact speaks: 1 where it is a segment whose ends are
// apart by the facts, and else 0.
fn default_value(facts: &Facts, term: Term) -> u128
    ensures { result ≡ FurtherRows.value_of_fresh facts.now term }
{
    match term {
        Term::Seg(a, b) => u128::from(facts.tell_apart(a, b)),
        Term::Ang(_, _, _) | Term::Area(_, _, _) | Term::Right => 0,
    }
}

/// The values, and those of more terms.
pub fn values_with(
    alloc: Global,
    facts: &Facts,
    values: &[(Term, u128)],
    fresh: &[Term],
) -> Result<Values, AllocError>
    ensures { IfOk result (λ v. v ≡ FurtherRows.values_extended facts.now values.now fresh.now) }
{
    let mut pairs = Vec::from_slice(alloc, values)?;
    for term in fresh {
        pairs.push((canonical(*term), default_value(facts, *term)))?;
    }
    Ok(Values::new(pairs))
}
