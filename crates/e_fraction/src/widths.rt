//! The width of a list of rows.

ghost use Rattle.std.specs.Prelude.{◌≡◌, ◌≤◌, ◌+◌, ◌-◌, ◌*◌, ◌^◌, [], ◌∷◌, ◌++◌, min, max, map};
ghost use Rattle.std.specs.Prelude.{get_or, sum_by, count_by, unsigned_abs, not};
ghost use Rattle.std.specs.List.{list_any};
ghost use Rattle.e_literal.specs.Same.{term_eq};
ghost use Rattle.e_literal.specs.Rows.{coefficient, terms_of_rows};
ghost use Rattle.e_literal.specs.Width.{has_constant, constants, width_over, is_among};
ghost use Rattle.e_literal.specs.Minor.{IsWide};
ghost use Rattle.e_fraction.specs.Views.{sense_of, views_of_rows};

use crate::row::{Row, RowSense};
use crate::signed::has_summand;
use e_literal::Term;

/// The product over the terms of the sum of the sizes of the term's coefficients (or 1, where that
/// is 0), times the number of rows that say `more` or `not 0` (or 1), or 2^128 - 1 where the
/// product is greater. Before that cap it is at least the size of every minor, so the width of rows
/// that are wide is at least 2^63.
pub fn width(rows: &[Row]) -> u128
    ensures value { result ≡ Rattle.e_literal.specs.Width.width (views_of_rows rows.now) }
    ensures wide { IsWide (views_of_rows rows.now) → 2 ^ 63 ≤ result }
{
    let mut product = constants(rows);
    for (i, row) in rows.iter().enumerate() {
        product = times_weights(product, rows, &rows[..i], row);
    }
    product
}

/// How many rows have a constant, or 1.
fn constants(rows: &[Row]) -> u128
    ensures { result ≡ Rattle.e_literal.specs.Width.constants (views_of_rows rows.now) }
{
    let count = rows.iter().filter(|row| has_constant(row.sense)).count();
    (count as u128).max(1)
}

fn has_constant(sense: RowSense) -> bool
    ensures { result ≡ Rattle.e_literal.specs.Width.has_constant (sense_of sense) }
{
    match sense {
        RowSense::More | RowSense::Not => true,
        RowSense::Zero | RowSense::AtLeast => false,
    }
}

/// The product, times the weights of the terms of a row that are in no row before it.
fn times_weights(product: u128, rows: &[Row], before: &[Row], row: &Row) -> u128
    requires { product
        ≡ width_over (views_of_rows rows.now) (terms_of_rows (views_of_rows before.now)) }
    ensures { result ≡ width_over (views_of_rows rows.now)
        (terms_of_rows (views_of_rows (before.now ++ row.now ∷ []))) }
{
    let form = row.form.summands();
    let mut product = product;
    for (j, summand) in form.iter().enumerate() {
        let term = summand.1;
        if is_new(before, &form[..j], term) {
            product = product.saturating_mul(weight(rows, term));
        }
    }
    product
}

/// Whether the term is neither in one of the rows nor in the form.
fn is_new(rows: &[Row], form: &[(i64, Term)], term: Term) -> bool
    ensures { result
        ≡ not (is_among (terms_of_rows (views_of_rows rows.now) ++ map (λ p. p.1) form.now) term) }
{
    !has_summand(form, term) && !occurs(rows, term)
}

/// Whether the term is in one of the rows.
fn occurs(rows: &[Row], term: Term) -> bool
    ensures { result ≡ list_any (λ r. list_any (λ q. term_eq q.1 term) r.form) rows.now }
{
    rows.iter()
        .any(|row| has_summand(row.form.summands(), term))
}

/// The sum of the sizes of the term's coefficients, or 1.
fn weight(rows: &[Row], term: Term) -> u128
    ensures { result ≡ Rattle.e_literal.specs.Width.weight (views_of_rows rows.now) term }
{
    sizes(rows, term).max(1)
}

/// The sum of the sizes of the term's coefficients.
fn sizes(rows: &[Row], term: Term) -> u128
    ensures { result ≡ sum_by (λ r. unsigned_abs (coefficient r.form term)) rows.now }
{
    let mut sum = 0u128;
    for row in rows {
        sum += u128::from(row.form.coefficient(term).unsigned_abs());
    }
    sum
}
