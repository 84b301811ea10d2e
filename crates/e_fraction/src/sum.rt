//! Sums of rows that refute them.

ghost use Rattle.std.specs.Prelude.{◌≡◌, ◌≤◌, ◌<◌, ◌^◌, length, IsTrue, pos, unsigned_abs, ◌*ℤ◌};
ghost use Rattle.std.specs.Prelude.{◌&&◌};
ghost use Rattle.std.specs.List.{list_all, list_any, zip};
ghost use Rattle.std.specs.Ordering.{int_eq};
ghost use Rattle.e_literal.specs.Rows.{Summands, coefficient};
ghost use Rattle.e_literal.specs.Absurd.{total, allows_multiplier, is_strict, is_absurd};
ghost use Rattle.e_fraction.specs.Limits.{has_small_coefficients, all_small, small_multipliers};
ghost use Rattle.e_fraction.specs.Limits.{most_rows_of_system};
ghost use Rattle.e_fraction.specs.Views.{sense_of, with_multipliers, views_of_rows};
ghost use Rattle.e_literal.specs.Solution.{HasSolution};

use crate::row::{Row, RowSense};
use e_literal::Term;

/// Whether the sum of the rows, each times its multiplier, is absurd: the coefficients of each term
/// add up to 0, no row that says `at least` or `more` is taken away, and one that says `more` is
/// added. Then no values satisfy the rows. A row that says that its form is not 0 takes part in no
/// such sum. [`have_small_coefficients`] and [`are_small_multipliers`] test the conditions.
///
/// [`have_small_coefficients`]: crate::row::have_small_coefficients
pub fn check_sum(rows: &[Row], multipliers: &[i128]) -> bool
    requires lengths { length multipliers.now ≡ length rows.now }
    requires few { length rows.now ≤ most_rows_of_system }
    requires coefficients { IsTrue (all_small rows.now) }
    requires multipliers { IsTrue (small_multipliers multipliers.now) }
    ensures value { result ≡ is_absurd (with_multipliers rows.now multipliers.now) }
    ensures refutes { IsTrue result → ¬ HasSolution (views_of_rows rows.now) }
{
    have_absurd_signs(rows, multipliers) && cancels(rows, multipliers)
}

/// Whether each multiplier lies within plus or minus 2^80.
pub fn are_small_multipliers(multipliers: &[i128]) -> bool
    ensures { result ≡ small_multipliers multipliers.now }
{
    multipliers
        .iter()
        .all(|m| m.unsigned_abs() <= 0x1_0000_0000_0000_0000_0000)
}

/// Whether the coefficients of each term add up to 0.
fn cancels(rows: &[Row], multipliers: &[i128]) -> bool
    requires lengths { length multipliers.now ≡ length rows.now }
    requires few { length rows.now ≤ most_rows_of_system }
    requires coefficients { IsTrue (all_small rows.now) }
    requires multipliers { IsTrue (small_multipliers multipliers.now) }
    ensures { result ≡ list_all (λ r. list_all (λ p.
        int_eq (total (with_multipliers rows.now multipliers.now) p.1) (pos 0)) r.form) rows.now }
{
    rows.iter()
        .all(|row| cancels_in(row.form.summands(), rows, multipliers))
}

fn cancels_in(form: &[(i64, Term)], rows: &[Row], multipliers: &[i128]) -> bool
    requires lengths { length multipliers.now ≡ length rows.now }
    requires few { length rows.now ≤ most_rows_of_system }
    requires coefficients { IsTrue (all_small rows.now) }
    requires multipliers { IsTrue (small_multipliers multipliers.now) }
    ensures { result ≡ list_all (λ p.
        int_eq (total (with_multipliers rows.now multipliers.now) p.1) (pos 0)) form.now }
{
    form.iter().all(|p| total(rows, multipliers, p.1) == 0)
}

/// The coefficient of a term in the sum of the rows, each times its multiplier.
/// [`have_small_coefficients`] and [`are_small_multipliers`] test the conditions.
///
/// [`have_small_coefficients`]: crate::row::have_small_coefficients
pub fn total(rows: &[Row], multipliers: &[i128], term: Term) -> i128
    requires lengths { length multipliers.now ≡ length rows.now }
    requires few { length rows.now ≤ most_rows_of_system }
    requires coefficients { IsTrue (all_small rows.now) }
    requires multipliers { IsTrue (small_multipliers multipliers.now) }
    ensures { result ≡ Rattle.e_literal.specs.Absurd.total (with_multipliers rows.now multipliers.now) term }
{
    let mut sum: i128 = 0;
    for (row, multiplier) in rows.iter().zip(multipliers) {
        sum += weigh(row, *multiplier, term);
    }
    sum
}

/// The coefficient of the term in a row, times the row's multiplier. A row that takes no part is
/// not looked at.
fn weigh(row: &Row, multiplier: i128, term: Term) -> i128
    requires row { IsTrue (has_small_coefficients row.now.form) }
    requires multiplier { unsigned_abs multiplier ≤ 2 ^ 80 }
    ensures value { result ≡ multiplier *ℤ coefficient row.now.form term }
    ensures size { unsigned_abs result ≤ 2 ^ 110 }
{
    if multiplier == 0 {
        return 0;
    }
    multiplier * i128::from(row.form.coefficient(term))
}

/// Whether no row that says `at least` or `more` is taken away, and one that says `more` is added.
fn have_absurd_signs(rows: &[Row], multipliers: &[i128]) -> bool
    ensures { result
        ≡ (list_all (λ x. allows_multiplier (sense_of x.0.sense) x.1) (zip rows.now multipliers.now)
        && list_any (λ x. is_strict (sense_of x.0.sense) x.1) (zip rows.now multipliers.now)) }
{
    may_take_all(rows, multipliers) && has_strict(rows, multipliers)
}

/// Whether no row that says `at least` or `more` is taken away, and none says `not 0`.
fn may_take_all(rows: &[Row], multipliers: &[i128]) -> bool
    ensures { result ≡ list_all (λ x. allows_multiplier (sense_of x.0.sense) x.1)
        (zip rows.now multipliers.now) }
{
    rows.iter()
        .zip(multipliers)
        .all(|(row, multiplier)| may_take(row.sense, *multiplier))
}

fn may_take(sense: RowSense, multiplier: i128) -> bool
    ensures { result ≡ allows_multiplier (sense_of sense) multiplier }
{
    match sense {
        RowSense::Zero => true,
        RowSense::AtLeast | RowSense::More => 0 <= multiplier,
        RowSense::Not => false,
    }
}

/// Whether a row that says `more` is added.
fn has_strict(rows: &[Row], multipliers: &[i128]) -> bool
    ensures { result
        ≡ list_any (λ x. is_strict (sense_of x.0.sense) x.1) (zip rows.now multipliers.now) }
{
    rows.iter()
        .zip(multipliers)
        .any(|(row, multiplier)| is_strict(row.sense, *multiplier))
}

fn is_strict(sense: RowSense, multiplier: i128) -> bool
    ensures { result ≡ Rattle.e_literal.specs.Absurd.is_strict (sense_of sense) multiplier }
{
    sense == RowSense::More && 1 <= multiplier
}
