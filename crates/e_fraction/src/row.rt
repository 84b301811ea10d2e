//! Rows of a linear system.

ghost use Rattle.std.specs.Prelude.{◌≡◌};
ghost use Rattle.std.specs.List.{list_all};
ghost use Rattle.e_literal.specs.Rows.{Summands};
ghost use Rattle.e_fraction.specs.Limits.{has_small_coefficients, all_small};

use crate::signed::Signed;
use e_literal::Term;

/// The sense of a row, what it says of its form: that it is 0, at least 0, more than 0, or not 0.
#[derive(Clone, Copy, PartialEq, Eq)]
pub enum RowSense {
    Zero,
    AtLeast,
    More,
    Not,
}

/// A row: a form, and what is said of it.
#[derive(Drop)]
pub struct Row {
    pub sense: RowSense,
    pub form: Signed,
}

/// Whether each coefficient lies within plus or minus 2^30.
pub fn have_small_coefficients(rows: &[Row]) -> bool
    ensures { result ≡ all_small rows.now }
{
    rows.iter().all(|row| is_small(row.form.summands()))
}

fn is_small(form: &[(i64, Term)]) -> bool
    ensures { result ≡ has_small_coefficients form.now }
{
    form.iter().all(|p| p.0.unsigned_abs() <= 0x4000_0000)
}
