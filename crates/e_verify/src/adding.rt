//! How rows are added up.

ghost use Rattle.std.specs.Prelude.{◌≡◌, ◌≤◌, ◌^◌, ◌++◌, OnOk, pos, neg_ℤ};
ghost use Rattle.std.specs.Prelude.{◌+ℤ◌, ◌*ℤ◌, unsigned_abs, if◌then◌else◌};
ghost use Rattle.e_literal.specs.Rows;
ghost use Rattle.e_literal.specs.declared.object.Term.{Term as ATerm};
ghost use Rattle.e_literal.specs.Rows.{coefficient, normal_summands};
ghost use Rattle.e_verify.specs.inner.Totals.{total_at};
ghost use Rattle.e_verify.specs.inner.Views.{row_view};

use crate::rows::Row;
use crate::totals::Totals;
use e_literal::{Mono, Term};
use std::alloc::AllocError;

/// Adds the row `multiplier` times.
pub fn add_row(totals: &mut Totals, row: Row, multiplier: i128) -> Result<(), AllocError>
    requires { unsigned_abs multiplier ≤ 2 ^ 80 }
    ensures { OnOk result ((t : ATerm) → total_at totals.new t ≡ total_at totals.old t +ℤ multiplier
        *ℤ coefficient (row_view row.entry).form t) }
{
    match row {
        Row::Sums {
            plus,
            minus,
            turned,
            ..
        } => add_difference(totals, plus, minus, negated_if(turned, multiplier)),
        Row::Pos(term) => totals.add(term, multiplier),
        Row::Least(term) => totals.add(term, multiplier),
        Row::Top(term) => {
            totals.add(Term::Right, product(multiplier, 2))?;
            totals.add(term, negated_if(true, multiplier))
        }
        Row::Right => totals.add(Term::Right, multiplier),
    }
}

/// The multiplier, negated where the row is turned.
fn negated_if(turned: bool, multiplier: i128) -> i128
    requires { unsigned_abs multiplier ≤ 2 ^ 80 }
    ensures value { result ≡ (if turned then neg_ℤ multiplier else multiplier) }
    ensures size { unsigned_abs result ≤ 2 ^ 80 }
{
    if turned { -multiplier } else { multiplier }
}

/// Adds the one sum less the other `multiplier` times.
fn add_difference(
    totals: &mut Totals,
    plus: &[Mono],
    minus: &[Mono],
    multiplier: i128,
) -> Result<(), AllocError>
    requires { unsigned_abs multiplier ≤ 2 ^ 80 }
    ensures { OnOk result ((t : ATerm) → total_at totals.new t ≡ total_at totals.old t +ℤ multiplier
        *ℤ coefficient (normal_summands (Rows.plus plus.now ++ Rows.minus minus.now)) t) }
{
    add_sum(totals, plus, multiplier)?;
    add_sum(totals, minus, negated_if(true, multiplier))
}

/// Adds the sum `multiplier` times.
fn add_sum(totals: &mut Totals, sum: &[Mono], multiplier: i128) -> Result<(), AllocError>
    requires { unsigned_abs multiplier ≤ 2 ^ 80 }
    ensures { OnOk result ((t : ATerm) → total_at totals.new t ≡ total_at totals.old t +ℤ multiplier
        *ℤ coefficient (normal_summands (Rows.plus sum.now)) t) }
{
    for m in sum {
        totals.add(m.term, product(multiplier, m.coeff))?;
    }
    Ok(())
}

fn product(multiplier: i128, coefficient: u32) -> i128
    requires { unsigned_abs multiplier ≤ 2 ^ 80 }
    ensures { result ≡ multiplier *ℤ pos coefficient }
{
    multiplier * i128::from(coefficient)
}
