//! Sums of rows, and when they are absurd.

ghost use Rattle.std.specs.Prelude.{◌≡◌, IfOk, IsTrue};
ghost use Rattle.std.specs.List.{list_all};
ghost use Rattle.e_literal.specs.Absurd;
ghost use Rattle.e_clause.specs.Sum;
ghost use Rattle.e_verify.specs.inner.Views.{sense_view, row_scope_view};
ghost use Rattle.e_clause.specs.Written.{is_writable_sum};
ghost use Rattle.e_verify.specs.inner.RowScopes.{is_well_formed_row_scope};

use crate::adding::add_row;
use crate::rows::{RowScope, RowSense, row_named};
use crate::totals::Totals;
use e_clause::RowName;
use std::alloc::{AllocError, Global};

/// Whether the sum is of limited size, each of its rows may be used here, and it is absurd: all
/// terms cancel, no row that says at least or more is taken away, and one that says more is added.
pub fn refutes(
    alloc: Global,
    row_scope: &RowScope,
    sum: &[(i128, RowName)],
) -> Result<bool, AllocError>
    requires row_scope { IsTrue (is_well_formed_row_scope row_scope.now) }
    requires sum { IsTrue (is_writable_sum sum.now) }
    ensures { IfOk result (λ b. b ≡ Sum.refutes (row_scope_view row_scope.now) sum.now) }
{
    if !has_limited_size(sum) {
        return Ok(false);
    }
    let mut totals = Totals::new(alloc);
    let mut strict = false;
    for (multiplier, name) in sum {
        let Some(row) = row_named(row_scope, name) else {
            return Ok(false);
        };
        if !allows_sign(row.sense(), *multiplier) {
            return Ok(false);
        }
        let is_strict = is_strict(row.sense(), *multiplier);
        strict = strict || is_strict;
        add_row(&mut totals, row, *multiplier)?;
    }
    let cancel = totals.all_cancel();
    Ok(strict && cancel)
}

fn has_limited_size(sum: &[(i128, RowName)]) -> bool
    ensures { result ≡ Sum.is_limited_sum sum.now }
{
    1 <= sum.len() && sum.len() <= 4096 && have_bounded_multipliers(sum)
}

fn have_bounded_multipliers(sum: &[(i128, RowName)]) -> bool
    ensures { result ≡ list_all (λ x. Sum.is_nonzero_bounded x.0) sum.now }
{
    sum.iter().all(|(m, _)| is_bounded_multiplier(*m))
}

/// Whether it is not 0, and of size at most 2^80.
fn is_bounded_multiplier(n: i128) -> bool
    ensures { result ≡ Sum.is_nonzero_bounded n }
{
    n != 0 && n.unsigned_abs() <= 0x1_0000_0000_0000_0000_0000
}

fn allows_sign(sense: RowSense, multiplier: i128) -> bool
    ensures { result ≡ Absurd.allows_multiplier (sense_view sense) multiplier }
{
    match sense {
        RowSense::Zero => true,
        RowSense::AtLeast | RowSense::More => 0 <= multiplier,
        RowSense::Differs => false,
    }
}

fn is_strict(sense: RowSense, multiplier: i128) -> bool
    ensures { result ≡ Absurd.is_strict (sense_view sense) multiplier }
{
    sense == RowSense::More && 1 <= multiplier
}
