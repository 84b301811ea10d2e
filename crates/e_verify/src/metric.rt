//! What a metric certificate shows.

ghost use Rattle.std.specs.Prelude.{◌≡◌, IfOk, IfSome, IsTrue, true};
ghost use Rattle.std.specs.Prelude.{option_and_then, if◌then◌else◌, Some, None};
ghost use Rattle.std.specs.Option.{option_map, option_map_or, option_copied};
ghost use Rattle.std.specs.List.{list_all};
ghost use Rattle.e_literal.specs.WellFormed.{is_well_formed};
ghost use Rattle.e_clause.specs.Sum.{says_differ};
ghost use Rattle.e_clause.specs.MetricCertificate;
ghost use Rattle.e_verify.specs.inner.Small.{is_small_row, is_small_lit_row};
ghost use Rattle.e_verify.specs.inner.Views.{row_view, lit_row_view};
ghost use Rattle.e_clause.specs.Written.{is_writable_name, is_writable_sum, are_writable_sums};

use crate::facts::Facts;
use crate::rows::{LitRow, Row, RowScope, RowSense, fact_row, goal_row, row_at};
use crate::sums::refutes;
use e_clause::{RowName, Sums};
use e_literal::Lit;
use std::alloc::{AllocError, Global};

/// Whether the facts and the negation of the wanted literal, where one is wanted, cannot all be
/// true, by these sums.
pub fn sums_refute<'a>(
    alloc: Global,
    facts: &'a Facts,
    wanted: Option<&'a Lit>,
    sums: &'a Sums,
) -> Result<bool, AllocError>
    requires facts { IsTrue (list_all is_well_formed facts.now) }
    requires wanted { IsTrue (option_map_or is_well_formed (option_copied wanted) true) }
    requires sums { IsTrue (are_writable_sums sums.now) }
    ensures { IfOk result
        (λ b. b ≡ MetricCertificate.sums_refute facts.now (option_copied wanted.entry) sums.now) }
{
    match sums {
        Sums::One(sum) => {
            let row_scope = RowScope {
                facts,
                wanted,
                above: None,
                below: None,
            };
            refutes(alloc, &row_scope, sum.rows())
        }
        Sums::Two {
            differs,
            above,
            below,
        } => match differing_row(facts, wanted, differs) {
            Some(row) => both_refute(alloc, facts, wanted, row, above.rows(), below.rows()),
            None => Ok(false),
        },
    }
}

/// Whether the form of the row is not more than 0 by the first sum, and not less by the second.
fn both_refute<'a>(
    alloc: Global,
    facts: &'a Facts,
    wanted: Option<&'a Lit>,
    row: LitRow<'a>,
    above: &'a [(i128, RowName)],
    below: &'a [(i128, RowName)],
) -> Result<bool, AllocError>
    requires facts { IsTrue (list_all is_well_formed facts.now) }
    requires wanted { IsTrue (option_map_or is_well_formed (option_copied wanted) true) }
    requires row { IsTrue (is_small_lit_row row) }
    requires above { IsTrue (is_writable_sum above.now) }
    requires below { IsTrue (is_writable_sum below.now) }
    ensures { IfOk result (λ b. b ≡ MetricCertificate.both_refute facts.now
        (option_copied wanted.entry) (lit_row_view row.entry) above.now below.now) }
{
    let row_scope = RowScope {
        facts,
        wanted,
        above: Some(above_row(row)),
        below: None,
    };
    if !refutes(alloc, &row_scope, above)? {
        return Ok(false);
    }
    let row_scope = RowScope {
        facts,
        wanted,
        above: None,
        below: Some(below_row(row)),
    };
    refutes(alloc, &row_scope, below)
}

/// The row that says that its form differs from 0, or none where the name may not be used here.
fn differing_row<'a>(
    facts: &'a Facts,
    wanted: Option<&'a Lit>,
    name: &'a RowName,
) -> Option<LitRow<'a>>
    requires facts { IsTrue (list_all is_well_formed facts.now) }
    requires wanted { IsTrue (option_map_or is_well_formed (option_copied wanted) true) }
    requires name { IsTrue (is_writable_name name.now) }
    ensures row { option_map lit_row_view result
        ≡ MetricCertificate.differing_row facts.now (option_copied wanted.entry) name.now }
    ensures small { IfSome result (λ c. IsTrue (is_small_lit_row c)) }
{
    match name {
        RowName::Fact(lit) => only_differs(fact_row(facts, lit)),
        RowName::Goal => only_differs(goal_row(wanted)),
        RowName::FactAt(place) => only_differs(row_at(facts, *place)),
        _ => None,
    }
}

/// The row, if it says that its form differs from 0.
fn only_differs<'a>(row: Option<LitRow<'a>>) -> Option<LitRow<'a>>
    requires { IfSome row (λ c. IsTrue (is_small_lit_row c)) }
    ensures row { option_map lit_row_view result ≡ option_and_then
        (λ r. if says_differ r.sense then Some r else None) (option_map lit_row_view row.entry) }
    ensures small { IfSome result (λ c. IsTrue (is_small_lit_row c)) }
{
    match row {
        Some(row) if row.sense == RowSense::Differs => Some(row),
        _ => None,
    }
}

/// The row that says that the form is more than 0.
fn above_row<'a>(row: LitRow<'a>) -> Row<'a>
    requires { IsTrue (is_small_lit_row row) }
    ensures row { row_view result ≡ MetricCertificate.above_row (lit_row_view row.entry) }
    ensures small { IsTrue (is_small_row result) }
{
    Row::Sums {
        sense: RowSense::More,
        plus: row.plus,
        minus: row.minus,
        turned: false,
    }
}

/// The row that says that the form is less than 0.
fn below_row<'a>(row: LitRow<'a>) -> Row<'a>
    requires { IsTrue (is_small_lit_row row) }
    ensures row { row_view result ≡ MetricCertificate.below_row (lit_row_view row.entry) }
    ensures small { IsTrue (is_small_row result) }
{
    Row::Sums {
        sense: RowSense::More,
        plus: row.plus,
        minus: row.minus,
        turned: true,
    }
}
