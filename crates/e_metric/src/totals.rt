//! Rows added up, term by term.

ghost use Rattle.std.specs.Prelude.{◌≡◌, ◌+◌, ◌<◌, ◌≤◌, ◌^◌, ◌∷◌, [], IsTrue, IfOk, OnOk};
ghost use Rattle.std.specs.Prelude.{◌+ℤ◌, ◌*ℤ◌, pos, true, unsigned_abs, int_lt};
ghost use Rattle.std.specs.List.{list_any};
ghost use Rattle.std.specs.BTreeMap.{values};
ghost use Rattle.e_literal.specs.Absurd;
ghost use Rattle.e_literal.specs.declared.object.Term.{Term as ATerm};
ghost use Rattle.e_literal.specs.Rows.{coefficient};
ghost use Rattle.e_fraction.specs.Distinct.{have_distinct_terms};
ghost use Rattle.e_fraction.specs.Limits.{has_small_coefficients};
ghost use Rattle.e_fraction.specs.Views.{with_multipliers};
ghost use Rattle.e_metric.specs.inner.Certificate.{IsWeighable};
ghost use Rattle.e_metric.specs.inner.TermTotals.{kept_total};

use crate::in_two::InTwo;
use e_fraction::Row;
use e_literal::Term;
use std::alloc::{AllocError, Global};
use std::collections::BTreeMap;

/// The number that is kept for a term, 0 where there is none.
pub fn total_of_term(totals: &BTreeMap<Term, i128>, term: Term) -> i128
    ensures { result ≡ kept_total totals.now.entries term }
{
    match totals.get(&term) {
        Some(total) => *total,
        None => 0,
    }
}

/// Whether a number less than 0 is kept.
pub fn has_negative(totals: &BTreeMap<Term, i128>) -> bool
    ensures { result ≡ list_any (λ total. int_lt total (pos 0)) (values totals.now) }
{
    totals.values().any(|total| *total < 0)
}

// Adds to the number that is kept for a term.
fn add_to(totals: &mut BTreeMap<Term, i128>, term: Term, n: i128) -> Result<(), AllocError>
    requires { unsigned_abs (kept_total totals.old.entries term) + unsigned_abs n < 2 ^ 127 }
    ensures { OnOk result ((t : ATerm) → kept_total totals.new.entries t
        ≡ kept_total totals.old.entries t +ℤ coefficient ((n, term) ∷ []) t) }
{
    let before = total_of_term(totals, term);
    totals.insert(term, before + n)?;
    Ok(())
}

// A coefficient, so many times.
fn product(weight: i128, coefficient: i64) -> i128
    requires weight { unsigned_abs weight ≤ 2 ^ 80 }
    requires coefficient { unsigned_abs coefficient ≤ 2 ^ 30 }
    ensures value { result ≡ weight *ℤ coefficient }
    ensures size { unsigned_abs result ≤ 2 ^ 110 }
{
    weight * i128::from(coefficient)
}

// Whether what is taken so many times is nothing.
fn is_nothing(weight: i128) -> bool
    ensures { result ≡ true → weight ≡ pos 0 }
{
    weight == 0
}

// Adds a form, so many times.
fn add_form(
    totals: &mut BTreeMap<Term, i128>,
    form: &[(i64, Term)],
    weight: i128,
) -> Result<(), AllocError>
    requires distinct { IsTrue (have_distinct_terms form.now) }
    requires small { IsTrue (has_small_coefficients form.now) }
    requires weight { unsigned_abs weight ≤ 2 ^ 80 }
    requires room { (t : ATerm) → unsigned_abs (kept_total totals.old.entries t) ≤ 2 ^ 123 }
    ensures { OnOk result ((t : ATerm) → kept_total totals.new.entries t
        ≡ kept_total totals.old.entries t +ℤ weight *ℤ coefficient form.now t) }
{
    if is_nothing(weight) {
        return Ok(());
    }
    for summand in form {
        add_to(totals, summand.1, product(weight, summand.0))?;
    }
    Ok(())
}

/// The coefficient of each term in the sum of the rows, each times its weight.
pub fn totals_of(
    alloc: Global,
    rows: &InTwo<Row>,
    weights: &[i128],
) -> Result<BTreeMap<Term, i128>, AllocError>
    requires { IsWeighable rows.now weights.now }
    ensures { IfOk result (λ m. (t : ATerm)
        → kept_total m.entries t ≡ Absurd.total (with_multipliers rows.now weights.now) t) }
{
    let mut totals = BTreeMap::new(alloc);
    for (i, weight) in weights.iter().enumerate() {
        add_form(&mut totals, rows.at(i).form.summands(), *weight)?;
    }
    Ok(totals)
}
