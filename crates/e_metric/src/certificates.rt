//! Certificates from multipliers of the rows of a system.

ghost use Rattle.std.specs.Prelude.{◌≡◌, ℕ, ◌+◌, ◌<◌, ◌≤◌, ◌^◌, ◌++◌, ◌∷◌, [], length};
ghost use Rattle.std.specs.Prelude.{get_or, set, pos, unsigned_abs, IfOk, OnOk, IsTrue};
ghost use Rattle.e_literal.specs.Absurd;
ghost use Rattle.e_fraction.specs.Limits.{most_rows_of_system, all_small};
ghost use Rattle.e_fraction.specs.Views.{with_multipliers, views_of_rows};
ghost use Rattle.e_simplex.specs.Answer.{IsAbsurdity};
ghost use Rattle.e_clause.specs.declared.cert.RowName.TheVariants as name;
ghost use Rattle.e_clause.specs.declared.cert.Sums.TheVariants.{Two as TwoSums};
ghost use Rattle.e_metric.specs.inner.Certificate;
ghost use Rattle.e_metric.specs.inner.Certificate.{leasts, IsWeighable};
ghost use Rattle.e_metric.specs.inner.TermTotals.{kept_total};
ghost use Rattle.e_literal.specs.declared.object.Term.{Term as ATerm};

use crate::in_two::InTwo;
use crate::totals::{has_negative, total_of_term, totals_of};
use e_clause::{MetricCert, RowName, Sum, Sums};
use e_fraction::Row;
use e_literal::{Term, canonical, copy};
use e_simplex::Absurdity;
use std::alloc::{AllocError, Global};
use std::collections::BTreeMap;

/// An equal name.
pub fn copy_of_name(alloc: Global, name: &RowName) -> Result<RowName, AllocError>
    ensures { IfOk result (λ n. n ≡ name.now) }
{
    match name {
        RowName::Fact(lit) => Ok(RowName::Fact(copy(alloc, lit)?)),
        RowName::Goal => Ok(RowName::Goal),
        RowName::Pos(term) => Ok(RowName::Pos(*term)),
        RowName::Top(term) => Ok(RowName::Top(*term)),
        RowName::Right => Ok(RowName::Right),
        RowName::Least(term) => Ok(RowName::Least(*term)),
        RowName::Above => Ok(RowName::Above),
        RowName::Below => Ok(RowName::Below),
        RowName::FactAt(place) => Ok(RowName::FactAt(*place)),
    }
}

// The name of the row at a place, or the other one that is given for it.
fn name_at(
    alloc: Global,
    names: &InTwo<RowName>,
    renamed: Option<(usize, &RowName)>,
    place: usize,
) -> Result<RowName, AllocError>
    requires { place < length names.now }
    ensures { IfOk result
        (λ n. n ≡ get_or (Certificate.renamed_at names.now renamed.entry) place name.Goal) }
{
    match renamed {
        Some((row, name)) if row == place => copy_of_name(alloc, name),
        _ => copy_of_name(alloc, names.at(place)),
    }
}

// The rows whose multiplier is not 0. Where another name is given for the row at a place, it has
// that.
fn rows_not_zero(
    alloc: Global,
    names: &InTwo<RowName>,
    renamed: Option<(usize, &RowName)>,
    multipliers: &[i128],
) -> Result<Vec<(i128, RowName)>, AllocError>
    requires { length multipliers.now ≡ length names.now }
    ensures { IfOk result (λ v. v.items ≡ Certificate.named_multipliers
        (Certificate.renamed_at names.now renamed.entry) multipliers.now) }
{
    let mut sum = Vec::with_capacity(alloc, 8)?;
    for (i, multiplier) in multipliers.iter().enumerate() {
        if *multiplier != 0 {
            sum.push((*multiplier, name_at(alloc, names, renamed, i)?))?;
        }
    }
    Ok(sum)
}

// For each term whose total is less than 0, adds as many times the row that says that it is at
// least 0.
fn add_leasts_of(
    sum: &mut Vec<(i128, RowName)>,
    totals: &BTreeMap<Term, i128>,
    terms: &[Term],
) -> Result<(), AllocError>
    requires { (t : ATerm) → unsigned_abs (kept_total totals.now.entries t) ≤ 2 ^ 80 }
    ensures { OnOk result (sum.new.items ≡ sum.old.items
        ++ leasts (kept_total totals.now.entries) terms.now) }
{
    for term in terms {
        let left = total_of_term(totals, canonical(*term));
        if left < 0 {
            sum.push((-left, RowName::Least(*term)))?;
        }
    }
    Ok(())
}

// Where the rows, each times its weight, leave less than nothing of a term, adds as many times the
// row that says that it is at least 0. Mostly there is no such term.
fn add_leasts(
    sum: &mut Vec<(i128, RowName)>,
    alloc: Global,
    rows: &InTwo<Row>,
    weights: &[i128],
    terms: &[Term],
) -> Result<(), AllocError>
    requires { IsWeighable rows.now weights.now }
    ensures { OnOk result (sum.new.items ≡ sum.old.items
        ++ leasts (Absurd.total (with_multipliers rows.now weights.now)) terms.now) }
{
    let totals = totals_of(alloc, rows, weights)?;
    if has_negative(&totals) {
        add_leasts_of(sum, &totals, terms)
    } else {
        Ok(())
    }
}

// The sum of the rows with these multipliers, and of what brings each term to 0, where it is
// weighed by these weights. Where another name is given for the row at a place, it has that.
fn sum_of(
    alloc: Global,
    names: &InTwo<RowName>,
    renamed: Option<(usize, &RowName)>,
    rows: &InTwo<Row>,
    multipliers: &[i128],
    weights: &[i128],
    terms: &[Term],
) -> Result<Sum, AllocError>
    requires names { length multipliers.now ≡ length names.now }
    requires rows { IsWeighable rows.now weights.now }
    ensures { IfOk result (λ s. s ≡ Certificate.certificate_sum
        (Certificate.renamed_at names.now renamed.entry) rows.now multipliers.now weights.now
        terms.now) }
{
    let mut sum = rows_not_zero(alloc, names, renamed, multipliers)?;
    add_leasts(&mut sum, alloc, rows, weights, terms)?;
    Ok(Sum::new(sum))
}

// The multipliers, with the one at the place negated.
fn negated_at(alloc: Global, multipliers: &[i128], place: usize) -> Result<Vec<i128>, AllocError>
    requires here { place < length multipliers.now }
    requires small { unsigned_abs (get_or multipliers.now place (pos 0)) ≤ 2 ^ 80 }
    ensures { IfOk result (λ v. v.items ≡ Certificate.negated_place multipliers.now place) }
{
    let mut weights = Vec::from_slice(alloc, multipliers)?;
    weights[place] = -multipliers[place];
    Ok(weights)
}

// The two sums where the row at `row` says that its form is not 0.
fn two_sums(
    alloc: Global,
    names: &InTwo<RowName>,
    rows: &InTwo<Row>,
    terms: &[Term],
    row: usize,
    above: &[i128],
    below: &[i128],
) -> Result<Sums, AllocError>
    requires here { row < length names.now }
    requires above_length { length above.now ≡ length names.now }
    requires below_length { length below.now ≡ length names.now }
    requires below_small { unsigned_abs (get_or below.now row (pos 0)) ≤ 2 ^ 80 }
    requires first { IsWeighable rows.now above.now }
    requires second { IsWeighable rows.now (Certificate.negated_place below.now row) }
    ensures { IfOk result (λ s. s ≡ TwoSums (get_or names.now row name.Goal)
        (Certificate.certificate_sum (set names.now row name.Above) rows.now above.now above.now
        terms.now) (Certificate.certificate_sum (set names.now row name.Below) rows.now below.now
        (Certificate.negated_place below.now row) terms.now)) }
{
    let weights = negated_at(alloc, below, row)?;
    let named_above = Some((row, &RowName::Above));
    let named_below = Some((row, &RowName::Below));
    let above = sum_of(alloc, names, named_above, rows, above, above, terms)?;
    let below = sum_of(alloc, names, named_below, rows, below, &weights, terms)?;
    Ok(Sums::Two {
        differs: copy_of_name(alloc, names.at(row))?,
        above,
        below,
    })
}

// Puts equal rows of a sum last.
fn add_equal(
    rows: &mut Vec<(i128, RowName)>,
    alloc: Global,
    more: &[(i128, RowName)],
) -> Result<(), AllocError>
    ensures { OnOk result (rows.new.items ≡ rows.old.items ++ more.now) }
{
    for row in more {
        rows.push((row.0, copy_of_name(alloc, &row.1)?))?;
    }
    Ok(())
}

// An equal sum.
fn copy_of_sum(alloc: Global, sum: &Sum) -> Result<Sum, AllocError>
    ensures { IfOk result (λ s. s ≡ sum.now) }
{
    let mut rows = Vec::with_capacity(alloc, sum.rows().len())?;
    add_equal(&mut rows, alloc, sum.rows())?;
    Ok(Sum::new(rows))
}

/// An equal certificate.
pub fn copy_of_certificate(alloc: Global, cert: &MetricCert) -> Result<MetricCert, AllocError>
    ensures { IfOk result (λ c. c ≡ cert.now) }
{
    let sums = match &cert.sums {
        Sums::One(sum) => Sums::One(copy_of_sum(alloc, sum)?),
        Sums::Two {
            differs,
            above,
            below,
        } => {
            let above = copy_of_sum(alloc, above)?;
            let below = copy_of_sum(alloc, below)?;
            Sums::Two {
                differs: copy_of_name(alloc, differs)?,
                above,
                below,
            }
        }
    };
    Ok(MetricCert { sums })
}

/// The sums that multipliers of the rows make.
pub fn sums_of(
    alloc: Global,
    names: &InTwo<RowName>,
    rows: &InTwo<Row>,
    terms: &[Term],
    absurdity: &Absurdity,
) -> Result<Sums, AllocError>
    requires names { length names.now ≡ length rows.now }
    requires few { length rows.now ≤ most_rows_of_system }
    requires coefficients { IsTrue (all_small rows.now) }
    requires refuted { IsAbsurdity (views_of_rows rows.now) absurdity.now }
    ensures { IfOk result
        (λ s. s ≡ Certificate.certificate_sums names.now rows.now terms.now absurdity.now) }
{
    match absurdity {
        Absurdity::One(multipliers) => {
            let sum = sum_of(alloc, names, None, rows, multipliers, multipliers, terms)?;
            Ok(Sums::One(sum))
        }
        Absurdity::Two { row, above, below } => {
            two_sums(alloc, names, rows, terms, *row, above, below)
        }
    }
}
