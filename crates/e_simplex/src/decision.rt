//! Decides rows over terms.

ghost use Rattle.std.specs.Prelude.{◌≡◌, ℕ, ◌+◌, ◌++◌, ◌<◌, ◌≤◌, ◌^◌, length, IfOk, IsTrue, false};
ghost use Rattle.e_literal.specs.Minor.{IsWide};
ghost use Rattle.e_literal.specs.Solution.{HasSolution};
ghost use Rattle.e_fraction.specs.Limits.{most_rows_of_system, all_small};
ghost use Rattle.e_fraction.specs.Views.{views_of_rows};
ghost use Rattle.e_simplex.specs.Answer.{IsVerdict, IsRefuted, IsHolds, IsAbsurd};
ghost use Rattle.e_simplex.specs.Naming.{AreOnce, AllNamed, named_constraints};
ghost use Rattle.e_simplex.specs.Solved.{IsSolved, IsTableOutcome, columns_of, spare_columns};
ghost use Rattle.e_simplex.specs.inner.Paired.{PairedTo};
ghost use Rattle.e_simplex.specs.inner.Weights.{AreWeightsFor, AreWeightsForBoth};

use crate::disequalities::{Satisfaction, satisfy_all};
use crate::multipliers::{multipliers_of_rows, place_of_not_in};
use crate::naming::{plain_constraints, terms_of, tried_constraints};
use crate::solved::{Outcome, solve_constraints};
use crate::table::Table;
use e_fraction::Row;
use e_literal::{Term, Values};
use std::alloc::{AllocError, Global};
use std::mem;

/// Multipliers of the rows that show that no values satisfy them: one list, or, for the row at
/// `row`, which says `not 0`, one list that counts it as more than 0 and one that counts it as
/// less.
#[derive(Drop)]
pub enum Absurdity {
    One(Vec<i128>),
    Two {
        row: usize,
        above: Vec<i128>,
        below: Vec<i128>,
    },
}

/// No values satisfy the rows, or these do, or a minor of the rows is large.
#[derive(Drop)]
pub enum Verdict {
    Absurd(Absurdity),
    Holds(Values),
    TooWide,
}

/// The terms, each with the value of its column.
fn named_values(alloc: Global, terms: &[Term], values: &[i128]) -> Result<Values, AllocError>
    requires { length terms.now < length values.now }
    ensures { IfOk result (PairedTo (length terms.now) terms.now values.now) }
{
    let mut pairs = Vec::with_capacity(alloc, terms.len())?;
    for (c, term) in terms.iter().enumerate() {
        pairs.push((*term, values[c + 1].unsigned_abs()))?;
    }
    Ok(Values::new(pairs))
}

/// What comes of rows whose constraints are refuted.
pub fn refuted_once(
    alloc: Global,
    rows: &[Row],
    more: &[Row],
    weights: &[i128],
) -> Result<Absurdity, AllocError>
    requires few { length (rows.now ++ more.now) ≤ most_rows_of_system }
    requires weights { AreWeightsFor (views_of_rows (rows.now ++ more.now)) weights.now }
    ensures { IfOk result (IsRefuted (views_of_rows (rows.now ++ more.now))) }
{
    let multipliers = multipliers_of_rows(alloc, rows, more, weights, 0, 0)?;
    Ok(Absurdity::One(multipliers))
}

/// What comes of the row at the place `k` among those that say `not 0`, both of whose signs are
/// refuted.
fn refuted_both(
    alloc: Global,
    rows: &[Row],
    more: &[Row],
    k: usize,
    above: &[i128],
    below: &[i128],
) -> Result<Absurdity, AllocError>
    requires few { length (rows.now ++ more.now) ≤ most_rows_of_system }
    requires weights { AreWeightsForBoth (views_of_rows (rows.now ++ more.now)) k above.now below.now }
    ensures { IfOk result (IsRefuted (views_of_rows (rows.now ++ more.now))) }
{
    let row = place_of_not_in(rows, more, k);
    let last = above[above.len() - 1];
    let above = multipliers_of_rows(alloc, rows, more, above, k + 1, last)?;
    let last = below[below.len() - 1];
    let below = multipliers_of_rows(alloc, rows, more, below, k + 1, last)?;
    Ok(Absurdity::Two { row, above, below })
}

/// What comes of solved constraints and the rows that say `not 0`. The table has a column for each
/// term of the rows, and maybe more.
pub fn verdict_of_solved(
    alloc: Global,
    rows: &[Row],
    more: &[Row],
    terms: &[Term],
    solved: &Table,
) -> Result<Verdict, AllocError>
    requires few { length (rows.now ++ more.now) ≤ most_rows_of_system }
    requires coefficients { IsTrue (all_small (rows.now ++ more.now)) }
    requires once { AreOnce terms.now }
    requires named { AllNamed terms.now (views_of_rows (rows.now ++ more.now)) }
    requires room { length terms.now < columns_of solved.now }
    requires counted { columns_of solved.now ≤ 2 ^ 63 + spare_columns }
    requires solved { IsSolved (columns_of solved.now)
        (named_constraints false terms.now (views_of_rows (rows.now ++ more.now))) solved.now }
    ensures { IfOk result (IsVerdict (views_of_rows (rows.now ++ more.now))) }
{
    let forms = tried_constraints(alloc, terms, rows, more)?;
    match satisfy_all(alloc, solved, &forms)? {
        Satisfaction::TooWide => Ok(Verdict::TooWide),
        Satisfaction::Found(values) => {
            let values = named_values(alloc, terms, &values)?;
            Ok(Verdict::Holds(values))
        }
        Satisfaction::BothRefuted(k, above, below) => {
            let both = refuted_both(alloc, rows, more, k, &above, &below)?;
            Ok(Verdict::Absurd(both))
        }
    }
}

/// What comes of rows whose constraints have this outcome.
pub fn verdict_of(
    alloc: Global,
    rows: &[Row],
    more: &[Row],
    terms: &[Term],
    outcome: &Outcome,
) -> Result<Verdict, AllocError>
    requires few { length (rows.now ++ more.now) ≤ most_rows_of_system }
    requires coefficients { IsTrue (all_small (rows.now ++ more.now)) }
    requires once { AreOnce terms.now }
    requires named { AllNamed terms.now (views_of_rows (rows.now ++ more.now)) }
    requires outcome { (w : ℕ) × (length terms.now < w) × (w ≤ 2 ^ 63 + spare_columns)
        × IsTableOutcome w
        (named_constraints false terms.now (views_of_rows (rows.now ++ more.now))) outcome.now }
    ensures { IfOk result (IsVerdict (views_of_rows (rows.now ++ more.now))) }
{
    match outcome {
        Outcome::TooWide => Ok(Verdict::TooWide),
        Outcome::Absurd(weights) => {
            let once = refuted_once(alloc, rows, more, weights)?;
            Ok(Verdict::Absurd(once))
        }
        Outcome::Holds(solved) => verdict_of_solved(alloc, rows, more, terms, solved),
    }
}

/// Whether values of the terms, whole numbers of at least 0, satisfy the rows.
/// [`have_small_coefficients`] tests the condition. The answer is `Holds` with values that satisfy
/// every row, or `Absurd` with multipliers that refute the rows, or `TooWide`, which comes only
/// where some minor of the rows has size at least 2^63, and so their width is at least 2^63 too. A
/// form of more than 2^32 terms is out of memory.
///
/// [`have_small_coefficients`]: e_fraction::have_small_coefficients
pub fn decide(alloc: Global, rows: &[Row]) -> Result<Verdict, AllocError>
    requires few { length rows.now ≤ most_rows_of_system }
    requires coefficients { IsTrue (all_small rows.now) }
    ensures verdict { IfOk result (IsVerdict (views_of_rows rows.now)) }
    ensures holds { IfOk result (λ v. ¬ IsWide (views_of_rows rows.now)
        → HasSolution (views_of_rows rows.now) → IsHolds v) }
    ensures absurd { IfOk result (λ v. ¬ IsWide (views_of_rows rows.now)
        → ¬ HasSolution (views_of_rows rows.now) → IsAbsurd v) }
{
    let terms = terms_of(alloc, rows)?;
    let constraints = plain_constraints(alloc, &terms, rows)?;
    let outcome = solve_constraints(alloc, constraints, terms.len() + 1)?;
    let verdict = verdict_of(alloc, rows, &[], &terms, &outcome);
    mem::drop(outcome);
    verdict
}
