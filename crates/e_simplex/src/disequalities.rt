//! Values that satisfy constraints, and at which no form of a list is 0.

ghost use Rattle.std.specs.Prelude.{◌≡◌, ◌≢◌, ℕ, ℤ, List, ◌^◌, ◌<◌, ◌≤◌, pos, length, get_or};
ghost use Rattle.std.specs.Prelude.{unsigned_abs, IfOk, MatchOption};
ghost use Rattle.e_fraction.specs.Limits.{most_rows_of_system};
ghost use Rattle.e_simplex.specs.declared.constraints.Constraint.{Constraint};
ghost use Rattle.e_simplex.specs.Entries.{AllSmall};
ghost use Rattle.e_simplex.specs.Constraints.{AllSmallConstraints};
ghost use Rattle.e_simplex.specs.Constraints.{AllFormsWithin, value_of_monomials};
ghost use Rattle.e_simplex.specs.Solved.{IsSolved, columns_of, constraints_of};
ghost use Rattle.e_simplex.specs.inner.Points.{IsPoint};
ghost use Rattle.e_simplex.specs.inner.Disequalities.{AreFurther, IsMoved, LargeForm};
ghost use Rattle.e_simplex.specs.inner.Disequalities.{IsNextPoint, IsSatisfaction};

use crate::constraints::Constraint;
use crate::multiple::{least_multiple, with_multiples};
use crate::table::Table;
use crate::unequal::{Tried, large_place, try_both, values_at};
use std::alloc::{AllocError, Global};

/// Values of the columns, and those of the forms there.
#[derive(Drop)]
pub struct Point {
    pub values: Vec<i128>,
    pub form_values: Vec<i128>,
}

/// Values at which one form more is not 0, or multipliers that refute both signs of it.
#[derive(Drop)]
pub enum NextPoint {
    Moved(Point),
    BothRefuted(Vec<i128>, Vec<i128>),
    TooWide,
}

/// Values at which no form is 0, or the place of a form of which multipliers refute both signs.
#[derive(Drop)]
pub enum Satisfaction {
    Found(Vec<i128>),
    BothRefuted(usize, Vec<i128>, Vec<i128>),
    TooWide,
}

/// Adds the least multiple of the values found that leaves none of the first `k` forms 0; None
/// where another form than that at `k` is large there.
fn moved_point(
    alloc: Global,
    forms: &[Constraint],
    k: usize,
    values: &[i128],
    form_values: &[i128],
    found: &[i128],
) -> Result<Option<Point>, AllocError>
    requires here { k < length forms.now }
    requires few { length forms.now ≤ most_rows_of_system }
    requires small { AllSmallConstraints forms.now }
    requires within { AllFormsWithin (length found.now) forms.now }
    requires found { AllSmall found.now }
    requires values { length values.now ≡ length found.now }
    requires form_values { length form_values.now ≡ length forms.now }
    requires small_values { (c : ℕ) → c < length values.now →
        unsigned_abs (get_or values.now c (pos 0)) < 2 ^ 90 }
    requires small_form_values { (j : ℕ) → j < length form_values.now →
        unsigned_abs (get_or form_values.now j (pos 0)) < 2 ^ 90 }
    requires below { (d : Constraint) →
        unsigned_abs (value_of_monomials (get_or forms.now k d).form found.now) < 2 ^ 64 }
    requires none_before { (j : ℕ) → j < k → get_or form_values.now j (pos 0) ≢ pos 0 }
    ensures { IfOk result (λ o. MatchOption o (LargeForm forms.now k found.now)
        (λ m. (second : List ℤ) × (t : ℕ)
        × IsMoved forms.now k values.now form_values.now found.now second t m)) }
{
    let second = values_at(alloc, forms, found)?;
    match large_place(&second, k) {
        Some(_) => Ok(None),
        None => {
            let t = least_multiple(form_values, &second, k);
            Ok(Some(Point {
                values: with_multiples(alloc, values, found, t)?,
                form_values: with_multiples(alloc, form_values, &second, t)?,
            }))
        }
    }
}

/// From values at which the first `k` forms are not 0, and the next is, to values at which that one
/// is not 0 either.
fn next_point(
    alloc: Global,
    solved: &Table,
    forms: &[Constraint],
    k: usize,
    point: &Point,
) -> Result<NextPoint, AllocError>
    requires solved { IsSolved (columns_of solved.now) (constraints_of solved.now) solved.now }
    requires forms { AreFurther (columns_of solved.now) (constraints_of solved.now) forms.now }
    requires here { k < length forms.now }
    requires point { IsPoint (columns_of solved.now) (constraints_of solved.now) forms.now k
        point.now.values.items point.now.form_values.items }
    requires none { get_or point.now.form_values.items k (pos 0) ≡ pos 0 }
    ensures { IfOk result
        (IsNextPoint (columns_of solved.now) (constraints_of solved.now) forms.now k) }
{
    match try_both(alloc, solved, &forms[k])? {
        Tried::TooWide => Ok(NextPoint::TooWide),
        Tried::BothRefuted(above, below) => Ok(NextPoint::BothRefuted(above, below)),
        Tried::Found(found) => match moved_point(
            alloc,
            forms,
            k,
            &point.values,
            &point.form_values,
            &found,
        )? {
            None => Ok(NextPoint::TooWide),
            Some(more) => Ok(NextPoint::Moved(more)),
        },
    }
}

/// Values that satisfy the solved constraints and at which no form is 0.
pub fn satisfy_all(
    alloc: Global,
    solved: &Table,
    forms: &[Constraint],
) -> Result<Satisfaction, AllocError>
    requires solved { IsSolved (columns_of solved.now) (constraints_of solved.now) solved.now }
    requires forms { AreFurther (columns_of solved.now) (constraints_of solved.now) forms.now }
    ensures { IfOk result
        (IsSatisfaction (columns_of solved.now) (constraints_of solved.now) forms.now) }
{
    let values = solved.values(alloc)?;
    let form_values = values_at(alloc, forms, &values)?;
    match large_place(&form_values, forms.len()) {
        Some(_) => Ok(Satisfaction::TooWide),
        None => satisfy_from(
            alloc,
            solved,
            forms,
            Point {
                values,
                form_values,
            },
        ),
    }
}

/// From values that satisfy the solved constraints to values at which no form is 0 either, form by
/// form: sums and multiples of solutions are solutions.
fn satisfy_from(
    alloc: Global,
    solved: &Table,
    forms: &[Constraint],
    mut point: Point,
) -> Result<Satisfaction, AllocError>
    requires solved { IsSolved (columns_of solved.now) (constraints_of solved.now) solved.now }
    requires forms { AreFurther (columns_of solved.now) (constraints_of solved.now) forms.now }
    requires point { IsPoint (columns_of solved.now) (constraints_of solved.now) forms.now 0
        point.values.items point.form_values.items }
    ensures { IfOk result
        (IsSatisfaction (columns_of solved.now) (constraints_of solved.now) forms.now) }
{
    for k in 0..forms.len() {
        if point.form_values[k] == 0 {
            match next_point(alloc, solved, forms, k, &point)? {
                NextPoint::Moved(more) => point = more,
                NextPoint::BothRefuted(above, below) => return Ok(Satisfaction::BothRefuted(
                    k, above, below,
                )),
                NextPoint::TooWide => return Ok(Satisfaction::TooWide),
            }
        }
    }
    Ok(Satisfaction::Found(point.values))
}
