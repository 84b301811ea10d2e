//! Values at which a form is not 0: it is tried as more than 0, and as less than 0.

ghost use Rattle.std.specs.Prelude.{◌≡◌, ◌^◌, ◌≤◌, ◌++◌, ◌∷◌, [], neg_ℤ, length, unsigned_abs};
ghost use Rattle.std.specs.Prelude.{true, false, ◌<◌, IfOk, MatchOption};
ghost use Rattle.e_simplex.specs.declared.constraints.ConstraintSense.TheVariants.{More};
ghost use Rattle.e_simplex.specs.Entries.{AllSmall};
ghost use Rattle.e_simplex.specs.Constraints.{IsSmallConstraint, AllSmallConstraints};
ghost use Rattle.e_simplex.specs.Constraints.{AllFormsWithin};
ghost use Rattle.e_simplex.specs.Solved.{IsSolved, IsFit, columns_of, constraints_of};
ghost use Rattle.e_simplex.specs.inner.Tried.{neg_form, IsTried, AreValues, AreBelowBut};
ghost use Rattle.e_simplex.specs.inner.Tried.{IsLargeAt};

use crate::constraints::{Constraint, ConstraintSense, Monomial, value_of};
use crate::solved::Outcome;
use crate::table::Table;
use e_literal::Items;
use std::alloc::{AllocError, Global};
use std::mem;

/// Values at which the form is not 0, or multipliers that refute that it is more, and that it is
/// less.
#[derive(Drop)]
pub enum Tried {
    Found(Vec<i128>),
    BothRefuted(Vec<i128>, Vec<i128>),
    TooWide,
}

fn negated_monomial(x: &Monomial) -> Monomial
    requires { unsigned_abs x.now.coefficient ≤ 2 ^ 30 }
    ensures coefficient { result.coefficient ≡ neg_ℤ x.now.coefficient }
    ensures column { result.column ≡ x.now.column }
{
    Monomial {
        coefficient: -x.coefficient,
        column: x.column,
    }
}

/// The constraint that says that the form is less than 0.
fn less_than_zero(alloc: Global, constraint: &Constraint) -> Result<Constraint, AllocError>
    requires { IsSmallConstraint constraint.now }
    ensures sense { IfOk result (λ l. l.sense ≡ More) }
    ensures form { IfOk result (λ l. l.form ≡ neg_form constraint.now.form) }
{
    let mut form = Vec::with_capacity(alloc, constraint.form.items().len())?;
    for x in constraint.form.items() {
        form.push(negated_monomial(x))?;
    }
    Ok(Constraint {
        sense: ConstraintSense::More,
        form: Items::new(form),
    })
}

/// Tries the form of a constraint that says `more` as more than 0, and then as less, beside the
/// solved constraints.
pub fn try_both(alloc: Global, solved: &Table, constraint: &Constraint) -> Result<Tried, AllocError>
    requires solved { IsSolved (columns_of solved.now) (constraints_of solved.now) solved.now }
    requires fit { IsFit (columns_of solved.now)
        (constraints_of solved.now ++ constraint.now ∷ []) }
    requires more { constraint.now.sense ≡ More }
    ensures { IfOk result
        (IsTried (columns_of solved.now) (constraints_of solved.now) constraint.now) }
{
    match solved.with(alloc, constraint)? {
        Outcome::Holds(more) => {
            let found = more.values(alloc);
            mem::drop(more);
            Ok(Tried::Found(found?))
        }
        Outcome::TooWide => Ok(Tried::TooWide),
        Outcome::Absurd(above) => {
            let negated = less_than_zero(alloc, constraint)?;
            let outcome = solved.with(alloc, &negated);
            mem::drop(negated);
            match outcome? {
                Outcome::Holds(more) => {
                    let found = more.values(alloc);
                    mem::drop(more);
                    Ok(Tried::Found(found?))
                }
                Outcome::TooWide => Ok(Tried::TooWide),
                Outcome::Absurd(below) => Ok(Tried::BothRefuted(above, below)),
            }
        }
    }
}

/// The values of the constraints' forms.
pub fn values_at(
    alloc: Global,
    forms: &[Constraint],
    values: &[i128],
) -> Result<Vec<i128>, AllocError>
    requires small { AllSmallConstraints forms.now }
    requires within { AllFormsWithin (length values.now) forms.now }
    requires values { AllSmall values.now }
    ensures { IfOk result (λ v. AreValues (length forms.now) forms.now values.now v.items) }
{
    let mut all = Vec::with_capacity(alloc, forms.len())?;
    for constraint in forms {
        all.push(value_of(constraint.form.items(), values))?;
    }
    Ok(all)
}

fn is_large(x: i128) -> bool
    ensures large { result ≡ true → 2 ^ 64 ≤ unsigned_abs x }
    ensures small { result ≡ false → unsigned_abs x < 2 ^ 64 }
{
    x <= -0x1_0000_0000_0000_0000 || 0x1_0000_0000_0000_0000 <= x
}

/// A place, other than one, of a number of size at least 2^64.
pub fn large_place(xs: &[i128], but: usize) -> Option<usize>
    ensures { MatchOption result (AreBelowBut xs.now but) (IsLargeAt xs.now but) }
{
    for (j, x) in xs.iter().enumerate() {
        if j != but && is_large(*x) {
            return Some(j);
        }
    }
    None
}
