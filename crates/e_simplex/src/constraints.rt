//! Rows over numbered columns: column 0 has the constants, and each other one is that of a term.

ghost use Rattle.std.specs.Prelude.{◌≡◌, ℕ, ℤ, pos, List, ◌*◌, ◌<◌, ◌≤◌, ◌^◌, length};
ghost use Rattle.std.specs.Prelude.{unsigned_abs, get_or, ◌*ℤ◌};
ghost use Rattle.e_fraction.specs.Tableau.{unit};
ghost use Rattle.e_simplex.specs.declared.constraints.Monomial.{Monomial};
ghost use Rattle.e_simplex.specs.Entries.{AllSmall};
ghost use Rattle.e_simplex.specs.Constraints.{form_at, constraint_row, constant_of};
ghost use Rattle.e_simplex.specs.Constraints.{is_zero_sense, IsSmallConstraint, value_of_monomials};

use crate::number::times;
use e_literal::Items;

/// A coefficient and its column.
#[derive(Clone, Copy)]
pub struct Monomial {
    pub coefficient: i64,
    pub column: usize,
}

/// The sense of a constraint: what it says of its form.
#[derive(Clone, Copy)]
pub enum ConstraintSense {
    Zero,
    AtLeast,
    More,
}

/// A form that is 0, at least 0, or more than 0.
#[derive(Drop)]
pub struct Constraint {
    pub sense: ConstraintSense,
    pub form: Items<Monomial>,
}

/// What a constraint of this sense has in the column of constants.
pub fn constant(sense: ConstraintSense) -> i128
    ensures { result ≡ constant_of sense }
{
    match sense {
        ConstraintSense::Zero | ConstraintSense::AtLeast => 0,
        ConstraintSense::More => 1,
    }
}

/// Whether a constraint of this sense says that its form is 0.
pub fn is_zero(sense: ConstraintSense) -> bool
    ensures { result ≡ is_zero_sense sense }
{
    match sense {
        ConstraintSense::Zero => true,
        ConstraintSense::AtLeast | ConstraintSense::More => false,
    }
}

fn part(x: &Monomial, values: &[i128]) -> i128
    requires small { unsigned_abs x.now.coefficient ≤ 2 ^ 30 }
    requires within { x.now.column < length values.now }
    requires values { AllSmall values.now }
    ensures { result ≡ x.now.coefficient *ℤ get_or values.now x.now.column (pos 0) }
{
    times(i128::from(x.coefficient), values[x.column])
}

/// The value of a form.
pub fn value_of(form: &[Monomial], values: &[i128]) -> i128
    requires small { (k : ℕ) (d : Monomial) → k < length form.now
        → unsigned_abs (get_or form.now k d).coefficient ≤ 2 ^ 30 }
    requires short { length form.now ≤ 2 ^ 32 }
    requires within { (k : ℕ) (d : Monomial) → k < length form.now
        → (get_or form.now k d).column < length values.now }
    requires values { AllSmall values.now }
    ensures value { result ≡ value_of_monomials form.now values.now }
{
    let mut sum: i128 = 0;
    for x in form {
        let part = part(x, values);
        sum += part;
    }
    sum
}
