//! One more constraint that the row of its own refutes: no pivot is needed, and no other table.

ghost use Rattle.std.specs.Prelude.{◌≡◌, ℕ, ◌<◌, ◌++◌, ◌∷◌, [], true, pos, get_or, length};
ghost use Rattle.std.specs.Prelude.{IfOk, IfSome};
ghost use Rattle.e_simplex.specs.Constraints.{IsAbsurd};
ghost use Rattle.e_simplex.specs.Entries.{AllSmall};
ghost use Rattle.e_simplex.specs.Least.{CannotEnter, fixed_at};
ghost use Rattle.e_simplex.specs.Solved.{IsSolved, IsFit, columns_of, constraints_of};
ghost use Rattle.e_simplex.specs.Table.{IsShaped};
ghost use Rattle.e_simplex.specs.inner.Readings.{WeightsWith};

use crate::constraints::{Constraint, is_zero};
use crate::further::has_wide;
use crate::pivot::with_sign_of;
use crate::table::{Table, may_enter, violates};
use std::alloc::{AllocError, Global};

impl Table {
    /// Whether no number can enter for the one of a row that is not in the table.
    fn bars(&self, row: &[i128]) -> bool
        requires shape { IsShaped self.now }
        requires row { length row.now ≡ length self.now.columns.items }
        requires small { AllSmall row.now }
        ensures { result ≡ true → (q : ℕ) → q < length row.now → CannotEnter
            (get_or row.now 0 (pos 0)) (get_or row.now q (pos 0))
            (fixed_at self.now.fixed.items (get_or self.now.columns.items q 0)) }
    {
        for (q, entry) in row.iter().enumerate() {
            if *entry != 0 && may_enter(row[0], *entry, self.fixed[self.columns[q]]) {
                return false;
            }
        }
        true
    }

    /// The weights of the constraints, and of the one whose row this is, where that cannot be
    /// satisfied: those of their slacks.
    fn weights_with(&self, alloc: Global, row: &[i128]) -> Result<Vec<i128>, AllocError>
        requires solved { IsSolved (columns_of self.now) (constraints_of self.now) self.now }
        requires row { length row.now ≡ length self.now.columns.items }
        requires small { AllSmall row.now }
        ensures { IfOk result (λ v. WeightsWith (length self.now.basis.items)
            self.now.columns.items self.now.det row.now v.items) }
    {
        let w = self.columns.len();
        let count = self.basis.len();
        let mut weights = Vec::with_capacity(alloc, count.saturating_add(1))?;
        weights.resize(count, 0)?;
        for (q, number) in self.columns.iter().enumerate() {
            if w <= *number {
                weights[*number - w] = -with_sign_of(row[0], row[q]);
            }
        }
        weights.push(-with_sign_of(row[0], self.det))?;
        Ok(weights)
    }

    /// Weights that refute the solved constraints with this one, where its own row has them.
    pub fn refutation(
        &self,
        alloc: Global,
        constraint: &Constraint,
    ) -> Result<Option<Vec<i128>>, AllocError>
        requires solved { IsSolved (columns_of self.now) (constraints_of self.now) self.now }
        requires fit { IsFit (columns_of self.now)
            (constraints_of self.now ++ constraint.now ∷ []) }
        ensures { IfOk result (λ o. IfSome o (λ v. IsAbsurd (columns_of self.now)
            (constraints_of self.now ++ constraint.now ∷ []) v.items)) }
    {
        let row = self.row_of(alloc, constraint)?;
        if has_wide(&row) || !violates(row[0], is_zero(constraint.sense)) || !self.bars(&row) {
            return Ok(None);
        }
        let weights = self.weights_with(alloc, &row)?;
        Ok(Some(weights))
    }
}
