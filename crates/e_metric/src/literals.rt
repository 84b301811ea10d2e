//! Rows of metric literals.

ghost use Rattle.std.specs.Prelude.{◌≡◌, ◌+◌, ◌≤◌, ◌++◌, length, IfOk, IsTrue};
ghost use Rattle.std.specs.List.{list_all};
ghost use Rattle.e_literal.specs.declared.object.Term.{Term};
ghost use Rattle.e_literal.specs.Rows.{coefficient, normal_summands, plus, minus, row_of_atom};
ghost use Rattle.e_literal.specs.WellFormed.{is_well_formed_atom, is_bounded_coefficient};
ghost use Rattle.e_fraction.specs.Limits.{has_small_coefficients};
ghost use Rattle.e_metric.specs.AgreeingRows.{has_no_zero, IsRowOrNone, IsLimitedOrNone};

use crate::joining::difference_summands;
use e_fraction::{Row, RowSense, Signed};
use e_literal::{Atom, Mono};
use std::alloc::{AllocError, Global};

// The form x - y.
fn difference(alloc: Global, x: &[Mono], y: &[Mono]) -> Result<Signed, AllocError>
    requires few { length x.now + length y.now ≤ 32 }
    requires left { IsTrue (list_all (λ m. is_bounded_coefficient m.coeff) x.now) }
    requires right { IsTrue (list_all (λ m. is_bounded_coefficient m.coeff) y.now) }
    ensures coefficients { IfOk result (λ f. (t : Term)
        → coefficient f t ≡ coefficient (normal_summands (plus x.now ++ minus y.now)) t) }
    ensures no_zero { IfOk result (λ f. IsTrue (has_no_zero f)) }
    ensures small { IfOk result (λ f. IsTrue (has_small_coefficients f)) }
    ensures short { IfOk result (λ f. length f ≤ 32) }
{
    let summands = difference_summands(alloc, x, y)?;
    Ok(Signed::new(summands))
}

/// The row of an atom, or of its negation; none for a diagram atom.
pub fn row_of(alloc: Global, atom: &Atom, neg: bool) -> Result<Option<Row>, AllocError>
    requires { IsTrue (is_well_formed_atom atom.now) }
    ensures row { IfOk result (IsRowOrNone (row_of_atom atom.now neg)) }
    ensures limited { IfOk result IsLimitedOrNone }
{
    match atom {
        Atom::MagEq(x, y) => {
            let sense = if neg { RowSense::Not } else { RowSense::Zero };
            let form = difference(alloc, x.items(), y.items())?;
            Ok(Some(Row { sense, form }))
        }
        Atom::MagLt(x, y) => {
            if neg {
                let form = difference(alloc, x.items(), y.items())?;
                let sense = RowSense::AtLeast;
                Ok(Some(Row { sense, form }))
            } else {
                let form = difference(alloc, y.items(), x.items())?;
                let sense = RowSense::More;
                Ok(Some(Row { sense, form }))
            }
        }
        _ => Ok(None),
    }
}
