//! Systems of linear rows.

ghost use Rattle.std.specs.Prelude.{◌≤◌, length, IfOk, IsTrue};
ghost use Rattle.e_literal.specs.Minor.{IsWide};
ghost use Rattle.e_literal.specs.Solution.{HasSolution};
ghost use Rattle.e_fraction.specs.Limits.{all_small, most_rows_of_system};
ghost use Rattle.e_fraction.specs.Views.{views_of_rows};
ghost use Rattle.examples.specs.Decided.{Decides};

use e_simplex::{Row, Verdict, decide};
use std::alloc::{AllocError, Global};

/// Whether whole numbers of at least 0 satisfy the rows. No answer is given only where some minor of
/// the rows is large. It fails only out of memory.
#[tactic(auto, using(crate::proofs::Decisions::decided))]
pub fn has_solution(alloc: Global, rows: &[Row]) -> Result<Option<bool>, AllocError>
    requires few { length rows.now ≤ most_rows_of_system }
    requires coefficients { IsTrue (all_small rows.now) }
    ensures { IfOk result
        (Decides (HasSolution (views_of_rows rows.now)) (IsWide (views_of_rows rows.now))) }
{
    match decide(alloc, rows)? {
        Verdict::Holds(_) => Ok(Some(true)),
        Verdict::Absurd(_) => Ok(Some(false)),
        Verdict::TooWide => Ok(None),
    }
}
