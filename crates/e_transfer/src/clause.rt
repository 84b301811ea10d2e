//! The literals of a clause by their places: the negations of the premises come first, and then the
//! conclusions.

ghost use Rattle.std.specs.Prelude.{◌≡◌, ◌<◌, length, map, IfOk, slice_get, Some};
ghost use Rattle.e_clause.specs.Instance.{clause_of, lit_at};
ghost use Rattle.e_clause.specs.Views.{row_of};
ghost use Rattle.e_transfer.specs.GivenGoals.{signed_literal};

use e_clause::{Pattern, Row, literal};
use e_literal::{Lit, Obj};
use std::alloc::{AllocError, Global};

/// How many literals the clause of a row has.
pub fn clause_len(row: &Row) -> usize
    ensures { result ≡ length (clause_of (row_of row.now)) }
{
    row.premises.len() + row.conclusions.len()
}

/// The pattern at a place of the clause, where it is, and whether its negation is meant.
pub fn pattern_at(row: &Row, at: usize) -> (&Pattern, bool)
    requires { at < length (clause_of (row_of row.now)) }
    ensures { slice_get (clause_of (row_of row.now)) at ≡ Some (signed_literal result.1 result.0.now) }
{
    let premises = row.premises.len();
    if at < premises {
        (&row.premises[at], true)
    } else {
        (&row.conclusions[at - premises], false)
    }
}

/// The literal at a place of the clause, with these arguments.
pub fn literal_at(alloc: Global, row: &Row, args: &[Obj], at: usize) -> Result<Lit, AllocError>
    requires { at < length (clause_of (row_of row.now)) }
    ensures { IfOk result (λ l. slice_get
        (map (lit_at (row_of row.now) args.now) (clause_of (row_of row.now))) at ≡ Some l) }
{
    let (pattern, negated) = pattern_at(row, at);
    literal(alloc, row, args, pattern, negated)
}
