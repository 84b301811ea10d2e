//! Arguments with blanks.

ghost use Rattle.std.specs.Prelude.{◌≡◌, ◌&&◌};
ghost use Rattle.e_literal.specs.Literal;
ghost use Rattle.e_literal.specs.Scopes.{same_sort};
ghost use Rattle.e_theorem.specs.Pattern;
ghost use Rattle.e_theorem.specs.Statements.{as_view};

use crate::statement::Statement;
use e_literal::{Obj, Scope, Sort, count};

/// Whether the pattern has one entry for each declared object, and each object written in it is of
/// its sort and in scope.
pub fn is_pattern(statement: &Statement, pattern: &[Option<Obj>], scope: Scope) -> bool
    ensures { result ≡ Pattern.is_pattern (as_view statement.now) scope pattern.now }
{
    are_entries(scope, statement.declared.items(), pattern)
}

#[tactic(auto, using(crate::proofs::Patterns::entries))]
fn are_entries(scope: Scope, sorts: &[Sort], pattern: &[Option<Obj>]) -> bool
    ensures { result ≡ Pattern.are_entries scope sorts.now pattern.now }
{
    match (sorts, pattern) {
        ([], []) => true,
        ([_, sorts @ ..], [None, pattern @ ..]) => are_entries(scope, sorts, pattern),
        ([sort, sorts @ ..], [Some(object), pattern @ ..]) => {
            is_of_sort(scope, *sort, *object) && are_entries(scope, sorts, pattern)
        }
        ([], [_, ..]) => false,
        ([_, ..], []) => false,
    }
}

fn is_of_sort(scope: Scope, sort: Sort, object: Obj) -> bool
    ensures { result ≡ (same_sort sort object.sort && Literal.is_in_scope scope object) }
{
    sort == object.sort && object.num < count(scope, object.sort)
}
