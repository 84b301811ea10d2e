//! The test of what is asked of the statements of a step.

ghost use Rattle.std.specs.Prelude.{◌≡◌, ◌<◌, ◌+◌, ◌^◌, ◌&&◌, length};
ghost use Rattle.std.specs.List.{list_all};
ghost use Rattle.e_literal.specs.Literal.{all_in_scope};
ghost use Rattle.e_literal.specs.Use;
ghost use Rattle.e_literal.specs.WellFormed;
ghost use Rattle.e_theorem.specs.Statements.{as_view};

use e_literal::{Lit, NOTHING, Scope, in_scope, with_sorts};
use e_metric::is_well_formed;
use e_theorem::Statement;

/// Whether the given literals name declared objects alone, the shown ones declared and made ones,
/// and all are well formed.
pub fn is_statement(statement: &Statement) -> bool
    requires { length statement.now.declared + length statement.now.made < 2 ^ 16 }
    ensures { result ≡ Use.is_statement (as_view statement.now) }
{
    let declared = with_sorts(NOTHING, statement.declared.items());
    let all = with_sorts(declared, statement.made.items());
    are_over(declared, statement.given.items()) && are_over(all, statement.shown.items())
}

// Whether each literal is well formed and in scope.
fn are_over(scope: Scope, lits: &[Lit]) -> bool
    ensures { result
        ≡ list_all (λ l. WellFormed.is_well_formed l && all_in_scope scope l) lits.now }
{
    lits.iter()
        .all(|lit| is_well_formed(lit) && in_scope(lit, scope))
}
