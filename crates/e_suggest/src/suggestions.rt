//! The good choices of arguments for a statement.
ghost use Rattle.std.specs.Prelude.{◌≡◌, ◌≤◌, IsTrue, IfOk, OnOk, length, replicate, None};
ghost use Rattle.e_literal.specs.Use.{is_statement};
ghost use Rattle.e_theorem.specs.Statements.{as_view};
ghost use Rattle.e_licence.specs.Verdicts.{AreRight};
ghost use Rattle.e_suggest.specs.Suggestions.{SuggestedIs};

use e_licence::{Context, FirstChoices, Verdicts, first_choices};
use e_literal::Obj;
use e_theorem::Statement;
use std::alloc::{AllocError, Global};

/// The first of all choices of arguments at which each given literal of the statement is allowed,
/// at most this many, and whether there are more. They are compared in declared order by the
/// objects' numbers. The statement has at most 6 declared objects. It fails only out of memory.
///
/// The search is faster where the context has solved its facts: [`Context::solve`]. What it asks of
/// diagrams is kept in `memory`, for other statements at the context.
pub fn all(
    alloc: Global,
    context: &Context,
    memory: &mut Verdicts,
    statement: &Statement,
    most: usize,
) -> Result<FirstChoices, AllocError>
    requires memory { AreRight context.now memory.old }
    requires states { IsTrue (is_statement (as_view statement.now)) }
    requires few { length statement.now.declared ≤ 6 }
    ensures suggested { IfOk result (SuggestedIs (as_view statement.now) context.now most) }
    ensures memory { OnOk result (AreRight context.now memory.new) }
{
    let pattern = only_blanks(alloc, statement.declared.len())?;
    first_choices(alloc, context, memory, statement, &pattern, most)
}

/// `count` blanks.
fn only_blanks(alloc: Global, count: usize) -> Result<Vec<Option<Obj>>, AllocError>
    ensures { IfOk result (λ v. v.items ≡ replicate count None) }
{
    Vec::from_elem(alloc, None, count)
}
