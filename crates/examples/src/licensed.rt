//! One step of a proof.

ghost use Rattle.std.specs.Prelude.{IfOk, IsTrue};
ghost use Rattle.e_clause.specs.Allowed.{Allowed};
ghost use Rattle.e_clause.specs.LimitedFacts.{is_well_formed_in};
ghost use Rattle.examples.specs.Decided.{Decides};
ghost use Rattle.examples.specs.TooWide.{IsTooWide};

use e_licence::{Context, Licensed, licence};
use e_literal::Lit;
use std::alloc::{AllocError, Global};

/// Whether the literal follows from the facts of a context in one step. No answer is given only
/// where a linear system of the step is wide. [`is_well_formed_in`] tests the condition. It fails
/// only out of memory.
///
/// [`is_well_formed_in`]: e_licence::is_well_formed_in
#[tactic(auto, using(crate::proofs::Decisions::allows))]
pub fn is_allowed(alloc: Global, context: &Context, lit: &Lit) -> Result<Option<bool>, AllocError>
    requires { IsTrue (is_well_formed_in context.now.scope lit.now) }
    ensures { IfOk result (Decides (Allowed context.now.scope context.now.facts lit.now)
        (IsTooWide context.now.scope context.now.facts lit.now)) }
{
    match licence(alloc, context, lit)? {
        Licensed::Yes(_) => Ok(Some(true)),
        Licensed::No(_) => Ok(Some(false)),
        Licensed::TooWide(_) => Ok(None),
    }
}
