//! Trimming.

ghost use Rattle.std.specs.Prelude.{◌≡◌, IfOk};
ghost use Rattle.e_literal.specs.Use.{scope_of};
ghost use Rattle.e_theorem.specs.Statements.{as_view, as_views};
ghost use Rattle.e_deriv.specs.Certified.{Certified};
ghost use Rattle.e_deriv.specs.Goal.{goal_of_statement};
ghost use Rattle.e_deriv.specs.Script.{script_of};
ghost use Rattle.e_trim.specs.Trimmable.{IsTrimmable};
ghost use Rattle.e_trim.specs.Trimmed.{trimmed_script};
ghost use Rattle.e_trim.specs.inner.Flags as flags;
ghost use Rattle.e_trim.specs.inner.StepState.{start_of};

use crate::building::build_block;
use crate::laws::trimmed_is_certified;
use crate::looking::look;
use crate::step_state::{StepState, join_copies};
use e_deriv::{Block, Goal};
use e_facts::Facts;
use e_literal::{NOTHING, Scope, next_objects, with_sorts};
use e_theorem::Statement;
use std::alloc::{AllocError, Global};
use std::mem;

/// What holds before the first step: the declared objects are in scope, and the given literals are
/// facts.
fn begin(alloc: Global, scope: Scope, statement: &Statement) -> Result<StepState, AllocError>
    requires { scope ≡ scope_of (as_view statement.now) }
    ensures { IfOk result (λ x. x ≡ start_of (as_view statement.now)) }
{
    let mut facts = Facts::new(alloc);
    join_copies(alloc, &mut facts, statement.given.items())?;
    Ok(StepState { scope, facts })
}

/// Which steps of the derivation are kept.
fn flags_of(
    alloc: Global,
    before: &[Statement],
    statement: &Statement,
    deriv: &Block,
) -> Result<Vec<bool>, AllocError>
    requires { IsTrimmable (as_views before.now) (as_view statement.now) (script_of deriv.now) }
    ensures { IfOk result (λ v. v.items ≡ flags.flags_of (as_views before.now)
        (script_of deriv.now) (scope_of (as_view statement.now))
        (start_of (as_view statement.now)).facts (goal_of_statement (as_view statement.now))) }
{
    let scope = with_sorts(NOTHING, statement.declared.items());
    let made = next_objects(alloc, scope, statement.made.items())?;
    let mut state = begin(alloc, scope, statement)?;
    let goal = Goal {
        made: &made,
        shown: statement.shown.items(),
    };
    let mut flags = Vec::new(alloc);
    let wanted = look(
        alloc,
        before,
        &deriv.steps,
        &deriv.close,
        &goal,
        &mut state,
        &mut flags,
    )?;
    mem::drop(wanted);
    Ok(flags)
}

/// The derivation without the steps that nothing needs. It fails only out of memory.
///
/// From the close of each block backwards, a step is kept exactly where it makes a literal a fact
/// that a kept later step or the close looks up, and none the same was a fact before, or where it
/// makes an object that one of them names. What is left is certified by the certificates that it
/// has, over the objects that are left, which take the next numbers anew.
pub fn trim(
    alloc: Global,
    before: &[Statement],
    statement: &Statement,
    deriv: &Block,
) -> Result<Block, AllocError>
    requires { IsTrimmable (as_views before.now) (as_view statement.now) (script_of deriv.now) }
    ensures trimmed { IfOk result (λ b. script_of b
        ≡ trimmed_script (as_views before.now) (as_view statement.now) (script_of deriv.now)) }
    ensures certified { IfOk result
        (λ b. Certified (as_views before.now) (as_view statement.now) (script_of b)) }
{
    let mut flags = flags_of(alloc, before, statement, deriv)?;
    let declared = statement.declared.items();
    let kept = next_objects(alloc, NOTHING, declared)?;
    let trimmed = build_block(
        alloc,
        before,
        deriv,
        with_sorts(NOTHING, declared),
        &kept,
        &mut flags,
    )?;
    trimmed_is_certified();
    Ok(trimmed)
}
