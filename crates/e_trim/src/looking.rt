//! Which steps are kept: from the close backwards, by what is wanted after each.

ghost use Rattle.std.specs.Prelude.{◌≡◌, ◌++◌, ◌<◌, ◌^◌, IfOk, OnOk, IsTrue, length};
ghost use Rattle.std.specs.List.{list_all};
ghost use Rattle.e_literal.specs.Facts.{with_facts};
ghost use Rattle.e_literal.specs.Scopes.{with_sorts};
ghost use Rattle.e_theorem.specs.Statements.{as_views};
ghost use Rattle.e_deriv.specs.Fitting.{is_small, is_small_statement};
ghost use Rattle.e_deriv.specs.Script.{script_of, steps_script, close_script};
ghost use Rattle.e_trim.specs.Looked.{both};
ghost use Rattle.e_trim.specs.Trimmed.{wants_outside, wants};
ghost use Rattle.e_trim.specs.inner.Flags.{flags_of};
ghost use Rattle.e_trim.specs.inner.StepState.{IsReady, IsReadyToTrim, StepAdds, FlagsAdded};
ghost use Rattle.e_deriv.specs.Goal.{goal_view};
ghost use Rattle.e_trim.specs.inner.StepState.{StepWants, StepFlags, KeepsFacts};

use crate::step_state::StepState;
use crate::steps::{is_kept, look_close, look_step, pass};
use crate::wanted::Wanted;
use e_construct::Superpose;
use e_deriv::{Block, Close, Goal, Step};
use e_literal::{Lit, Sort, copy, negate};
use e_theorem::Statement;
use std::alloc::{AllocError, Global};
use std::mem;

/// What the kept ones of the steps, and the close, look up and need. The flags of the steps are put
/// onto the pile: whether each is kept.
#[cycle(look)]
pub fn look(
    alloc: Global,
    before: &[Statement],
    steps: &[Step],
    close: &Close,
    goal: &Goal,
    state: &mut StepState,
    flags: &mut Vec<bool>,
) -> Result<Wanted, AllocError>
    requires ready { IsReady (as_views before.now)
        (steps_script steps.now (close_script close.now)) state.old.scope state.old.facts
        (goal_view goal.now) }
    requires statements { IsTrue (list_all is_small_statement (as_views before.now)) }
    ensures wanted { IfOk result
        (λ w. w ≡ wants (as_views before.now) (steps_script steps.now (close_script close.now))
        state.old.scope state.old.facts (goal_view goal.now)) }
    ensures flags { OnOk result (flags.new.items ≡ flags.old.items
        ++ flags_of (as_views before.now) (steps_script steps.now (close_script close.now))
        state.old.scope state.old.facts (goal_view goal.now)) }
    ensures kept { OnOk result (KeepsFacts state.old state.new) }
{
    match steps {
        [] => look_from_close(alloc, before, close, goal, state, flags),
        [step, steps @ ..] => {
            let outer = state.checkpoint();
            pass(alloc, before, step, state)?;
            let mut wanted = look(alloc, before, steps, close, goal, state, flags)?;
            state.restore(outer);
            match look_back(alloc, before, step, state, flags, &mut wanted) {
                Ok(()) => Ok(wanted),
                Err(error) => {
                    mem::drop(wanted);
                    Err(error)
                }
            }
        }
    }
}

/// Whether the step is kept, where this is wanted after it: its flag is put onto the pile, and what
/// it wants is wanted too.
#[cycle(look)]
fn look_back(
    alloc: Global,
    before: &[Statement],
    step: &Step,
    state: &mut StepState,
    flags: &mut Vec<bool>,
    out: &mut Wanted,
) -> Result<(), AllocError>
    requires ready { IsReadyToTrim (as_views before.now) step.now state.old }
    requires statements { IsTrue (list_all is_small_statement (as_views before.now)) }
    ensures wanted { OnOk result
        (StepAdds (as_views before.now) step.now state.old out.old out.new) }
    ensures flags { OnOk result (FlagsAdded (as_views before.now) step.now state.old out.old
        flags.old.items flags.new.items) }
    ensures kept { OnOk result (KeepsFacts state.old state.new) }
{
    if !is_kept(alloc, before, step, state, out)? {
        flags.push(false)?;
        return Ok(());
    }
    look_at_step(alloc, before, step, state, flags, out)?;
    flags.push(true)?;
    Ok(())
}

/// What a kept step looks up and needs, with the block inside of it.
#[cycle(look)]
fn look_at_step(
    alloc: Global,
    before: &[Statement],
    step: &Step,
    state: &mut StepState,
    flags: &mut Vec<bool>,
    out: &mut Wanted,
) -> Result<(), AllocError>
    requires ready { IsReadyToTrim (as_views before.now) step.now state.old }
    requires statements { IsTrue (list_all is_small_statement (as_views before.now)) }
    ensures wanted { OnOk result
        (StepWants (as_views before.now) step.now state.old out.old out.new) }
    ensures flags { OnOk result
        (StepFlags (as_views before.now) step.now state.old flags.old.items flags.new.items) }
    ensures kept { OnOk result (KeepsFacts state.old state.new) }
{
    look_step(alloc, before, step, state, out)?;
    match step {
        Step::Cite(_) | Step::Hence { .. } | Step::Make { .. } | Step::Apply { .. } => Ok(()),
        Step::Claim { shown, inner } => {
            let goal = Goal {
                made: &[],
                shown: shown.items(),
            };
            let inside = look_inside(alloc, before, inner, &goal, state, flags, &[], &[])?;
            out.append(inside)
        }
        Step::Superposed {
            superposition,
            shown,
            inner,
            ..
        } => {
            let goal = Goal {
                made: &[],
                shown: shown.items(),
            };
            let given = superposition.gives(alloc, state.scope)?;
            let made = superposition.made();
            let inside = look_inside(alloc, before, inner, &goal, state, flags, made, &given);
            mem::drop(given);
            out.append(inside?)
        }
    }
}

/// What the block looks up and needs outside of it, where it begins with these objects and literals
/// too.
#[cycle(look)]
fn look_inside(
    alloc: Global,
    before: &[Statement],
    block: &Block,
    goal: &Goal,
    state: &mut StepState,
    flags: &mut Vec<bool>,
    sorts: &[Sort],
    lits: &[Lit],
) -> Result<Wanted, AllocError>
    requires small { IsTrue (is_small state.old.scope) }
    requires few { length sorts.now < 2 ^ 15 }
    requires ready { IsReady (as_views before.now) (script_of block.now)
        (with_sorts state.old.scope sorts.now) (with_facts state.old.facts lits.now)
        (goal_view goal.now) }
    requires statements { IsTrue (list_all is_small_statement (as_views before.now)) }
    ensures wanted { IfOk result (λ w. w ≡ wants_outside state.old.scope state.old.facts
        (wants (as_views before.now) (script_of block.now) (with_sorts state.old.scope sorts.now)
        (with_facts state.old.facts lits.now) (goal_view goal.now))) }
    ensures flags { OnOk result (flags.new.items ≡ flags.old.items
        ++ flags_of (as_views before.now) (script_of block.now) (with_sorts state.old.scope sorts.now)
        (with_facts state.old.facts lits.now) (goal_view goal.now)) }
    ensures same { OnOk result (state.new ≡ state.old) }
{
    let outer = state.checkpoint();
    state.extend(alloc, sorts, lits)?;
    let inside = look(
        alloc,
        before,
        &block.steps,
        &block.close,
        goal,
        state,
        flags,
    )?;
    state.restore(outer);
    inside.outside(alloc, state)
}

/// What a close looks up and needs, with the blocks inside of it.
#[cycle(look)]
fn look_from_close(
    alloc: Global,
    before: &[Statement],
    close: &Close,
    goal: &Goal,
    state: &mut StepState,
    flags: &mut Vec<bool>,
) -> Result<Wanted, AllocError>
    requires ready { IsReady (as_views before.now)
        (close_script close.now) state.old.scope state.old.facts (goal_view goal.now) }
    requires statements { IsTrue (list_all is_small_statement (as_views before.now)) }
    ensures wanted { IfOk result (λ w. w ≡ wants (as_views before.now)
        (close_script close.now) state.old.scope state.old.facts (goal_view goal.now)) }
    ensures flags { OnOk result
        (flags.new.items ≡ flags.old.items ++ flags_of (as_views before.now)
        (close_script close.now) state.old.scope state.old.facts (goal_view goal.now)) }
    ensures kept { OnOk result (KeepsFacts state.old state.new) }
{
    let mut wanted = Wanted::new(alloc);
    match look_at_close(alloc, before, close, goal, state, flags, &mut wanted) {
        Ok(()) => Ok(wanted),
        Err(error) => {
            mem::drop(wanted);
            Err(error)
        }
    }
}

/// What a close looks up and needs is wanted too, with the blocks inside of it. The flags of the
/// second block are put onto the pile first.
#[cycle(look)]
fn look_at_close(
    alloc: Global,
    before: &[Statement],
    close: &Close,
    goal: &Goal,
    state: &mut StepState,
    flags: &mut Vec<bool>,
    out: &mut Wanted,
) -> Result<(), AllocError>
    requires ready { IsReady (as_views before.now)
        (close_script close.now) state.old.scope state.old.facts (goal_view goal.now) }
    requires statements { IsTrue (list_all is_small_statement (as_views before.now)) }
    ensures wanted { OnOk result (out.new ≡ both out.old (wants (as_views before.now)
        (close_script close.now) state.old.scope state.old.facts (goal_view goal.now))) }
    ensures flags { OnOk result
        (flags.new.items ≡ flags.old.items ++ flags_of (as_views before.now)
        (close_script close.now) state.old.scope state.old.facts (goal_view goal.now)) }
    ensures kept { OnOk result (KeepsFacts state.old state.new) }
{
    look_close(alloc, close, goal, state, out)?;
    match close {
        Close::Qed { .. } | Close::Contradiction { .. } => Ok(()),
        Close::Cases { lit, first, second } => {
            let fails = vec![in alloc; negate(copy(alloc, lit)?)]?;
            let other = look_inside(alloc, before, second, goal, state, flags, &[], &fails);
            mem::drop(fails);
            out.append(other?)?;
            let holds = vec![in alloc; copy(alloc, lit)?]?;
            let one = look_inside(alloc, before, first, goal, state, flags, &[], &holds);
            mem::drop(holds);
            out.append(one?)
        }
    }
}
