//! Licensing up to a step: the blocks around it are entered and not left.
ghost use Rattle.std.specs.Prelude.{◌≡◌, ◌+◌, ◌<◌, ◌≤◌, ◌^◌, IfErr, IsTrue, OnOk};
ghost use Rattle.e_literal.specs.Literal.{negation};
ghost use Rattle.e_literal.specs.Facts.{with_fact};
ghost use Rattle.e_clause.specs.LimitedFacts.{are_limited_facts};
ghost use Rattle.e_theorem.specs.Statements.{as_views};
ghost use Rattle.e_deriv.specs.Script.{Script, script_of, step_script};
ghost use Rattle.e_deriv.specs.Script.{close_script, size as script_size};
ghost use Rattle.e_prove.specs.Stops.{IsStopBefore};
ghost use Rattle.e_deriv.specs.Goal.{goal_view};
ghost use Rattle.e_prove.specs.inner.NextStates.{after_literal};
ghost use Rattle.e_prove.specs.inner.PassedSteps.{IsReadyFor, IsDerivedFrom, IsReadyStep};
ghost use Rattle.e_prove.specs.inner.PassedSteps.{KeepsHeld, ReachesStep, ReachesInStep};
ghost use Rattle.e_prove.specs.inner.PassedSteps.{IsFirstPassed, StopsWithin, StopsInStep};

use crate::block::{prove_block, prove_step};
use crate::state_before::StateBefore;
use crate::step::license_superpose;
use crate::stop_reason::stop_at;
use e_deriv::{Block, Close, Goal, Step, Stop, size};
use e_literal::Lit;
use e_theorem::Statement;
use std::alloc::Global;
use std::mem;

/// How many steps it is: itself, and those of the block inside it, closes too.
fn step_count(step: &Step) -> u32
    requires { (rest : Script)
        → script_size (step_script step.now rest) < 2 ^ 32 + script_size rest }
    ensures { (rest : Script)
        → script_size (step_script step.now rest) ≡ result + script_size rest }
{
    match step {
        Step::Cite(_) | Step::Hence { .. } | Step::Make { .. } | Step::Apply { .. } => 1,
        Step::Claim { inner, .. } => 1 + size(inner),
        Step::Superposed { inner, .. } => 1 + size(inner),
    }
}

/// Licenses the steps of a block before step `target`, where the block's first step has number
/// `first_number`. The state is then what holds before `target`: the blocks around it are entered,
/// and not left.
#[cycle(reach)]
pub fn reach(
    alloc: Global,
    before: &[Statement],
    block: &Block,
    goal: &Goal,
    state: &mut StateBefore,
    first_number: u32,
    target: u32,
) -> Result<(), Stop>
    requires ready { IsReadyFor (as_views before.now) (script_of block.now) state.old
        (goal_view goal.now) }
    requires few { first_number + script_size (script_of block.now) < 2 ^ 32 }
    requires from { first_number ≤ target }
    requires within { target < first_number + script_size (script_of block.now) }
    ensures reached { OnOk result (ReachesStep (as_views before.now) (script_of block.now)
        state.old (goal_view goal.now) first_number target state.new) }
    ensures kept { OnOk result (KeepsHeld state.old state.new) }
    ensures err { IfErr result (StopsWithin (as_views before.now) (script_of block.now) state.old
        (goal_view goal.now) first_number) }
    ensures earlier { IfErr result (IsStopBefore target) }
{
    let mut number = first_number;
    for step in &block.steps {
        if number == target {
            return Ok(());
        }
        let count = step_count(step);
        let next = number + count;
        if target < next {
            return enter_step(alloc, before, step, state, number, target);
        }
        match prove_step(alloc, before, step, state, &mut number) {
            Ok(proved) => mem::drop(proved),
            Err(stop) => return Err(stop),
        }
    }
    if number == target {
        return Ok(());
    }
    enter_close(alloc, before, &block.close, goal, state, number, target)
}

/// Enters the block inside this step, which has the number, up to step `target` in it.
#[cycle(reach)]
fn enter_step(
    alloc: Global,
    before: &[Statement],
    step: &Step,
    state: &mut StateBefore,
    number: u32,
    target: u32,
) -> Result<(), Stop>
    requires ready { IsReadyStep (as_views before.now) step.now state.old number }
    requires inside { number < target }
    requires within { (rest : Script)
        → target + script_size rest < number + script_size (step_script step.now rest) }
    ensures reached { OnOk result
        (ReachesInStep (as_views before.now) step.now state.old number target state.new) }
    ensures kept { OnOk result (KeepsHeld state.old state.new) }
    ensures err { IfErr result (StopsInStep (as_views before.now) step.now state.old number) }
    ensures earlier { IfErr result (IsStopBefore target) }
{
    match step {
        Step::Cite(_) | Step::Hence { .. } | Step::Make { .. } | Step::Apply { .. } => {
            unreachable!()
        }
        Step::Claim { shown, inner } => {
            let goal = Goal {
                made: &[],
                shown: shown.items(),
            };
            reach(alloc, before, inner, &goal, state, number + 1, target)
        }
        Step::Superposed {
            superposition,
            names,
            shown,
            inner,
            ..
        } => {
            match license_superpose(alloc, superposition, names.items(), state) {
                Ok(certs) => mem::drop(certs),
                Err(stop_reason) => return Err(stop_at(alloc, stop_reason, state, number)),
            }
            let goal = Goal {
                made: &[],
                shown: shown.items(),
            };
            reach(alloc, before, inner, &goal, state, number + 1, target)
        }
    }
}

/// Enters the block of a split, a close by `cases`, that step `target` is in: the second one after
/// the first is licensed.
#[cycle(reach)]
fn enter_close(
    alloc: Global,
    before: &[Statement],
    close: &Close,
    goal: &Goal,
    state: &mut StateBefore,
    number: u32,
    target: u32,
) -> Result<(), Stop>
    requires ready { IsReadyFor (as_views before.now) (close_script close.now) state.old
        (goal_view goal.now) }
    requires few { number + script_size (close_script close.now) < 2 ^ 32 }
    requires inside { number < target }
    requires within { target < number + script_size (close_script close.now) }
    ensures reached { OnOk result (ReachesStep (as_views before.now) (close_script close.now)
        state.old (goal_view goal.now) number target state.new) }
    ensures kept { OnOk result (KeepsHeld state.old state.new) }
    ensures err { IfErr result (StopsWithin (as_views before.now) (close_script close.now)
        state.old (goal_view goal.now) number) }
    ensures earlier { IfErr result (IsStopBefore target) }
{
    match close {
        Close::Qed { .. } | Close::Contradiction { .. } => unreachable!(),
        Close::Cases { lit, first, second } => {
            let count = size(first);
            let middle = number + 1 + count;
            if target < middle {
                state.assume(alloc, lit)?;
                return reach(alloc, before, first, goal, state, number + 1, target);
            }
            match pass_first_case(alloc, before, lit, first, goal, state, number + 1) {
                Ok(()) => reach(alloc, before, second, goal, state, middle, target),
                Err(stop) => Err(stop),
            }
        }
    }
}

/// Licenses the first block of a split, and begins the second: the negation of the literal is
/// a fact. The block's first step has number `first_number`.
fn pass_first_case(
    alloc: Global,
    before: &[Statement],
    lit: &Lit,
    block: &Block,
    goal: &Goal,
    state: &mut StateBefore,
    first_number: u32,
) -> Result<(), Stop>
    requires ready { IsReadyFor (as_views before.now) (script_of block.now)
        (after_literal lit.now state.old) (goal_view goal.now) }
    requires few { first_number + script_size (script_of block.now) < 2 ^ 32 }
    requires second { (derived : Script) → IsDerivedFrom (as_views before.now)
        (script_of block.now) (after_literal lit.now state.old) (goal_view goal.now) derived
        → IsTrue (are_limited_facts state.old.context.scope
        (with_fact state.old.context.facts (negation lit.now))) }
    ensures passed { OnOk result (IsFirstPassed (as_views before.now) lit.now
        (script_of block.now) state.old (goal_view goal.now) state.new) }
    ensures err { IfErr result (StopsWithin (as_views before.now) (script_of block.now)
        (after_literal lit.now state.old) (goal_view goal.now) first_number) }
{
    let outer = state.enter_block(alloc)?;
    match state.assume(alloc, lit) {
        Ok(()) => {}
        Err(_) => {
            mem::drop(outer);
            return Err(Stop::NoMemory);
        }
    }
    let mut number = first_number;
    match prove_block(alloc, before, block, goal, state, &mut number) {
        Ok(proved) => mem::drop(proved),
        Err(stop) => {
            mem::drop(outer);
            return Err(stop);
        }
    }
    state.leave_block(outer);
    state.assume_not(alloc, lit)?;
    Ok(())
}
