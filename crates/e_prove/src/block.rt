//! Licensing a block step by step, with the blocks inside it.
ghost use Rattle.std.specs.Prelude.{◌≡◌, ◌+◌, ◌<◌, ◌^◌, List, IfOk, IfErr, OnOk};
ghost use Rattle.e_clause.specs.declared.cert.Cert.{Cert as Certificate};
ghost use Rattle.e_theorem.specs.Statements.{as_views};
ghost use Rattle.e_deriv.specs.Script.{Claim, Superposed, script_of};
ghost use Rattle.e_deriv.specs.Script.{step_script, close_script, size};
ghost use Rattle.e_deriv.specs.Goal.{goal_view};
ghost use Rattle.e_prove.specs.inner.PassedSteps.{AreReadyBeforeSome, IsReadyFor, IsReadyStep};
ghost use Rattle.e_prove.specs.inner.PassedSteps.{IsDerivedFrom, IsPassed, KeepsHeld};
ghost use Rattle.e_prove.specs.inner.PassedSteps.{StopsInSteps, StopsInStep, StopsWithin};

use crate::application::{Application, license_apply};
use crate::close::{contradiction, qed};
use crate::inner::{SuperposedParts, end_claim, end_superposition};
use crate::state_before::StateBefore;
use crate::step::{license_cite, license_hence, license_make, license_superpose};
use crate::stop_reason::{count_or_stop, stop_at};
use e_deriv::{Block, Close, Goal, Step, Stop, cases_close};
use e_literal::Lit;
use e_theorem::Statement;
use std::alloc::Global;
use std::mem;

/// Licenses a block in its place, where its first step has this number: each step in order, with
/// the blocks inside it. The number is then that of the step after it.
#[cycle(block)]
pub fn prove_block(
    alloc: Global,
    before: &[Statement],
    block: &Block,
    goal: &Goal,
    state: &mut StateBefore,
    number: &mut u32,
) -> Result<Block, Stop>
    requires ready { IsReadyFor (as_views before.now) (script_of block.now) state.old
        (goal_view goal.now) }
    requires few { number.old + size (script_of block.now) < 2 ^ 32 }
    ensures derived { IfOk result (λ d. IsDerivedFrom (as_views before.now) (script_of block.now)
        state.old (goal_view goal.now) (script_of d)) }
    ensures next { OnOk result (number.new ≡ number.old + size (script_of block.now)) }
    ensures kept { OnOk result (KeepsHeld state.old state.new) }
    ensures err { IfErr result (StopsWithin (as_views before.now) (script_of block.now) state.old
        (goal_view goal.now) number.old) }
{
    let mut steps = Vec::new(alloc);
    for step in &block.steps {
        match prove_step(alloc, before, step, state, number) {
            Ok(proved) => steps.push(proved)?,
            Err(stop) => {
                mem::drop(steps);
                return Err(stop);
            }
        }
    }
    match prove_close(alloc, before, &block.close, goal, state, number) {
        Ok(close) => Ok(Block { steps, close }),
        Err(stop) => {
            mem::drop(steps);
            Err(stop)
        }
    }
}

/// Licenses a step in its place, with the block inside it.
#[cycle(block)]
pub fn prove_step(
    alloc: Global,
    before: &[Statement],
    step: &Step,
    state: &mut StateBefore,
    number: &mut u32,
) -> Result<Step, Stop>
    requires { IsReadyStep (as_views before.now) step.now state.old number.old }
    ensures ok { IfOk result (λ d. IsPassed (as_views before.now) (step_script step.now) state.old
        number.old (step_script d) state.new number.new) }
    ensures err { IfErr result (StopsInStep (as_views before.now) step.now state.old number.old) }
{
    match step {
        Step::Cite(by) => {
            let answered = license_cite(alloc, by, state);
            count_or_stop(alloc, answered, state, number)
        }
        Step::Hence { lit, .. } => {
            let answered = license_hence(alloc, lit, state);
            count_or_stop(alloc, answered, state, number)
        }
        Step::Make {
            construction,
            names,
            ..
        } => {
            let answered = license_make(alloc, construction, names.items(), state);
            count_or_stop(alloc, answered, state, number)
        }
        Step::Apply {
            theorem,
            args,
            names,
            ..
        } => {
            let statement = &before[*theorem as usize];
            let application = Application {
                theorem: *theorem,
                args: args.items(),
                names: names.items(),
            };
            let answered = license_apply(alloc, &application, statement, state);
            count_or_stop(alloc, answered, state, number)
        }
        Step::Claim { shown, inner } => {
            prove_claim(alloc, before, shown.items(), inner, state, number)
        }
        Step::Superposed {
            superposition,
            names,
            shown,
            inner,
            ..
        } => {
            let parts = SuperposedParts {
                superposition,
                names: names.items(),
                shown: shown.items(),
            };
            prove_superposed(alloc, before, &parts, inner, state, number)
        }
    }
}

/// Licenses a claim with its block; after it what it shows are facts.
#[cycle(block)]
fn prove_claim(
    alloc: Global,
    before: &[Statement],
    shown: &[Lit],
    inner: &Block,
    state: &mut StateBefore,
    number: &mut u32,
) -> Result<Step, Stop>
    requires { AreReadyBeforeSome (as_views before.now) (Claim shown.now (script_of inner.now))
        state.old number.old }
    ensures ok { IfOk result
        (λ d. IsPassed (as_views before.now) (Claim shown.now (script_of inner.now)) state.old
        number.old (step_script d) state.new number.new) }
    ensures err { IfErr result (StopsInSteps (as_views before.now)
        (Claim shown.now (script_of inner.now)) state.old number.old) }
{
    let outer = state.enter_block(alloc)?;
    *number += 1;
    let goal = Goal { made: &[], shown };
    match prove_block(alloc, before, inner, &goal, state, number) {
        Ok(proved) => end_claim(alloc, shown, proved, outer, state),
        Err(stop) => {
            mem::drop(outer);
            Err(stop)
        }
    }
}

/// Licenses a superposition with its block; after it what it shows are facts.
#[cycle(block)]
fn prove_superposed(
    alloc: Global,
    before: &[Statement],
    parts: &SuperposedParts,
    inner: &Block,
    state: &mut StateBefore,
    number: &mut u32,
) -> Result<Step, Stop>
    requires { (certs : List Certificate) × AreReadyBeforeSome
        (as_views before.now) (Superposed parts.now.superposition.now parts.now.names.now
        parts.now.shown.now certs (script_of inner.now)) state.old number.old }
    ensures ok { IfOk result (λ d. (certs : List Certificate)
        → IsPassed (as_views before.now) (Superposed parts.now.superposition.now
        parts.now.names.now parts.now.shown.now certs (script_of inner.now))
        state.old number.old (step_script d) state.new number.new) }
    ensures err { IfErr result (λ s. (certs : List Certificate) → StopsInSteps
        (as_views before.now) (Superposed parts.now.superposition.now parts.now.names.now
        parts.now.shown.now certs (script_of inner.now)) state.old number.old s) }
{
    let SuperposedParts {
        superposition,
        names,
        shown,
    } = *parts;
    let outer = state.enter_block(alloc)?;
    let certs = match license_superpose(alloc, superposition, names, state) {
        Ok(certs) => certs,
        Err(stop_reason) => {
            mem::drop(outer);
            return Err(stop_at(alloc, stop_reason, state, *number));
        }
    };
    *number += 1;
    let goal = Goal { made: &[], shown };
    match prove_block(alloc, before, inner, &goal, state, number) {
        Ok(proved) => end_superposition(alloc, parts, certs, proved, outer, state),
        Err(stop) => {
            mem::drop(certs);
            mem::drop(outer);
            Err(stop)
        }
    }
}

/// Licenses a close in its place, with the blocks that a split, a close by `cases`, has inside.
#[cycle(block)]
fn prove_close(
    alloc: Global,
    before: &[Statement],
    close: &Close,
    goal: &Goal,
    state: &mut StateBefore,
    number: &mut u32,
) -> Result<Close, Stop>
    requires ready { IsReadyFor (as_views before.now) (close_script close.now) state.old
        (goal_view goal.now) }
    requires few { number.old + size (close_script close.now) < 2 ^ 32 }
    ensures derived { IfOk result (λ d. IsDerivedFrom (as_views before.now)
        (close_script close.now) state.old (goal_view goal.now) (close_script d)) }
    ensures next { OnOk result (number.new ≡ number.old + size (close_script close.now)) }
    ensures kept { OnOk result (KeepsHeld state.old state.new) }
    ensures err { IfErr result (StopsWithin (as_views before.now) (close_script close.now)
        state.old (goal_view goal.now) number.old) }
{
    match close {
        Close::Qed { objects, .. } => {
            let answered = qed(alloc, objects.items(), goal, &mut state.context);
            count_or_stop(alloc, answered, state, number)
        }
        Close::Contradiction { .. } => {
            let answered = contradiction(alloc, &mut state.context);
            count_or_stop(alloc, answered, state, number)
        }
        Close::Cases { lit, first, second } => {
            let outer = state.enter_block(alloc)?;
            state.assume(alloc, lit)?;
            *number += 1;
            let one = match prove_block(alloc, before, first, goal, state, number) {
                Ok(one) => one,
                Err(stop) => {
                    mem::drop(outer);
                    return Err(stop);
                }
            };
            state.leave_block(outer);
            match state.assume_not(alloc, lit) {
                Ok(()) => {}
                Err(_) => {
                    mem::drop(one);
                    return Err(Stop::NoMemory);
                }
            }
            match prove_block(alloc, before, second, goal, state, number) {
                Ok(other) => {
                    let derived = cases_close(alloc, lit, one, other)?;
                    Ok(derived)
                }
                Err(stop) => {
                    mem::drop(one);
                    Err(stop)
                }
            }
        }
    }
}
