//! Checking a block step by step, with the blocks inside it.

ghost use Rattle.std.specs.Prelude.{◌≡◌, ◌+◌, ◌<◌, ◌^◌, ℕ, List, IfOk};
ghost use Rattle.std.specs.Prelude.{IfErr, OnOk, IsTrue, IsFalse, Ok};
ghost use Rattle.std.specs.List.{list_all};
ghost use Rattle.e_theorem.specs.Statements.{as_views};
ghost use Rattle.e_deriv.specs.Fitting.{is_small_statement};
ghost use Rattle.e_deriv.specs.Script.{Claim, Superposed, script_of, step_script, close_script};
ghost use Rattle.e_verify.specs.declared.reject.Reject.TheVariants.{Bad as IsBad};
ghost use Rattle.e_verify.specs.Checking.{AreCheckableBeforeSome, IsCheckable, IsCheckableStep};
ghost use Rattle.e_verify.specs.Checking.{AreVerified, KeepsFirstFacts, RejectsInSteps};
ghost use Rattle.e_verify.specs.Checking.{RejectIs, RejectsInStep, verdict_at};
ghost use Rattle.e_deriv.specs.Goal.{goal_view};

use crate::closes::{is_contradiction_certified, is_qed_certified};
use crate::reject::Reject;
use crate::scope::are_over;
use crate::step_state::StepState;
use crate::steps::{check_apply, check_cite, check_hence, check_make, check_superpose};
use e_clause::Cert;
use e_construct::Superpose;
use e_deriv::{Block, Close, Goal, Step};
use e_literal::{Lit, in_scope};
use e_theorem::Statement;
use std::alloc::Global;

/// Checks the steps of a block in order, with the blocks inside it, where its first step has number
/// `first_number`. The answer is the number of the step after it.
#[cycle(block)]
pub fn verify_block(
    alloc: Global,
    before: &[Statement],
    block: &Block,
    goal: &Goal,
    state: &mut StepState,
    first_number: u32,
) -> Result<u32, Reject>
    requires ready { IsCheckable (as_views before.now) (script_of block.now) state.old
        (goal_view goal.now) first_number }
    requires statements { IsTrue (list_all is_small_statement (as_views before.now)) }
    ensures ok { IfOk result (λ next. verdict_at (as_views before.now) (script_of block.now)
        state.old (goal_view goal.now) first_number ≡ Ok next) }
    ensures kept { OnOk result (KeepsFirstFacts state.old state.new) }
    ensures err { IfErr result (RejectIs (verdict_at (as_views before.now) (script_of block.now)
        state.old (goal_view goal.now) first_number)) }
{
    let mut number = first_number;
    for step in &block.steps {
        number = verify_step(alloc, before, step, state, number)?;
    }
    verify_close(alloc, before, &block.close, goal, state, number)
}

/// Checks a step, with the block inside it.
#[cycle(block)]
fn verify_step(
    alloc: Global,
    before: &[Statement],
    step: &Step,
    state: &mut StepState,
    number: u32,
) -> Result<u32, Reject>
    requires ready { IsCheckableStep (as_views before.now) step.now state.old number }
    requires statements { IsTrue (list_all is_small_statement (as_views before.now)) }
    ensures ok { IfOk result (λ next. AreVerified (as_views before.now) (step_script step.now)
        state.old number state.new next) }
    ensures err { IfErr result (RejectsInStep (as_views before.now) step.now state.old number) }
{
    match step {
        Step::Cite(by) => verdict_of(check_cite(alloc, by, state)?, number),
        Step::Hence { lit, cert } => verdict_of(check_hence(alloc, lit, cert, state)?, number),
        Step::Make {
            construction,
            certs,
            ..
        } => verdict_of(
            check_make(alloc, construction, certs.items(), state)?,
            number,
        ),
        Step::Apply {
            theorem,
            args,
            certs,
            ..
        } => {
            let args = args.items();
            verdict_of(
                check_apply(alloc, before, *theorem, args, certs.items(), state)?,
                number,
            )
        }
        Step::Claim { shown, inner } => {
            verify_claim(alloc, before, shown.items(), inner, state, number)
        }
        Step::Superposed {
            superposition,
            shown,
            certs,
            inner,
            ..
        } => {
            let parts = SuperposedParts {
                superposition,
                shown: shown.items(),
                certs: certs.items(),
            };
            verify_superposed(alloc, before, &parts, inner, state, number)
        }
    }
}

/// Checks a claim with its block; after it what it shows are facts.
#[cycle(block)]
fn verify_claim(
    alloc: Global,
    before: &[Statement],
    shown: &[Lit],
    inner: &Block,
    state: &mut StepState,
    number: u32,
) -> Result<u32, Reject>
    requires ready { AreCheckableBeforeSome (as_views before.now)
        (Claim shown.now (script_of inner.now)) state.old number }
    requires statements { IsTrue (list_all is_small_statement (as_views before.now)) }
    ensures ok { IfOk result (λ next. AreVerified (as_views before.now)
        (Claim shown.now (script_of inner.now)) state.old number state.new next) }
    ensures err { IfErr result (RejectsInSteps (as_views before.now)
        (Claim shown.now (script_of inner.now)) state.old number) }
{
    if !are_over(state.scope, shown) {
        return Err(Reject::Bad { step: number });
    }
    let outer = state.checkpoint();
    let goal = Goal { made: &[], shown };
    let next = verify_block(alloc, before, inner, &goal, state, number + 1)?;
    state.restore(outer);
    state.assume_all(alloc, shown)?;
    Ok(next)
}

/// A superposition without its names and its block.
#[derive(Clone, Copy)]
struct SuperposedParts<'a> {
    superposition: &'a Superpose,
    shown: &'a [Lit],
    certs: &'a [Cert],
}

/// Checks a superposition with its block; after it what it shows are facts.
#[cycle(block)]
fn verify_superposed(
    alloc: Global,
    before: &[Statement],
    parts: &SuperposedParts,
    inner: &Block,
    state: &mut StepState,
    number: u32,
) -> Result<u32, Reject>
    requires ready { (names : List (List ℕ)) × AreCheckableBeforeSome (as_views before.now)
        (Superposed parts.now.superposition.now names parts.now.shown.now
        parts.now.certs.now (script_of inner.now)) state.old number }
    requires statements { IsTrue (list_all is_small_statement (as_views before.now)) }
    ensures ok { IfOk result (λ next. (names : List (List ℕ)) → AreVerified (as_views before.now)
        (Superposed parts.now.superposition.now names parts.now.shown.now
        parts.now.certs.now (script_of inner.now)) state.old number state.new next) }
    ensures err { IfErr result (λ e. (names : List (List ℕ)) → RejectsInSteps (as_views before.now)
        (Superposed parts.now.superposition.now names parts.now.shown.now
        parts.now.certs.now (script_of inner.now)) state.old number e) }
{
    let SuperposedParts {
        superposition,
        shown,
        certs,
    } = *parts;
    let outer = state.checkpoint();
    if !check_superpose(alloc, superposition, shown, certs, state)? {
        return Err(Reject::Bad { step: number });
    }
    let goal = Goal { made: &[], shown };
    let next = verify_block(alloc, before, inner, &goal, state, number + 1)?;
    state.restore(outer);
    state.assume_all(alloc, shown)?;
    Ok(next)
}

/// Checks a close, with the blocks that a split has inside.
#[cycle(block)]
fn verify_close(
    alloc: Global,
    before: &[Statement],
    close: &Close,
    goal: &Goal,
    state: &mut StepState,
    number: u32,
) -> Result<u32, Reject>
    requires ready { IsCheckable (as_views before.now) (close_script close.now) state.old
        (goal_view goal.now) number }
    requires statements { IsTrue (list_all is_small_statement (as_views before.now)) }
    ensures ok { IfOk result (λ next. verdict_at (as_views before.now) (close_script close.now)
        state.old (goal_view goal.now) number ≡ Ok next) }
    ensures kept { OnOk result (KeepsFirstFacts state.old state.new) }
    ensures err { IfErr result (RejectIs (verdict_at (as_views before.now)
        (close_script close.now) state.old (goal_view goal.now) number)) }
{
    match close {
        Close::Qed { objects, certs } => {
            let objects = objects.items();
            verdict_of(
                is_qed_certified(alloc, objects, certs.items(), goal, state)?,
                number,
            )
        }
        Close::Contradiction { against } => verdict_of(
            is_contradiction_certified(alloc, against, state)?,
            number,
        ),
        Close::Cases { lit, first, second } => {
            if !in_scope(lit, state.scope) {
                return Err(Reject::Bad { step: number });
            }
            let outer = state.checkpoint();
            state.assume(alloc, lit)?;
            let next = verify_block(alloc, before, first, goal, state, number + 1)?;
            state.restore(outer);
            state.assume_not(alloc, lit)?;
            verify_block(alloc, before, second, goal, state, next)
        }
    }
}

/// The verdict on a step with this number: the number of the next where it is certified.
fn verdict_of(certified: bool, number: u32) -> Result<u32, Reject>
    requires { number + 1 < 2 ^ 32 }
    ensures ok { IfOk result (λ next. IsTrue certified × (next ≡ number + 1)) }
    ensures err { IfErr result (λ e. IsFalse certified × (e ≡ IsBad number)) }
{
    if certified {
        Ok(number + 1)
    } else {
        Err(Reject::Bad { step: number })
    }
}
