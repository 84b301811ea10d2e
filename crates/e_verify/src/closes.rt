//! Closes without blocks inside: whether one is certified.

ghost use Rattle.std.specs.Prelude.{◌≡◌, List, IfOk, IsTrue, true};
ghost use Rattle.std.specs.List.{list_all};
ghost use Rattle.std.specs.Option.{option_map_or};
ghost use Rattle.e_literal.specs.Use.{StatementView};
ghost use Rattle.e_literal.specs.WellFormed.{is_well_formed};
ghost use Rattle.e_deriv.specs.Certified.{is_certified};
ghost use Rattle.e_deriv.specs.Goal.{Goal as BlockGoal, goal_view};
ghost use Rattle.e_deriv.specs.Script.{Qed, Contradiction};
ghost use Rattle.e_verify.specs.Checking.{step_in_state};
ghost use Rattle.e_clause.specs.Written.{is_writable_cert, is_writable_against};

use crate::certificate::{certifies_against, certify_all};
use crate::step_state::StepState;
use e_clause::{Against, Cert};
use e_deriv::{Goal, goal_with};
use e_literal::{Obj, have_sorts_of};
use std::alloc::{AllocError, Global};

/// Whether a qed is certified: each literal of the goal, with these objects for its made ones.
pub fn is_qed_certified(
    alloc: Global,
    objects: &[Obj],
    certs: &[Cert],
    goal: &Goal,
    state: &StepState,
) -> Result<bool, AllocError>
    requires facts { IsTrue (list_all is_well_formed state.now.facts) }
    requires shown { IsTrue (list_all is_well_formed goal.now.shown.now) }
    requires certs { IsTrue (list_all is_writable_cert certs.now) }
    ensures { IfOk result (λ b. (before : List StatementView) → b ≡ is_certified before
        (step_in_state (Qed objects.now certs.now) state.now (goal_view goal.now))) }
{
    if !have_sorts_of(state.scope, goal.made, objects) {
        return Ok(false);
    }
    let wanted = goal_with(alloc, goal, objects)?;
    certify_all(alloc, state.scope, &state.facts, &wanted, certs)
}

/// Whether a contradiction is certified.
pub fn is_contradiction_certified(
    alloc: Global,
    against: &Option<Against>,
    state: &StepState,
) -> Result<bool, AllocError>
    requires facts { IsTrue (list_all is_well_formed state.now.facts) }
    requires against { IsTrue (option_map_or is_writable_against against.now true) }
    ensures { IfOk result (λ b. (before : List StatementView) (goal : BlockGoal)
        → b ≡ is_certified before (step_in_state (Contradiction against.now) state.now goal)) }
{
    match against {
        Some(against) => certifies_against(alloc, state.scope, &state.facts, against),
        None => Ok(false),
    }
}
