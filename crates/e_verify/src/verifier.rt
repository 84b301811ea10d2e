//! The check of a derivation.

ghost use Rattle.std.specs.Prelude.{◌≡◌, IfOk, IfErr, OnOk};
ghost use Rattle.e_literal.specs.Use.{scope_of};
ghost use Rattle.e_theorem.specs.Statements.{as_view, as_views};
ghost use Rattle.e_deriv.specs.Certified.{Certified, verdict};
ghost use Rattle.e_deriv.specs.Proves.{IsProof};
ghost use Rattle.e_deriv.specs.Script.{script_of};
ghost use Rattle.e_verify.specs.Checking.{RejectIs};
ghost use Rattle.e_verify.specs.Verdicts.{IsVerifiable};
ghost use Rattle.e_verify.specs.StepStates;

use crate::block::verify_block;
use crate::facts::Facts;
use crate::reject::Reject;
use crate::step_state::StepState;
use e_deriv::{Block, Goal};
use e_literal::{NOTHING, Scope, next_objects, with_sorts};
use e_theorem::Statement;
use std::alloc::{AllocError, Global};

/// Checks the derivation of a statement from those before it, certificate by certificate, in text
/// order.
///
/// It is refused exactly at the first step that is not certified. What is verified is a proof.
pub fn verify(
    alloc: Global,
    before: &[Statement],
    statement: &Statement,
    deriv: &Block,
) -> Result<(), Reject>
    requires { IsVerifiable (as_views before.now) (as_view statement.now) (script_of deriv.now) }
    ensures certified { OnOk result
        (Certified (as_views before.now) (as_view statement.now) (script_of deriv.now)) }
    ensures proof { OnOk result
        (IsProof (as_views before.now) (as_view statement.now) (script_of deriv.now)) }
    ensures bad { IfErr result
        (RejectIs (verdict (as_views before.now) (as_view statement.now) (script_of deriv.now))) }
{
    let scope = with_sorts(NOTHING, statement.declared.items());
    let made = next_objects(alloc, scope, statement.made.items())?;
    let mut state = state_at_start(alloc, scope, statement)?;
    let goal = Goal {
        made: &made,
        shown: statement.shown.items(),
    };
    match verify_block(alloc, before, deriv, &goal, &mut state, 1) {
        Ok(_) => Ok(()),
        Err(reject) => Err(reject),
    }
}

/// What holds before the first step: the declared objects are in scope, and the given literals are
/// facts.
pub fn state_at_start(
    alloc: Global,
    scope: Scope,
    statement: &Statement,
) -> Result<StepState, AllocError>
    requires { scope ≡ scope_of (as_view statement.now) }
    ensures { IfOk result (λ x. x ≡ StepStates.state_at_start (as_view statement.now)) }
{
    let mut state = StepState {
        scope,
        facts: Facts::new(alloc),
    };
    state.assume_all(alloc, statement.given.items())?;
    Ok(state)
}
