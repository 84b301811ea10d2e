//! What holds before a step of a theorem's script.
ghost use Rattle.std.specs.Prelude.{◌≤◌, IfOk, IfErr};
ghost use Rattle.e_theorem.specs.Statements.{as_view, as_views};
ghost use Rattle.e_deriv.specs.Script.{script_of, size};
ghost use Rattle.e_deriv.specs.Fitting.{IsFitting};
ghost use Rattle.e_prove.specs.StatesBefore.{IsStateBeforeStep};
ghost use Rattle.e_prove.specs.Stops.{StopIs, HasNames, IsStopBefore};

use crate::reach::reach;
use crate::state_before::StateBefore;
use e_book::Theorem;
use e_deriv::{Goal, Stop};
use e_literal::next_objects;
use e_theorem::Statement;
use std::alloc::Global;
use std::mem;

/// What holds before the step with this number, from the statements before the theorem: each step
/// before it is licensed, with blanks filled by the least good choice. The steps are counted from 1
/// in text order, and the step is one of the script's.
///
/// A stop is one of [`crate::prove`], at a step before this one. As there, each step of the script
/// has to fit in its place, and so have the literals.
pub fn state_before_step(
    alloc: Global,
    before: &[Statement],
    theorem: &Theorem,
    step: u32,
) -> Result<StateBefore, Stop>
    requires fitting { IsFitting (as_views before.now) (as_view theorem.now.statement)
        (script_of theorem.now.block) }
    requires first { 1 ≤ step }
    requires last { step ≤ size (script_of theorem.now.block) }
    ensures state { IfOk result (IsStateBeforeStep (as_views before.now)
        (as_view theorem.now.statement) theorem.now.names (script_of theorem.now.block) step) }
    ensures stop { IfErr result (StopIs (as_views before.now) (as_view theorem.now.statement)
        (script_of theorem.now.block)) }
    ensures names { IfErr result (HasNames (as_views before.now) (as_view theorem.now.statement)
        theorem.now.names (script_of theorem.now.block)) }
    ensures earlier { IfErr result (IsStopBefore step) }
{
    let statement = &theorem.statement;
    let mut state = StateBefore::first(alloc, statement, &theorem.names)?;
    let made = match next_objects(alloc, state.context.scope(), statement.made.items()) {
        Ok(made) => made,
        Err(_) => {
            mem::drop(state);
            return Err(Stop::NoMemory);
        }
    };
    let goal = Goal {
        made: &made,
        shown: statement.shown.items(),
    };
    match reach(alloc, before, &theorem.block, &goal, &mut state, 1, step) {
        Ok(()) => Ok(state),
        Err(stop) => {
            mem::drop(state);
            Err(stop)
        }
    }
}
