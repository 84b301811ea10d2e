//! The derivation of a theorem from its script.
ghost use Rattle.std.specs.Prelude.{◌≡◌, IfOk, IfErr, IsTrue};
ghost use Rattle.e_theorem.specs.Statements.{as_view, as_views};
ghost use Rattle.e_deriv.specs.Script.{script_of, bare_script};
ghost use Rattle.e_deriv.specs.Parts.{filled_by};
ghost use Rattle.e_deriv.specs.PlacedSteps.{proof_steps};
ghost use Rattle.e_deriv.specs.Licensed.{AllLicensed};
ghost use Rattle.e_deriv.specs.Fitting.{IsFitting};
ghost use Rattle.e_deriv.specs.Certified.{Certified};
ghost use Rattle.e_book.specs.Fits.{has_well_formed_literals};
ghost use Rattle.e_prove.specs.Stops.{StopIs, HasNames};
ghost use Rattle.e_deriv.specs.Written.{is_written_well};
ghost use Rattle.e_clause.specs.declared.cert.Version.TheVariants as version;
ghost use Rattle.e_deriv.specs.Versions.{has_certs_of};

use crate::block::prove_block;
use crate::state_before::StateBefore;
use e_book::Theorem;
use e_deriv::{Block, Goal, Stop};
use e_literal::next_objects;
use e_theorem::Statement;
use std::alloc::Global;
use std::mem;

/// The derivation of a theorem by its own script, from the statements before it: each step licensed
/// in order, with a certificate for each literal that it needs. Without its certificates it is the
/// script, with the blanks of each application filled by the least good choice. Where the literals
/// of the script are well formed, each literal that the derivation names is. Its certificates cite
/// facts by literals, not by places.
///
/// `Unlicensed` comes only at the first step that is not licensed, with what it lacks, the values
/// that show it where that is a metric literal or a contradiction, and the names in scope before
/// it. `TooWide` comes only where each step before is licensed and the step is wide.
///
/// `prove` requires that each step of the script fits in its place, and so do the literals: those
/// of a theorem that is read do.
pub fn prove(alloc: Global, before: &[Statement], theorem: &Theorem) -> Result<Block, Stop>
    requires { IsFitting (as_views before.now) (as_view theorem.now.statement)
        (script_of theorem.now.block) }
    ensures certified { IfOk result
        (λ d. Certified (as_views before.now) (as_view theorem.now.statement) (script_of d)) }
    ensures script { IfOk result (λ d. bare_script (script_of d)
        ≡ filled_by (bare_script (script_of theorem.now.block)) (script_of d)) }
    ensures licensed { IfOk
        result (λ d. AllLicensed (as_views before.now) (proof_steps (as_views before.now)
        (as_view theorem.now.statement) (script_of theorem.now.block) (script_of d))) }
    ensures written { IfOk result
        (λ d. IsTrue (has_well_formed_literals (script_of theorem.now.block))
        → IsTrue (is_written_well (script_of d))) }
    ensures version { IfOk result (λ d. IsTrue (has_certs_of version.One (script_of d))) }
    ensures stop { IfErr result (StopIs (as_views before.now) (as_view theorem.now.statement)
        (script_of theorem.now.block)) }
    ensures names { IfErr result (HasNames (as_views before.now) (as_view theorem.now.statement)
        theorem.now.names (script_of theorem.now.block)) }
{
    let statement = &theorem.statement;
    let mut state = StateBefore::first(alloc, statement, &theorem.names)?;
    let made = match next_objects(alloc, state.context.scope(), statement.made.items()) {
        Ok(made) => made,
        Err(_) => {
            mem::drop(state);
            return Err(Stop::NoMemory);
        }
    };
    let goal = Goal {
        made: &made,
        shown: statement.shown.items(),
    };
    let mut number = 1;
    match prove_block(
        alloc,
        before,
        &theorem.block,
        &goal,
        &mut state,
        &mut number,
    ) {
        Ok(proved) => {
            mem::drop(state);
            Ok(proved)
        }
        Err(stop) => {
            mem::drop(state);
            Err(stop)
        }
    }
}
