//! The step that an inner block belongs to, once the block is proved.
ghost use Rattle.std.specs.Prelude.{◌≡◌, ◌<◌, List, length, IfOk, IfErr, OnOk};
ghost use Rattle.e_deriv.specs.Script.{Script, Claim, Superposed};
ghost use Rattle.e_deriv.specs.Script.{script_of, step_script};
ghost use Rattle.e_deriv.specs.declared.stop.Stop.TheVariants.{NoMemory};
ghost use Rattle.e_prove.specs.inner.NextStates.{CanJoinLast, IsOutsideWith};

use crate::state_before::StateBefore;
use e_clause::Cert;
use e_construct::Superpose;
use e_deriv::{Block, Names, Step, Stop, claim_step, superposed_step};
use e_literal::{Items, Lit};
use e_text::Name;
use std::alloc::Global;
use std::mem;

/// A superposition without its certificates and its block.
#[derive(Clone, Copy)]
pub struct SuperposedParts<'a> {
    pub superposition: &'a Superpose,
    pub names: &'a [Name],
    pub shown: &'a [Lit],
}

/// A claim whose block is proved: what it shows are facts where the block was entered.
#[tactic(auto, using(e_deriv::proofs::Scripts::scripts))]
pub fn end_claim(
    alloc: Global,
    shown: &[Lit],
    proved: Block,
    outer: Names,
    state: &mut StateBefore,
) -> Result<Step, Stop>
    requires held { 0 < length state.old.context.held }
    requires good { CanJoinLast shown.now state.old }
    ensures step { IfOk result
        (λ d. (rest : Script) → step_script d rest ≡ Claim shown.now (script_of proved) rest) }
    ensures after { OnOk result (IsOutsideWith outer shown.now state.old state.new) }
    ensures err { IfErr result (λ s. s ≡ NoMemory) }
{
    match state.leave_block_with(alloc, outer, shown) {
        Ok(()) => {
            let step = claim_step(alloc, shown, proved)?;
            Ok(step)
        }
        Err(_) => {
            mem::drop(proved);
            Err(Stop::NoMemory)
        }
    }
}

/// A superposition whose block is proved: what it shows are facts where the block was entered.
#[tactic(auto, using(e_deriv::proofs::Scripts::scripts))]
pub fn end_superposition(
    alloc: Global,
    parts: &SuperposedParts,
    certs: Vec<Cert>,
    proved: Block,
    outer: Names,
    state: &mut StateBefore,
) -> Result<Step, Stop>
    requires held { 0 < length state.old.context.held }
    requires good { CanJoinLast parts.now.shown.now state.old }
    ensures step { IfOk result (λ d. (rest : Script) → step_script d rest
        ≡ Superposed parts.now.superposition.now parts.now.names.now parts.now.shown.now certs.items
        (script_of proved) rest) }
    ensures after { OnOk result (IsOutsideWith outer parts.now.shown.now state.old state.new) }
    ensures err { IfErr result (λ s. s ≡ NoMemory) }
{
    let SuperposedParts {
        superposition,
        names,
        shown,
    } = *parts;
    let certs = Items::new(certs);
    match state.leave_block_with(alloc, outer, shown) {
        Ok(()) => {
            let step = superposed_step(alloc, superposition, names, shown, certs, proved)?;
            Ok(step)
        }
        Err(_) => {
            mem::drop(proved);
            mem::drop(certs);
            Err(Stop::NoMemory)
        }
    }
}
