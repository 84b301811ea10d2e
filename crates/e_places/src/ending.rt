//! What is left of an inner block that has its places.

ghost use Rattle.std.specs.Prelude.{◌≡◌, IfOk, OnOk};
ghost use Rattle.e_literal.specs.Facts.{with_facts};
ghost use Rattle.e_deriv.specs.Script.{Script, Claim, Superposed};
ghost use Rattle.e_deriv.specs.Script.{script_of, step_script};
ghost use Rattle.e_verify.specs.StepStates.{state_restored, state_with_facts};

use e_clause::Cert;
use e_construct::Superpose;
use e_deriv::{Block, Step, claim_step, superposed_step};
use e_literal::{Items, Lit};
use e_text::Name;
use e_verify::{Checkpoint, StepState};
use std::alloc::{AllocError, Global};
use std::mem;

/// A superposition with its certificates, without its block.
#[derive(Drop)]
pub struct Head<'a> {
    pub superposition: &'a Superpose,
    pub names: &'a [Name],
    pub certs: Items<Cert>,
}

/// A claim whose block has its places: what it shows are facts where the block was entered.
pub fn end_claim(
    alloc: Global,
    shown: &[Lit],
    block: Block,
    outer: Checkpoint,
    state: &mut StepState,
) -> Result<Step, AllocError>
    ensures step { IfOk result (λ s. (rest : Script)
        → step_script s rest ≡ Claim shown.now (script_of block) rest) }
    ensures after { OnOk result (state.new ≡ state_with_facts (with_facts
        (state_restored outer state.old).facts shown.now) (state_restored outer state.old)) }
{
    state.restore(outer);
    match state.assume_all(alloc, shown) {
        Ok(()) => claim_step(alloc, shown, block),
        Err(error) => {
            mem::drop(block);
            Err(error)
        }
    }
}

/// A superposition whose block has its places: what it shows are facts where the block was entered.
pub fn end_superposition(
    alloc: Global,
    head: Head,
    shown: &[Lit],
    block: Block,
    outer: Checkpoint,
    state: &mut StepState,
) -> Result<Step, AllocError>
    ensures step { IfOk result (λ s. (rest : Script)
        → step_script s rest ≡ Superposed head.entry.superposition.now head.entry.names.now
        shown.now head.entry.certs (script_of block) rest) }
    ensures after { OnOk result (state.new ≡ state_with_facts (with_facts
        (state_restored outer state.old).facts shown.now) (state_restored outer state.old)) }
{
    let Head {
        superposition,
        names,
        certs,
    } = head;
    state.restore(outer);
    match state.assume_all(alloc, shown) {
        Ok(()) => superposed_step(alloc, superposition, names, shown, certs, block),
        Err(error) => {
            mem::drop(block);
            mem::drop(certs);
            Err(error)
        }
    }
}
