//! Steps and closes with these blocks inside.
ghost use Rattle.std.specs.Prelude.{◌≡◌, IfOk};
ghost use Rattle.e_deriv.specs.Script.{Script, Claim, Superposed, Cases};
ghost use Rattle.e_deriv.specs.Script.{script_of, step_script, close_script};

use crate::block::{Block, Close, Step, box_blocks};
use crate::erasing::{copy_lits, copy_names};
use e_clause::Cert;
use e_construct::Superpose;
use e_literal::{Items, Lit, copy};
use e_text::Name;
use std::alloc::{AllocError, Global};
use std::mem;

/// A claim of equal literals.
#[tactic(auto, using(crate::proofs::Scripts::scripts))]
pub fn claim_step(alloc: Global, shown: &[Lit], inner: Block) -> Result<Step, AllocError>
    ensures { IfOk result
        (λ s. (rest : Script) → step_script s rest ≡ Claim shown.now (script_of inner) rest) }
{
    let inner = Box::new(alloc, inner)?;
    match copy_lits(alloc, shown) {
        Ok(shown) => Ok(Step::Claim { shown, inner }),
        Err(error) => {
            mem::drop(inner);
            Err(error)
        }
    }
}

/// A superposition with these certificates, with equal names and literals.
#[tactic(auto, using(crate::proofs::Scripts::scripts))]
pub fn superposed_step(
    alloc: Global,
    superposition: &Superpose,
    names: &[Name],
    shown: &[Lit],
    certs: Items<Cert>,
    inner: Block,
) -> Result<Step, AllocError>
    ensures { IfOk result (λ s. (rest : Script) → step_script s rest
        ≡ Superposed superposition.now names.now shown.now certs (script_of inner) rest) }
{
    let inner = match Box::new(alloc, inner) {
        Ok(inner) => inner,
        Err(failed) => {
            mem::drop(failed);
            mem::drop(certs);
            return Err(AllocError);
        }
    };
    match copy_head(alloc, names, shown) {
        Ok((names, shown)) => Ok(Step::Superposed {
            superposition: *superposition,
            names,
            shown,
            certs,
            inner,
        }),
        Err(error) => {
            mem::drop(inner);
            mem::drop(certs);
            Err(error)
        }
    }
}

/// Equal names and literals.
fn copy_head(
    alloc: Global,
    names: &[Name],
    shown: &[Lit],
) -> Result<(Items<Name>, Items<Lit>), AllocError>
    ensures names { IfOk result (λ p. p.0 ≡ names.now) }
    ensures shown { IfOk result (λ p. p.1 ≡ shown.now) }
{
    let names = copy_names(alloc, names)?;
    let shown = copy_lits(alloc, shown)?;
    Ok((names, shown))
}

/// A split by an equal literal.
#[tactic(auto, using(crate::proofs::Scripts::scripts))]
pub fn cases_close(
    alloc: Global,
    lit: &Lit,
    first: Block,
    second: Block,
) -> Result<Close, AllocError>
    ensures { IfOk result
        (λ c. close_script c ≡ Cases lit.now (script_of first) (script_of second)) }
{
    let (first, second) = box_blocks(alloc, first, second)?;
    match copy(alloc, lit) {
        Ok(lit) => Ok(Close::Cases { lit, first, second }),
        Err(error) => {
            mem::drop(first);
            mem::drop(second);
            Err(error)
        }
    }
}
