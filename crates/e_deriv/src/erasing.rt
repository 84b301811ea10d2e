//! Blocks without their certificates.
ghost use Rattle.std.specs.Prelude.{◌≡◌, [], IfOk};
ghost use Rattle.e_deriv.specs.declared.block.Step.TheVariants.{Make as MakeStep};
ghost use Rattle.e_deriv.specs.declared.block.Step.TheVariants.{Apply as ApplyStep};
ghost use Rattle.e_deriv.specs.Script.{Script, script_of, step_script};
ghost use Rattle.e_deriv.specs.Script.{close_script, bare_script};

use crate::block::{Block, Close, Step};
use crate::inner::{cases_close, claim_step, superposed_step};
use e_clause::By;
use e_construct::Construction;
use e_literal::{Items, Lit, Obj, copy};
use e_text::Name;
use std::alloc::{AllocError, Global};
use std::mem;

/// The script of a block: the same steps without their certificates.
#[cycle(erase)]
#[tactic(auto, using(crate::proofs::Scripts::erasing))]
pub fn erase(alloc: Global, block: &Block) -> Result<Block, AllocError>
    ensures { IfOk result (λ b. script_of b ≡ bare_script (script_of block.now)) }
{
    let mut steps = Vec::new(alloc);
    for step in &block.steps {
        let bare = match erase_step(alloc, step) {
            Ok(bare) => bare,
            Err(error) => {
                mem::drop(steps);
                return Err(error);
            }
        };
        steps.push(bare)?;
    }
    match erase_close(alloc, &block.close) {
        Ok(close) => Ok(Block { steps, close }),
        Err(error) => {
            mem::drop(steps);
            Err(error)
        }
    }
}

#[cycle(erase)]
#[tactic(auto, using(crate::proofs::Scripts::erasing))]
fn erase_step(alloc: Global, step: &Step) -> Result<Step, AllocError>
    ensures { IfOk result (λ s. (rest : Script) → step_script s (bare_script rest)
        ≡ bare_script (step_script step.now rest)) }
{
    match step {
        Step::Cite(by) => Ok(Step::Cite(copy_by(alloc, by)?)),
        Step::Hence { lit, .. } => Ok(Step::Hence {
            lit: copy(alloc, lit)?,
            cert: None,
        }),
        Step::Make {
            construction,
            names,
            ..
        } => bare_make(alloc, construction, names.items()),
        Step::Apply {
            theorem,
            args,
            names,
            ..
        } => bare_apply(alloc, *theorem, args.items(), names.items()),
        Step::Claim { shown, inner } => {
            let inner = erase(alloc, inner)?;
            claim_step(alloc, shown.items(), inner)
        }
        Step::Superposed {
            superposition,
            names,
            shown,
            inner,
            ..
        } => {
            let inner = erase(alloc, inner)?;
            let certs = Items::empty(alloc);
            superposed_step(
                alloc,
                superposition,
                names.items(),
                shown.items(),
                certs,
                inner,
            )
        }
    }
}

#[cycle(erase)]
#[tactic(auto, using(crate::proofs::Scripts::erasing))]
fn erase_close(alloc: Global, close: &Close) -> Result<Close, AllocError>
    ensures { IfOk result (λ c. close_script c ≡ bare_script (close_script close.now)) }
{
    match close {
        Close::Qed { objects, .. } => {
            let objects = Vec::from_slice(alloc, objects.items())?;
            Ok(Close::Qed {
                objects: Items::new(objects),
                certs: Items::empty(alloc),
            })
        }
        Close::Contradiction { .. } => Ok(Close::Contradiction { against: None }),
        Close::Cases { lit, first, second } => {
            let first = erase(alloc, first)?;
            match erase(alloc, second) {
                Ok(second) => cases_close(alloc, lit, first, second),
                Err(error) => {
                    mem::drop(first);
                    Err(error)
                }
            }
        }
    }
}

/// The step of a construction, without certificates.
fn bare_make(alloc: Global, construction: &Construction, names: &[Name]) -> Result<Step, AllocError>
    ensures { IfOk result (λ s. s ≡ MakeStep construction.now names.now []) }
{
    let names = copy_names(alloc, names)?;
    let construction = copy_construction(alloc, construction)?;
    Ok(Step::Make {
        construction,
        names,
        certs: Items::empty(alloc),
    })
}

/// The step of an application, without certificates.
fn bare_apply(
    alloc: Global,
    theorem: u32,
    args: &[Option<Obj>],
    names: &[Name],
) -> Result<Step, AllocError>
    ensures { IfOk result (λ s. s ≡ ApplyStep theorem args.now names.now []) }
{
    let args = Vec::from_slice(alloc, args)?;
    let names = copy_names(alloc, names)?;
    Ok(Step::Apply {
        theorem,
        args: Items::new(args),
        names,
        certs: Items::empty(alloc),
    })
}

/// Equal literals.
pub fn copy_lits(alloc: Global, lits: &[Lit]) -> Result<Items<Lit>, AllocError>
    ensures { IfOk result (λ ls. ls ≡ lits.now) }
{
    let mut copies = Vec::new(alloc);
    for lit in lits {
        copies.push(copy(alloc, lit)?)?;
    }
    Ok(Items::new(copies))
}

/// An equal citation.
pub fn copy_by(alloc: Global, by: &By) -> Result<By, AllocError>
    ensures { IfOk result (λ b. b ≡ by.now) }
{
    let args = Vec::from_slice(alloc, by.args.items())?;
    Ok(By {
        rule: by.rule,
        args: Items::new(args),
        lit: copy(alloc, &by.lit)?,
    })
}

/// An equal construction.
pub fn copy_construction(
    alloc: Global,
    construction: &Construction,
) -> Result<Construction, AllocError>
    ensures { IfOk result (λ f. f ≡ construction.now) }
{
    Ok(Construction {
        shape: construction.shape,
        args: copy_objects(alloc, construction.args.items())?,
        avoid: copy_objects(alloc, construction.avoid.items())?,
    })
}

fn copy_objects(alloc: Global, objects: &[Obj]) -> Result<Items<Obj>, AllocError>
    ensures { IfOk result (λ o. o ≡ objects.now) }
{
    Ok(Items::new(Vec::from_slice(alloc, objects)?))
}

/// Equal names.
pub fn copy_names(alloc: Global, names: &[Name]) -> Result<Items<Name>, AllocError>
    ensures { IfOk result (λ n. n ≡ names.now) }
{
    Ok(Items::new(Vec::from_slice(alloc, names)?))
}
