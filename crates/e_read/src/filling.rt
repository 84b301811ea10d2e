//! A script with certificates at its lines.
ghost use Rattle.std.specs.Prelude.{◌≡◌, IfOk, OnOk};
ghost use Rattle.e_deriv.specs.Script.{script_of};
ghost use Rattle.e_cert.specs.Certificates.{first_cert};
ghost use Rattle.e_read.specs.Filled.{after_next, next_certs, next_against};
ghost use Rattle.e_read.specs.Filled.{Fills, FillsStep, FillsClose};

use crate::kept::CertQueue;
use e_cert::{Certs, StepCerts};
use e_clause::{Against, Cert};
use e_deriv::{
    Block, Close, Step, cases_close, claim_step, copy_by, copy_construction, copy_names,
    superposed_step,
};
use e_literal::{Items, copy};
use std::alloc::{AllocError, Global};
use std::mem;

/// The certificates of the next line that has some.
fn next_certs(alloc: Global, queue: &mut CertQueue) -> Certs
    ensures certs { result ≡ next_certs queue.old }
    ensures rest { queue.new ≡ after_next queue.old }
{
    match queue.pop() {
        Some(StepCerts::Certs(certs)) => certs,
        Some(StepCerts::Against(against)) => {
            mem::drop(against);
            Certs::new(alloc)
        }
        None => Certs::new(alloc),
    }
}

/// The certificate of a contradiction that comes next.
fn next_against(queue: &mut CertQueue) -> Option<Against>
    ensures against { result ≡ next_against queue.old }
    ensures rest { queue.new ≡ after_next queue.old }
{
    match queue.pop() {
        Some(StepCerts::Against(against)) => Some(against),
        Some(StepCerts::Certs(certs)) => {
            mem::drop(certs);
            None
        }
        None => None,
    }
}

/// The first certificate of the next line that has some.
fn next_cert(alloc: Global, queue: &mut CertQueue) -> Option<Cert>
    ensures cert { result ≡ first_cert (next_certs queue.old) }
    ensures rest { queue.new ≡ after_next queue.old }
{
    next_certs(alloc, queue).into_first()
}

/// The block with the certificates that come next, in the order of its lines.
#[cycle(fill)]
#[tactic(auto, using(crate::proofs::FilledScripts::filling))]
pub(crate) fn fill(alloc: Global, block: &Block, queue: &mut CertQueue) -> Result<Block, AllocError>
    ensures { IfOk result (λ b. Fills (script_of block.now) queue.old (script_of b) queue.new) }
{
    let mut steps = Vec::new(alloc);
    for step in &block.steps {
        let filled = match fill_step(alloc, step, queue) {
            Ok(filled) => filled,
            Err(error) => {
                mem::drop(steps);
                return Err(error);
            }
        };
        steps.push(filled)?;
    }
    match fill_close(alloc, &block.close, queue) {
        Ok(close) => Ok(Block { steps, close }),
        Err(error) => {
            mem::drop(steps);
            Err(error)
        }
    }
}

#[cycle(fill)]
#[tactic(auto, using(crate::proofs::FilledScripts::filling))]
fn fill_step(alloc: Global, step: &Step, queue: &mut CertQueue) -> Result<Step, AllocError>
    ensures { IfOk result (λ s. FillsStep step.now queue.old s queue.new) }
{
    match step {
        Step::Cite(by) => Ok(Step::Cite(copy_by(alloc, by)?)),
        Step::Hence { lit, .. } => {
            let lit = copy(alloc, lit)?;
            let cert = next_cert(alloc, queue);
            Ok(Step::Hence { lit, cert })
        }
        Step::Make {
            construction,
            names,
            ..
        } => {
            let names = copy_names(alloc, names.items())?;
            let construction = copy_construction(alloc, construction)?;
            let certs = next_certs(alloc, queue).into_items();
            Ok(Step::Make {
                construction,
                names,
                certs,
            })
        }
        Step::Apply {
            theorem,
            args,
            names,
            ..
        } => {
            let args = Vec::from_slice(alloc, args.items())?;
            let names = copy_names(alloc, names.items())?;
            let certs = next_certs(alloc, queue).into_items();
            Ok(Step::Apply {
                theorem: *theorem,
                args: Items::new(args),
                names,
                certs,
            })
        }
        Step::Claim { shown, inner } => {
            let inner = fill(alloc, inner, queue)?;
            claim_step(alloc, shown.items(), inner)
        }
        Step::Superposed {
            superposition,
            names,
            shown,
            inner,
            ..
        } => {
            let certs = next_certs(alloc, queue).into_items();
            match fill(alloc, inner, queue) {
                Ok(inner) => superposed_step(
                    alloc,
                    superposition,
                    names.items(),
                    shown.items(),
                    certs,
                    inner,
                ),
                Err(error) => {
                    mem::drop(certs);
                    Err(error)
                }
            }
        }
    }
}

#[cycle(fill)]
#[tactic(auto, using(crate::proofs::FilledScripts::filling))]
fn fill_close(alloc: Global, close: &Close, queue: &mut CertQueue) -> Result<Close, AllocError>
    ensures { IfOk result (λ c. FillsClose close.now queue.old c queue.new) }
{
    match close {
        Close::Qed { objects, .. } => {
            let objects = Vec::from_slice(alloc, objects.items())?;
            let certs = next_certs(alloc, queue).into_items();
            Ok(Close::Qed {
                objects: Items::new(objects),
                certs,
            })
        }
        Close::Contradiction { .. } => {
            let against = next_against(queue);
            Ok(Close::Contradiction { against })
        }
        Close::Cases { lit, first, second } => {
            let first = fill(alloc, first, queue)?;
            match fill(alloc, second, queue) {
                Ok(second) => cases_close(alloc, lit, first, second),
                Err(error) => {
                    mem::drop(first);
                    Err(error)
                }
            }
        }
    }
}
