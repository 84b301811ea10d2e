//! Kept steps and closes over the kept objects, with these blocks inside.

ghost use Rattle.std.specs.Prelude.{◌≡◌, ◌<◌, ◌^◌, length, map, IfOk};
ghost use Rattle.std.specs.Option.{option_map};
ghost use Rattle.e_deriv.specs.declared.block.Step.TheVariants.{Hence, Make, Apply};
ghost use Rattle.e_deriv.specs.Script.{Script, Claim, Superposed, Cases};
ghost use Rattle.e_deriv.specs.Script.{script_of, step_script, close_script};
ghost use Rattle.e_trim.specs.Trimmed;

use crate::numbering::{
    new_args, new_cert, new_certs, new_construction, new_lit, new_lits, new_superpose,
};
use e_clause::Cert;
use e_construct::{Construction, Superpose};
use e_deriv::{Block, Close, Step, box_blocks, copy_names};
use e_literal::{Items, Lit, Obj};
use e_text::Name;
use std::alloc::{AllocError, Global};
use std::mem;

fn new_cert_of(alloc: Global, kept: &[Obj], cert: &Option<Cert>) -> Result<Option<Cert>, AllocError>
    requires { length kept.now < 2 ^ 16 }
    ensures { IfOk result (λ c. c ≡ option_map (Trimmed.cert_at kept.now) cert.now) }
{
    match cert {
        Some(cert) => Ok(Some(new_cert(alloc, kept, cert)?)),
        None => Ok(None),
    }
}

/// A hence.
pub fn new_hence(
    alloc: Global,
    kept: &[Obj],
    lit: &Lit,
    cert: &Option<Cert>,
) -> Result<Step, AllocError>
    requires { length kept.now < 2 ^ 16 }
    ensures { IfOk result (λ s. s ≡ Hence (Trimmed.lit_among_kept kept.now lit.now)
        (option_map (Trimmed.cert_at kept.now) cert.now)) }
{
    let lit = new_lit(alloc, kept, lit)?;
    match new_cert_of(alloc, kept, cert) {
        Ok(cert) => Ok(Step::Hence { lit, cert }),
        Err(error) => {
            mem::drop(lit);
            Err(error)
        }
    }
}

/// A construction.
pub fn new_make(
    alloc: Global,
    kept: &[Obj],
    construction: &Construction,
    names: &[Name],
    certs: &[Cert],
) -> Result<Step, AllocError>
    requires { length kept.now < 2 ^ 16 }
    ensures { IfOk result (λ s. s ≡ Make (Trimmed.construction_among_kept kept.now construction.now)
        names.now (map (Trimmed.cert_at kept.now) certs.now)) }
{
    let names = copy_names(alloc, names)?;
    let construction = new_construction(alloc, kept, construction)?;
    match new_certs(alloc, kept, certs) {
        Ok(certs) => Ok(Step::Make {
            construction,
            names,
            certs,
        }),
        Err(error) => {
            mem::drop(construction);
            Err(error)
        }
    }
}

/// An application of the theorem at this place.
pub fn new_apply(
    alloc: Global,
    kept: &[Obj],
    theorem: u32,
    args: &[Option<Obj>],
    names: &[Name],
    certs: &[Cert],
) -> Result<Step, AllocError>
    requires { length kept.now < 2 ^ 16 }
    ensures { IfOk result (λ s. s ≡ Apply theorem (Trimmed.args_at kept.now args.now) names.now
        (map (Trimmed.cert_at kept.now) certs.now)) }
{
    let args = new_args(alloc, kept, args)?;
    let names = copy_names(alloc, names)?;
    let certs = new_certs(alloc, kept, certs)?;
    Ok(Step::Apply {
        theorem,
        args,
        names,
        certs,
    })
}

/// A claim.
#[tactic(auto, using(e_deriv::proofs::Scripts::scripts))]
pub fn new_claim(
    alloc: Global,
    kept: &[Obj],
    shown: &[Lit],
    inner: Block,
) -> Result<Step, AllocError>
    requires { length kept.now < 2 ^ 16 }
    ensures { IfOk result (λ s. (rest : Script) → step_script s rest
        ≡ Claim (map (Trimmed.lit_among_kept kept.now) shown.now) (script_of inner) rest) }
{
    let inner = Box::new(alloc, inner)?;
    match new_lits(alloc, kept, shown) {
        Ok(shown) => Ok(Step::Claim { shown, inner }),
        Err(error) => {
            mem::drop(inner);
            Err(error)
        }
    }
}

/// The names, literals and certificates of a superposition.
#[derive(Drop)]
struct Head {
    names: Items<Name>,
    shown: Items<Lit>,
    certs: Items<Cert>,
}

fn new_head(
    alloc: Global,
    kept: &[Obj],
    names: &[Name],
    shown: &[Lit],
    certs: &[Cert],
) -> Result<Head, AllocError>
    requires { length kept.now < 2 ^ 16 }
    ensures names { IfOk result (λ h. h.names ≡ names.now) }
    ensures shown { IfOk result
        (λ h. h.shown ≡ map (Trimmed.lit_among_kept kept.now) shown.now) }
    ensures certs { IfOk result (λ h. h.certs ≡ map (Trimmed.cert_at kept.now) certs.now) }
{
    let names = copy_names(alloc, names)?;
    let shown = new_lits(alloc, kept, shown)?;
    match new_certs(alloc, kept, certs) {
        Ok(certs) => Ok(Head {
            names,
            shown,
            certs,
        }),
        Err(error) => {
            mem::drop(shown);
            Err(error)
        }
    }
}

/// A superposition.
#[tactic(auto, using(e_deriv::proofs::Scripts::scripts))]
pub fn new_superposition(
    alloc: Global,
    kept: &[Obj],
    superposition: &Superpose,
    names: &[Name],
    shown: &[Lit],
    certs: &[Cert],
    inner: Block,
) -> Result<Step, AllocError>
    requires { length kept.now < 2 ^ 16 }
    ensures { IfOk result (λ s. (rest : Script) → step_script s rest
        ≡ Superposed (Trimmed.superpose_at kept.now superposition.now) names.now
        (map (Trimmed.lit_among_kept kept.now) shown.now)
        (map (Trimmed.cert_at kept.now) certs.now) (script_of inner) rest) }
{
    let inner = Box::new(alloc, inner)?;
    match new_head(alloc, kept, names, shown, certs) {
        Ok(
            Head {
                names,
                shown,
                certs,
            },
        ) => Ok(Step::Superposed {
            superposition: new_superpose(kept, superposition),
            names,
            shown,
            certs,
            inner,
        }),
        Err(error) => {
            mem::drop(inner);
            Err(error)
        }
    }
}

/// A split.
#[tactic(auto, using(e_deriv::proofs::Scripts::scripts))]
pub fn new_split(
    alloc: Global,
    kept: &[Obj],
    lit: &Lit,
    first: Block,
    second: Block,
) -> Result<Close, AllocError>
    requires { length kept.now < 2 ^ 16 }
    ensures { IfOk result (λ c. close_script c
        ≡ Cases (Trimmed.lit_among_kept kept.now lit.now) (script_of first) (script_of second)) }
{
    let (first, second) = box_blocks(alloc, first, second)?;
    match new_lit(alloc, kept, lit) {
        Ok(lit) => Ok(Close::Cases { lit, first, second }),
        Err(error) => {
            mem::drop(first);
            mem::drop(second);
            Err(error)
        }
    }
}
