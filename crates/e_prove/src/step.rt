//! Licensing a step without what may be inside it.
ghost use Rattle.std.specs.Prelude.{◌≡◌, IfOk, IfErr, OnOk, IsTrue, List, Option};
ghost use Rattle.std.specs.List.{list_all};
ghost use Rattle.e_literal.specs.Use.{StatementView};
ghost use Rattle.e_literal.specs.Facts.{with_fact};
ghost use Rattle.e_clause.specs.declared.cert.Cert.{Cert as Certificate};
ghost use Rattle.e_clause.specs.LimitedFacts.{is_well_formed_in, are_well_formed_in};
ghost use Rattle.e_clause.specs.LimitedFacts.{are_limited_facts};
ghost use Rattle.e_construct.specs.Construct;
ghost use Rattle.e_deriv.specs.declared.block.Step.TheVariants.{Cite, Hence, Make};
ghost use Rattle.e_construct.specs.Superposing;
ghost use Rattle.e_clause.specs.Certify.{certify_all};
ghost use Rattle.e_clause.specs.declared.cert.Version.TheVariants as version;
ghost use Rattle.e_clause.specs.Versions.{is_cert_of};
ghost use Rattle.e_prove.specs.inner.NextStates.{HasRoomForMore, after_literal};
ghost use Rattle.e_prove.specs.inner.NextStates.{after_make, after_superposed};
ghost use Rattle.e_prove.specs.inner.StopsOfSteps.{StepStopsAmong, UnlessNoMemory};
ghost use Rattle.e_prove.specs.inner.LicensedSteps.{IsLicensedStep, IsStopOfStep};

use crate::licence::{is_cited, licence, licences};
use crate::state_before::StateBefore;
use crate::stop_reason::StopReason;
use e_clause::{By, Cert};
use e_construct::{Construction, Superpose};
use e_deriv::{Step, Wanted, copy_by, copy_construction};
use e_literal::{Items, Lit, copy};
use e_text::Name;
use std::alloc::{AllocError, Global};
use std::mem;

/// A citation: its literal is one of the instance, and the negation of each other is a fact.
#[tactic(auto, unfolding(e_deriv::specs::Script::step_script))]
pub fn license_cite(alloc: Global, by: &By, state: &mut StateBefore) -> Result<Step, StopReason>
    requires { IsTrue
        (are_limited_facts state.old.context.scope (with_fact state.old.context.facts by.now.lit)) }
    ensures ok { IfOk result (λ d. (before : List StatementView)
        → IsLicensedStep before (Cite by.now) state.old d state.new) }
    ensures err { IfErr result (λ h. (before : List StatementView)
        → IsStopOfStep before (Cite by.now) state.old h) }
    ensures kept { IfErr result (UnlessNoMemory (state.new ≡ state.old)) }
{
    if !is_cited(alloc, by, state.context.facts())? {
        return Err(StopReason::Lacks {
            wanted: Wanted::Literal(copy(alloc, &by.lit)?),
            values: None,
        });
    }
    state.assume(alloc, &by.lit)?;
    let derived = copy_by(alloc, by)?;
    Ok(Step::Cite(derived))
}

/// A hence: its literal is allowed.
#[tactic(auto, unfolding(e_deriv::specs::Script::step_script))]
pub fn license_hence(alloc: Global, lit: &Lit, state: &mut StateBefore) -> Result<Step, StopReason>
    requires lit { IsTrue (is_well_formed_in state.old.context.scope lit.now) }
    requires after { IsTrue
        (are_limited_facts state.old.context.scope (with_fact state.old.context.facts lit.now)) }
    ensures ok { IfOk result (λ d. (before : List StatementView) (cert : Option Certificate)
        → IsLicensedStep before (Hence lit.now cert) state.old d state.new) }
    ensures err { IfErr result (λ h. (before : List StatementView) (cert : Option Certificate)
        → IsStopOfStep before (Hence lit.now cert) state.old h) }
    ensures kept { IfErr result (UnlessNoMemory (state.new ≡ state.old)) }
{
    let cert = licence(alloc, &mut state.context, lit)?;
    match assume_copy(alloc, lit, state) {
        Ok(lit) => Ok(Step::Hence {
            lit,
            cert: Some(cert),
        }),
        Err(_) => {
            mem::drop(cert);
            Err(StopReason::NoMemory)
        }
    }
}

/// Makes the literal a fact, and hands out an equal one. It fails only out of memory; no clause says
/// what holds then.
fn assume_copy(alloc: Global, lit: &Lit, state: &mut StateBefore) -> Result<Lit, AllocError>
    requires { IsTrue
        (are_limited_facts state.old.context.scope (with_fact state.old.context.facts lit.now)) }
    ensures lit { IfOk result (λ l. l ≡ lit.now) }
    ensures after { OnOk result (state.new ≡ after_literal lit.now state.old) }
{
    state.assume(alloc, lit)?;
    copy(alloc, lit)
}

/// A construction: each literal that it needs is allowed.
#[tactic(auto, unfolding(e_deriv::specs::Script::step_script))]
pub fn license_make(
    alloc: Global,
    construction: &Construction,
    names: &[Name],
    state: &mut StateBefore,
) -> Result<Step, StopReason>
    requires room { HasRoomForMore state.old.context.scope }
    requires needs { IsTrue (are_well_formed_in state.old.context.scope
        (Construct.needs_of_construction construction.now)) }
    requires after { let after = after_make construction.now names.now state.old
        in IsTrue (are_limited_facts after.context.scope after.context.facts) }
    ensures ok { IfOk result (λ d. (before : List StatementView) (certs : List Certificate)
        → IsLicensedStep before (Make construction.now names.now certs) state.old d state.new) }
    ensures err { IfErr result (λ h. (before : List StatementView) (certs : List Certificate)
        → IsStopOfStep before (Make construction.now names.now certs) state.old h) }
    ensures kept { IfErr result (UnlessNoMemory (state.new ≡ state.old)) }
{
    let copied = Vec::from_slice(alloc, names)?;
    let derived = copy_construction(alloc, construction)?;
    let needs = construction.needs(alloc)?;
    let certs = licences(alloc, &mut state.context, &needs)?;
    mem::drop(needs);
    match state.make(alloc, construction, names) {
        Ok(()) => Ok(Step::Make {
            construction: derived,
            names: Items::new(copied),
            certs: Items::new(certs),
        }),
        Err(_) => {
            mem::drop(certs);
            Err(StopReason::NoMemory)
        }
    }
}

/// A superposition before its block: each literal that it needs is allowed. The copied points come
/// into scope, and what it gives are facts.
pub fn license_superpose(
    alloc: Global,
    superposition: &Superpose,
    names: &[Name],
    state: &mut StateBefore,
) -> Result<Vec<Cert>, StopReason>
    requires room { HasRoomForMore state.old.context.scope }
    requires needs { IsTrue (are_well_formed_in state.old.context.scope
        (Superposing.needs_of_superposition superposition.now)) }
    requires after { let after = after_superposed superposition.now names.now state.old
        in IsTrue (are_limited_facts after.context.scope after.context.facts) }
    ensures certs { IfOk result (λ cs. IsTrue (certify_all state.old.context.scope
        state.old.context.facts (Superposing.needs_of_superposition superposition.now) cs.items)) }
    ensures version { IfOk result (λ cs. IsTrue (list_all (is_cert_of version.One) cs.items)) }
    ensures after { OnOk result
        (state.new ≡ after_superposed superposition.now names.now state.old) }
    ensures err { IfErr result
        (StepStopsAmong state.old.context (Superposing.needs_of_superposition superposition.now)) }
    ensures kept { IfErr result (UnlessNoMemory (state.new ≡ state.old)) }
{
    let needs = superposition.needs(alloc)?;
    let certs = licences(alloc, &mut state.context, &needs)?;
    mem::drop(needs);
    match state.superpose(alloc, superposition, names) {
        Ok(()) => Ok(certs),
        Err(_) => {
            mem::drop(certs);
            Err(StopReason::NoMemory)
        }
    }
}
