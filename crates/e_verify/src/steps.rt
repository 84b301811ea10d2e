//! Steps without a block inside: whether one is certified, and what holds after it.

ghost use Rattle.std.specs.Prelude.{◌≡◌, ◌&&◌, ℕ, List, IfOk, IsTrue, true};
ghost use Rattle.std.specs.List.{list_all};
ghost use Rattle.std.specs.Option.{option_map_or};
ghost use Rattle.e_literal.specs.Literal.{all_in_scope};
ghost use Rattle.e_literal.specs.Use.{StatementView};
ghost use Rattle.e_literal.specs.WellFormed.{is_well_formed};
ghost use Rattle.e_clause.specs.Certify;
ghost use Rattle.e_theorem.specs.Statements.{as_view, as_views};
ghost use Rattle.e_deriv.specs.Fitting.{is_small, is_small_statement};
ghost use Rattle.e_deriv.specs.Certified.{is_certified};
ghost use Rattle.e_deriv.specs.Goal.{Goal};
ghost use Rattle.e_deriv.specs.Script.{Script, Cite, Hence, Make, Apply, Superposed};
ghost use Rattle.e_deriv.specs.Steps;
ghost use Rattle.e_deriv.specs.Steps.{is_citation};
ghost use Rattle.e_verify.specs.Checking.{IsChecked, step_in_state};
ghost use Rattle.e_verify.specs.StepStates.{state_after_superposed, state_after_use};
ghost use Rattle.e_clause.specs.Written.{is_writable_cert};

use crate::certificate::{certifies, certify_all};
use crate::facts::Facts;
use crate::instances::{is_among, negated_others};
use crate::scope::{are_over, objects_in};
use crate::step_state::StepState;
use e_clause::{By, Cert, instance_of};
use e_construct::{Construction, Superpose};
use e_deriv::written_args;
use e_literal::{Lit, Obj, Scope, in_scope};
use e_theorem::{Applied, Statement, UseFault, use_of};
use std::alloc::{AllocError, Global};
use std::mem;

/// Checks a citation: where it is certified, its literal becomes a fact, and the answer is true.
pub fn check_cite(alloc: Global, by: &By, state: &mut StepState) -> Result<bool, AllocError>
    requires { IsTrue (is_well_formed by.now.lit) }
    ensures { IfOk result (λ b. (before : List StatementView)
        → IsChecked before (Cite by.now) state.old state.new b) }
{
    if !is_valid_citation(alloc, state.scope, &state.facts, by)? {
        return Ok(false);
    }
    state.assume(alloc, &by.lit)?;
    Ok(true)
}

/// Whether the citation is one, over objects in scope, and its instance gives the literal.
fn is_valid_citation(
    alloc: Global,
    scope: Scope,
    facts: &Facts,
    by: &By,
) -> Result<bool, AllocError>
    ensures { IfOk result (λ b. b ≡ (is_citation scope by.now && Steps.is_cited facts.now by.now)) }
{
    if by.rule.is_transfer() || !objects_in(scope, by.args.items()) || !in_scope(&by.lit, scope) {
        return Ok(false);
    }
    let Some(lits) = instance_of(alloc, by.rule, by.args.items())? else {
        return Ok(false);
    };
    if !is_among(&lits, &by.lit) {
        return Ok(false);
    }
    let needs = negated_others(alloc, lits, &by.lit)?;
    Ok(facts.have_all(&needs))
}

/// Checks a hence: where it is certified, its literal becomes a fact, and the answer is true.
pub fn check_hence(
    alloc: Global,
    lit: &Lit,
    cert: &Option<Cert>,
    state: &mut StepState,
) -> Result<bool, AllocError>
    requires facts { IsTrue (list_all is_well_formed state.old.facts) }
    requires lit { IsTrue (is_well_formed lit.now) }
    requires cert { IsTrue (option_map_or is_writable_cert cert.now true) }
    ensures { IfOk result (λ b. (before : List StatementView)
        → IsChecked before (Hence lit.now cert.now) state.old state.new b) }
{
    let Some(cert) = cert else {
        return Ok(false);
    };
    if !in_scope(lit, state.scope) {
        return Ok(false);
    }
    if !certifies(alloc, state.scope, &state.facts, lit, cert)? {
        return Ok(false);
    }
    state.assume(alloc, lit)?;
    Ok(true)
}

/// Checks a construction: where it is certified, its objects come into scope, what it gives become
/// facts, and the answer is true.
pub fn check_make(
    alloc: Global,
    construction: &Construction,
    certs: &[Cert],
    state: &mut StepState,
) -> Result<bool, AllocError>
    requires facts { IsTrue (list_all is_well_formed state.old.facts) }
    requires scope { IsTrue (is_small state.old.scope) }
    requires certs { IsTrue (list_all is_writable_cert certs.now) }
    ensures { IfOk result (λ b. (before : List StatementView) (names : List (List ℕ))
        → IsChecked before (Make construction.now names certs.now) state.old state.new b) }
{
    let scope = state.scope;
    if !construction.fits(scope) {
        return Ok(false);
    }
    let needs = construction.needs(alloc)?;
    let certified = certify_all(alloc, scope, &state.facts, &needs, certs);
    mem::drop(needs);
    if !certified? {
        return Ok(false);
    }
    state.make(alloc, construction)?;
    Ok(true)
}

/// Checks an application: where it is certified, the made objects come into scope, what the theorem
/// shows become facts, and the answer is true.
pub fn check_apply(
    alloc: Global,
    before: &[Statement],
    theorem: u32,
    args: &[Option<Obj>],
    certs: &[Cert],
    state: &mut StepState,
) -> Result<bool, AllocError>
    requires facts { IsTrue (list_all is_well_formed state.old.facts) }
    requires scope { IsTrue (is_small state.old.scope) }
    requires statements { IsTrue (list_all is_small_statement (as_views before.now)) }
    requires certs { IsTrue (list_all is_writable_cert certs.now) }
    ensures { IfOk result (λ b. (names : List (List ℕ)) → IsChecked (as_views before.now)
        (Apply theorem args.now names certs.now) state.old state.new b) }
{
    let Some(statement) = before.get(theorem as usize) else {
        return Ok(false);
    };
    let Some(objects) = written_args(alloc, args)? else {
        return Ok(false);
    };
    let scope = state.scope;
    let applied = match use_of(alloc, statement, &objects, scope) {
        Ok(applied) => applied,
        Err(UseFault::BadArgs) => return Ok(false),
        Err(UseFault::NoMemory) => return Err(AllocError),
    };
    let certified = check_use(alloc, statement, &applied, certs, state);
    mem::drop(applied);
    certified
}

/// Checks what a use of a statement needs: where it is certified, the made objects come into scope,
/// what it gives become facts, and the answer is true.
fn check_use(
    alloc: Global,
    statement: &Statement,
    applied: &Applied,
    certs: &[Cert],
    state: &mut StepState,
) -> Result<bool, AllocError>
    requires facts { IsTrue (list_all is_well_formed state.old.facts) }
    requires scope { IsTrue (is_small state.old.scope) }
    requires statement { IsTrue (is_small_statement (as_view statement.now)) }
    requires needs { IsTrue (list_all is_well_formed applied.now.needs) }
    requires certs { IsTrue (list_all is_writable_cert certs.now) }
    ensures test { IfOk result (λ b. b ≡ Certify.certify_all state.old.scope state.old.facts
        applied.now.needs certs.now) }
    ensures after { IfOk result (λ b. IsTrue b → state.new
        ≡ state_after_use (as_view statement.now) applied.now.gives state.old) }
{
    let scope = state.scope;
    if !certify_all(alloc, scope, &state.facts, applied.needs.items(), certs)? {
        return Ok(false);
    }
    state.take_use(alloc, statement, applied.gives.items())?;
    Ok(true)
}

/// Checks a superposition without its block: where it is certified, the copied points come into
/// scope, what it gives become facts, and the answer is true.
pub fn check_superpose(
    alloc: Global,
    superposition: &Superpose,
    shown: &[Lit],
    certs: &[Cert],
    state: &mut StepState,
) -> Result<bool, AllocError>
    requires facts { IsTrue (list_all is_well_formed state.old.facts) }
    requires scope { IsTrue (is_small state.old.scope) }
    requires certs { IsTrue (list_all is_writable_cert certs.now) }
    ensures test { IfOk result (λ b. (before : List StatementView) (names : List (List ℕ))
        (inner rest : Script) (goal : Goal) → b ≡ is_certified before (step_in_state
        (Superposed superposition.now names shown.now certs.now inner rest) state.old goal)) }
    ensures after { IfOk result (λ b. IsTrue b
        → state.new ≡ state_after_superposed superposition.now state.old) }
{
    let scope = state.scope;
    if !superposition.fits(scope) || !are_over(scope, shown) {
        return Ok(false);
    }
    let needs = superposition.needs(alloc)?;
    let certified = certify_all(alloc, scope, &state.facts, &needs, certs);
    mem::drop(needs);
    if !certified? {
        return Ok(false);
    }
    state.superpose(alloc, superposition)?;
    Ok(true)
}
