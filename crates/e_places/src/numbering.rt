//! Derivations with the places of the facts that their certificates cite, in place of the literals.

ghost use Rattle.std.specs.Prelude.{◌≡◌, ◌<◌, ◌^◌, List, length, IfOk, OnOk, IsTrue};
ghost use Rattle.std.specs.List.{list_all};
ghost use Rattle.std.specs.Option.{option_map};
ghost use Rattle.e_literal.specs.Facts.{with_fact};
ghost use Rattle.e_literal.specs.Use.{StatementView};
ghost use Rattle.e_construct.specs.Superposing as superposing;
ghost use Rattle.e_theorem.specs.Statements.{as_view, as_views};
ghost use Rattle.e_clause.specs.declared.cert.Version.TheVariants as version;
ghost use Rattle.e_deriv.specs.Certified.{Certified};
ghost use Rattle.e_deriv.specs.Fitting.{is_small, is_small_statement};
ghost use Rattle.e_deriv.specs.declared.block.Close.TheVariants.{
  Contradiction as ContradictionClose,
};
ghost use Rattle.e_deriv.specs.declared.block.Step.TheVariants.{Apply as ApplyStep};
ghost use Rattle.e_deriv.specs.Script.{Cite, Hence, Make, Apply, Claim, Superposed, Qed};
ghost use Rattle.e_deriv.specs.Script.{script_of, step_script, close_script, bare_script};
ghost use Rattle.e_deriv.specs.Versions.{has_certs_of};
ghost use Rattle.e_places.specs.Numbered;
ghost use Rattle.e_places.specs.Numbered.{derivation_with_places};
ghost use Rattle.e_verify.specs.Verdicts.{IsVerifiable};
ghost use Rattle.e_verify.specs.Checking.{KeepsFirstFacts};
ghost use Rattle.e_places.specs.inner.Numbering.{HaveFew, IsReady, AreReady, IsApplied};
ghost use Rattle.e_places.specs.inner.Numbering.{IsNumberedStep, places_at};
ghost use Rattle.e_verify.specs.StepStates.{state_after_make, state_after_use};
ghost use Rattle.e_verify.specs.StepStates.{state_with_facts};
ghost use Rattle.e_deriv.specs.Goal.{goal_view, are_for};
ghost use Rattle.e_verify.specs.StepStates.{state_after_superposed};

use crate::ending::{Head, end_claim, end_superposition};
use crate::places::{placed_against, placed_cert, placed_certs};
use e_clause::{Against, By, Cert};
use e_construct::{Construction, Superpose};
use e_deriv::{
    Block, Close, Goal, Step, cases_close, copy_by, copy_construction, goal_with, written_args,
};
use e_literal::{Items, Lit, NOTHING, Obj, Scope, copy, next_objects, with_sorts};
use e_text::Name;
use e_theorem::{Applied, Statement, UseFault, use_of};
use e_verify::{Facts, StepState, state_at_start};
use std::alloc::{AllocError, Global};
use std::mem;

/// The first number that is no place.
const PLACES: usize = 1 << 32;

/// The derivation where each certificate cites a fact by its place among the facts before its step,
/// and none by a literal. It has the same steps, and what is certified stays so. One that has
/// places already is itself.
///
/// It fails only out of memory.
pub fn numbered(
    alloc: Global,
    before: &[Statement],
    statement: &Statement,
    deriv: &Block,
) -> Result<Block, AllocError>
    requires verifiable { IsVerifiable (as_views before.now) (as_view statement.now)
        (script_of deriv.now) }
    requires certified { Certified (as_views before.now) (as_view statement.now)
        (script_of deriv.now) }
    ensures numbered { IfOk result (λ d. script_of d ≡ derivation_with_places
        (as_views before.now) (as_view statement.now) (script_of deriv.now)) }
    ensures script { IfOk result
        (λ d. bare_script (script_of d) ≡ bare_script (script_of deriv.now)) }
    ensures certified { IfOk result
        (λ d. Certified (as_views before.now) (as_view statement.now) (script_of d)) }
    ensures version { IfOk result (λ d. IsTrue (has_certs_of version.Two (script_of d))) }
{
    let scope = with_sorts(NOTHING, statement.declared.items());
    let made = next_objects(alloc, scope, statement.made.items())?;
    let mut state = state_at_start(alloc, scope, statement)?;
    let goal = Goal {
        made: &made,
        shown: statement.shown.items(),
    };
    number_block(alloc, before, deriv, &goal, &mut state)
}

/// The block with places, where this holds before it.
#[cycle(number)]
fn number_block(
    alloc: Global,
    before: &[Statement],
    block: &Block,
    goal: &Goal,
    state: &mut StepState,
) -> Result<Block, AllocError>
    requires ready { IsReady (as_views before.now) (script_of block.now) state.old
        (goal_view goal.now) }
    requires statements { IsTrue (list_all is_small_statement (as_views before.now)) }
    ensures same { IfOk result (λ b. script_of b
        ≡ places_at (as_views before.now) (script_of block.now) state.old (goal_view goal.now)) }
    ensures few { OnOk result
        (HaveFew (as_views before.now) (script_of block.now) state.old (goal_view goal.now)) }
    ensures kept { OnOk result (KeepsFirstFacts state.old state.new) }
{
    let mut steps = Vec::new(alloc);
    for step in &block.steps {
        match number_step(alloc, before, step, state) {
            Ok(numbered) => steps.push(numbered)?,
            Err(_) => {
                mem::drop(steps);
                return Err(AllocError);
            }
        }
    }
    match number_close(alloc, before, &block.close, goal, state) {
        Ok(close) => Ok(Block { steps, close }),
        Err(_) => {
            mem::drop(steps);
            Err(AllocError)
        }
    }
}

/// The step with places, and the block inside it.
#[cycle(number)]
fn number_step(
    alloc: Global,
    before: &[Statement],
    step: &Step,
    state: &mut StepState,
) -> Result<Step, AllocError>
    requires ready { AreReady (as_views before.now) (step_script step.now) state.old }
    requires statements { IsTrue (list_all is_small_statement (as_views before.now)) }
    ensures step { IfOk result (λ s. IsNumberedStep (as_views before.now) (step_script step.now)
        state.old (step_script s) state.new) }
    ensures few { OnOk result (length state.old.facts < 2 ^ 32) }
{
    if state.facts.len() >= PLACES {
        return Err(AllocError);
    }
    match step {
        Step::Cite(by) => cite(alloc, by, state),
        Step::Hence { lit, cert } => hence(alloc, lit, cert, state),
        Step::Make {
            construction,
            names,
            certs,
        } => make(alloc, construction, names.items(), certs.items(), state),
        Step::Apply {
            theorem,
            args,
            names,
            certs,
        } => {
            let application = Application {
                theorem: *theorem,
                args: args.items(),
                names: names.items(),
                certs: certs.items(),
            };
            apply(alloc, before, &application, state)
        }
        Step::Claim { shown, inner } => number_claim(alloc, before, shown.items(), inner, state),
        Step::Superposed {
            superposition,
            names,
            shown,
            certs,
            inner,
        } => {
            let parts = SuperposedParts {
                superposition,
                names: names.items(),
                shown: shown.items(),
                certs: certs.items(),
            };
            number_superposed(alloc, before, &parts, inner, state)
        }
    }
}

/// A claim with its block, with places.
#[cycle(number)]
fn number_claim(
    alloc: Global,
    before: &[Statement],
    shown: &[Lit],
    inner: &Block,
    state: &mut StepState,
) -> Result<Step, AllocError>
    requires ready { AreReady (as_views before.now) (Claim shown.now (script_of inner.now))
        state.old }
    requires statements { IsTrue (list_all is_small_statement (as_views before.now)) }
    ensures { IfOk result (λ s. IsNumberedStep (as_views before.now)
        (Claim shown.now (script_of inner.now)) state.old (step_script s) state.new) }
{
    let outer = state.checkpoint();
    let goal = Goal { made: &[], shown };
    match number_block(alloc, before, inner, &goal, state) {
        Ok(numbered) => end_claim(alloc, shown, numbered, outer, state),
        Err(_) => Err(AllocError),
    }
}

/// A superposition without its block.
#[derive(Clone, Copy)]
struct SuperposedParts<'a> {
    superposition: &'a Superpose,
    names: &'a [Name],
    shown: &'a [Lit],
    certs: &'a [Cert],
}

/// A superposition with its block, with places.
#[cycle(number)]
fn number_superposed(
    alloc: Global,
    before: &[Statement],
    parts: &SuperposedParts,
    inner: &Block,
    state: &mut StepState,
) -> Result<Step, AllocError>
    requires ready { AreReady (as_views before.now) (Superposed parts.now.superposition.now
        parts.now.names.now parts.now.shown.now parts.now.certs.now (script_of inner.now))
        state.old }
    requires few { length state.old.facts < 2 ^ 32 }
    requires statements { IsTrue (list_all is_small_statement (as_views before.now)) }
    ensures { IfOk result (λ s. IsNumberedStep
        (as_views before.now) (Superposed parts.now.superposition.now parts.now.names.now
        parts.now.shown.now parts.now.certs.now (script_of inner.now)) state.old
        (step_script s) state.new) }
{
    let SuperposedParts {
        superposition,
        names,
        shown,
        certs,
    } = *parts;
    let outer = state.checkpoint();
    let certs = match superpose(alloc, superposition, certs, state) {
        Ok(certs) => certs,
        Err(_) => return Err(AllocError),
    };
    let goal = Goal { made: &[], shown };
    match number_block(alloc, before, inner, &goal, state) {
        Ok(numbered) => {
            let head = Head {
                superposition,
                names,
                certs,
            };
            end_superposition(alloc, head, shown, numbered, outer, state)
        }
        Err(_) => {
            mem::drop(certs);
            Err(AllocError)
        }
    }
}

/// The close with places, and the blocks that a split has inside.
#[cycle(number)]
fn number_close(
    alloc: Global,
    before: &[Statement],
    close: &Close,
    goal: &Goal,
    state: &mut StepState,
) -> Result<Close, AllocError>
    requires ready { IsReady (as_views before.now) (close_script close.now) state.old
        (goal_view goal.now) }
    requires statements { IsTrue (list_all is_small_statement (as_views before.now)) }
    ensures same { IfOk result (λ c. close_script c ≡ places_at (as_views before.now)
        (close_script close.now) state.old (goal_view goal.now)) }
    ensures few { OnOk result
        (HaveFew (as_views before.now) (close_script close.now) state.old (goal_view goal.now)) }
    ensures kept { OnOk result (KeepsFirstFacts state.old state.new) }
{
    if state.facts.len() >= PLACES {
        return Err(AllocError);
    }
    match close {
        Close::Qed { objects, certs } => {
            number_qed(alloc, objects.items(), certs.items(), goal, state)
        }
        Close::Contradiction { against } => number_contradiction(alloc, against, &state.facts),
        Close::Cases { lit, first, second } => {
            let outer = state.checkpoint();
            state.assume(alloc, lit)?;
            let one = match number_block(alloc, before, first, goal, state) {
                Ok(one) => one,
                Err(_) => return Err(AllocError),
            };
            state.restore(outer);
            match state.assume_not(alloc, lit) {
                Ok(()) => {}
                Err(_) => {
                    mem::drop(one);
                    return Err(AllocError);
                }
            }
            match number_block(alloc, before, second, goal, state) {
                Ok(other) => cases_close(alloc, lit, one, other),
                Err(_) => {
                    mem::drop(one);
                    Err(AllocError)
                }
            }
        }
    }
}

#[tactic(auto, using(crate::proofs::placing::NumberedSteps::placing))]
fn cite(alloc: Global, by: &By, state: &mut StepState) -> Result<Step, AllocError>
    ensures { IfOk result (λ s. (before : List StatementView)
        → IsNumberedStep before (Cite by.now) state.old (step_script s) state.new) }
{
    state.assume(alloc, &by.lit)?;
    let by = copy_by(alloc, by)?;
    Ok(Step::Cite(by))
}

#[tactic(auto, using(crate::proofs::placing::NumberedSteps::placing))]
fn hence(
    alloc: Global,
    lit: &Lit,
    cert: &Option<Cert>,
    state: &mut StepState,
) -> Result<Step, AllocError>
    requires { length state.old.facts < 2 ^ 32 }
    ensures { IfOk result (λ s. (before : List StatementView)
        → IsNumberedStep before (Hence lit.now cert.now) state.old (step_script s) state.new) }
{
    let cert = placed_option(alloc, &state.facts, lit, cert)?;
    match add_fact(alloc, lit, state) {
        Ok(lit) => Ok(Step::Hence { lit, cert }),
        Err(error) => {
            mem::drop(cert);
            Err(error)
        }
    }
}

/// The literal is a fact; hands out an equal one.
fn add_fact(alloc: Global, lit: &Lit, state: &mut StepState) -> Result<Lit, AllocError>
    ensures lit { IfOk result (λ l. l ≡ lit.now) }
    ensures after { OnOk result
        (state.new ≡ state_with_facts (with_fact state.old.facts lit.now) state.old) }
{
    state.assume(alloc, lit)?;
    copy(alloc, lit)
}

/// The certificate of a hence, where it has one.
fn placed_option(
    alloc: Global,
    facts: &Facts,
    lit: &Lit,
    cert: &Option<Cert>,
) -> Result<Option<Cert>, AllocError>
    requires { length facts.now < 2 ^ 32 }
    ensures { IfOk result
        (λ c. c ≡ option_map (Numbered.cert_with_places facts.now lit.now) cert.now) }
{
    match cert {
        Some(cert) => Ok(Some(placed_cert(alloc, facts, lit, cert)?)),
        None => Ok(None),
    }
}

#[tactic(auto, using(crate::proofs::placing::NumberedSteps::placing))]
fn make(
    alloc: Global,
    construction: &Construction,
    names: &[Name],
    certs: &[Cert],
    state: &mut StepState,
) -> Result<Step, AllocError>
    requires few { length state.old.facts < 2 ^ 32 }
    requires scope { IsTrue (is_small state.old.scope) }
    ensures { IfOk result (λ s. (before : List StatementView) → IsNumberedStep before
        (Make construction.now names.now certs.now) state.old (step_script s) state.new) }
{
    let names = Items::new(Vec::from_slice(alloc, names)?);
    let needs = construction.needs(alloc)?;
    let placed = placed_certs(alloc, &state.facts, &needs, certs);
    mem::drop(needs);
    let certs = placed?;
    match add_construction(alloc, construction, state) {
        Ok(construction) => Ok(Step::Make {
            construction,
            names,
            certs,
        }),
        Err(error) => {
            mem::drop(certs);
            Err(error)
        }
    }
}

/// What the construction makes is in scope, and what it gives are facts; hands out an equal one.
fn add_construction(
    alloc: Global,
    construction: &Construction,
    state: &mut StepState,
) -> Result<Construction, AllocError>
    requires { IsTrue (is_small state.old.scope) }
    ensures construction { IfOk result (λ f. f ≡ construction.now) }
    ensures after { OnOk result (state.new ≡ state_after_make construction.now state.old) }
{
    state.make(alloc, construction)?;
    copy_construction(alloc, construction)
}

/// An application, as it is written.
#[derive(Clone, Copy)]
struct Application<'a> {
    theorem: u32,
    args: &'a [Option<Obj>],
    names: &'a [Name],
    certs: &'a [Cert],
}

#[tactic(auto, using(crate::proofs::placing::NumberedSteps::placing))]
fn apply(
    alloc: Global,
    before: &[Statement],
    application: &Application,
    state: &mut StepState,
) -> Result<Step, AllocError>
    requires few { length state.old.facts < 2 ^ 32 }
    requires scope { IsTrue (is_small state.old.scope) }
    requires statements { IsTrue (list_all is_small_statement (as_views before.now)) }
    requires applied { IsApplied (as_views before.now) application.now.theorem
        application.now.args.now state.old }
    ensures { IfOk result (λ s. IsNumberedStep (as_views before.now)
        (Apply application.now.theorem application.now.args.now application.now.names.now
        application.now.certs.now) state.old (step_script s) state.new) }
{
    let scope = state.scope;
    let Some(statement) = before.get(application.theorem as usize) else {
        unreachable!();
    };
    let Some(objects) = written_args(alloc, application.args)? else {
        unreachable!();
    };
    let applied = match use_of(alloc, statement, &objects, scope) {
        Ok(applied) => applied,
        Err(UseFault::BadArgs) => unreachable!(),
        Err(UseFault::NoMemory) => return Err(AllocError),
    };
    let step = take_use(alloc, application, statement, &applied, state);
    mem::drop(applied);
    step
}

/// The application as a step, by what it needs and gives; then its made objects are in scope, and
/// what it gives are facts.
fn take_use(
    alloc: Global,
    application: &Application,
    statement: &Statement,
    applied: &Applied,
    state: &mut StepState,
) -> Result<Step, AllocError>
    requires statement { IsTrue (is_small_statement (as_view statement.now)) }
    requires scope { IsTrue (is_small state.old.scope) }
    requires few { length state.old.facts < 2 ^ 32 }
    ensures step { IfOk result (λ s. s ≡ ApplyStep application.now.theorem application.now.args.now
        application.now.names.now (Numbered.certs_with_places state.old.facts applied.now.needs
        application.now.certs.now)) }
    ensures after { OnOk result
        (state.new ≡ state_after_use (as_view statement.now) applied.now.gives state.old) }
{
    let args = Items::new(Vec::from_slice(alloc, application.args)?);
    let names = Items::new(Vec::from_slice(alloc, application.names)?);
    let certs = placed_certs(
        alloc,
        &state.facts,
        applied.needs.items(),
        application.certs,
    )?;
    match state.take_use(alloc, statement, applied.gives.items()) {
        Ok(()) => Ok(Step::Apply {
            theorem: application.theorem,
            args,
            names,
            certs,
        }),
        Err(error) => {
            mem::drop(certs);
            Err(error)
        }
    }
}

/// The certificates of a superposition; then the copied points are in scope, and what it gives are
/// facts.
fn superpose(
    alloc: Global,
    superposition: &Superpose,
    certs: &[Cert],
    state: &mut StepState,
) -> Result<Items<Cert>, AllocError>
    requires few { length state.old.facts < 2 ^ 32 }
    requires scope { IsTrue (is_small state.old.scope) }
    ensures certs { IfOk result (λ cs. cs ≡ Numbered.certs_with_places state.old.facts
        (superposing.needs_of_superposition superposition.now) certs.now) }
    ensures after { OnOk result (state.new ≡ state_after_superposed superposition.now state.old) }
{
    let needs = superposition.needs(alloc)?;
    let placed = placed_certs(alloc, &state.facts, &needs, certs);
    mem::drop(needs);
    let certs = placed?;
    match state.superpose(alloc, superposition) {
        Ok(()) => Ok(certs),
        Err(error) => {
            mem::drop(certs);
            Err(error)
        }
    }
}

#[tactic(auto, using(crate::proofs::placing::NumberedSteps::placing))]
fn number_qed(
    alloc: Global,
    objects: &[Obj],
    certs: &[Cert],
    goal: &Goal,
    state: &StepState,
) -> Result<Close, AllocError>
    requires few { length state.now.facts < 2 ^ 32 }
    requires objects { IsTrue (are_for (goal_view goal.now) state.now.scope objects.now) }
    ensures { IfOk result (λ c. (before : List StatementView) → close_script c
        ≡ places_at before (Qed objects.now certs.now) state.now (goal_view goal.now)) }
{
    let copied = Items::new(Vec::from_slice(alloc, objects)?);
    let wanted = goal_with(alloc, goal, objects)?;
    let certs = placed_certs(alloc, &state.facts, &wanted, certs)?;
    Ok(Close::Qed {
        objects: copied,
        certs,
    })
}

fn number_contradiction(
    alloc: Global,
    against: &Option<Against>,
    facts: &Facts,
) -> Result<Close, AllocError>
    requires { length facts.now < 2 ^ 32 }
    ensures { IfOk result (λ c. c
        ≡ ContradictionClose (option_map (Numbered.against_with_places facts.now) against.now)) }
{
    let against = match against {
        Some(against) => Some(placed_against(alloc, facts, against)?),
        None => None,
    };
    Ok(Close::Contradiction { against })
}
