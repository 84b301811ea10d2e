//! What a step makes, and what it wants, blocks inside of it left aside.

ghost use Rattle.std.specs.Prelude.{◌≡◌, ℕ, [], ◌∷◌, map, IfOk, OnOk, IsTrue, List};
ghost use Rattle.std.specs.List.{list_all, list_any};
ghost use Rattle.e_literal.specs.Use.{StatementView, needs_of_use, gives_of_use};
ghost use Rattle.e_construct.specs.Superposing;
ghost use Rattle.e_theorem.specs.Statements.{as_views};
ghost use Rattle.e_deriv.specs.Fitting.{is_small, is_small_statement};
ghost use Rattle.e_deriv.specs.Goal as goals;
ghost use Rattle.e_deriv.specs.Goal.{Goal as BlockGoal, goal_view};
ghost use Rattle.e_deriv.specs.PlacedSteps.{theorem_at};
ghost use Rattle.e_deriv.specs.Parts.{args_written};
ghost use Rattle.e_deriv.specs.Script as scripts;
ghost use Rattle.e_deriv.specs.Script.{Script, step_script, close_script};
ghost use Rattle.e_trim.specs.Looked.{both, wanted_objects, of_step};
ghost use Rattle.e_trim.specs.Trimmed;
ghost use Rattle.e_trim.specs.Trimmed.{joins_at, makes_at, as_step};
ghost use Rattle.e_trim.specs.declared.step_state.StepState as states;
ghost use Rattle.e_trim.specs.inner.StepState.{StepFits, IsApplied, CloseFits, state_after};

use crate::instances::negated_others;
use crate::looked::{look_against, look_cert, look_certs};
use crate::step_state::StepState;
use crate::wanted::{Wanted, line, point};
use e_clause::{By, Cert};
use e_construct::{Construction, Superpose};
use e_deriv::{Close, Goal, Step, copy_lits, goal_with};
use e_literal::{Items, Lit, Obj, Scope, Sort, copy, next_objects};
use e_theorem::{Applied, Statement, UseFault, use_of};
use std::alloc::{AllocError, Global};
use std::mem;

/// The sorts of the objects that the step makes and that live on.
#[tactic(auto, using(crate::proofs::kept_scripts::StepParts::by_step))]
pub fn makes<'a>(before: &'a [Statement], step: &'a Step) -> &'a [Sort]
    ensures { (rest : Script)
        → result.now ≡ makes_at (as_views before.now) (step_script step.now rest) }
{
    match step {
        Step::Make { construction, .. } => construction.made(),
        Step::Apply { theorem, .. } => match before.get(*theorem as usize) {
            Some(statement) => statement.made.items(),
            None => &[],
        },
        Step::Cite(_) | Step::Hence { .. } | Step::Claim { .. } | Step::Superposed { .. } => &[],
    }
}

/// The literal alone.
fn one(alloc: Global, lit: &Lit) -> Result<Items<Lit>, AllocError>
    ensures { IfOk result (λ ls. ls ≡ lit.now ∷ []) }
{
    let lit = copy(alloc, lit)?;
    Ok(Items::new(vec![in alloc; lit]?))
}

/// The arguments that are written.
pub fn written_of(alloc: Global, args: &[Option<Obj>]) -> Result<Vec<Obj>, AllocError>
    ensures { IfOk result (λ v. v.items ≡ args_written args.now) }
{
    let mut objects = Vec::new(alloc);
    for arg in args {
        if let Some(object) = arg {
            objects.push(*object)?;
        }
    }
    Ok(objects)
}

/// The use of an earlier theorem at the arguments that are written, which fit.
fn use_at(
    alloc: Global,
    before: &[Statement],
    theorem: u32,
    args: &[Option<Obj>],
    scope: Scope,
) -> Result<Applied, AllocError>
    requires small { IsTrue (is_small scope) }
    requires statements { IsTrue (list_all is_small_statement (as_views before.now)) }
    requires fits { IsApplied (as_views before.now) theorem args.now scope }
    ensures needs { IfOk result (λ a. a.needs
        ≡ needs_of_use (theorem_at (as_views before.now) theorem) (args_written args.now) scope) }
    ensures gives { IfOk result (λ a. a.gives
        ≡ gives_of_use (theorem_at (as_views before.now) theorem) (args_written args.now) scope) }
{
    let Some(statement) = before.get(theorem as usize) else {
        unreachable!();
    };
    let objects = written_of(alloc, args)?;
    match use_of(alloc, statement, &objects, scope) {
        Ok(applied) => Ok(applied),
        Err(UseFault::BadArgs) => unreachable!(),
        Err(UseFault::NoMemory) => Err(AllocError),
    }
}

/// The literals that the step makes facts.
#[tactic(auto, using(crate::proofs::kept_scripts::StepParts::by_step))]
pub fn joins(
    alloc: Global,
    before: &[Statement],
    step: &Step,
    scope: Scope,
) -> Result<Items<Lit>, AllocError>
    requires small { IsTrue (is_small scope) }
    requires statements { IsTrue (list_all is_small_statement (as_views before.now)) }
    requires fits { StepFits (as_views before.now) step.now scope }
    ensures { IfOk result (λ ls. (rest : Script)
        → ls ≡ joins_at (as_views before.now) (step_script step.now rest) scope) }
{
    match step {
        Step::Cite(by) => one(alloc, &by.lit),
        Step::Hence { lit, .. } => one(alloc, lit),
        Step::Make { construction, .. } => Ok(Items::new(construction.gives(alloc, scope)?)),
        Step::Apply { theorem, args, .. } => {
            let Applied { needs, gives } = use_at(alloc, before, *theorem, args.items(), scope)?;
            mem::drop(needs);
            Ok(gives)
        }
        Step::Claim { shown, .. } | Step::Superposed { shown, .. } => {
            copy_lits(alloc, shown.items())
        }
    }
}

/// After the step: its objects are in scope, and what it gives are facts.
pub fn pass(
    alloc: Global,
    before: &[Statement],
    step: &Step,
    state: &mut StepState,
) -> Result<(), AllocError>
    requires small { IsTrue (is_small state.old.scope) }
    requires statements { IsTrue (list_all is_small_statement (as_views before.now)) }
    requires fits { StepFits (as_views before.now) step.now state.old.scope }
    ensures { OnOk result ((rest : Script)
        → state.new ≡ state_after (as_views before.now) (step_script step.now rest) state.old) }
{
    let lits = joins(alloc, before, step, state.scope)?;
    let opened = state.extend(alloc, makes(before, step), lits.items());
    mem::drop(lits);
    opened
}

/// Whether one of the literals is no fact, and is looked up.
fn supplies(state: &StepState, wanted: &Wanted, lits: &[Lit]) -> bool
    ensures { result ≡ list_any (Trimmed.supplies state.now.facts wanted.now) lits.now }
{
    lits.iter()
        .any(|lit| !state.facts.has(lit) && wanted.has(lit))
}

/// Whether one of the objects is needed.
fn are_needed(wanted: &Wanted, objects: &[Obj]) -> bool
    ensures { result ≡ list_any (Trimmed.is_needed wanted.now) objects.now }
{
    objects.iter().any(|object| wanted.needs(*object))
}

/// Whether the step is kept, where this is wanted after it.
pub fn is_kept(
    alloc: Global,
    before: &[Statement],
    step: &Step,
    state: &StepState,
    wanted: &Wanted,
) -> Result<bool, AllocError>
    requires small { IsTrue (is_small state.now.scope) }
    requires statements { IsTrue (list_all is_small_statement (as_views before.now)) }
    requires fits { StepFits (as_views before.now) step.now state.now.scope }
    ensures { IfOk result (λ b. (rest : Script) → b ≡ Trimmed.is_kept (as_views before.now)
        (step_script step.now rest) state.now.scope state.now.facts wanted.now) }
{
    let objects = next_objects(alloc, state.scope, makes(before, step))?;
    if are_needed(wanted, &objects) {
        return Ok(true);
    }
    let lits = joins(alloc, before, step, state.scope)?;
    let supplied = supplies(state, wanted, lits.items());
    mem::drop(lits);
    Ok(supplied)
}

// ---- what a step wants

fn look_cite(alloc: Global, by: &By, out: &mut Wanted) -> Result<(), AllocError>
    ensures { OnOk result ((before : List StatementView) (rest : Script) (x : states.StepState)
        (goal : BlockGoal) → out.new
        ≡ both out.old (of_step before (as_step (scripts.Cite by.now rest) x.scope x.facts goal))) }
{
    out.need_all(by.args.items())?;
    out.need_objects_of(&by.lit)?;
    out.look_up_all(negated_others(alloc, by.rule, by.args.items(), &by.lit)?)
}

fn look_hence(
    alloc: Global,
    lit: &Lit,
    cert: &Option<Cert>,
    state: &StepState,
    out: &mut Wanted,
) -> Result<(), AllocError>
    ensures { OnOk result ((before : List StatementView) (rest : Script) (goal : BlockGoal)
        → out.new ≡ both out.old (of_step before
        (as_step (scripts.Hence lit.now cert.now rest) state.now.scope state.now.facts goal))) }
{
    out.need_objects_of(lit)?;
    match cert {
        Some(cert) => look_cert(alloc, &state.facts, lit, cert, out),
        None => Ok(()),
    }
}

fn look_make(
    alloc: Global,
    construction: &Construction,
    certs: &[Cert],
    state: &StepState,
    out: &mut Wanted,
) -> Result<(), AllocError>
    ensures { OnOk result ((before : List StatementView) (names : List (List ℕ)) (rest : Script)
        (goal : BlockGoal) → out.new ≡ both out.old (of_step before (as_step (scripts.Make
        construction.now names certs.now rest) state.now.scope state.now.facts goal))) }
{
    out.need_all(construction.args.items())?;
    out.need_all(construction.avoid.items())?;
    let needs = construction.needs(alloc)?;
    look_certs(alloc, &state.facts, &needs, certs, out)
}

fn look_apply(
    alloc: Global,
    before: &[Statement],
    theorem: u32,
    args: &[Option<Obj>],
    certs: &[Cert],
    state: &StepState,
    out: &mut Wanted,
) -> Result<(), AllocError>
    requires small { IsTrue (is_small state.now.scope) }
    requires statements { IsTrue (list_all is_small_statement (as_views before.now)) }
    requires fits { IsApplied (as_views before.now) theorem args.now state.now.scope }
    ensures { OnOk result ((names : List (List ℕ)) (rest : Script) (goal : BlockGoal)
        → out.new ≡ both out.old (of_step (as_views before.now) (as_step (scripts.Apply theorem
        args.now names certs.now rest) state.now.scope state.now.facts goal))) }
{
    let objects = written_of(alloc, args)?;
    out.need_all(&objects)?;
    let Applied { needs, gives } = use_at(alloc, before, theorem, args, state.scope)?;
    mem::drop(gives);
    let looked = look_certs(alloc, &state.facts, needs.items(), certs, out);
    mem::drop(needs);
    looked
}

fn look_superpose(
    alloc: Global,
    superposition: &Superpose,
    shown: &[Lit],
    certs: &[Cert],
    state: &StepState,
    out: &mut Wanted,
) -> Result<(), AllocError>
    ensures { OnOk result ((before : List StatementView) (names : List (List ℕ))
        (inner rest : Script) (goal : BlockGoal) → out.new ≡ both out.old (of_step before
        (as_step (scripts.Superposed superposition.now names shown.now certs.now inner rest)
        state.now.scope state.now.facts goal))) }
{
    need_superposed(superposition, out)?;
    out.need_objects_of_all(shown)?;
    let needs = superposition.needs(alloc)?;
    look_certs(alloc, &state.facts, &needs, certs, out)
}

/// The points and the lines of the superposition are needed.
fn need_superposed(superposition: &Superpose, out: &mut Wanted) -> Result<(), AllocError>
    ensures { OnOk result
        (out.new ≡ both out.old (wanted_objects (Superposing.objects_of superposition.now))) }
{
    let [a, b, c, d, g, h] = superposition.points;
    let [k, l] = superposition.lines;
    out.need_all(&[
        point(a),
        point(b),
        point(c),
        point(d),
        point(g),
        point(h),
        line(k),
        line(l),
    ])
}

/// What a step wants, the block inside of it left aside.
pub fn look_step(
    alloc: Global,
    before: &[Statement],
    step: &Step,
    state: &StepState,
    out: &mut Wanted,
) -> Result<(), AllocError>
    requires small { IsTrue (is_small state.now.scope) }
    requires statements { IsTrue (list_all is_small_statement (as_views before.now)) }
    requires fits { StepFits (as_views before.now) step.now state.now.scope }
    ensures { OnOk result ((rest : Script) (goal : BlockGoal)
        → out.new ≡ both out.old (of_step (as_views before.now)
        (as_step (step_script step.now rest) state.now.scope state.now.facts goal))) }
{
    match step {
        Step::Cite(by) => look_cite(alloc, by, out),
        Step::Hence { lit, cert } => look_hence(alloc, lit, cert, state, out),
        Step::Make {
            construction,
            certs,
            ..
        } => look_make(alloc, construction, certs.items(), state, out),
        Step::Apply {
            theorem,
            args,
            certs,
            ..
        } => {
            let args = args.items();
            look_apply(alloc, before, *theorem, args, certs.items(), state, out)
        }
        Step::Claim { shown, .. } => out.need_objects_of_all(shown.items()),
        Step::Superposed {
            superposition,
            shown,
            certs,
            ..
        } => look_superpose(
            alloc,
            superposition,
            shown.items(),
            certs.items(),
            state,
            out,
        ),
    }
}

// ---- what a close wants

fn look_qed(
    alloc: Global,
    objects: &[Obj],
    certs: &[Cert],
    goal: &Goal,
    state: &StepState,
    out: &mut Wanted,
) -> Result<(), AllocError>
    requires one_sort { map (λ o. o.sort) goal.now.made.now ≡ map (λ o. o.sort) objects.now }
    ensures { OnOk result ((before : List StatementView)
        → out.new ≡ both out.old (of_step before (as_step (scripts.Qed objects.now certs.now)
        state.now.scope state.now.facts (goal_view goal.now)))) }
{
    out.need_all(objects)?;
    let lits = goal_with(alloc, goal, objects)?;
    look_certs(alloc, &state.facts, &lits, certs, out)
}

/// What a close wants, the blocks inside of it left aside.
pub fn look_close(
    alloc: Global,
    close: &Close,
    goal: &Goal,
    state: &StepState,
    out: &mut Wanted,
) -> Result<(), AllocError>
    requires fits { CloseFits close.now state.now.scope (goal_view goal.now) }
    ensures { OnOk result ((before : List StatementView) → out.new ≡ both out.old (of_step before
        (as_step (close_script close.now) state.now.scope state.now.facts (goal_view goal.now)))) }
{
    match close {
        Close::Qed { objects, certs } => {
            let objects = objects.items();
            look_qed(alloc, objects, certs.items(), goal, state, out)
        }
        Close::Contradiction { against } => match against {
            Some(against) => look_against(alloc, &state.facts, against, out),
            None => Ok(()),
        },
        Close::Cases { lit, .. } => out.need_objects_of(lit),
    }
}
