//! The trimmed block: the kept steps and the close, over the kept objects.

ghost use Rattle.std.specs.Prelude.{◌≡◌, ◌++◌, ◌<◌, ◌^◌, length, IfOk, IsTrue, List};
ghost use Rattle.std.specs.List.{list_all};
ghost use Rattle.std.specs.Option.{option_map};
ghost use Rattle.e_literal.specs.Scopes;
ghost use Rattle.e_theorem.specs.Statements.{as_views};
ghost use Rattle.e_deriv.specs.Fitting.{is_small, is_small_statement};
ghost use Rattle.e_deriv.specs.Script.{script_of, steps_script, step_script, close_script};
ghost use Rattle.e_trim.specs.Trimmed;
ghost use Rattle.e_trim.specs.inner.StepState.{FewKept};
ghost use Rattle.e_trim.specs.inner.Building.{AreSmall, IsSmallStep, TakesFlag, IsBuilt};
ghost use Rattle.e_trim.specs.inner.Building.{StepIsBuilt, CloseIsBuilt, BlockIsBuilt};

use crate::new_steps::{new_apply, new_claim, new_hence, new_make, new_split, new_superposition};
use crate::numbering::{new_against, new_by, new_certs, new_objects};
use crate::steps::makes;
use e_clause::Against;
use e_deriv::{Block, Close, Step};
use e_literal::{Obj, Scope, Sort, next_objects, with_sorts};
use e_theorem::Statement;
use std::alloc::{AllocError, Global};
use std::mem;

/// The kept objects, and the next ones of the scope.
fn with_next(
    alloc: Global,
    kept: &[Obj],
    scope: Scope,
    sorts: &[Sort],
) -> Result<Vec<Obj>, AllocError>
    requires small { IsTrue (is_small scope) }
    requires few { length sorts.now < 2 ^ 15 }
    ensures { IfOk result (λ v. v.items ≡ kept.now ++ Scopes.next_objects scope sorts.now) }
{
    let mut more = Vec::from_slice(alloc, kept)?;
    let next = next_objects(alloc, scope, sorts)?;
    more.extend_from_slice(&next)?;
    Ok(more)
}

fn new_against_of(
    alloc: Global,
    kept: &[Obj],
    against: &Option<Against>,
) -> Result<Option<Against>, AllocError>
    requires { length kept.now < 2 ^ 16 }
    ensures { IfOk result (λ a. a ≡ option_map (Trimmed.against_at kept.now) against.now) }
{
    match against {
        Some(against) => Ok(Some(new_against(alloc, kept, against)?)),
        None => Ok(None),
    }
}

/// Whether the next step is kept: its flag is taken from the pile.
fn take_flag(flags: &mut Vec<bool>) -> bool
    ensures { TakesFlag flags.old.items flags.new.items result }
{
    match flags.pop() {
        Some(kept) => kept,
        None => false,
    }
}

/// Puts the kept ones of the steps after those that are there, and gives the close. The flags are
/// taken from the pile.
#[cycle(build)]
fn build(
    alloc: Global,
    before: &[Statement],
    steps: &[Step],
    close: &Close,
    scope: Scope,
    kept: &[Obj],
    flags: &mut Vec<bool>,
    out: &mut Vec<Step>,
) -> Result<Close, AllocError>
    requires scopes { AreSmall (as_views before.now)
        (steps_script steps.now (close_script close.now)) scope }
    requires statements { IsTrue (list_all is_small_statement (as_views before.now)) }
    requires few { FewKept scope kept.now }
    ensures { IfOk result (λ c. IsBuilt (as_views before.now) kept.now
        (steps_script steps.now (close_script close.now)) scope flags.old.items flags.new.items
        out.old.items out.new.items c) }
{
    match steps {
        [] => build_close(alloc, before, close, scope, kept, flags),
        [step, steps @ ..] => {
            let sorts = makes(before, step);
            let after = with_sorts(scope, sorts);
            if !take_flag(flags) {
                return build(alloc, before, steps, close, after, kept, flags, out);
            }
            let new = build_step(alloc, before, step, scope, kept, flags)?;
            out.push(new)?;
            let more = with_next(alloc, kept, scope, sorts)?;
            build(alloc, before, steps, close, after, &more, flags, out)
        }
    }
}

/// A kept step over the kept objects, with the block inside of it trimmed.
#[cycle(build)]
fn build_step(
    alloc: Global,
    before: &[Statement],
    step: &Step,
    scope: Scope,
    kept: &[Obj],
    flags: &mut Vec<bool>,
) -> Result<Step, AllocError>
    requires scopes { IsSmallStep (as_views before.now) step.now scope }
    requires statements { IsTrue (list_all is_small_statement (as_views before.now)) }
    requires few { FewKept scope kept.now }
    ensures { IfOk result (λ s. StepIsBuilt (as_views before.now) kept.now step.now scope
        flags.old.items flags.new.items s) }
{
    match step {
        Step::Cite(by) => Ok(Step::Cite(new_by(alloc, kept, by)?)),
        Step::Hence { lit, cert } => new_hence(alloc, kept, lit, cert),
        Step::Make {
            construction,
            names,
            certs,
        } => { new_make(alloc, kept, construction, names.items(), certs.items()) }
        Step::Apply {
            theorem,
            args,
            names,
            certs,
        } => new_apply(
            alloc,
            kept,
            *theorem,
            args.items(),
            names.items(),
            certs.items(),
        ),
        Step::Claim { shown, inner } => {
            let inner = build_block(alloc, before, inner, scope, kept, flags)?;
            new_claim(alloc, kept, shown.items(), inner)
        }
        Step::Superposed {
            superposition,
            names,
            shown,
            certs,
            inner,
        } => {
            let copies = superposition.made();
            let inside = with_next(alloc, kept, scope, copies)?;
            let inner = build_block(
                alloc,
                before,
                inner,
                with_sorts(scope, copies),
                &inside,
                flags,
            )?;
            new_superposition(
                alloc,
                kept,
                superposition,
                names.items(),
                shown.items(),
                certs.items(),
                inner,
            )
        }
    }
}

/// The close over the kept objects, with the blocks inside of it trimmed.
#[cycle(build)]
fn build_close(
    alloc: Global,
    before: &[Statement],
    close: &Close,
    scope: Scope,
    kept: &[Obj],
    flags: &mut Vec<bool>,
) -> Result<Close, AllocError>
    requires scopes { AreSmall (as_views before.now) (close_script close.now) scope }
    requires statements { IsTrue (list_all is_small_statement (as_views before.now)) }
    requires few { FewKept scope kept.now }
    ensures { IfOk result (λ c. CloseIsBuilt (as_views before.now) kept.now
        (close_script close.now) scope flags.old.items flags.new.items c) }
{
    match close {
        Close::Qed { objects, certs } => Ok(Close::Qed {
            objects: new_objects(alloc, kept, objects.items())?,
            certs: new_certs(alloc, kept, certs.items())?,
        }),
        Close::Contradiction { against } => Ok(Close::Contradiction {
            against: new_against_of(alloc, kept, against)?,
        }),
        Close::Cases { lit, first, second } => {
            let first = build_block(alloc, before, first, scope, kept, flags)?;
            match build_block(alloc, before, second, scope, kept, flags) {
                Ok(second) => new_split(alloc, kept, lit, first, second),
                Err(error) => {
                    mem::drop(first);
                    Err(error)
                }
            }
        }
    }
}

/// The trimmed block, where these objects are in scope before it, and these of them are kept.
#[cycle(build)]
pub fn build_block(
    alloc: Global,
    before: &[Statement],
    block: &Block,
    scope: Scope,
    kept: &[Obj],
    flags: &mut Vec<bool>,
) -> Result<Block, AllocError>
    requires scopes { AreSmall (as_views before.now) (script_of block.now) scope }
    requires statements { IsTrue (list_all is_small_statement (as_views before.now)) }
    requires few { FewKept scope kept.now }
    ensures { IfOk result (λ b. BlockIsBuilt (as_views before.now) kept.now
        (script_of block.now) scope flags.old.items flags.new.items b) }
{
    let mut steps = Vec::new(alloc);
    let built = build(
        alloc,
        before,
        &block.steps,
        &block.close,
        scope,
        kept,
        flags,
        &mut steps,
    );
    match built {
        Ok(close) => Ok(Block { steps, close }),
        Err(error) => {
            mem::drop(steps);
            Err(error)
        }
    }
}
