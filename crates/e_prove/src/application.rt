//! Licensing an application of an earlier theorem.
ghost use Rattle.std.specs.Prelude.{◌≡◌, List, IfOk, IfErr, OnOk, IsTrue};
ghost use Rattle.std.specs.Prelude.{Some, map};
ghost use Rattle.std.specs.List.{list_all};
ghost use Rattle.e_literal.specs.Use.{StatementView, are_arguments, needs_of_use, gives_of_use};
ghost use Rattle.e_clause.specs.declared.cert.Cert.{Cert as Certificate};
ghost use Rattle.e_clause.specs.Certify.{certify_all};
ghost use Rattle.e_clause.specs.LimitedFacts.{are_well_formed_in};
ghost use Rattle.e_theorem.specs.Statements.{as_view};
ghost use Rattle.e_deriv.specs.declared.block.Step.TheVariants.{Apply};
ghost use Rattle.e_deriv.specs.Fitting.{is_small, is_small_statement};
ghost use Rattle.e_deriv.specs.PlacedSteps.{theorem_at};
ghost use Rattle.e_clause.specs.declared.cert.Version.TheVariants as version;
ghost use Rattle.e_clause.specs.Versions.{is_cert_of};
ghost use Rattle.e_prove.specs.inner.Applications.{CanApply, IsUse};
ghost use Rattle.e_prove.specs.inner.NextStates.{after_apply};
ghost use Rattle.e_prove.specs.inner.StopsOfSteps.{StepStopsAmong, StepStopsFilling};
ghost use Rattle.e_prove.specs.inner.StopsOfSteps.{StepStopsApplying, UnlessNoMemory};
ghost use Rattle.e_prove.specs.inner.StopsOfSteps;
ghost use Rattle.e_prove.specs.inner.LicensedSteps.{IsLicensedStep, IsStopOfStep};

use crate::licence::licences;
use crate::state_before::StateBefore;
use crate::stop_reason::StopReason;
use e_clause::Cert;
use e_deriv::{Step, Wanted, written_args};
use e_licence::{Context, Filled, match_blanks};
use e_literal::{Items, Lit, Obj};
use e_text::Name;
use e_theorem::{Applied, Statement, UseFault, use_of};
use std::alloc::{AllocError, Global};
use std::mem;

/// An application as it is written.
#[derive(Clone, Copy)]
pub struct Application<'a> {
    /// The theorem's place among those before.
    pub theorem: u32,
    pub args: &'a [Option<Obj>],
    pub names: &'a [Name],
}

/// An application with all its arguments: a certificate for each given literal there, and the shown
/// literals.
#[derive(Drop)]
pub struct Use {
    pub args: Items<Obj>,
    pub certs: Vec<Cert>,
    pub gives: Items<Lit>,
}

/// An application: each given literal of the statement is allowed at the arguments, where blanks
/// are filled by the least good choice. The made objects come into scope, and the shown literals
/// are facts.
#[tactic(auto, unfolding(e_deriv::specs::Script::step_script))]
pub fn license_apply(
    alloc: Global,
    application: &Application,
    statement: &Statement,
    state: &mut StateBefore,
) -> Result<Step, StopReason>
    requires { CanApply (as_view statement.now) application.now.args.now state.old.context }
    ensures ok { IfOk result (λ d. (before : List StatementView) (certs : List Certificate)
        → theorem_at before application.now.theorem ≡ as_view statement.now → IsLicensedStep before
        (Apply application.now.theorem application.now.args.now application.now.names.now certs)
        state.old d state.new) }
    ensures err { IfErr result (λ h. (before : List StatementView) (certs : List Certificate)
        → theorem_at before application.now.theorem ≡ as_view statement.now → IsStopOfStep before
        (Apply application.now.theorem application.now.args.now application.now.names.now certs)
        state.old h) }
    ensures kept { IfErr result (UnlessNoMemory (state.new ≡ state.old)) }
{
    let names = Vec::from_slice(alloc, application.names)?;
    let used = use_with(alloc, statement, application.args, &mut state.context)?;
    match take_use(alloc, application, statement, &used, state) {
        Ok(args) => Ok(Step::Apply {
            theorem: application.theorem,
            args,
            names: Items::new(names),
            certs: Items::new(used.certs),
        }),
        Err(_) => {
            mem::drop(used);
            Err(StopReason::NoMemory)
        }
    }
}

/// The made objects come into scope, and the shown literals are facts; hands out the arguments as
/// the step has them. It fails only out of memory; no clause says what holds then.
fn take_use(
    alloc: Global,
    application: &Application,
    statement: &Statement,
    used: &Use,
    state: &mut StateBefore,
) -> Result<Items<Option<Obj>>, AllocError>
    requires apply { CanApply (as_view statement.now) application.now.args.now state.old.context }
    requires used { IsUse (as_view statement.now) application.now.args.now state.old.context
        used.now }
    ensures args { IfOk result (λ entries. entries ≡ map Some used.now.args) }
    ensures after { OnOk result (state.new
        ≡ after_apply (as_view statement.now) used.now.args application.now.names.now state.old) }
{
    state.grow(statement.made.items(), application.names)?;
    state.join_copied(alloc, used.gives.items())?;
    let args = without_blanks(alloc, used.args.items())?;
    Ok(args)
}

/// The application of a statement at a pattern, arguments some of which may be blanks, where each
/// of its given literals is allowed.
fn use_with(
    alloc: Global,
    statement: &Statement,
    pattern: &[Option<Obj>],
    context: &mut Context,
) -> Result<Use, StopReason>
    requires { CanApply (as_view statement.now) pattern.now context.old }
    ensures ok { IfOk result (IsUse (as_view statement.now) pattern.now context.old) }
    ensures err { IfErr result (StepStopsApplying (as_view statement.now) context.old pattern.now) }
    ensures kept { context.new ≡ context.old }
{
    match written_args(alloc, pattern)? {
        Some(args) => use_at(alloc, statement, Items::new(args), context),
        None => fill_blanks(alloc, statement, pattern, context),
    }
}

/// The application with its blanks filled by the least good choice. The linear systems of the facts
/// are solved before, so that they are not solved for each choice anew.
fn fill_blanks(
    alloc: Global,
    statement: &Statement,
    pattern: &[Option<Obj>],
    context: &mut Context,
) -> Result<Use, StopReason>
    requires { CanApply (as_view statement.now) pattern.now context.old }
    ensures ok { IfOk result (IsUse (as_view statement.now) pattern.now context.old) }
    ensures err { IfErr result (StepStopsFilling (as_view statement.now) context.old pattern.now) }
    ensures kept { context.new ≡ context.old }
{
    context.solve(alloc)?;
    match match_blanks(alloc, context, statement, pattern)? {
        Filled::Found(args) => match use_at(alloc, statement, args, context) {
            Ok(used) => Ok(used),
            Err(stop_reason) => Err(as_match(stop_reason)),
        },
        Filled::None => Err(StopReason::Lacks {
            wanted: Wanted::Match,
            values: None,
        }),
        Filled::TooWide(width) => Err(StopReason::TooWide {
            wanted: Wanted::Match,
            width,
        }),
    }
}

/// The stop of an application at the choice for its blanks: where that is too wide, it is the match
/// that is answered to be too wide, not the literal.
fn as_match(stop_reason: StopReason) -> StopReason
    ensures { result ≡ StopsOfSteps.match_stop stop_reason }
{
    match stop_reason {
        StopReason::TooWide { wanted, width } => {
            mem::drop(wanted);
            StopReason::TooWide {
                wanted: Wanted::Match,
                width,
            }
        }
        stop_reason => stop_reason,
    }
}

/// The application at these arguments: each given literal is allowed.
fn use_at(
    alloc: Global,
    statement: &Statement,
    args: Items<Obj>,
    context: &mut Context,
) -> Result<Use, StopReason>
    requires statement { IsTrue (is_small_statement (as_view statement.now)) }
    requires scope { IsTrue (is_small context.old.scope) }
    requires fit { IsTrue (are_arguments (as_view statement.now) context.old.scope args) }
    requires needs { IsTrue (are_well_formed_in context.old.scope
        (needs_of_use (as_view statement.now) args context.old.scope)) }
    ensures args { IfOk result (λ u. u.args ≡ args) }
    ensures certified { IfOk result (λ u. IsTrue (certify_all context.old.scope context.old.facts
        (needs_of_use (as_view statement.now) args context.old.scope) u.certs.items)) }
    ensures version { IfOk result (λ u. IsTrue (list_all (is_cert_of version.One) u.certs.items)) }
    ensures gives { IfOk result
        (λ u. u.gives ≡ gives_of_use (as_view statement.now) args context.old.scope) }
    ensures err { IfErr result
        (StepStopsAmong context.old (needs_of_use (as_view statement.now) args context.old.scope)) }
    ensures kept { context.new ≡ context.old }
{
    match use_of(alloc, statement, args.items(), context.scope()) {
        Ok(Applied { needs, gives }) => {
            let answered = licences(alloc, context, needs.items());
            mem::drop(needs);
            match answered {
                Ok(certs) => Ok(Use { args, certs, gives }),
                Err(stop_reason) => {
                    mem::drop(gives);
                    Err(stop_reason)
                }
            }
        }
        Err(UseFault::BadArgs) => unreachable!(),
        Err(UseFault::NoMemory) => Err(StopReason::NoMemory),
    }
}

/// The arguments as entries, none of them a blank.
fn without_blanks(alloc: Global, args: &[Obj]) -> Result<Items<Option<Obj>>, AllocError>
    ensures { IfOk result (λ entries. entries ≡ map Some args.now) }
{
    let mut entries = Items::empty(alloc);
    for object in args {
        entries.push(Some(*object))?;
    }
    Ok(entries)
}
