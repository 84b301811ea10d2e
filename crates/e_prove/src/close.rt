//! Licensing a close without blocks.
ghost use Rattle.std.specs.Prelude.{◌≡◌, List, Option, IfOk, IfErr, IsTrue};
ghost use Rattle.e_literal.specs.Use.{StatementView};
ghost use Rattle.e_clause.specs.declared.cert.Against.{Against};
ghost use Rattle.e_clause.specs.declared.cert.Cert.{Cert};
ghost use Rattle.e_clause.specs.LimitedFacts.{are_well_formed_in};
ghost use Rattle.e_deriv.specs.declared.block.Close.TheVariants.{Qed, Contradiction};
ghost use Rattle.e_deriv.specs.Goal.{Goal as BlockGoal, are_for, goal_with, goal_view};
ghost use Rattle.e_prove.specs.inner.StopsOfSteps.{contradiction_by};
ghost use Rattle.e_prove.specs.inner.LicensedSteps.{IsLicensedClose, IsStopOfClose};

use crate::licence::licences;
use crate::stop_reason::StopReason;
use e_deriv::{Close, Goal, Wanted, goal_with};
use e_licence::{Context, Refuted};
use e_literal::{Items, Obj};
use std::alloc::Global;

/// A qed: each literal of the goal is allowed, with these objects for its made ones.
#[tactic(auto, unfolding(e_deriv::specs::Script::close_script))]
pub fn qed(
    alloc: Global,
    objects: &[Obj],
    goal: &Goal,
    context: &mut Context,
) -> Result<Close, StopReason>
    requires form { IsTrue (are_for (goal_view goal.now) context.old.scope objects.now) }
    requires lits { IsTrue
        (are_well_formed_in context.old.scope (goal_with (goal_view goal.now) objects.now)) }
    ensures ok { IfOk result (λ d. (before : List StatementView) (certs : List Cert)
        → IsLicensedClose before (Qed objects.now certs) context.old (goal_view goal.now) d) }
    ensures err { IfErr result (λ h. (before : List StatementView) (certs : List Cert)
        → IsStopOfClose before (Qed objects.now certs) context.old (goal_view goal.now) h) }
    ensures kept { context.new ≡ context.old }
{
    let copied = Vec::from_slice(alloc, objects)?;
    let wanted = goal_with(alloc, goal, objects)?;
    let certs = licences(alloc, context, &wanted)?;
    Ok(Close::Qed {
        objects: Items::new(copied),
        certs: Items::new(certs),
    })
}

/// A contradiction: the facts contradict each other.
pub fn contradiction(alloc: Global, context: &mut Context) -> Result<Close, StopReason>
    ensures ok { IfOk
        result (λ d. (before : List StatementView) (goal : BlockGoal) (old : Option Against)
        → IsLicensedClose before (Contradiction old) context.old goal d) }
    ensures err { IfErr
        result (λ h. (before : List StatementView) (goal : BlockGoal) (old : Option Against)
        → IsStopOfClose before (Contradiction old) context.old goal h) }
    ensures kept { context.new ≡ context.old }
{
    let answer = context.refute(alloc)?;
    close_by(answer)
}

/// The close that an answer on a contradiction makes, or why it stops.
fn close_by(answer: Refuted) -> Result<Close, StopReason>
    ensures { result ≡ contradiction_by answer }
{
    match answer {
        Refuted::Yes(against) => {
            let against = Some(against);
            Ok(Close::Contradiction { against })
        }
        Refuted::No(values) => {
            let wanted = Wanted::Contradiction;
            let values = Some(values);
            Err(StopReason::Lacks { wanted, values })
        }
        Refuted::TooWide(width) => {
            let wanted = Wanted::Contradiction;
            Err(StopReason::TooWide { wanted, width })
        }
    }
}
