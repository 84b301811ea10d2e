//! A true literal of each instance.

ghost use Rattle.std.specs.Prelude.{◌≡◌, ◌<◌, IsTrue, IfOk, IfErr, OnOk, Some};
ghost use Rattle.std.specs.List.{list_all};
ghost use Rattle.e_literal.specs.Literal;
ghost use Rattle.e_clause.specs.Instance.{Inst};
ghost use Rattle.e_clause.specs.RuleKinds.{diagram_rule_count};
ghost use Rattle.e_figure.specs.Law.{true_at, are_in_figure, LawFaultIs};

use crate::figure::Figure;
use crate::truth::holds;
use e_clause::{InstanceFault, Rule, instance};
use e_literal::{Lit, Obj, Scope, object_in_scope};
use std::alloc::Global;
use thiserror::Error;

/// Why there is no instance to be asked.
#[derive(Debug, Drop, Error)]
pub enum LawFault {
    /// The arguments do not fit the rule's variables, or one is not in the figure's scope.
    #[error("the arguments do not fit the rule's variables, or are not in the figure")]
    BadArgs,
    /// Out of memory.
    #[error("out of memory")]
    NoMemory,
}

/// The place of a literal of the rule's instance that is true in the figure; there always is one.
/// The rule is one of diagrams and equality, which [`Rule::is_transfer`] tells from the others.
///
/// `BadArgs` exactly where the rule has no instance at the arguments, or one of them is not in the
/// figure's scope.
pub fn law(alloc: Global, figure: &Figure, rule: Rule, args: &[Obj]) -> Result<usize, LawFault>
    requires { rule < diagram_rule_count }
    ensures ok { IfOk result (λ k. IsTrue (true_at figure.now rule args.now k)) }
    ensures scope { OnOk result (IsTrue (are_in_figure figure.now args.now)) }
    ensures err { IfErr result (LawFaultIs figure.now rule args.now) }
{
    figure.lines_and_circles_are_proper();
    let lits = instance_in(alloc, figure, rule, args)?;
    for (k, lit) in lits.iter().enumerate() {
        if holds(figure, lit) {
            return Ok(k);
        }
    }
    unreachable!()
}

/// The rule's instance at arguments in the figure's scope.
fn instance_in(
    alloc: Global,
    figure: &Figure,
    rule: Rule,
    args: &[Obj],
) -> Result<Vec<Lit>, LawFault>
    ensures ok { IfOk result (λ lits. Inst rule args.now ≡ Some lits.items) }
    ensures scope { OnOk result (IsTrue (are_in_figure figure.now args.now)) }
    ensures err { IfErr result (LawFaultIs figure.now rule args.now) }
{
    let scope = figure.scope();
    if !are_in_scope(scope, args) {
        return Err(LawFault::BadArgs);
    }
    match instance(alloc, rule, args) {
        Ok(lits) => Ok(lits),
        Err(InstanceFault::BadArgs) => Err(LawFault::BadArgs),
        Err(InstanceFault::NoMemory) => Err(LawFault::NoMemory),
    }
}

fn are_in_scope(scope: Scope, objects: &[Obj]) -> bool
    ensures { result ≡ list_all (Literal.is_in_scope scope) objects.now }
{
    objects.iter().all(|o| object_in_scope(scope, *o))
}
