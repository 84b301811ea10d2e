//! Whether one instance gives the goal, and why.

ghost use Rattle.std.specs.Prelude.{◌≡◌, ◌++◌, ◌∷◌, [], IfOk, OnOk, IsTrue, Some, true};
ghost use Rattle.std.specs.List.{list_all};
ghost use Rattle.e_literal.specs.Facts.{has};
ghost use Rattle.e_literal.specs.Literal.{all_in_scope, is_in_scope};
ghost use Rattle.e_literal.specs.WellFormed.{is_well_formed};
ghost use Rattle.e_clause.specs.Laws.{is_well_formed_metric};
ghost use Rattle.e_clause.specs.Metric.{MetricConsequence};
ghost use Rattle.e_clause.specs.RuleKinds.{is_transfer};
ghost use Rattle.e_metric.specs.MetricAnswers.{IsConsequence};
ghost use Rattle.e_transfer.specs.GivenGoals;
ghost use Rattle.e_transfer.specs.GivenGoals.{PartIs, PartsAre, InstanceIs, passed_over};

use crate::query::{Query, Strength};
use crate::walk::Verdict;
use e_clause::{InstanceFault, Part, Rule, TransferCert, instance};
use e_facts::Facts;
use e_literal::{Items, Lit, Obj, Scope, count, kind, negate, same};
use e_metric::{Consequence, MetricFacts};
use std::alloc::{AllocError, Global};
use std::mem;

/// What is answered on a literal that has a wide system: where only narrow ones are searched for it
/// is passed over.
fn too_wide(strength: Strength, width: u128) -> Verdict<Part>
    ensures { result ≡ passed_over strength width }
{
    match strength {
        Strength::Facts | Strength::NarrowSums => Verdict::No,
        Strength::Sums => Verdict::TooWide(width),
    }
}

/// Whether the metric literal is seen not to follow, without any sums.
pub fn is_refuted(query: &Query, need: &Lit) -> bool
    ensures { result ≡ true → ¬ MetricConsequence query.now.facts.now need.now }
{
    match query.hints {
        Some(hints) => hints.refutes(query.facts, need),
        None => false,
    }
}

/// Whether the metric literal follows from the facts, by what is known of them.
fn answer(alloc: Global, query: &Query, need: &Lit) -> Result<Consequence, AllocError>
    requires well_formed { IsTrue (is_well_formed_metric (Some need.now)) }
    ensures { IfOk result (IsConsequence query.now.facts.now need.now) }
{
    match query.step_facts {
        Some(step_facts) => step_facts
            .metric_facts()
            .consequence(alloc, query.facts, need),
        None => {
            let metric_facts = MetricFacts::new();
            let answer = metric_facts.consequence(alloc, query.facts, need);
            mem::drop(metric_facts);
            answer
        }
    }
}

/// Why a needed literal holds, or that it does not, or that one of its systems is too wide. A fact
/// holds by itself.
fn part_of(alloc: Global, query: &Query, need: &Lit) -> Result<Verdict<Part>, AllocError>
    requires well_formed { IsTrue (is_well_formed need.now) }
    requires in_scope { IsTrue (all_in_scope query.now.scope need.now) }
    ensures { IfOk result (PartIs query.now.strength query.now.scope query.now.facts.now need.now) }
{
    if query.facts.has(need) {
        return Ok(Verdict::Yes(Part::Fact));
    }
    if query.strength == Strength::Facts || kind(need).is_none() {
        return Ok(Verdict::No);
    }
    match answer(alloc, query, need)? {
        Consequence::Yes(cert) => Ok(Verdict::Yes(Part::Metric(cert))),
        Consequence::No => Ok(Verdict::No),
        Consequence::TooWide(width) => Ok(too_wide(query.strength, width)),
    }
}

/// Why each of the needed literals holds, or that one does not, or that a system of one is too
/// wide.
fn parts_of(alloc: Global, query: &Query, needs: &[Lit]) -> Result<Verdict<Items<Part>>, AllocError>
    requires well_formed { IsTrue (list_all is_well_formed needs.now) }
    requires in_scope { IsTrue (list_all (all_in_scope query.now.scope) needs.now) }
    ensures { IfOk result
        (PartsAre query.now.strength query.now.scope query.now.facts.now needs.now) }
{
    let mut parts = Items::empty(alloc);
    for need in needs {
        match part_of(alloc, query, need)? {
            Verdict::Yes(part) => parts.push(part)?,
            Verdict::No => return Ok(Verdict::No),
            Verdict::TooWide(width) => return Ok(Verdict::TooWide(width)),
        }
    }
    Ok(Verdict::Yes(parts))
}

/// Whether the diagram literals are facts.
fn diagrams_hold(facts: &Facts, needs: &[Lit]) -> bool
    ensures { result ≡ GivenGoals.all_diagrams_hold facts.now needs.now }
{
    needs
        .iter()
        .all(|need| kind(need).is_some() || facts.has(need))
}

/// Adds the negation of a literal that is not the goal.
fn add_need(needs: &mut Vec<Lit>, lit: Lit, goal: &Lit) -> Result<(), AllocError>
    ensures { OnOk result
        (needs.new.items ≡ needs.old.items ++ GivenGoals.needs_beside (lit ∷ []) goal.now) }
{
    if !same(&lit, goal) {
        needs.push(negate(lit))?;
    } else {
        mem::drop(lit);
    }
    Ok(())
}

/// The negations of the literals that are not the goal.
fn needs_of(alloc: Global, lits: Vec<Lit>, goal: &Lit) -> Result<Vec<Lit>, AllocError>
    ensures { IfOk result (λ v. v.items ≡ GivenGoals.needs_beside lits.items goal.now) }
{
    let mut needs = Vec::new(alloc);
    for lit in lits {
        add_need(&mut needs, lit, goal)?;
    }
    Ok(needs)
}

/// Whether one of the literals is the goal.
fn has_goal(lits: &[Lit], goal: &Lit) -> bool
    ensures { result ≡ has lits.now goal.now }
{
    lits.iter().any(|lit| same(lit, goal))
}

fn are_in_scope(scope: Scope, objects: &[Obj]) -> bool
    ensures { result ≡ list_all (is_in_scope scope) objects.now }
{
    objects.iter().all(|o| o.num < count(scope, o.sort))
}

/// Whether the instance at these arguments gives the goal. Metric questions are asked only where
/// all diagram literals hold.
pub fn check_instance(
    alloc: Global,
    query: &Query,
    rule: Rule,
    args: Items<Obj>,
) -> Result<Verdict<TransferCert>, AllocError>
    requires { IsTrue (is_transfer rule) }
    ensures { IfOk result (InstanceIs query.now.strength query.now.scope query.now.facts.now
        query.now.goal.now rule args) }
{
    if !are_in_scope(query.scope, args.items()) {
        return Ok(Verdict::No);
    }
    let lits = match instance(alloc, rule, args.items()) {
        Ok(lits) => lits,
        Err(InstanceFault::BadArgs) => return Ok(Verdict::No),
        Err(InstanceFault::NoMemory) => return Err(AllocError),
    };
    if !has_goal(&lits, query.goal) {
        return Ok(Verdict::No);
    }
    let needs = needs_of(alloc, lits, query.goal)?;
    if !diagrams_hold(query.facts, &needs) {
        return Ok(Verdict::No);
    }
    match parts_of(alloc, query, &needs)? {
        Verdict::Yes(parts) => Ok(Verdict::Yes(TransferCert { rule, args, parts })),
        Verdict::No => Ok(Verdict::No),
        Verdict::TooWide(width) => Ok(Verdict::TooWide(width)),
    }
}
