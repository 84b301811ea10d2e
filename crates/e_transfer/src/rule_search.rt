//! The search through all places of all transfer clauses.

ghost use Rattle.std.specs.Prelude.{◌≡◌, ◌<◌, ◌+◌, length, slice_get, IfOk, IsTrue, Some};
ghost use Rattle.e_literal.specs.Literal.{negation};
ghost use Rattle.e_clause.specs.Instance.{clause_of};
ghost use Rattle.e_clause.specs.RuleKinds.{is_transfer, rule_count, diagram_rule_count};
ghost use Rattle.e_clause.specs.Rows;
ghost use Rattle.e_clause.specs.Table.{table};
ghost use Rattle.e_clause.specs.Views.{row_of};
ghost use Rattle.e_transfer.specs.GivenGoals.{RuleSearchIs, NoneWithBindings};
ghost use Rattle.e_transfer.specs.GivenGoals.{NoneWithEquations, NoneAt, NoneGives};
ghost use Rattle.e_transfer.specs.Marks;
ghost use Rattle.e_transfer.specs.inner.Matches.{AreTermsOf};
ghost use Rattle.e_transfer.specs.inner.Plans.{total_of};

use crate::areas::{Equality, place_of_equality};
use crate::bound_facts;
use crate::clause::pattern_at;
use crate::equations::Equation;
use crate::instance_search::InstanceSearch;
use crate::marks::{is_equation, lacks_fact, last_may_hold, mark_of, turned_mark_of};
use crate::matches::{matches, terms_of_goal};
use crate::order::{order, places_with};
use crate::plan::make_plan;
use crate::query::Query;
use crate::unify::{Binding, unify};
use crate::walk::{Verdict, search};
use e_clause::{Row, Rule, TransferCert};
use e_literal::Term;
use std::alloc::{AllocError, Global};
use std::mem;

/// The instances that have the goal at a place of the clause, and whose variables are bound so.
fn search_with_bindings(
    alloc: Global,
    query: &Query,
    rule: Rule,
    row: &Row,
    preferred: &[u8],
    place: usize,
    equality: Option<Equality>,
    bindings: &[Binding],
) -> Result<Verdict<TransferCert>, AllocError>
    requires of_table { slice_get table rule ≡ Some (row_of row.now) }
    requires transfer { IsTrue (is_transfer rule) }
    requires total { length bindings.now ≡ total_of (row_of row.now) }
    ensures { IfOk result (RuleSearchIs query.now.strength query.now.scope query.now.facts.now
        query.now.goal.now (NoneWithBindings query.now.strength query.now.scope query.now.facts.now
        query.now.goal.now rule place bindings.now)) }
{
    let mut chosen = Vec::with_capacity(alloc, bindings.len())?;
    let plan = make_plan(alloc, row, query.scope, bindings, preferred)?;
    let task = InstanceSearch {
        query: *query,
        rule,
        row,
        place,
        plan: &plan,
        equality,
    };
    let found = search(alloc, &task, &mut (), &plan.spans, &mut chosen);
    mem::drop(plan);
    match found? {
        Verdict::Yes(Some(cert)) => Ok(Verdict::Yes(cert)),
        Verdict::Yes(None) => unreachable!(),
        Verdict::No => Ok(Verdict::No),
        Verdict::TooWide(width) => Ok(Verdict::TooWide(width)),
    }
}

/// The instances that have the goal at a place of the clause, and whose variables are as these
/// equations say.
fn search_with_equations(
    alloc: Global,
    query: &Query,
    rule: Rule,
    row: &Row,
    preferred: &[u8],
    goal_mark: usize,
    place: usize,
    equality: Option<Equality>,
    equations: &[Equation],
) -> Result<Verdict<TransferCert>, AllocError>
    requires of_table { slice_get table rule ≡ Some (row_of row.now) }
    requires transfer { IsTrue (is_transfer rule) }
    requires of_goal { goal_mark ≡ Marks.lit_mark query.now.goal.now }
    ensures { IfOk result (RuleSearchIs query.now.strength query.now.scope query.now.facts.now
        query.now.goal.now (NoneWithEquations query.now.strength query.now.scope query.now.facts.now
        query.now.goal.now rule place equations.now)) }
{
    if !bound_facts::may_all_hold(query, goal_mark, row, equations) {
        return Ok(Verdict::No);
    }
    let total = row.points as usize + row.lines as usize + row.circles as usize;
    match unify(alloc, total, equations)? {
        Some(bindings) => search_with_bindings(
            alloc,
            query,
            rule,
            row,
            preferred,
            place,
            equality,
            bindings.items(),
        ),
        None => Ok(Verdict::No),
    }
}

/// The instances that have the goal at a place of the clause.
fn search_place(
    alloc: Global,
    query: &Query,
    rule: Rule,
    row: &Row,
    preferred: &[u8],
    goal_mark: usize,
    goal_terms: &[Term],
    place: usize,
) -> Result<Verdict<TransferCert>, AllocError>
    requires of_table { slice_get table rule ≡ Some (row_of row.now) }
    requires transfer { IsTrue (is_transfer rule) }
    requires of_goal { goal_mark ≡ Marks.lit_mark query.now.goal.now }
    requires terms { AreTermsOf query.now.goal.now.atom goal_terms.now }
    requires in_clause { place < length (clause_of (row_of row.now)) }
    ensures { IfOk result (RuleSearchIs query.now.strength query.now.scope query.now.facts.now
        query.now.goal.now (NoneAt query.now.strength query.now.scope query.now.facts.now
        query.now.goal.now rule place)) }
{
    let (pattern, negated) = pattern_at(row, place);
    let matches = matches(alloc, row, pattern, negated, query.goal, goal_terms)?;
    let equality = if query.hints.is_none() || is_equation(query.goal) {
        None
    } else {
        place_of_equality(row)
    };
    for equations in &matches {
        match search_with_equations(
            alloc,
            query,
            rule,
            row,
            preferred,
            goal_mark,
            place,
            equality,
            equations.items(),
        )? {
            Verdict::No => {}
            Verdict::Yes(cert) => return Ok(Verdict::Yes(cert)),
            Verdict::TooWide(width) => return Ok(Verdict::TooWide(width)),
        }
    }
    Ok(Verdict::No)
}

/// The instances of the transfer clause at this place of the table that have the goal at a place of
/// the clause.
fn search_clause(
    alloc: Global,
    query: &Query,
    goal_mark: usize,
    goal_turned: usize,
    goal_terms: &[Term],
    at: u8,
    place: usize,
) -> Result<Verdict<TransferCert>, AllocError>
    requires in_table { diagram_rule_count + at < rule_count }
    requires of_goal { goal_mark ≡ Marks.lit_mark query.now.goal.now }
    requires turned { goal_turned ≡ Marks.lit_mark (negation query.now.goal.now) }
    requires terms { AreTermsOf query.now.goal.now.atom goal_terms.now }
    requires in_clause { (r : Rows.Row) → slice_get table (diagram_rule_count + at) ≡ Some r
        → place < length (clause_of r) }
    ensures { IfOk result (RuleSearchIs query.now.strength query.now.scope query.now.facts.now
        query.now.goal.now (NoneAt query.now.strength query.now.scope query.now.facts.now
        query.now.goal.now (diagram_rule_count + at) place)) }
{
    if lacks_fact(query, goal_turned, at) {
        return Ok(Verdict::No);
    }
    let rule = Rule::transfer(at);
    let row = rule.table_row();
    if !last_may_hold(query, goal_mark, row) {
        return Ok(Verdict::No);
    }
    search_place(
        alloc,
        query,
        rule,
        row,
        order(at),
        goal_mark,
        goal_terms,
        place,
    )
}

/// The instances of all transfer clauses that have the goal: one that gives it, or none, or one
/// that needs a literal with a wide system, if such are not passed over.
pub fn search_rules(alloc: Global, query: &Query) -> Result<Verdict<TransferCert>, AllocError>
    ensures { IfOk result
        (RuleSearchIs query.now.strength query.now.scope query.now.facts.now query.now.goal.now
        (NoneGives query.now.strength query.now.scope query.now.facts.now query.now.goal.now)) }
{
    let goal_mark = mark_of(query.goal);
    let goal_turned = turned_mark_of(query.goal);
    let goal_terms = terms_of_goal(alloc, query.goal)?;
    let places = places_with(goal_mark);
    for pair in places {
        let (at, place) = *pair;
        match search_clause(
            alloc,
            query,
            goal_mark,
            goal_turned,
            &goal_terms,
            at,
            usize::from(place),
        )? {
            Verdict::No => {}
            Verdict::Yes(cert) => return Ok(Verdict::Yes(cert)),
            Verdict::TooWide(width) => return Ok(Verdict::TooWide(width)),
        }
    }
    Ok(Verdict::No)
}
