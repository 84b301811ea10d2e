//! Whether a literal is a transfer consequence.

ghost use Rattle.std.specs.Prelude.{IfOk, IsTrue, IsFalse};
ghost use Rattle.e_literal.specs.Facts.{has};
ghost use Rattle.e_clause.specs.LimitedFacts.{are_limited_facts, is_well_formed_in};
ghost use Rattle.e_clause.specs.Wide.{TransferFromFacts};
ghost use Rattle.e_metric.specs.Fronts.{AreFronts};
ghost use Rattle.e_transfer.specs.FoundTransfers.{IsFound, IsFoundByFacts};
ghost use Rattle.e_transfer.specs.GivenGoals.{IsWideTransfer};
ghost use Rattle.e_transfer.specs.Listings.{IsListing};
ghost use Rattle.e_transfer.specs.Prepared.{IsPrepared};

use crate::listing::{Listing, listing_of};
use crate::marks::marks_of;
use crate::prepared::{Prepared, prepare};
use crate::query::{Query, Strength};
use crate::rule_search::search_rules;
use crate::sum_marks::{SUM_MARKS, sum_marks_of};
use crate::walk::Verdict;
use e_clause::TransferCert;
use e_facts::Facts;
use e_literal::{Lit, Scope};
use e_metric::{MetricFacts, StepFacts};
use std::alloc::{AllocError, Global};
use std::mem;

/// What is answered on a goal.
#[derive(Drop)]
pub enum Found {
    /// An instance of a transfer clause gives it, for these reasons.
    Yes(TransferCert),
    /// No instance over the scope gives it.
    No,
    /// It cannot be decided: a metric literal that an instance needs has a system that is too wide,
    /// of this width.
    TooWide(u128),
}

/// Whether one instance of a transfer clause over the scope gives the goal, and why.
///
/// `Yes` with a certificate that certifies the goal; `No` where no instance gives it. `TooWide`
/// where neither facts alone give it, nor metric literals that follow from the facts by narrow
/// systems, and an instance whose diagram literals hold needs a metric literal with a wide system,
/// of this width. It fails only out of memory.
pub fn find(alloc: Global, scope: Scope, facts: &Facts, goal: &Lit) -> Result<Found, AllocError>
    requires facts { IsTrue (are_limited_facts scope facts.now) }
    requires goal { IsTrue (is_well_formed_in scope goal.now) }
    requires not_fact { IsFalse (has facts.now goal.now) }
    ensures { IfOk result (IsFound scope facts.now goal.now) }
{
    match find_by_facts(alloc, scope, facts, goal)? {
        Some(cert) => Ok(Found::Yes(cert)),
        None => {
            let metric_facts = MetricFacts::of(alloc, facts)?;
            let found = find_by_sums(alloc, scope, facts, &metric_facts, goal);
            mem::drop(metric_facts);
            found
        }
    }
}

/// Whether one instance gives the goal from facts alone, and why: no metric question is asked.
pub fn find_by_facts<'a>(
    alloc: Global,
    scope: Scope,
    facts: &'a Facts,
    goal: &'a Lit,
) -> Result<Option<TransferCert>, AllocError>
    requires facts { IsTrue (are_limited_facts scope facts.now) }
    requires goal { IsTrue (is_well_formed_in scope goal.now) }
    requires not_fact { IsFalse (has facts.now goal.now) }
    ensures { IfOk result (IsFoundByFacts scope facts.now goal.now) }
{
    let listing = listing_of(alloc, facts.items())?;
    let found = find_listed(alloc, scope, facts, &listing, goal);
    mem::drop(listing);
    found
}

/// The answer of [`find_by_facts`], where the numbers of the facts are listed.
fn find_listed<'a>(
    alloc: Global,
    scope: Scope,
    facts: &'a Facts,
    listing: &'a Listing,
    goal: &'a Lit,
) -> Result<Option<TransferCert>, AllocError>
    requires facts { IsTrue (are_limited_facts scope facts.now) }
    requires listed { IsListing facts.now listing.now.items }
    requires goal { IsTrue (is_well_formed_in scope goal.now) }
    requires not_fact { IsFalse (has facts.now goal.now) }
    ensures { IfOk result (IsFoundByFacts scope facts.now goal.now) }
{
    let query = Query {
        scope,
        facts,
        goal,
        strength: Strength::Facts,
        step_facts: None,
        hints: None,
        listing,
        marks: marks_of(facts),
        sum_marks: sum_marks_of(facts, goal),
    };
    match search_rules(alloc, &query)? {
        Verdict::Yes(cert) => Ok(Some(cert)),
        Verdict::No => Ok(None),
        Verdict::TooWide(_) => unreachable!(),
    }
}

/// The answer of [`find`], from what is solved of the facts.
pub fn find_by_sums(
    alloc: Global,
    scope: Scope,
    facts: &Facts,
    metric_facts: &MetricFacts,
    goal: &Lit,
) -> Result<Found, AllocError>
    requires facts { IsTrue (are_limited_facts scope facts.now) }
    requires metric_facts { AreFronts facts.now metric_facts.now }
    requires goal { IsTrue (is_well_formed_in scope goal.now) }
    requires not_fact { IsFalse (has facts.now goal.now) }
    ensures { IfOk result (IsFound scope facts.now goal.now) }
{
    let prepared = prepare(alloc, facts, metric_facts)?;
    let found = find_prepared(alloc, scope, facts, metric_facts, &prepared, goal);
    mem::drop(prepared);
    found
}

/// The answer of [`find`], where what many searches need is made of the facts already. Values with
/// which all metric facts are true, if such are known, show of most metric literals that they do
/// not follow. What facts alone give is found by the way; only where a system is wide is it
/// searched for by itself.
pub fn find_prepared<'a>(
    alloc: Global,
    scope: Scope,
    facts: &'a Facts,
    metric_facts: &'a MetricFacts,
    prepared: &'a Prepared,
    goal: &'a Lit,
) -> Result<Found, AllocError>
    requires facts { IsTrue (are_limited_facts scope facts.now) }
    requires metric_facts { AreFronts facts.now metric_facts.now }
    requires prepared { IsPrepared facts.now prepared.now }
    requires goal { IsTrue (is_well_formed_in scope goal.now) }
    requires not_fact { IsFalse (has facts.now goal.now) }
    ensures { IfOk result (IsFound scope facts.now goal.now) }
{
    let step_facts = StepFacts::new(facts, metric_facts);
    let query = Query {
        scope,
        facts,
        goal,
        strength: Strength::Sums,
        step_facts: Some(&step_facts),
        hints: Some(prepared),
        listing: &prepared.listing,
        marks: prepared.marks,
        sum_marks: [false; SUM_MARKS],
    };
    match search_rules(alloc, &query)? {
        Verdict::Yes(cert) => Ok(Found::Yes(cert)),
        Verdict::No => Ok(Found::No),
        Verdict::TooWide(width) => find_where_wide(alloc, &query, width),
    }
}

/// The answer where a literal that an instance needs has a wide system, of this width: facts alone
/// may give the goal.
fn find_where_wide(alloc: Global, query: &Query, width: u128) -> Result<Found, AllocError>
    requires wide { IsWideTransfer query.now.scope query.now.facts.now query.now.goal.now width }
    requires goal { IsTrue (is_well_formed_in query.now.scope query.now.goal.now) }
    requires not_fact { IsFalse (has query.now.facts.now query.now.goal.now) }
    ensures { IfOk result (IsFound query.now.scope query.now.facts.now query.now.goal.now) }
{
    match find_by_facts(alloc, query.scope, query.facts, query.goal)? {
        Some(cert) => Ok(Found::Yes(cert)),
        None => find_narrow(alloc, query, width),
    }
}

/// The answer where such a literal has a wide system, and facts alone do not give the goal: another
/// instance may, and literals with wide systems are passed over.
fn find_narrow(alloc: Global, query: &Query, width: u128) -> Result<Found, AllocError>
    requires not_plain { ¬ TransferFromFacts query.now.scope query.now.facts.now
        query.now.goal.now }
    requires wide { IsWideTransfer query.now.scope query.now.facts.now query.now.goal.now width }
    ensures { IfOk result (IsFound query.now.scope query.now.facts.now query.now.goal.now) }
{
    let mut narrow = *query;
    narrow.strength = Strength::NarrowSums;
    match search_rules(alloc, &narrow)? {
        Verdict::Yes(cert) => Ok(Found::Yes(cert)),
        Verdict::No => Ok(Found::TooWide(width)),
        Verdict::TooWide(_) => unreachable!(),
    }
}
