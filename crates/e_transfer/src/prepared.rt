//! What is made of the facts of a step once, for all goals that are searched for by sums.

ghost use Rattle.std.specs.Prelude.{◌≡◌, ◌≤◌, length, IsTrue, IfOk, None, true};
ghost use Rattle.std.specs.List.{list_all};
ghost use Rattle.e_literal.specs.WellFormed.{is_well_formed};
ghost use Rattle.e_clause.specs.Assignment.{terms_of_lits};
ghost use Rattle.e_clause.specs.Counterexample.{ListsCounterexample};
ghost use Rattle.e_clause.specs.LimitedFacts.{most_terms_of_step};
ghost use Rattle.e_clause.specs.Metric.{MetricConsequence};
ghost use Rattle.e_metric.specs.Fronts.{AreFronts};
ghost use Rattle.e_transfer.specs.Areas.{name_areas_of};
ghost use Rattle.e_transfer.specs.Listings.{IsListing};
ghost use Rattle.e_transfer.specs.Models.{is_model, value_by};
ghost use Rattle.e_transfer.specs.Prepared.{IsPrepared};
ghost use Rattle.e_transfer.specs.inner.ListedTerms;

use crate::angles::{angles_of, segments_of, zero_segments_of};
use crate::areas::areas_of;
use crate::listing::{Listing, Triple, listing_of};
use crate::marks::{MARKS, marks_of};
use crate::models::{Filling, are_angles_within, are_of_model, equal_value, refutes};
use e_facts::Facts;
use e_literal::{Lit, Term, Values};
use e_metric::{Metric, MetricFacts};
use std::alloc::{AllocError, Global};

/// What is made of facts: values with which all metric ones are true, if such are known, of which
/// models those are, the angles and segments that they list, the areas that the facts name, which
/// relations these have, and with which numbers.
#[derive(Drop)]
pub struct Prepared {
    pub values: Values,
    pub areas: Vec<Term>,
    /// The points of the angles that the values list, in both orders.
    pub angles: Vec<Triple>,
    pub segments: Vec<Triple>,
    /// The points of the segments for which they list 0.
    pub zero_segments: Vec<Triple>,
    /// The values are those of a model, whatever number each term has that they do not list, and no
    /// angle that they list is above two right ones.
    pub lists_all: bool,
    pub plain_model: bool,
    pub spread_model: bool,
    pub flat_model: bool,
    pub marks: [bool; MARKS],
    pub listing: Listing,
}

// Whether it is seen that the values are those of a model: it may be known without a look at the
// facts.
fn is_seen(facts: &Facts, filling: Filling, values: &[(Term, u128)], known: bool) -> bool
    requires { known ≡ true → IsTrue (is_model facts.now (value_by filling values.now)) }
    ensures { result ≡ true → IsTrue (is_model facts.now (value_by filling values.now)) }
{
    known || are_of_model(facts, filling, values)
}

/// Whether the values list all terms of the facts, if it is known, and no angle above two right
/// ones.
fn list_all_within(values: &[(Term, u128)], known: bool) -> bool
    ensures known { result ≡ true → known ≡ true }
    ensures within { result ≡ true → IsTrue (ListedTerms.are_angles_within values.now) }
{
    known && are_angles_within(values)
}

// What is made of the facts, with these values, which may list all terms of the facts, and areas.
fn with_values(
    facts: &Facts,
    values: Values,
    lists_all: bool,
    areas: Vec<Term>,
    angles: Vec<Triple>,
    segments: Vec<Triple>,
    zero_segments: Vec<Triple>,
    listing: Listing,
) -> Prepared
    requires listed { lists_all ≡ true → ListsCounterexample facts.now None values }
    requires named { IsTrue (name_areas_of areas.items facts.now) }
    requires angles { angles.items ≡ ListedTerms.angles_of values }
    requires segments { segments.items ≡ ListedTerms.segments_of values }
    requires zeros { zero_segments.items ≡ ListedTerms.zero_segments_of values }
    requires numbers { IsListing facts.now listing.items }
    ensures { IsPrepared facts.now result }
{
    let no_areas = lists_all && areas.is_empty();
    Prepared {
        plain_model: is_seen(facts, Filling::Each(1), values.items(), lists_all),
        spread_model: is_seen(facts, Filling::Spread, values.items(), lists_all),
        flat_model: is_seen(facts, Filling::Flat, values.items(), no_areas),
        marks: marks_of(facts),
        lists_all: list_all_within(values.items(), lists_all),
        listing,
        values,
        areas,
        angles,
        segments,
        zero_segments,
    }
}

/// What is made of the facts with these values, which may list all terms of the facts.
fn prepare_with(
    alloc: Global,
    facts: &Facts,
    values: Values,
    lists_all: bool,
) -> Result<Prepared, AllocError>
    requires listed { lists_all ≡ true → ListsCounterexample facts.now None values }
    ensures { IfOk result (IsPrepared facts.now) }
{
    let areas = areas_of(alloc, facts)?;
    let listing = listing_of(alloc, facts.items())?;
    let angles = angles_of(alloc, values.items())?;
    let segments = segments_of(alloc, values.items())?;
    let zero_segments = zero_segments_of(alloc, values.items())?;
    Ok(with_values(
        facts,
        values,
        lists_all,
        areas,
        angles,
        segments,
        zero_segments,
        listing,
    ))
}

/// What is made of the facts, by what is solved of them.
pub fn prepare(
    alloc: Global,
    facts: &Facts,
    metric_facts: &MetricFacts,
) -> Result<Prepared, AllocError>
    requires facts { IsTrue (list_all is_well_formed facts.now) }
    requires few { length (terms_of_lits facts.now) ≤ most_terms_of_step }
    requires metric_facts { AreFronts facts.now metric_facts.now }
    ensures { IfOk result (IsPrepared facts.now) }
{
    match metric_facts.absurd(alloc, facts)? {
        Metric::No(values) => prepare_with(alloc, facts, values, true),
        Metric::Yes(_) | Metric::TooWide(_) => {
            prepare_with(alloc, facts, Values::new(Vec::new(alloc)), false)
        }
    }
}

impl Prepared {
    /// Whether the metric literal is seen not to follow, by the values of a model of the facts.
    pub fn refutes(&self, facts: &Facts, lit: &Lit) -> bool
        requires { IsPrepared facts.now self.now }
        ensures { result ≡ true → ¬ MetricConsequence facts.now lit.now }
    {
        let values = self.values.items();
        if self.lists_all {
            if let Some(number) = equal_value(values, lit) {
                return refutes(facts, Filling::Each(number), values, lit);
            }
        }
        if self.plain_model && refutes(facts, Filling::Each(1), values, lit) {
            return true;
        }
        self.spread_model && refutes(facts, Filling::Spread, values, lit)
    }
}
