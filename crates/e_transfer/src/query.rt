//! What is searched for, and by what.

ghost use Rattle.std.specs.Prelude.{◌≡◌, IsTrue, option_copied, true};
ghost use Rattle.std.specs.Option.{ForSome};
ghost use Rattle.e_clause.specs.LimitedFacts.{are_limited_facts};
ghost use Rattle.e_transfer.specs.Listings.{IsListing};
ghost use Rattle.e_transfer.specs.Marks.{are_marked};
ghost use Rattle.e_transfer.specs.Prepared.{IsPrepared};
ghost use Rattle.e_transfer.specs.SumMarks.{have_sum_marks, has_sum_mark};
ghost use Rattle.e_transfer.specs.declared.query.Strength.TheVariants as strength_is;

use crate::listing::Listing;
use crate::marks::MARKS;
use crate::prepared::Prepared;
use crate::sum_marks::SUM_MARKS;
use e_facts::Facts;
use e_literal::{Lit, Scope};
use e_metric::StepFacts;

/// How the literals may hold that an instance needs.
#[derive(Clone, Copy, PartialEq, Eq)]
pub enum Strength {
    /// Each has to be a fact.
    Facts,
    /// A metric one may also follow from the facts.
    Sums,
    /// A metric one may also follow from the facts, if none of its systems is wide.
    NarrowSums,
}

/// Whether each needed literal has to be a fact.
pub fn asks_facts(strength: Strength) -> bool
    ensures { result ≡ true → strength ≡ strength_is.Facts }
{
    matches!(strength, Strength::Facts)
}

/// The goal, and the facts of a step, which are in scope and well formed, and not too many for a
/// metric question, with what is made of them before the search.
#[derive(Clone, Copy)]
pub struct Query<'a> {
    pub scope: Scope,
    pub facts: &'a Facts,
    pub goal: &'a Lit,
    pub strength: Strength,
    /// What is solved of the facts, where metric questions may be asked.
    pub step_facts: Option<&'a StepFacts<'a>>,
    /// What shows of most metric literals that they do not follow, where metric questions may be
    /// asked.
    pub hints: Option<&'a Prepared>,
    /// The numbers of the facts, by their marks.
    pub listing: &'a Listing,
    /// Which relations the facts have, and with which sign.
    pub marks: [bool; MARKS],
    /// Where each literal has to be a fact: the marks of the sums of the goal and of the facts.
    pub sum_marks: [bool; SUM_MARKS],
    ghost step_facts_of: { ForSome (option_copied step_facts) (λ k. k ≡ facts.now) },
    ghost good: { IsTrue (are_limited_facts scope facts.now) },
    ghost hinted: { ForSome (option_copied hints) (IsPrepared facts.now) },
    ghost listed: { IsListing facts.now listing.now.items },
    ghost marked: { IsTrue (are_marked marks facts.now) },
    ghost sum_marked: { strength ≡ strength_is.Facts
        → IsTrue (have_sum_marks sum_marks facts.now) × IsTrue (has_sum_mark sum_marks goal.now) },
}
