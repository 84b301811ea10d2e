//! The facts of one kind, whose rows have a solution, and the answers on goals from there.

ghost use Rattle.std.specs.Prelude.{◌≡◌, ◌≤◌, ◌++◌, ◌∷◌, [], length, option_copied};
ghost use Rattle.std.specs.Prelude.{IsTrue, IfOk, OnOk, Some};
ghost use Rattle.std.specs.List.{list_all};
ghost use Rattle.e_literal.specs.WellFormed.{is_well_formed};
ghost use Rattle.e_literal.specs.Width;
ghost use Rattle.e_clause.specs.Assignment.{terms_of_lits};
ghost use Rattle.e_clause.specs.Laws.{is_well_formed_metric};
ghost use Rattle.e_clause.specs.LimitedFacts.{most_terms_of_step};
ghost use Rattle.e_clause.specs.System;
ghost use Rattle.e_clause.specs.System.{system, rows_of_system};
ghost use Rattle.e_fraction.specs.Views.{views_of_rows};
ghost use Rattle.e_simplex.specs.Answer.{AreValuesOf, IsRefuted};
ghost use Rattle.e_metric.specs.inner.FurtherRows.{values_extended};
ghost use Rattle.e_metric.specs.SolvedSystems.{AreRowsOf, IsSolvedSystem};
ghost use Rattle.e_metric.specs.ListedTerms.{distinct_terms, with_listed};
ghost use Rattle.e_metric.specs.MetricAnswers.{IsMetricCertificate, IsKindAnswer};

use crate::certificates::{copy_of_name, sums_of};
use crate::consequence::{Metric, names_and_rows};
use crate::evaluating::{are_so, values_with};
use crate::in_two::InTwo;
use crate::listing::{fresh_terms, has_term, terms_of_kind};
use crate::systems::{rows_of_goal, system};
use e_clause::{MetricCert, RowName};
use e_facts::Facts;
use e_fraction::Row;
use e_literal::{Kind, Lit, Term, Values};
use e_simplex::{Absurdity, SolvedRows, Verdict, width};
use std::alloc::{AllocError, Global};
use std::mem;

/// The rows of the facts of one kind with their names and their terms, and what is solved of them.
#[derive(Drop)]
pub struct SolvedSystem {
    pub names: Vec<RowName>,
    pub terms: Vec<Term>,
    /// How many of the rows the terms bring.
    pub raised: usize,
    pub solved_rows: SolvedRows,
}

// Puts equal names last.
fn add_names(names: &mut Vec<RowName>, alloc: Global, more: &[RowName]) -> Result<(), AllocError>
    ensures { OnOk result (names.new.items ≡ names.old.items ++ more.now) }
{
    for name in more {
        names.push(copy_of_name(alloc, name)?)?;
    }
    Ok(())
}

// Equal names.
fn copies_of_names(alloc: Global, names: &[RowName]) -> Result<Vec<RowName>, AllocError>
    ensures { IfOk result (λ v. v.items ≡ names.now) }
{
    let mut copies = Vec::with_capacity(alloc, names.len())?;
    add_names(&mut copies, alloc, names)?;
    Ok(copies)
}

/// The width of the system of a kind.
pub fn system_width(
    alloc: Global,
    which: Kind,
    facts: &Facts,
    wanted: Option<&Lit>,
) -> Result<u128, AllocError>
    requires facts { IsTrue (list_all is_well_formed facts.now) }
    requires wanted { IsTrue (is_well_formed_metric (option_copied wanted)) }
    ensures { IfOk result
        (λ w. w ≡ Width.width (rows_of_system which facts.now (option_copied wanted.entry))) }
{
    let terms = terms_of_kind(alloc, which, facts, wanted)?;
    let named = system(alloc, which, facts, wanted, &terms)?;
    let (_, rows) = names_and_rows(alloc, named)?;
    Ok(width(&rows))
}

impl SolvedSystem {
    /// An equal solved system.
    pub fn copy(&self, alloc: Global) -> Result<SolvedSystem, AllocError>
        ensures names { IfOk result (λ g. g.names.items ≡ self.now.names.items) }
        ensures terms { IfOk result (λ g. g.terms.items ≡ self.now.terms.items) }
        ensures raised { IfOk result (λ g. g.raised ≡ self.now.raised) }
        ensures solved_rows { IfOk result (λ g. g.solved_rows ≡ self.now.solved_rows) }
    {
        let terms = Vec::from_slice(alloc, &self.terms)?;
        let names = copies_of_names(alloc, &self.names)?;
        let solved_rows = self.solved_rows.copy(alloc)?;
        Ok(SolvedSystem {
            names,
            terms,
            raised: self.raised,
            solved_rows,
        })
    }

    /// Puts names and terms last.
    pub fn add(&mut self, names: Vec<RowName>, terms: &[Term]) -> Result<(), AllocError>
        ensures names { OnOk result (self.new.names.items ≡ self.old.names.items ++ names.items) }
        ensures terms { OnOk result (self.new.terms.items ≡ self.old.terms.items ++ terms.now) }
        ensures solved_rows { self.new.solved_rows ≡ self.old.solved_rows }
    {
        for name in names {
            self.names.push(name)?;
        }
        self.terms.extend_from_slice(terms)
    }

    // The terms, and these, and right.
    fn summed_terms_with(&self, alloc: Global, fresh: &[Term]) -> Result<Vec<Term>, AllocError>
        ensures { IfOk result
            (λ v. v.items ≡ with_listed (self.now.terms.items ++ fresh.now) (Term.Right ∷ [])) }
    {
        let room = self
            .terms
            .len()
            .saturating_add(fresh.len())
            .saturating_add(1);
        let mut terms = Vec::with_capacity(alloc, room)?;
        terms.extend_from_slice(&self.terms)?;
        terms.extend_from_slice(fresh)?;
        if !has_term(&terms, Term::Right) {
            terms.push(Term::Right)?;
        }
        Ok(terms)
    }

    // The certificate that multipliers of the rows, and of more after them, make, where `fresh`
    // are the terms of those that no row before has.
    fn certificate_with(
        &self,
        alloc: Global,
        which: Kind,
        facts: &Facts,
        wanted: Option<&Lit>,
        fresh: &[Term],
        names: &[RowName],
        rows: &[Row],
        absurdity: &Absurdity,
    ) -> Result<MetricCert, AllocError>
        requires facts { IsTrue (list_all is_well_formed facts.now) }
        requires few { length (terms_of_lits facts.now) ≤ most_terms_of_step }
        requires wanted { IsTrue (is_well_formed_metric (option_copied wanted)) }
        requires together { AreRowsOf which facts.now (option_copied wanted)
            (self.now.names.items ++ names.now) (self.now.solved_rows ++ rows.now) }
        requires terms { self.now.terms.items ++ fresh.now
            ≡ distinct_terms which facts.now (option_copied wanted) }
        requires refuted { IsRefuted
            (views_of_rows (self.now.solved_rows ++ rows.now)) absurdity.now }
        ensures { IfOk result (IsMetricCertificate facts.now (option_copied wanted.entry)) }
    {
        let names = InTwo::new(&self.names, names);
        let rows = InTwo::new(self.solved_rows.rows(), rows);
        let terms = self.summed_terms_with(alloc, fresh)?;
        let sums = sums_of(alloc, &names, &rows, &terms, absurdity)?;
        Ok(MetricCert { sums })
    }

    // The answer where the goal has these rows, by what is solved.
    fn answer_of_rows(
        &self,
        alloc: Global,
        which: Kind,
        facts: &Facts,
        goal: &Lit,
        fresh: &[Term],
        names: &[RowName],
        rows: &[Row],
    ) -> Result<Metric, AllocError>
        requires facts { IsTrue (list_all is_well_formed facts.now) }
        requires few { length (terms_of_lits facts.now) ≤ most_terms_of_step }
        requires goal { IsTrue (is_well_formed_metric (Some goal.now)) }
        requires together { AreRowsOf which facts.now (Some goal.now)
            (self.now.names.items ++ names.now) (self.now.solved_rows ++ rows.now) }
        requires terms { self.now.terms.items ++ fresh.now
            ≡ distinct_terms which facts.now (Some goal.now) }
        ensures { IfOk result (IsKindAnswer which facts.now (Some goal.now)) }
    {
        match self.solved_rows.decide_with(alloc, rows)? {
            Verdict::Holds(values) => Ok(Metric::No(values)),
            Verdict::TooWide => {
                let width = system_width(alloc, which, facts, Some(goal))?;
                Ok(Metric::TooWide(width))
            }
            Verdict::Absurd(absurdity) => {
                let wanted = Some(goal);
                let cert = self.certificate_with(
                    alloc, which, facts, wanted, fresh, names, rows, &absurdity,
                );
                mem::drop(absurdity);
                Ok(Metric::Yes(cert?))
            }
        }
    }

    /// The answer of the system of the facts and the goal. Where the goal is false with the values
    /// that the facts have already, no linear question is asked.
    pub fn ask(
        &self,
        alloc: Global,
        which: Kind,
        facts: &Facts,
        goal: &Lit,
    ) -> Result<Metric, AllocError>
        requires solved_system { IsSolvedSystem which facts.now self.now }
        requires facts { IsTrue (list_all is_well_formed facts.now) }
        requires few { length (terms_of_lits facts.now) ≤ most_terms_of_step }
        requires goal { IsTrue (is_well_formed_metric (Some goal.now)) }
        ensures { IfOk result (IsKindAnswer which facts.now (Some goal.now)) }
    {
        let fresh = fresh_terms(alloc, which, &self.terms, goal)?;
        let named = rows_of_goal(alloc, which, facts, &fresh, goal)?;
        let (names, rows) = names_and_rows(alloc, named)?;
        let values = values_with(alloc, facts, self.solved_rows.values().items(), &fresh)?;
        if are_so(values.items(), &rows) {
            return Ok(Metric::No(values));
        }
        self.answer_of_rows(alloc, which, facts, goal, &fresh, &names, &rows)
    }

    /// The values that the facts have.
    pub fn values(&self, alloc: Global) -> Result<Values, AllocError>
        ensures { IfOk result (AreValuesOf (views_of_rows self.now.solved_rows)) }
    {
        let pairs = Vec::from_slice(alloc, self.solved_rows.values().items())?;
        Ok(Values::new(pairs))
    }
}
