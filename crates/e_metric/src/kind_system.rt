//! The system of the facts of one kind.

ghost use Rattle.std.specs.Prelude.{◌≡◌, ◌≤◌, ◌++◌, length, take, drop, flat_map};
ghost use Rattle.std.specs.Prelude.{IsTrue, IfOk, IfSome, Some, None};
ghost use Rattle.std.specs.List.{list_all};
ghost use Rattle.e_literal.specs.WellFormed.{is_well_formed};
ghost use Rattle.e_clause.specs.Assignment.{terms_of_lits};
ghost use Rattle.e_clause.specs.Laws.{is_well_formed_metric};
ghost use Rattle.e_clause.specs.LimitedFacts.{most_terms_of_step};
ghost use Rattle.e_clause.specs.System.{rows_of_term};
ghost use Rattle.e_metric.specs.SolvedSystems.{AreNamed, AreRowsOf, IsSolvedSystem, IsKindSystem};
ghost use Rattle.e_metric.specs.SolvedSystems.{IsAnswerAlone, AnswersAs, IsContradictionOf};
ghost use Rattle.e_metric.specs.inner.FurtherRows.{terms_added, rows_added_by_facts};
ghost use Rattle.e_metric.specs.inner.PreparedSystem.{IsPreparedSystem};
ghost use Rattle.e_metric.specs.ListedTerms.{distinct_terms};
ghost use Rattle.e_metric.specs.MetricAnswers.{IsKindAnswer};

use crate::certificates::copy_of_certificate;
use crate::consequence::{Metric, answer_of_kind, certificate_of, names_and_rows};
use crate::listing::{fresh_terms_of_facts, terms_of_kind};
use crate::solved_system::{SolvedSystem, system_width};
use crate::systems::{count_term_rows, rows_of_facts, system};
use e_clause::{MetricCert, RowName};
use e_facts::Facts;
use e_fraction::Row;
use e_literal::{Kind, Lit, Term};
use e_simplex::{Prepared, prepare};
use std::alloc::{AllocError, Global};
use std::mem;

/// The system of the facts of one kind.
#[derive(Drop)]
pub enum KindSystem {
    /// Their rows have a solution.
    Solved(SolvedSystem),
    /// They contradict each other, by this certificate.
    Absurd(MetricCert),
    /// Their system is wide, and has this width.
    TooWide(u128),
}

/// The system of the facts of one kind, from nothing.
pub fn solve_kind(alloc: Global, which: Kind, facts: &Facts) -> Result<KindSystem, AllocError>
    requires facts { IsTrue (list_all is_well_formed facts.now) }
    requires few { length (terms_of_lits facts.now) ≤ most_terms_of_step }
    ensures { IfOk result (IsKindSystem which facts.now) }
{
    let terms = terms_of_kind(alloc, which, facts, None)?;
    let named = system(alloc, which, facts, None, &terms)?;
    let (names, rows) = names_and_rows(alloc, named)?;
    let prepared = prepare(alloc, rows)?;
    system_of_prepared(alloc, which, facts, names, terms, prepared)
}

// The system of the facts, where this comes of its rows, which have these names and terms.
fn system_of_prepared(
    alloc: Global,
    which: Kind,
    facts: &Facts,
    names: Vec<RowName>,
    terms: Vec<Term>,
    prepared: Prepared,
) -> Result<KindSystem, AllocError>
    requires facts { IsTrue (list_all is_well_formed facts.now) }
    requires few { length (terms_of_lits facts.now) ≤ most_terms_of_step }
    requires prepared { IsPreparedSystem which facts.now names.items prepared }
    requires terms { terms.items ≡ distinct_terms which facts.now None }
    ensures { IfOk result (IsKindSystem which facts.now) }
{
    match prepared {
        Prepared::TooWide => {
            let width = system_width(alloc, which, facts, None)?;
            Ok(KindSystem::TooWide(width))
        }
        Prepared::Absurd(rows, absurdity) => {
            let certified = certificate_of(alloc, which, facts, None, &names, &rows, &absurdity);
            mem::drop(rows);
            mem::drop(absurdity);
            Ok(KindSystem::Absurd(certified?))
        }
        Prepared::SolvedRows(solved_rows) => {
            let raised = count_term_rows(facts, &terms);
            Ok(KindSystem::Solved(SolvedSystem {
                names,
                terms,
                raised,
                solved_rows,
            }))
        }
    }
}

impl KindSystem {
    /// The answer where no literal of this kind is wanted: it is known already.
    pub fn answer_alone(&self, alloc: Global) -> Result<Metric, AllocError>
        ensures { IfOk result (IsAnswerAlone self.now) }
    {
        match self {
            KindSystem::Solved(solved_system) => {
                let values = solved_system.values(alloc)?;
                Ok(Metric::No(values))
            }
            KindSystem::Absurd(cert) => {
                let cert = copy_of_certificate(alloc, cert)?;
                Ok(Metric::Yes(cert))
            }
            KindSystem::TooWide(width) => Ok(Metric::TooWide(*width)),
        }
    }

    /// The answer where a literal of this kind is wanted. Facts with a wide system are asked anew,
    /// with the literal.
    pub fn ask(
        &self,
        alloc: Global,
        which: Kind,
        facts: &Facts,
        goal: &Lit,
    ) -> Result<Metric, AllocError>
        requires kind_system { IsKindSystem which facts.now self.now }
        requires facts { IsTrue (list_all is_well_formed facts.now) }
        requires few { length (terms_of_lits facts.now) ≤ most_terms_of_step }
        requires goal { IsTrue (is_well_formed_metric (Some goal.now)) }
        ensures { IfOk result (IsKindAnswer which facts.now (Some goal.now)) }
    {
        match self {
            KindSystem::Solved(solved_system) => solved_system.ask(alloc, which, facts, goal),
            KindSystem::TooWide(_) => answer_of_kind(alloc, which, facts, Some(goal)),
            KindSystem::Absurd(cert) => {
                let cert = copy_of_certificate(alloc, cert)?;
                Ok(Metric::Yes(cert))
            }
        }
    }

    /// An equal system.
    pub fn copy(&self, alloc: Global) -> Result<KindSystem, AllocError>
        ensures { IfOk result (AnswersAs self.now) }
    {
        match self {
            KindSystem::Solved(solved_system) => {
                let solved_system = solved_system.copy(alloc)?;
                Ok(KindSystem::Solved(solved_system))
            }
            KindSystem::Absurd(cert) => {
                let cert = copy_of_certificate(alloc, cert)?;
                Ok(KindSystem::Absurd(cert))
            }
            KindSystem::TooWide(width) => Ok(KindSystem::TooWide(*width)),
        }
    }

    /// The certificate that the facts contradict each other, if there is one.
    pub fn contradiction(&self, alloc: Global) -> Result<Option<MetricCert>, AllocError>
        ensures { IfOk result (IsContradictionOf self.now) }
    {
        match self {
            KindSystem::Absurd(cert) => {
                let cert = copy_of_certificate(alloc, cert)?;
                Ok(Some(cert))
            }
            KindSystem::Solved(_) | KindSystem::TooWide(_) => Ok(None),
        }
    }
}

/// What is solved of all facts, where `known`, if there is any, is that of the first `from` of them.
/// Facts that contradict each other stay so, and facts with a wide system are asked from nothing.
pub fn system_of_all_facts(
    alloc: Global,
    known: Option<KindSystem>,
    which: Kind,
    facts: &Facts,
    from: usize,
) -> Result<KindSystem, AllocError>
    requires within { from ≤ length facts.now }
    requires known { IfSome known (IsKindSystem which (take from facts.now)) }
    requires facts { IsTrue (list_all is_well_formed facts.now) }
    requires few { length (terms_of_lits facts.now) ≤ most_terms_of_step }
    ensures { IfOk result (IsKindSystem which facts.now) }
{
    match known {
        None => solve_kind(alloc, which, facts),
        Some(kind_system) => match kind_system {
            KindSystem::Solved(solved_system) => with_further_facts(
                alloc,
                solved_system,
                which,
                facts,
                from,
            ),
            KindSystem::Absurd(cert) => Ok(KindSystem::Absurd(cert)),
            KindSystem::TooWide(_) => solve_kind(alloc, which, facts),
        },
    }
}

// What is solved of all facts, where the first `from` of them have this solved system. Where a term
// that was there brings a row by a new fact, the rows are solved from nothing, since that row would
// come among the others.
fn with_further_facts(
    alloc: Global,
    solved_system: SolvedSystem,
    which: Kind,
    facts: &Facts,
    from: usize,
) -> Result<KindSystem, AllocError>
    requires within { from ≤ length facts.now }
    requires solved_system { IsSolvedSystem which (take from facts.now) solved_system }
    requires facts { IsTrue (list_all is_well_formed facts.now) }
    requires few { length (terms_of_lits facts.now) ≤ most_terms_of_step }
    ensures { IfOk result (IsKindSystem which facts.now) }
{
    let raised = count_term_rows(facts, &solved_system.terms);
    if raised == solved_system.raised {
        return with_rest(alloc, solved_system, which, facts, from);
    }
    mem::drop(solved_system);
    solve_kind(alloc, which, facts)
}

// What facts from a place on bring: terms that are none of those before, and rows with their names.
#[derive(Drop)]
struct Rest {
    terms: Vec<Term>,
    names: Vec<RowName>,
    rows: Vec<Row>,
}

fn rest_of_facts(
    alloc: Global,
    terms: &[Term],
    which: Kind,
    facts: &Facts,
    from: usize,
) -> Result<Rest, AllocError>
    requires within { from ≤ length facts.now }
    requires facts { IsTrue (list_all is_well_formed facts.now) }
    ensures terms { IfOk result
        (λ r. r.terms.items ≡ terms_added which terms.now (drop from facts.now)) }
    ensures named { IfOk result (λ r. AreNamed (rows_added_by_facts which facts.now
        (drop from facts.now) r.terms.items) r.names.items r.rows.items) }
{
    let fresh = fresh_terms_of_facts(alloc, which, terms, facts, from)?;
    let named = rows_of_facts(alloc, which, facts, from, &fresh)?;
    let (names, rows) = names_and_rows(alloc, named)?;
    Ok(Rest {
        terms: fresh,
        names,
        rows,
    })
}

// What is solved of all facts, where the first `from` of them have this solved system and its terms
// bring no more rows than before: the rows of the other facts come after them.
fn with_rest(
    alloc: Global,
    solved_system: SolvedSystem,
    which: Kind,
    facts: &Facts,
    from: usize,
) -> Result<KindSystem, AllocError>
    requires within { from ≤ length facts.now }
    requires solved_system { IsSolvedSystem which (take from facts.now) solved_system }
    requires raised { solved_system.raised
        ≡ length (flat_map (rows_of_term facts.now) solved_system.terms.items) }
    requires facts { IsTrue (list_all is_well_formed facts.now) }
    requires few { length (terms_of_lits facts.now) ≤ most_terms_of_step }
    ensures { IfOk result (IsKindSystem which facts.now) }
{
    match rest_of_facts(alloc, &solved_system.terms, which, facts, from) {
        Ok(rest) => {
            if rest.rows.is_empty() && rest.terms.is_empty() {
                mem::drop(rest);
                return Ok(KindSystem::Solved(solved_system));
            }
            joined_system(alloc, which, facts, solved_system, rest)
        }
        Err(error) => {
            mem::drop(solved_system);
            Err(error)
        }
    }
}

// The system of the rows of a solved system and more after them, which are those of the facts.
fn joined_system(
    alloc: Global,
    which: Kind,
    facts: &Facts,
    mut solved_system: SolvedSystem,
    rest: Rest,
) -> Result<KindSystem, AllocError>
    requires facts { IsTrue (list_all is_well_formed facts.now) }
    requires few { length (terms_of_lits facts.now) ≤ most_terms_of_step }
    requires rows { AreRowsOf which facts.now None
        (solved_system.names.items ++ rest.names.items)
        (solved_system.solved_rows ++ rest.rows.items) }
    requires terms { solved_system.terms.items ++ rest.terms.items
        ≡ distinct_terms which facts.now None }
    ensures { IfOk result (IsKindSystem which facts.now) }
{
    let Rest { terms, names, rows } = rest;
    match solved_system.add(names, &terms) {
        Ok(()) => {
            let SolvedSystem {
                names,
                terms,
                raised: _,
                solved_rows,
            } = solved_system;
            let prepared = solved_rows.with(alloc, rows)?;
            system_of_prepared(alloc, which, facts, names, terms, prepared)
        }
        Err(error) => {
            mem::drop(solved_system);
            Err(error)
        }
    }
}
