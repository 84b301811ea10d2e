//! Whether a metric literal follows from the facts of a step, and whether they contradict each
//! other.

ghost use Rattle.std.specs.Prelude.{◌≡◌, ◌≤◌, [], ◌∷◌, length, map};
ghost use Rattle.std.specs.Prelude.{option_copied, IsTrue, IfOk, Some, None};
ghost use Rattle.std.specs.List.{list_all};
ghost use Rattle.e_literal.specs.WellFormed.{is_well_formed};
ghost use Rattle.e_clause.specs.Assignment.{terms_of_lits};
ghost use Rattle.e_clause.specs.Metric.{MetricConsequence, Unsatisfiable};
ghost use Rattle.e_clause.specs.Laws.{is_well_formed_metric};
ghost use Rattle.e_clause.specs.LimitedFacts.{most_terms_of_step};
ghost use Rattle.e_fraction.specs.Limits.{most_rows_of_system, all_small};
ghost use Rattle.e_fraction.specs.Views.{views_of_rows};
ghost use Rattle.e_simplex.specs.Answer.{IsAbsurdity};
ghost use Rattle.e_metric.specs.inner.Certificate;
ghost use Rattle.e_metric.specs.ListedTerms.{distinct_terms, with_listed};
ghost use Rattle.e_metric.specs.MetricAnswers.{IsMetricAnswer, IsKindAnswer};
ghost use Rattle.e_metric.specs.MetricAnswers.{preferred_answer, answer_of_both, consequence_of};
ghost use Rattle.e_metric.specs.MetricAnswers.{IfYes, IfNo};

use crate::assigning::counterexample;
use crate::by_kind::ByKind;
use crate::certificates::sums_of;
use crate::in_two::InTwo;
use crate::listing::{has_term, terms_of_kind};
use crate::metric_facts::MetricFacts;
use crate::systems::system;
use e_clause::{MetricCert, RowName};
use e_facts::Facts;
use e_fraction::Row;
use e_literal::{Kind, Lit, Term, Values};
use e_simplex::{Absurdity, Verdict, decide, width};
use std::alloc::{AllocError, Global};
use std::mem;

/// The answer on a metric literal, or of the facts alone.
#[derive(Drop)]
pub enum Metric {
    /// The literal follows from the facts, or the facts contradict each other, by this certificate.
    Yes(MetricCert),
    /// It does not: with these values of the terms of the step the facts are true, and the literal
    /// is false.
    No(Values),
    /// One of the systems is wide, and has this width.
    TooWide(u128),
}

/// The answer on a metric literal, without values where it does not follow.
#[derive(Drop)]
pub enum Consequence {
    /// The literal follows from the facts, or the facts contradict each other, by this certificate.
    Yes(MetricCert),
    /// It does not.
    No,
    /// One of the systems is wide, and has this width.
    TooWide(u128),
}

/// The names and the rows, with room for more.
pub fn names_and_rows(
    alloc: Global,
    named: Vec<(RowName, Row)>,
) -> Result<(Vec<RowName>, Vec<Row>), AllocError>
    ensures names { IfOk result (λ p. p.0.items ≡ map (λ q. q.0) named.items) }
    ensures rows { IfOk result (λ p. p.1.items ≡ map (λ q. q.1) named.items) }
{
    let room = named.len().saturating_mul(2);
    let mut names = Vec::with_capacity(alloc, room)?;
    let mut rows = Vec::with_capacity(alloc, room)?;
    for (name, row) in named {
        names.push(name)?;
        rows.push(row)?;
    }
    Ok((names, rows))
}

/// The terms of the facts of a kind and of the wanted literal, and right.
pub fn summed_terms(
    alloc: Global,
    which: Kind,
    facts: &Facts,
    wanted: Option<&Lit>,
) -> Result<Vec<Term>, AllocError>
    ensures { IfOk result (λ v. v.items ≡ with_listed
        (distinct_terms which facts.now (option_copied wanted.entry)) (Term.Right ∷ [])) }
{
    let mut terms = terms_of_kind(alloc, which, facts, wanted)?;
    if !has_term(&terms, Term::Right) {
        terms.push(Term::Right)?;
    }
    Ok(terms)
}

/// The certificate that multipliers of the rows of a kind make.
pub fn certificate_of(
    alloc: Global,
    which: Kind,
    facts: &Facts,
    wanted: Option<&Lit>,
    names: &[RowName],
    rows: &[Row],
    absurdity: &Absurdity,
) -> Result<MetricCert, AllocError>
    requires names { length names.now ≡ length rows.now }
    requires few { length rows.now ≤ most_rows_of_system }
    requires coefficients { IsTrue (all_small rows.now) }
    requires refuted { IsAbsurdity (views_of_rows rows.now) absurdity.now }
    ensures { IfOk result (λ m. m.sums ≡ Certificate.certificate_sums names.now
        rows.now (with_listed (distinct_terms which facts.now (option_copied wanted.entry))
        (Term.Right ∷ [])) absurdity.now) }
{
    let terms = summed_terms(alloc, which, facts, wanted)?;
    let names = InTwo::new(names, &[]);
    let rows = InTwo::new(rows, &[]);
    let sums = sums_of(alloc, &names, &rows, &terms, absurdity)?;
    Ok(MetricCert { sums })
}

/// The answer of the system of one kind.
pub fn answer_of_kind(
    alloc: Global,
    which: Kind,
    facts: &Facts,
    wanted: Option<&Lit>,
) -> Result<Metric, AllocError>
    requires facts { IsTrue (list_all is_well_formed facts.now) }
    requires few { length (terms_of_lits facts.now) ≤ most_terms_of_step }
    requires wanted { IsTrue (is_well_formed_metric (option_copied wanted)) }
    ensures { IfOk result (IsKindAnswer which facts.now (option_copied wanted.entry)) }
{
    let terms = terms_of_kind(alloc, which, facts, wanted)?;
    let named = system(alloc, which, facts, wanted, &terms)?;
    let (names, rows) = names_and_rows(alloc, named)?;
    match decide(alloc, &rows)? {
        Verdict::Holds(values) => Ok(Metric::No(values)),
        Verdict::TooWide => Ok(Metric::TooWide(width(&rows))),
        Verdict::Absurd(absurdity) => {
            let certified = certificate_of(alloc, which, facts, wanted, &names, &rows, &absurdity);
            mem::drop(absurdity);
            Ok(Metric::Yes(certified?))
        }
    }
}

// The second, if it is a certificate, or else the first.
fn prefer_certificate(first: Metric, second: Metric) -> Metric
    ensures { result ≡ preferred_answer first second }
{
    match second {
        Metric::Yes(cert) => {
            mem::drop(first);
            Metric::Yes(cert)
        }
        Metric::No(_) | Metric::TooWide(_) => first,
    }
}

// What two kinds answer together: a certificate, or one is too wide, or values of the second.
fn join(first: Metric, second: Metric) -> Metric
    ensures { result ≡ answer_of_both first second }
{
    match first {
        Metric::No(values) => {
            mem::drop(values);
            second
        }
        other => prefer_certificate(other, second),
    }
}

// The answer without its values.
fn without_values(answer: Metric) -> Consequence
    ensures { result ≡ consequence_of answer }
{
    match answer {
        Metric::Yes(cert) => Consequence::Yes(cert),
        Metric::No(values) => {
            mem::drop(values);
            Consequence::No
        }
        Metric::TooWide(width) => Consequence::TooWide(width),
    }
}

/// The answer of the systems of all kinds together, without values.
pub fn joined_consequence(answer: ByKind<Metric>) -> Consequence
    ensures { result ≡ consequence_of
        (answer_of_both (answer_of_both answer.segments answer.angles) answer.areas) }
{
    let ByKind {
        segments,
        angles,
        areas,
    } = answer;
    without_values(join(join(segments, angles), areas))
}

/// The answer of the systems of all kinds together.
pub fn joined_answer(
    alloc: Global,
    facts: &Facts,
    wanted: Option<&Lit>,
    answer: ByKind<Metric>,
) -> Result<Metric, AllocError>
    requires facts { IsTrue (list_all is_well_formed facts.now) }
    requires wanted { IsTrue (is_well_formed_metric (option_copied wanted)) }
    requires segments { IsKindAnswer Kind.Segment facts.now (option_copied wanted) answer.segments }
    requires angles { IsKindAnswer Kind.Angle facts.now (option_copied wanted) answer.angles }
    requires areas { IsKindAnswer Kind.Area facts.now (option_copied wanted) answer.areas }
    ensures { IfOk result (IsMetricAnswer facts.now (option_copied wanted.entry)) }
{
    let ByKind {
        segments,
        angles,
        areas,
    } = answer;
    match segments {
        Metric::No(segments) => match angles {
            Metric::No(angles) => match areas {
                Metric::No(areas) => {
                    let solutions = ByKind {
                        segments,
                        angles,
                        areas,
                    };
                    let values = counterexample(alloc, facts, wanted, &solutions);
                    mem::drop(solutions);
                    Ok(Metric::No(values?))
                }
                other => Ok(other),
            },
            other => Ok(prefer_certificate(other, areas)),
        },
        other => Ok(prefer_certificate(prefer_certificate(other, angles), areas)),
    }
}

/// Whether the metric literal follows from the facts: whether each admissible assignment that makes
/// the metric facts true makes it true. `Yes` with a certificate that names no objects but those of
/// the facts and of the goal; `No` with values for the terms of the step with which the facts are
/// true and the goal is false; `TooWide` with the width of one of the systems, only where some
/// minor of its rows has size at least 2^63, and no system that is not wide gives a certificate.
/// Facts that contradict each other in any kind give every metric literal.
///
/// [`are_few_facts`] and [`is_metric_goal`] test the conditions.
///
/// [`are_few_facts`]: crate::limits::are_few_facts
/// [`is_metric_goal`]: crate::limits::is_metric_goal
pub fn follows(alloc: Global, facts: &Facts, goal: &Lit) -> Result<Metric, AllocError>
    requires facts { IsTrue (list_all is_well_formed facts.now) }
    requires few { length (terms_of_lits facts.now) ≤ most_terms_of_step }
    requires goal { IsTrue (is_well_formed_metric (Some goal.now)) }
    ensures answer { IfOk result (IsMetricAnswer facts.now (Some goal.now)) }
    ensures yes { IfOk result (λ m. IfYes m (MetricConsequence facts.now goal.now)) }
    ensures no { IfOk result (λ m. IfNo m (¬ MetricConsequence facts.now goal.now)) }
{
    let metric_facts = MetricFacts::new();
    let answer = metric_facts.follows(alloc, facts, goal);
    mem::drop(metric_facts);
    answer
}

/// Whether the metric facts contradict each other: whether no admissible assignment makes them all
/// true. The answers are those of [`follows`], with no goal.
pub fn absurd(alloc: Global, facts: &Facts) -> Result<Metric, AllocError>
    requires facts { IsTrue (list_all is_well_formed facts.now) }
    requires few { length (terms_of_lits facts.now) ≤ most_terms_of_step }
    ensures answer { IfOk result (IsMetricAnswer facts.now None) }
    ensures yes { IfOk result (λ m. IfYes m (Unsatisfiable facts.now)) }
    ensures no { IfOk result (λ m. IfNo m (¬ Unsatisfiable facts.now)) }
{
    let metric_facts = MetricFacts::new();
    let answer = metric_facts.absurd(alloc, facts);
    mem::drop(metric_facts);
    answer
}
