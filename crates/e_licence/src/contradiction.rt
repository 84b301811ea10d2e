//! Whether the facts contradict each other.

ghost use Rattle.std.specs.Prelude.{◌≡◌, IsFalse, IfOk, ◌&&◌, not, ◌<◌, length};
ghost use Rattle.e_literal.specs.Literal.{negation};
ghost use Rattle.e_literal.specs.Facts.{has, is_metric};
ghost use Rattle.e_clause.specs.Clash;
ghost use Rattle.e_metric.specs.Fronts.{AreFronts};
ghost use Rattle.e_licence.specs.Licences.{IsAnswerAgainst};
ghost use Rattle.e_licence.specs.inner.Clashes.{IsClashOf};

use crate::context::Context;
use e_clause::Against;
use e_facts::Facts;
use e_literal::{Lit, Values, copy, kind, negate};
use e_metric::{Metric, MetricFacts};
use std::alloc::{AllocError, Global};
use std::mem;

/// What is answered on whether the facts contradict each other.
#[derive(Drop)]
pub enum Refuted {
    /// They do, by this certificate.
    Yes(Against),
    /// They do not: with these values of their terms the metric facts are true.
    No(Values),
    /// No diagram literal and its negation are both facts, and a system of the facts is wide and
    /// has this width.
    TooWide(u128),
}

/// Whether the facts contradict each other: a diagram literal and its negation both are facts, or
/// else no admissible assignment makes the metric facts true. It fails only out of memory.
///
/// It begins from what the context has solved of its facts, and lets go what it solves itself;
/// [`Context::refute`] keeps that for the next question.
pub fn refute(alloc: Global, context: &Context) -> Result<Refuted, AllocError>
    ensures { IfOk result (IsAnswerAgainst context.now) }
{
    if let Some(lit) = clash(alloc, context.facts())? {
        return Ok(Refuted::Yes(Against::Clash { lit }));
    }
    let mut metric_facts = context.copy_of_metric_facts(alloc)?;
    let refuted = by_arithmetic(alloc, context, &mut metric_facts);
    mem::drop(metric_facts);
    refuted
}

/// Whether the facts contradict each other, where no diagram literal and its negation are both
/// facts: the kinds of magnitude are asked in turn.
pub(crate) fn by_arithmetic(
    alloc: Global,
    context: &Context,
    metric_facts: &mut MetricFacts,
) -> Result<Refuted, AllocError>
    requires no_clash { IsFalse (Clash.clash context.now.facts) }
    requires metric_facts { AreFronts context.now.facts metric_facts.old }
    ensures refuted { IfOk result (IsAnswerAgainst context.now) }
    ensures metric_facts { AreFronts context.now.facts metric_facts.new }
{
    let facts = context.facts();
    match metric_facts.absurd_in_turn(alloc, facts)? {
        Metric::Yes(cert) => Ok(Refuted::Yes(Against::Metric(cert))),
        Metric::No(values) => Ok(Refuted::No(values)),
        Metric::TooWide(width) => Ok(Refuted::TooWide(width)),
    }
}

/// The first diagram fact whose negation is a fact too.
pub(crate) fn clash(alloc: Global, facts: &Facts) -> Result<Option<Lit>, AllocError>
    ensures { IfOk result (IsClashOf facts.now) }
{
    for fact in facts.items() {
        if is_denied(alloc, facts, fact)? {
            return Ok(Some(copy(alloc, fact)?));
        }
    }
    Ok(None)
}

// Whether it is a diagram literal whose negation is a fact.
fn is_denied(alloc: Global, facts: &Facts, lit: &Lit) -> Result<bool, AllocError>
    ensures { IfOk result (λ b. b ≡ (not (is_metric lit.now) && has facts.now (negation lit.now))) }
{
    if kind(lit).is_some() {
        return Ok(false);
    }
    let opposite = negate(copy(alloc, lit)?);
    let denied = facts.has(&opposite);
    mem::drop(opposite);
    Ok(denied)
}
