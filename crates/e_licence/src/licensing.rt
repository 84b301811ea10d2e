//! Whether a literal is allowed.

ghost use Rattle.std.specs.Prelude.{◌≡◌, IsTrue, IsFalse, IfOk};
ghost use Rattle.e_literal.specs.Facts.{has};
ghost use Rattle.e_clause.specs.LimitedFacts.{is_well_formed_in};
ghost use Rattle.e_metric.specs.Fronts.{AreFronts};
ghost use Rattle.e_transfer.specs.Prepared.{IsPrepared};
ghost use Rattle.e_licence.specs.Licences.{IsLicence};
ghost use Rattle.e_licence.specs.Verdicts.{JudgedIs};
ghost use Rattle.e_licence.specs.inner.Questions;
ghost use Rattle.e_licence.specs.inner.Questions.{IsAnsweredByTransfer};

use crate::context::Context;
use e_clause::{Cert, Part};
use e_literal::{Lit, Values, kind};
use e_metric::{Metric, MetricFacts, StepFacts};
use e_transfer::{Found, Prepared, Verdict, find_by_facts, find_prepared, prepare};
use std::alloc::{AllocError, Global};
use std::mem;

/// What is answered on a literal.
#[derive(Drop)]
pub enum Licensed {
    /// It is allowed, by this certificate: as a fact where it is one.
    Yes(Cert),
    /// It is not allowed. Of a metric literal there are values of the terms of the step with which
    /// the facts are true and the literal is false.
    No(Option<Values>),
    /// It is no fact, facts alone give it by no transfer, and one of its systems is wide and has
    /// this width.
    TooWide(u128),
}

/// Whether the literal is allowed: as a fact; else, if it is metric, as a metric consequence of the
/// facts; else as a transfer consequence. It fails only out of memory.
///
/// It begins from what the context has solved of its facts. Where many literals are asked,
/// [`Context::licence`] keeps what is solved for one of them.
pub fn licence(alloc: Global, context: &Context, lit: &Lit) -> Result<Licensed, AllocError>
    requires { IsTrue (is_well_formed_in context.now.scope lit.now) }
    ensures { IfOk result (IsLicence context.now lit.now) }
{
    if context.facts().has(lit) {
        return Ok(Licensed::Yes(Cert::Plain(Part::Fact)));
    }
    let mut metric_facts = context.copy_of_metric_facts(alloc)?;
    let licensed = licence_in_turn(alloc, context, &mut metric_facts, lit);
    mem::drop(metric_facts);
    licensed
}

/// Whether a literal that is no fact is allowed. What is dear is asked last: first whether its own
/// kind of magnitude gives it, then whether a transfer does from facts alone, and only then, with
/// all kinds solved, whether sums or a transfer do.
#[tactic(auto, using(crate::proofs::LimitsOfFacts::well_formed))]
pub(crate) fn licence_in_turn(
    alloc: Global,
    context: &Context,
    metric_facts: &mut MetricFacts,
    lit: &Lit,
) -> Result<Licensed, AllocError>
    requires metric_facts { AreFronts context.now.facts metric_facts.old }
    requires lit { IsTrue (is_well_formed_in context.now.scope lit.now) }
    requires not_fact { IsFalse (has context.now.facts lit.now) }
    ensures licence { IfOk result (IsLicence context.now lit.now) }
    ensures metric_facts { AreFronts context.now.facts metric_facts.new }
{
    let facts = context.facts();
    if kind(lit).is_some() {
        if let Some(cert) = metric_facts.certificate_by_kind(alloc, facts, lit)? {
            return Ok(Licensed::Yes(Cert::Plain(Part::Metric(cert))));
        }
    }
    if let Some(cert) = find_by_facts(alloc, context.scope(), facts, lit)? {
        return Ok(Licensed::Yes(Cert::Transfer(cert)));
    }
    metric_facts.catch_up_all(alloc, facts)?;
    let prepared = prepare(alloc, facts, metric_facts)?;
    let step_facts = StepFacts::new(facts, metric_facts);
    let question = Question {
        context,
        step_facts: &step_facts,
        prepared: &prepared,
        lit,
    };
    let licensed = question.licence(alloc);
    mem::drop(prepared);
    licensed
}

/// A literal that is asked about, and by what it is answered: the context, what is solved of the
/// magnitudes of its facts, and what is made of them for all literals.
#[derive(Clone, Copy)]
pub struct Question<'a> {
    pub context: &'a Context,
    pub step_facts: &'a StepFacts<'a>,
    pub prepared: &'a Prepared,
    pub lit: &'a Lit,
    ghost fronts: { step_facts.now ≡ context.now.facts },
    ghost prepares: { IsPrepared context.now.facts prepared.now },
    ghost well_formed: { IsTrue (is_well_formed_in context.now.scope lit.now) },
}

impl<'a> Question<'a> {
    /// Whether a transfer gives the literal, which is no fact. Where none does, it is answered with
    /// these values.
    fn transfer(&self, alloc: Global, values: Option<Values>) -> Result<Licensed, AllocError>
        requires { IsFalse (has self.now.context.now.facts self.now.lit.now) }
        ensures { IfOk result
            (IsAnsweredByTransfer self.now.context.now self.now.lit.now values) }
    {
        let scope = self.context.scope();
        let facts = self.context.facts();
        let metric_facts = self.step_facts.metric_facts();
        match find_prepared(alloc, scope, facts, metric_facts, self.prepared, self.lit) {
            Ok(Found::No) => Ok(Licensed::No(values)),
            Ok(Found::Yes(cert)) => {
                mem::drop(values);
                Ok(Licensed::Yes(Cert::Transfer(cert)))
            }
            Ok(Found::TooWide(width)) => {
                mem::drop(values);
                Ok(Licensed::TooWide(width))
            }
            Err(error) => {
                mem::drop(values);
                Err(error)
            }
        }
    }

    /// Whether the literal, which is no fact, is allowed: by sums, if it is metric, or by a
    /// transfer.
    #[tactic(auto, using(crate::proofs::LimitsOfFacts::well_formed))]
    fn licence(&self, alloc: Global) -> Result<Licensed, AllocError>
        requires { IsFalse (has self.now.context.now.facts self.now.lit.now) }
        ensures { IfOk result (IsLicence self.now.context.now self.now.lit.now) }
    {
        if kind(self.lit).is_none() {
            return self.transfer(alloc, None);
        }
        let facts = self.context.facts();
        match self
            .step_facts
            .metric_facts()
            .follows(alloc, facts, self.lit)?
        {
            Metric::Yes(cert) => Ok(Licensed::Yes(Cert::Plain(Part::Metric(cert)))),
            Metric::No(values) => self.transfer(alloc, Some(values)),
            // A transfer from facts alone allows it, whatever the sums are.
            Metric::TooWide(width) => match self.transfer(alloc, None)? {
                Licensed::Yes(cert) => Ok(Licensed::Yes(cert)),
                Licensed::No(_) | Licensed::TooWide(_) => Ok(Licensed::TooWide(width)),
            },
        }
    }

    /// Whether the literal is allowed, no matter why. A metric one that is seen to be false with
    /// values with which the facts are true is asked of no sums.
    pub fn verdict(&self, alloc: Global) -> Result<Verdict<()>, AllocError>
        ensures { IfOk result (JudgedIs self.now.context.now self.now.lit.now) }
    {
        let facts = self.context.facts();
        if kind(self.lit).is_some() && self.prepared.refutes(facts, self.lit) {
            return Ok(verdict_of(self.transfer(alloc, None)?));
        }
        if facts.has(self.lit) {
            return Ok(Verdict::Yes(()));
        }
        Ok(verdict_of(self.licence(alloc)?))
    }
}

/// An answer, with no word of why.
fn verdict_of(licensed: Licensed) -> Verdict<()>
    ensures { result ≡ Questions.verdict_of licensed }
{
    match licensed {
        Licensed::Yes(cert) => {
            mem::drop(cert);
            Verdict::Yes(())
        }
        Licensed::No(values) => {
            mem::drop(values);
            Verdict::No
        }
        Licensed::TooWide(width) => Verdict::TooWide(width),
    }
}
