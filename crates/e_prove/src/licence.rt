//! Whether a literal is allowed by the facts, and whether a citation gives its literal.
ghost use Rattle.std.specs.Prelude.{◌≡◌, [], ◌∷◌, IsTrue, IfOk, IfErr, map};
ghost use Rattle.std.specs.List.{list_all};
ghost use Rattle.e_literal.specs.Facts.{has, has_all, others};
ghost use Rattle.e_literal.specs.Literal.{negation};
ghost use Rattle.e_clause.specs.Certify.{certifies, certify_all};
ghost use Rattle.e_clause.specs.LimitedFacts.{is_well_formed_in, are_well_formed_in};
ghost use Rattle.e_deriv.specs.Steps.{is_cited};
ghost use Rattle.e_clause.specs.declared.cert.Version.TheVariants as version;
ghost use Rattle.e_clause.specs.Versions.{is_cert_of};
ghost use Rattle.e_prove.specs.inner.StopsOfSteps.{StepStopsAmong};

use crate::stop_reason::StopReason;
use e_clause::{By, Cert, InstanceFault, instance};
use e_deriv::Wanted;
use e_facts::Facts;
use e_licence::{Context, Licensed};
use e_literal::{Lit, copy, negate, same};
use std::alloc::{AllocError, Global};
use std::mem;

/// A certificate of the literal, where it is allowed. It cites facts by literals, which are well
/// formed.
pub fn licence(alloc: Global, context: &mut Context, lit: &Lit) -> Result<Cert, StopReason>
    requires { IsTrue (is_well_formed_in context.old.scope lit.now) }
    ensures ok { IfOk result
        (λ c. IsTrue (certifies context.old.scope context.old.facts lit.now c)) }
    ensures version { IfOk result (λ c. IsTrue (is_cert_of version.One c)) }
    ensures err { IfErr result (StepStopsAmong context.old (lit.now ∷ [])) }
    ensures kept { context.new ≡ context.old }
{
    let answer = context.licence(alloc, lit)?;
    match answer {
        Licensed::Yes(cert) => Ok(cert),
        Licensed::No(values) => match copy(alloc, lit) {
            Ok(lit) => {
                let wanted = Wanted::Literal(lit);
                Err(StopReason::Lacks { wanted, values })
            }
            Err(_) => {
                mem::drop(values);
                Err(StopReason::NoMemory)
            }
        },
        Licensed::TooWide(width) => {
            let wanted = Wanted::Literal(copy(alloc, lit)?);
            Err(StopReason::TooWide { wanted, width })
        }
    }
}

/// A certificate of each literal, where each is allowed. They are asked for in order, and the first
/// that is not allowed, or too wide to be decided, stops it.
pub fn licences(alloc: Global, context: &mut Context, lits: &[Lit]) -> Result<Vec<Cert>, StopReason>
    requires { IsTrue (are_well_formed_in context.old.scope lits.now) }
    ensures ok { IfOk result
        (λ cs. IsTrue (certify_all context.old.scope context.old.facts lits.now cs.items)) }
    ensures version { IfOk result (λ cs. IsTrue (list_all (is_cert_of version.One) cs.items)) }
    ensures err { IfErr result (StepStopsAmong context.old lits.now) }
    ensures kept { context.new ≡ context.old }
{
    let mut certs = Vec::new(alloc);
    for lit in lits {
        let cert = licence(alloc, context, lit)?;
        certs.push(cert)?;
    }
    Ok(certs)
}

/// Whether the cited instance gives the literal: it is one of the instance, and the negation of
/// each other is a fact.
pub fn is_cited(alloc: Global, by: &By, facts: &Facts) -> Result<bool, AllocError>
    ensures { IfOk result (λ b. b ≡ is_cited facts.now by.now) }
{
    match instance(alloc, by.rule, by.args.items()) {
        Ok(lits) => {
            if !is_among(&lits, &by.lit) {
                return Ok(false);
            }
            others_fail(alloc, facts, &by.lit, &lits)
        }
        Err(InstanceFault::BadArgs) => Ok(false),
        Err(InstanceFault::NoMemory) => Err(AllocError),
    }
}

/// Whether one of the literals is the same as this one.
fn is_among(lits: &[Lit], lit: &Lit) -> bool
    ensures { result ≡ has lits.now lit.now }
{
    lits.iter().any(|m| same(m, lit))
}

/// Whether the negation of each literal that is not the same as this one is a fact.
fn others_fail(alloc: Global, facts: &Facts, lit: &Lit, lits: &[Lit]) -> Result<bool, AllocError>
    ensures { IfOk result (λ b. b ≡ has_all facts.now (map negation (others lits.now lit.now))) }
{
    for m in lits {
        if !same(m, lit) && !has_negation(alloc, facts, m)? {
            return Ok(false);
        }
    }
    Ok(true)
}

/// Whether the negation of the literal is a fact.
fn has_negation(alloc: Global, facts: &Facts, lit: &Lit) -> Result<bool, AllocError>
    ensures { IfOk result (λ b. b ≡ has facts.now (negation lit.now)) }
{
    let opposite = negate(copy(alloc, lit)?);
    let is_there = facts.has(&opposite);
    mem::drop(opposite);
    Ok(is_there)
}
