//! What one certificate certifies.

ghost use Rattle.std.specs.Prelude.{◌≡◌, IfOk, IsTrue};
ghost use Rattle.std.specs.List.{list_all};
ghost use Rattle.e_literal.specs.WellFormed.{is_well_formed};
ghost use Rattle.e_clause.specs.Certify;
ghost use Rattle.e_clause.specs.PartCertificate;
ghost use Rattle.e_clause.specs.Written.{is_writable_part, is_writable_cert, is_writable_against};

use crate::alike::are_same;
use crate::facts::Facts;
use crate::metric::sums_refute;
use crate::scope::{cert_in, sums_in};
use crate::transfer::transfer_certifies;
use e_clause::{Against, Cert, Part};
use e_literal::{Lit, Scope, copy, in_scope, kind, negate};
use std::alloc::{AllocError, Global};
use std::mem;

/// Whether there are as many certificates as literals, and each certifies its literal in this
/// scope, by these facts.
#[tactic(auto, using(crate::proofs::checking::PairedCertificates::literals))]
pub fn certify_all(
    alloc: Global,
    scope: Scope,
    facts: &Facts,
    lits: &[Lit],
    certs: &[Cert],
) -> Result<bool, AllocError>
    requires facts { IsTrue (list_all is_well_formed facts.now) }
    requires lits { IsTrue (list_all is_well_formed lits.now) }
    requires certs { IsTrue (list_all is_writable_cert certs.now) }
    ensures { IfOk result (λ b. b ≡ Certify.certify_all scope facts.now lits.now certs.now) }
{
    match (lits, certs) {
        ([], []) => Ok(true),
        ([lit, lits @ ..], [cert, certs @ ..]) => {
            if !certifies(alloc, scope, facts, lit, cert)? {
                return Ok(false);
            }
            certify_all(alloc, scope, facts, lits, certs)
        }
        ([], [_, ..]) => Ok(false),
        ([_, ..], []) => Ok(false),
    }
}

/// Whether the certificate certifies the literal in this scope, by these facts.
pub fn certifies(
    alloc: Global,
    scope: Scope,
    facts: &Facts,
    lit: &Lit,
    cert: &Cert,
) -> Result<bool, AllocError>
    requires facts { IsTrue (list_all is_well_formed facts.now) }
    requires lit { IsTrue (is_well_formed lit.now) }
    requires cert { IsTrue (is_writable_cert cert.now) }
    ensures { IfOk result (λ b. b ≡ Certify.certifies scope facts.now lit.now cert.now) }
{
    if !cert_in(scope, cert) {
        return Ok(false);
    }
    match cert {
        Cert::Plain(part) => part_certifies(alloc, facts, lit, part),
        Cert::Transfer(transfer) => transfer_certifies(alloc, facts, lit, transfer),
    }
}

/// Whether the certificate shows in this scope that the facts contradict each other.
pub fn certifies_against(
    alloc: Global,
    scope: Scope,
    facts: &Facts,
    against: &Against,
) -> Result<bool, AllocError>
    requires facts { IsTrue (list_all is_well_formed facts.now) }
    requires against { IsTrue (is_writable_against against.now) }
    ensures { IfOk result (λ b. b ≡ Certify.certifies_against scope facts.now against.now) }
{
    match against {
        Against::Clash { lit } => {
            if !in_scope(lit, scope) || kind(lit).is_some() || !facts.has(lit) {
                return Ok(false);
            }
            let negation = negate(copy(alloc, lit)?);
            let clash = facts.has(&negation);
            mem::drop(negation);
            Ok(clash)
        }
        Against::Metric(cert) => {
            if !sums_in(scope, &cert.sums) {
                return Ok(false);
            }
            sums_refute(alloc, facts, None, &cert.sums)
        }
    }
}

/// Whether the part certifies the literal: that it is among the facts, or at the part's place among
/// them, or follows from them by the part's sums.
pub fn part_certifies(
    alloc: Global,
    facts: &Facts,
    lit: &Lit,
    part: &Part,
) -> Result<bool, AllocError>
    requires facts { IsTrue (list_all is_well_formed facts.now) }
    requires lit { IsTrue (is_well_formed lit.now) }
    requires part { IsTrue (is_writable_part part.now) }
    ensures { IfOk result (λ b. b ≡ PartCertificate.part_certifies facts.now lit.now part.now) }
{
    match part {
        Part::Fact => Ok(facts.has(lit)),
        Part::FactAt(place) => Ok(is_fact_at(facts, lit, *place)),
        Part::Metric(cert) => {
            if kind(lit).is_none() {
                return Ok(false);
            }
            sums_refute(alloc, facts, Some(lit), &cert.sums)
        }
    }
}

/// Whether the fact at this place, counted from 0, is the same as the literal.
fn is_fact_at(facts: &Facts, lit: &Lit, place: u32) -> bool
    ensures { result ≡ PartCertificate.is_fact_at facts.now lit.now place }
{
    match facts.get(place) {
        Some(fact) => are_same(fact, lit),
        None => false,
    }
}
