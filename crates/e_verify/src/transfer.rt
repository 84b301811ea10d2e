//! What a transfer certificate certifies.

ghost use Rattle.std.specs.Prelude.{◌≡◌, IfOk, IsTrue, map};
ghost use Rattle.std.specs.List.{list_all};
ghost use Rattle.e_literal.specs.Literal.{negation};
ghost use Rattle.e_literal.specs.WellFormed.{is_well_formed};
ghost use Rattle.e_clause.specs.TransferCertificate;
ghost use Rattle.e_clause.specs.Written.{is_writable_part};

use crate::certificate::part_certifies;
use crate::facts::Facts;
use crate::instances::{is_among, negated_others};
use e_clause::{Part, TransferCert, instance_of};
use e_literal::Lit;
use std::alloc::{AllocError, Global};

/// Whether the instance of the transfer clause gives the literal, by these parts.
pub fn transfer_certifies(
    alloc: Global,
    facts: &Facts,
    lit: &Lit,
    cert: &TransferCert,
) -> Result<bool, AllocError>
    requires facts { IsTrue (list_all is_well_formed facts.now) }
    requires parts { IsTrue (list_all is_writable_part cert.now.parts) }
    ensures { IfOk result
        (λ b. b ≡ TransferCertificate.transfer_certifies facts.now lit.now cert.now) }
{
    if !cert.rule.is_transfer() {
        return Ok(false);
    }
    let Some(lits) = instance_of(alloc, cert.rule, cert.args.items())? else {
        return Ok(false);
    };
    if !is_among(&lits, lit) {
        return Ok(false);
    }
    let needs = negated_others(alloc, lits, lit)?;
    parts_certify_needs(alloc, facts, &needs, cert.parts.items())
}

/// Whether there are as many parts as literals that are needed, and each certifies its literal. The
/// definition takes the literals whose negations are needed, so they are negated back here.
#[tactic(auto, using(crate::proofs::checking::PairedCertificates::parts))]
fn parts_certify_needs(
    alloc: Global,
    facts: &Facts,
    needs: &[Lit],
    parts: &[Part],
) -> Result<bool, AllocError>
    requires facts { IsTrue (list_all is_well_formed facts.now) }
    requires lits { IsTrue (list_all is_well_formed needs.now) }
    requires parts { IsTrue (list_all is_writable_part parts.now) }
    ensures { IfOk result
        (λ b. b ≡ TransferCertificate.parts_certify facts.now (map negation needs.now) parts.now) }
{
    match (needs, parts) {
        ([], []) => Ok(true),
        ([lit, needs @ ..], [part, parts @ ..]) => {
            if !part_certifies(alloc, facts, lit, part)? {
                return Ok(false);
            }
            parts_certify_needs(alloc, facts, needs, parts)
        }
        ([], [_, ..]) => Ok(false),
        ([_, ..], []) => Ok(false),
    }
}
