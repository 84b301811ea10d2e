//! What certificates look up among the facts, and which objects they name.

ghost use Rattle.std.specs.Prelude.{◌≡◌, IfOk, OnOk, List, map};
ghost use Rattle.std.specs.List.{list_any};
ghost use Rattle.std.specs.Option.{option_copied};
ghost use Rattle.e_literal.specs.Literal.{negation};
ghost use Rattle.e_literal.specs.Same.{term_eq};
ghost use Rattle.e_clause.specs.Assignment;
ghost use Rattle.e_clause.specs.Assignment.{terms_of_wanted};
ghost use Rattle.e_trim.specs.Looked;
ghost use Rattle.e_trim.specs.Looked.{both, wanted_lits, first_that};
ghost use Rattle.e_trim.specs.Looked.{parts_ends, of_row, of_sum, of_sums, of_part};
ghost use Rattle.e_trim.specs.Looked.{of_transfer, of_cert, of_certs, of_against, of_term};
ghost use Rattle.e_trim.specs.inner.Wanted.{of_negated};

use crate::instances::negated_others;
use crate::wanted::Wanted;
use e_clause::{Against, Cert, Part, RowName, Sums, TransferCert, lit_has_term};
use e_facts::Facts;
use e_literal::{Atom, Lit, Term, copy, negate};
use std::alloc::{AllocError, Global};
use std::mem;

/// Whether the term is in the wanted literal, as it is written.
fn is_wanted<'a>(wanted: Option<&'a Lit>, term: Term) -> bool
    ensures { result ≡ list_any (term_eq term) (terms_of_wanted (option_copied wanted.entry)) }
{
    match wanted {
        Some(lit) => lit_has_term(lit, term),
        None => false,
    }
}

/// Whether the literal says that the ends of the segment differ, in one order or the other.
fn parts_ends(lit: &Lit, term: Term) -> bool
    ensures { result ≡ parts_ends term lit.now }
{
    match (term, &lit.atom) {
        (Term::Seg(a, b), Atom::EqP(c, d)) => {
            lit.neg && ((*c == a && *d == b) || (*c == b && *d == a))
        }
        _ => false,
    }
}

/// The first fact that says that the ends of the segment differ is looked up.
fn look_up_parting(
    alloc: Global,
    facts: &Facts,
    term: Term,
    out: &mut Wanted,
) -> Result<(), AllocError>
    ensures { OnOk result
        (out.new ≡ both out.old (wanted_lits (first_that (Looked.parts_ends term) facts.now))) }
{
    for fact in facts.items() {
        if parts_ends(fact, term) {
            return out.look_up(alloc, fact);
        }
    }
    Ok(())
}

/// The first fact that has the term as it is written is looked up.
fn look_up_written(
    alloc: Global,
    facts: &Facts,
    term: Term,
    out: &mut Wanted,
) -> Result<(), AllocError>
    ensures { OnOk result (out.new
        ≡ both out.old (wanted_lits (first_that (Assignment.lit_has_term term) facts.now))) }
{
    for fact in facts.items() {
        if lit_has_term(fact, term) {
            return out.look_up(alloc, fact);
        }
    }
    Ok(())
}

/// What the term of a row wants.
#[tactic(auto, using(crate::proofs::walks::Both::joining))]
fn look_term<'a>(
    alloc: Global,
    facts: &'a Facts,
    wanted: Option<&'a Lit>,
    term: Term,
    out: &mut Wanted,
) -> Result<(), AllocError>
    ensures { OnOk result
        (out.new ≡ both out.old (of_term facts.now (option_copied wanted.entry) term)) }
{
    if !is_wanted(wanted, term) {
        look_up_written(alloc, facts, term, out)?;
    }
    out.need_term(term)
}

/// What the name of a row wants.
#[tactic(auto, using(crate::proofs::walks::Both::joining))]
fn look_row<'a>(
    alloc: Global,
    facts: &'a Facts,
    wanted: Option<&'a Lit>,
    name: &'a RowName,
    out: &mut Wanted,
) -> Result<(), AllocError>
    ensures { OnOk result
        (out.new ≡ both out.old (of_row facts.now (option_copied wanted.entry) name.now)) }
{
    match name {
        RowName::Fact(lit) => out.name(alloc, lit),
        RowName::Pos(term) => {
            look_up_parting(alloc, facts, *term, out)?;
            look_term(alloc, facts, wanted, *term, out)
        }
        RowName::Top(term) | RowName::Least(term) => look_term(alloc, facts, wanted, *term, out),
        RowName::Goal | RowName::Right | RowName::Above | RowName::Below | RowName::FactAt(_) => Ok(
            (),
        ),
    }
}

/// What a sum wants.
#[tactic(auto, using(crate::proofs::walks::Both::joining))]
fn look_sum<'a>(
    alloc: Global,
    facts: &'a Facts,
    wanted: Option<&'a Lit>,
    sum: &'a [(i128, RowName)],
    out: &mut Wanted,
) -> Result<(), AllocError>
    ensures { OnOk result
        (out.new ≡ both out.old (of_sum facts.now (option_copied wanted.entry) sum.now)) }
{
    for (_, name) in sum {
        look_row(alloc, facts, wanted, name, out)?;
    }
    Ok(())
}

/// What the sums of a certificate want.
#[tactic(auto, using(crate::proofs::walks::Both::joining))]
fn look_sums<'a>(
    alloc: Global,
    facts: &'a Facts,
    wanted: Option<&'a Lit>,
    sums: &'a Sums,
    out: &mut Wanted,
) -> Result<(), AllocError>
    ensures { OnOk result
        (out.new ≡ both out.old (of_sums facts.now (option_copied wanted.entry) sums.now)) }
{
    match sums {
        Sums::One(sum) => look_sum(alloc, facts, wanted, sum.rows(), out),
        Sums::Two {
            differs,
            above,
            below,
        } => {
            look_row(alloc, facts, wanted, differs, out)?;
            look_sum(alloc, facts, wanted, above.rows(), out)?;
            look_sum(alloc, facts, wanted, below.rows(), out)
        }
    }
}

/// What a part wants that certifies the literal.
fn look_part(
    alloc: Global,
    facts: &Facts,
    lit: &Lit,
    part: &Part,
    out: &mut Wanted,
) -> Result<(), AllocError>
    ensures { OnOk result (out.new ≡ both out.old (of_part facts.now lit.now part.now)) }
{
    match part {
        Part::Fact => out.look_up(alloc, lit),
        Part::Metric(cert) => look_sums(alloc, facts, Some(lit), &cert.sums, out),
        Part::FactAt(_) => Ok(()),
    }
}

/// What parts want that certify these literals, one for each.
#[tactic(auto, using(crate::proofs::walks::Both::paired))]
fn look_parts(
    alloc: Global,
    facts: &Facts,
    lits: &[Lit],
    parts: &[Part],
    out: &mut Wanted,
) -> Result<(), AllocError>
    ensures { OnOk result (out.new ≡ both out.old (of_negated facts.now lits.now parts.now)) }
{
    match (lits, parts) {
        ([lit, lits @ ..], [part, parts @ ..]) => {
            look_part(alloc, facts, lit, part, out)?;
            look_parts(alloc, facts, lits, parts, out)
        }
        _ => Ok(()),
    }
}

/// What a transfer wants that certifies the literal.
#[tactic(auto, using(crate::proofs::walks::LookedUp::transferring))]
fn look_transfer(
    alloc: Global,
    facts: &Facts,
    lit: &Lit,
    cert: &TransferCert,
    out: &mut Wanted,
) -> Result<(), AllocError>
    ensures { OnOk result (out.new ≡ both out.old (of_transfer facts.now lit.now cert.now)) }
{
    out.need_all(cert.args.items())?;
    let lits = negated_others(alloc, cert.rule, cert.args.items(), lit)?;
    look_parts(alloc, facts, &lits, cert.parts.items(), out)
}

/// What a certificate of the literal wants.
pub fn look_cert(
    alloc: Global,
    facts: &Facts,
    lit: &Lit,
    cert: &Cert,
    out: &mut Wanted,
) -> Result<(), AllocError>
    ensures { OnOk result (out.new ≡ both out.old (of_cert facts.now lit.now cert.now)) }
{
    match cert {
        Cert::Plain(part) => look_part(alloc, facts, lit, part, out),
        Cert::Transfer(transfer) => look_transfer(alloc, facts, lit, transfer, out),
    }
}

/// What certificates of these literals want, one for each.
#[tactic(auto, using(crate::proofs::walks::Both::paired))]
pub fn look_certs(
    alloc: Global,
    facts: &Facts,
    lits: &[Lit],
    certs: &[Cert],
    out: &mut Wanted,
) -> Result<(), AllocError>
    ensures { OnOk result (out.new ≡ both out.old (of_certs facts.now lits.now certs.now)) }
{
    match (lits, certs) {
        ([lit, lits @ ..], [cert, certs @ ..]) => {
            look_cert(alloc, facts, lit, cert, out)?;
            look_certs(alloc, facts, lits, certs, out)
        }
        _ => Ok(()),
    }
}

/// What the certificate of a contradiction wants.
pub fn look_against(
    alloc: Global,
    facts: &Facts,
    against: &Against,
    out: &mut Wanted,
) -> Result<(), AllocError>
    ensures { OnOk result (out.new ≡ both out.old (of_against facts.now against.now)) }
{
    match against {
        Against::Clash { lit } => {
            out.name(alloc, lit)?;
            let negation = negate(copy(alloc, lit)?);
            let named = out.name(alloc, &negation);
            mem::drop(negation);
            named
        }
        Against::Metric(cert) => look_sums(alloc, facts, None, &cert.sums, out),
    }
}
