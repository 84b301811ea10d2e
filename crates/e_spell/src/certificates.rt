//! The lines of certificates.
ghost use Rattle.std.specs.Prelude.{◌≡◌, ◌++◌, ◌∷◌, [], codes, decimal, OnOk};
ghost use Rattle.std.specs.Option.{option_to_list};
ghost use Rattle.e_text.specs.Tokens.{with_spaces};
ghost use Rattle.e_line.specs.Canonical.{lit_words};
ghost use Rattle.e_names.specs.Canonical.{raw_of};
ghost use Rattle.e_spell.specs.Certificates.{named_term, row_words};
ghost use Rattle.e_spell.specs.inner.Parts.{place_text, row_text, sum_text, rows_text};
ghost use Rattle.e_spell.specs.inner.Parts.{differs_text, sums_text, metric_text, part_text};
ghost use Rattle.e_spell.specs.inner.Parts.{parts_text, instance_text, transfer_text, cert_text};
ghost use Rattle.e_spell.specs.inner.Parts.{certs_text, against_text, contradiction_text};

use crate::literals::{put_literal, put_literal_line, put_objects, put_term};
use crate::rules::put_rule;
use e_clause::{Against, Cert, MetricCert, Part, RowName, Rule, Sums, TransferCert};
use e_deriv::Names;
use e_literal::{Lit, Obj, Term};
use e_text::{end_line, put, put_line, put_number};
use std::alloc::{AllocError, Global};

/// A row that is said of a term.
fn put_term_row(out: &mut Vec<u8>, names: &Names, word: &[u8], term: Term) -> Result<(), AllocError>
    ensures { OnOk result
        (out.new.items ≡ out.old.items ++ with_spaces (word.now ∷ named_term names.now term)) }
{
    put(out, word)?;
    put_term(out, names, term)
}

fn put_fact_row(
    alloc: Global,
    out: &mut Vec<u8>,
    names: &Names,
    lit: &Lit,
) -> Result<(), AllocError>
    ensures { OnOk result (out.new.items ≡ out.old.items
        ++ with_spaces (codes "fact" ∷ lit_words (raw_of names.now lit.now))) }
{
    put(out, b"fact")?;
    put_literal(alloc, out, names, lit)
}

/// A fact by its place.
fn put_place(out: &mut Vec<u8>, place: u32) -> Result<(), AllocError>
    ensures { OnOk result
        (out.new.items ≡ out.old.items ++ with_spaces (codes "fact" ∷ decimal place ∷ [])) }
{
    put(out, b"fact")?;
    put_number(out, place)
}

/// The name of a row.
fn put_row(alloc: Global, out: &mut Vec<u8>, names: &Names, row: &RowName) -> Result<(), AllocError>
    ensures { OnOk result (out.new.items ≡ out.old.items ++ with_spaces (row_words names.now row.now)) }
{
    match row {
        RowName::Fact(lit) => put_fact_row(alloc, out, names, lit),
        RowName::Goal => put(out, b"goal"),
        RowName::Pos(term) => put_term_row(out, names, b"pos", *term),
        RowName::Top(term) => put_term_row(out, names, b"top", *term),
        RowName::Right => put(out, b"right"),
        RowName::Least(term) => put_term_row(out, names, b"least", *term),
        RowName::Above => put(out, b"above"),
        RowName::Below => put(out, b"below"),
        RowName::FactAt(place) => put_place(out, *place),
    }
}

/// A row after its multiplier.
fn put_row_line(
    alloc: Global,
    out: &mut Vec<u8>,
    names: &Names,
    row: &(i128, RowName),
) -> Result<(), AllocError>
    ensures { OnOk result (out.new.items ≡ out.old.items ++ row_text names.now row.now) }
{
    out.extend_from_slice(b"|")?;
    put_number(out, row.0)?;
    put_row(alloc, out, names, &row.1)?;
    end_line(out)
}

/// The rows of a sum, one a line.
fn put_rows(
    alloc: Global,
    out: &mut Vec<u8>,
    names: &Names,
    rows: &[(i128, RowName)],
) -> Result<(), AllocError>
    ensures { OnOk result (out.new.items ≡ out.old.items ++ rows_text names.now rows.now) }
{
    for row in rows {
        put_row_line(alloc, out, names, row)?;
    }
    Ok(())
}

fn put_sum(
    alloc: Global,
    out: &mut Vec<u8>,
    names: &Names,
    rows: &[(i128, RowName)],
) -> Result<(), AllocError>
    ensures { OnOk result (out.new.items ≡ out.old.items ++ sum_text names.now rows.now) }
{
    put_line(out, b"| sum")?;
    put_rows(alloc, out, names, rows)
}

/// The row whose form is more or less than 0.
fn put_differs(
    alloc: Global,
    out: &mut Vec<u8>,
    names: &Names,
    row: &RowName,
) -> Result<(), AllocError>
    ensures { OnOk result (out.new.items ≡ out.old.items ++ differs_text names.now row.now) }
{
    out.extend_from_slice(b"| differs")?;
    put_row(alloc, out, names, row)?;
    end_line(out)
}

fn put_sums(alloc: Global, out: &mut Vec<u8>, names: &Names, sums: &Sums) -> Result<(), AllocError>
    ensures { OnOk result (out.new.items ≡ out.old.items ++ sums_text names.now sums.now) }
{
    match sums {
        Sums::One(sum) => put_sum(alloc, out, names, sum.rows()),
        Sums::Two {
            differs,
            above,
            below,
        } => {
            put_differs(alloc, out, names, differs)?;
            put_sum(alloc, out, names, above.rows())?;
            put_sum(alloc, out, names, below.rows())
        }
    }
}

fn put_metric(
    alloc: Global,
    out: &mut Vec<u8>,
    names: &Names,
    cert: &MetricCert,
) -> Result<(), AllocError>
    ensures { OnOk result (out.new.items ≡ out.old.items ++ metric_text names.now cert.now) }
{
    put_line(out, b"| metric")?;
    put_sums(alloc, out, names, &cert.sums)
}

/// The line of a fact by its place.
fn put_place_line(out: &mut Vec<u8>, place: u32) -> Result<(), AllocError>
    ensures { OnOk result (out.new.items ≡ out.old.items ++ place_text place) }
{
    out.extend_from_slice(b"|")?;
    put_place(out, place)?;
    end_line(out)
}

fn put_part(alloc: Global, out: &mut Vec<u8>, names: &Names, part: &Part) -> Result<(), AllocError>
    ensures { OnOk result (out.new.items ≡ out.old.items ++ part_text names.now part.now) }
{
    match part {
        Part::Fact => put_line(out, b"| fact"),
        Part::Metric(cert) => put_metric(alloc, out, names, cert),
        Part::FactAt(place) => put_place_line(out, *place),
    }
}

/// The certificates of the parts of a transfer, in order.
fn put_parts(
    alloc: Global,
    out: &mut Vec<u8>,
    names: &Names,
    parts: &[Part],
) -> Result<(), AllocError>
    ensures { OnOk result (out.new.items ≡ out.old.items ++ parts_text names.now parts.now) }
{
    for part in parts {
        put_part(alloc, out, names, part)?;
    }
    Ok(())
}

/// The rule of a transfer and its arguments.
fn put_instance(
    out: &mut Vec<u8>,
    names: &Names,
    rule: Rule,
    args: &[Obj],
) -> Result<(), AllocError>
    ensures { OnOk result (out.new.items ≡ out.old.items ++ instance_text names.now rule args.now) }
{
    out.extend_from_slice(b"| transfer")?;
    put_rule(out, rule)?;
    put_objects(out, names, args)?;
    end_line(out)
}

fn put_transfer(
    alloc: Global,
    out: &mut Vec<u8>,
    names: &Names,
    cert: &TransferCert,
) -> Result<(), AllocError>
    ensures { OnOk result (out.new.items ≡ out.old.items ++ transfer_text names.now cert.now) }
{
    put_instance(out, names, cert.rule, cert.args.items())?;
    put_parts(alloc, out, names, cert.parts.items())
}

fn put_cert(alloc: Global, out: &mut Vec<u8>, names: &Names, cert: &Cert) -> Result<(), AllocError>
    ensures { OnOk result (out.new.items ≡ out.old.items ++ cert_text names.now cert.now) }
{
    match cert {
        Cert::Plain(part) => put_part(alloc, out, names, part),
        Cert::Transfer(transfer) => put_transfer(alloc, out, names, transfer),
    }
}

/// The certificates of a line, in order.
pub(crate) fn put_certs(
    alloc: Global,
    out: &mut Vec<u8>,
    names: &Names,
    certs: &[Cert],
) -> Result<(), AllocError>
    ensures { OnOk result (out.new.items ≡ out.old.items ++ certs_text names.now certs.now) }
{
    for cert in certs {
        put_cert(alloc, out, names, cert)?;
    }
    Ok(())
}

/// The certificate of a line, if it has one.
pub(crate) fn put_cert_of(
    alloc: Global,
    out: &mut Vec<u8>,
    names: &Names,
    cert: &Option<Cert>,
) -> Result<(), AllocError>
    ensures { OnOk result
        (out.new.items ≡ out.old.items ++ certs_text names.now (option_to_list cert.now)) }
{
    match cert {
        Some(cert) => put_cert(alloc, out, names, cert),
        None => Ok(()),
    }
}

fn put_against(
    alloc: Global,
    out: &mut Vec<u8>,
    names: &Names,
    against: &Against,
) -> Result<(), AllocError>
    ensures { OnOk result (out.new.items ≡ out.old.items ++ against_text names.now against.now) }
{
    match against {
        Against::Clash { lit } => put_literal_line(alloc, out, b"| clash", names, lit),
        Against::Metric(cert) => put_metric(alloc, out, names, cert),
    }
}

/// The certificate of a contradiction, if it has one.
pub(crate) fn put_against_of(
    alloc: Global,
    out: &mut Vec<u8>,
    names: &Names,
    against: &Option<Against>,
) -> Result<(), AllocError>
    ensures { OnOk result
        (out.new.items ≡ out.old.items ++ contradiction_text names.now against.now) }
{
    match against {
        Some(against) => put_against(alloc, out, names, against),
        None => Ok(()),
    }
}
