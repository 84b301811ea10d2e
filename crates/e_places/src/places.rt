//! Certificates with the places of the facts that they cite, in place of the literals.

ghost use Rattle.std.specs.Prelude.{◌≡◌, ◌<◌, ◌^◌, ◌++◌, length, IfOk, OnOk, false};
ghost use Rattle.e_places.specs.Numbered;

use e_clause::{Against, Cert, MetricCert, Part, RowName, Sum, Sums, TransferCert, instance_of};
use e_literal::{Atom, Items, Lit, Mono, agree_at, copy, is_degenerate};
use e_verify::{Facts, negated_others};
use std::alloc::{AllocError, Global};
use std::mem;

/// The name of a row by its place, and whether the row that it had is opposite.
#[derive(Drop)]
struct Placed {
    name: RowName,
    turned: bool,
}

/// The place of the fact that is the same as the literal; the number of all facts where none is.
fn place_among(facts: &Facts, lit: &Lit) -> u32
    requires { length facts.now < 2 ^ 32 }
    ensures { result ≡ Numbered.place_of_same facts.now lit.now }
{
    match facts.place_of(lit) {
        Some(place) => place as u32,
        None => facts.len() as u32,
    }
}

/// Whether the row of the literal is opposite to that of the fact at this place, which is the same.
fn is_turned(facts: &Facts, place: u32, lit: &Lit) -> bool
    requires { place ≡ Numbered.place_of_same facts.now lit.now }
    ensures { result ≡ Numbered.has_opposite_row facts.now lit.now }
{
    let fact = facts.get(place).unwrap_or(lit);
    are_turned(&lit.atom, &fact.atom)
}

fn are_turned(a: &Atom, b: &Atom) -> bool
    ensures { result ≡ Numbered.have_opposite_rows a.now b.now }
{
    match (a, b) {
        (Atom::MagEq(x, y), Atom::MagEq(z, w)) => {
            !count_alike(x.items(), y.items(), z.items(), w.items())
        }
        _ => false,
    }
}

fn count_alike(x: &[Mono], y: &[Mono], z: &[Mono], w: &[Mono]) -> bool
    ensures { result ≡ Numbered.have_one_form x.now y.now z.now w.now }
{
    count_alike_at(x, y, z, w, x)
        && count_alike_at(x, y, z, w, y)
        && count_alike_at(x, y, z, w, z)
        && count_alike_at(x, y, z, w, w)
}

fn count_alike_at(x: &[Mono], y: &[Mono], z: &[Mono], w: &[Mono], terms: &[Mono]) -> bool
    ensures { result ≡ Numbered.have_one_form_at x.now y.now z.now w.now terms.now }
{
    terms
        .iter()
        .all(|m| is_degenerate(m.term) || agree_at(x, y, z, w, m.term))
}

/// The name with its place.
fn placed_name(facts: &Facts, name: &RowName) -> Placed
    requires { length facts.now < 2 ^ 32 }
    ensures { (result.name ≡ Numbered.name_with_place facts.now name.now)
        × (result.turned ≡ Numbered.turns facts.now name.now) }
{
    match name {
        RowName::Fact(lit) => {
            let place = place_among(facts, lit);
            let turned = is_turned(facts, place, lit);
            let name = RowName::FactAt(place);
            Placed { name, turned }
        }
        RowName::Goal => as_it_is(RowName::Goal),
        RowName::Pos(term) => as_it_is(RowName::Pos(*term)),
        RowName::Top(term) => as_it_is(RowName::Top(*term)),
        RowName::Right => as_it_is(RowName::Right),
        RowName::Least(term) => as_it_is(RowName::Least(*term)),
        RowName::Above => as_it_is(RowName::Above),
        RowName::Below => as_it_is(RowName::Below),
        RowName::FactAt(place) => as_it_is(RowName::FactAt(*place)),
    }
}

/// A name that has no literal.
fn as_it_is(name: RowName) -> Placed
    ensures { (result.name ≡ name) × (result.turned ≡ false) }
{
    Placed {
        name,
        turned: false,
    }
}

/// A row with its place, and the multiplier that it has then.
fn placed_row(
    facts: &Facts,
    multiplier: i128,
    name: &RowName,
) -> Result<(i128, RowName), AllocError>
    requires { length facts.now < 2 ^ 32 }
    ensures { IfOk result (λ x. x ≡ Numbered.row_with_place facts.now (multiplier, name.now)) }
{
    let Placed { name, turned } = placed_name(facts, name);
    if !turned {
        return Ok((multiplier, name));
    }
    match multiplier.checked_neg() {
        Some(opposite) => Ok((opposite, name)),
        None => {
            mem::drop(name);
            Err(AllocError)
        }
    }
}

fn placed_sum(
    alloc: Global,
    facts: &Facts,
    sum: &[(i128, RowName)],
) -> Result<Vec<(i128, RowName)>, AllocError>
    requires { length facts.now < 2 ^ 32 }
    ensures { IfOk result (λ v. v.items ≡ Numbered.sum_with_places facts.now sum.now) }
{
    let mut rows = Vec::new(alloc);
    for row in sum {
        match placed_row(facts, row.0, &row.1) {
            Ok(placed) => rows.push(placed)?,
            Err(error) => {
                mem::drop(rows);
                return Err(error);
            }
        }
    }
    Ok(rows)
}

/// The rows where the form that is said not to be 0 has changed its sign.
fn swap_sides(alloc: Global, sum: Vec<(i128, RowName)>) -> Result<Vec<(i128, RowName)>, AllocError>
    ensures { IfOk result (λ v. v.items ≡ Numbered.sides_swapped sum.items) }
{
    let mut rows = Vec::new(alloc);
    for row in sum {
        rows.push((row.0, other_side(row.1)))?;
    }
    Ok(rows)
}

fn other_side(name: RowName) -> RowName
    ensures { result ≡ Numbered.opposite_side name }
{
    match name {
        RowName::Above => RowName::Below,
        RowName::Below => RowName::Above,
        name => name,
    }
}

fn placed_sums(alloc: Global, facts: &Facts, sums: &Sums) -> Result<Sums, AllocError>
    requires { length facts.now < 2 ^ 32 }
    ensures { IfOk result (λ s. s ≡ Numbered.sums_with_places facts.now sums.now) }
{
    match sums {
        Sums::One(sum) => Ok(Sums::One(Sum::new(placed_sum(alloc, facts, sum.rows())?))),
        Sums::Two {
            differs,
            above,
            below,
        } => {
            let above = placed_sum(alloc, facts, above.rows())?;
            let below = placed_sum(alloc, facts, below.rows())?;
            two_sums(alloc, placed_name(facts, differs), above, below)
        }
    }
}

/// The two sums, which change places where the form that is said not to be 0 has changed its sign.
fn two_sums(
    alloc: Global,
    differs: Placed,
    above: Vec<(i128, RowName)>,
    below: Vec<(i128, RowName)>,
) -> Result<Sums, AllocError>
    ensures { IfOk result
        (λ s. s ≡ Numbered.two_placed differs.turned differs.name above.items below.items) }
{
    let Placed { name, turned } = differs;
    let sides = if turned {
        exchange_sums(alloc, above, below)
    } else {
        Ok((above, below))
    };
    match sides {
        Ok((above, below)) => Ok(Sums::Two {
            differs: name,
            above: Sum::new(above),
            below: Sum::new(below),
        }),
        Err(error) => {
            mem::drop(name);
            Err(error)
        }
    }
}

/// The two sums, each in the place of the other, where the form that is said not to be 0 has
/// changed its sign.
fn exchange_sums(
    alloc: Global,
    above: Vec<(i128, RowName)>,
    below: Vec<(i128, RowName)>,
) -> Result<(Vec<(i128, RowName)>, Vec<(i128, RowName)>), AllocError>
    ensures first { IfOk result (λ p. p.0.items ≡ Numbered.sides_swapped below.items) }
    ensures second { IfOk result (λ p. p.1.items ≡ Numbered.sides_swapped above.items) }
{
    let first = match swap_sides(alloc, below) {
        Ok(first) => first,
        Err(error) => {
            mem::drop(above);
            return Err(error);
        }
    };
    match swap_sides(alloc, above) {
        Ok(second) => Ok((first, second)),
        Err(error) => {
            mem::drop(first);
            Err(error)
        }
    }
}

fn placed_metric(alloc: Global, facts: &Facts, cert: &MetricCert) -> Result<MetricCert, AllocError>
    requires { length facts.now < 2 ^ 32 }
    ensures { IfOk result (λ c. c.sums ≡ Numbered.sums_with_places facts.now cert.now.sums) }
{
    Ok(MetricCert {
        sums: placed_sums(alloc, facts, &cert.sums)?,
    })
}

fn placed_part(alloc: Global, facts: &Facts, lit: &Lit, part: &Part) -> Result<Part, AllocError>
    requires { length facts.now < 2 ^ 32 }
    ensures { IfOk result (λ p. p ≡ Numbered.part_with_places facts.now lit.now part.now) }
{
    match part {
        Part::Fact => Ok(Part::FactAt(place_among(facts, lit))),
        Part::Metric(cert) => Ok(Part::Metric(placed_metric(alloc, facts, cert)?)),
        Part::FactAt(place) => Ok(Part::FactAt(*place)),
    }
}

/// Puts the parts last, each for its literal.
#[tactic(auto, using(crate::proofs::placing::PairedPlaces::parts))]
fn put_parts(
    alloc: Global,
    facts: &Facts,
    lits: &[Lit],
    parts: &[Part],
    out: &mut Vec<Part>,
) -> Result<(), AllocError>
    requires { length facts.now < 2 ^ 32 }
    ensures { OnOk result
        (out.new.items ≡ out.old.items ++ Numbered.parts_with_places facts.now lits.now parts.now) }
{
    match (lits, parts) {
        ([lit, lits @ ..], [part, parts @ ..]) => {
            out.push(placed_part(alloc, facts, lit, part)?)?;
            put_parts(alloc, facts, lits, parts, out)
        }
        ([], _) => Ok(()),
        ([_, ..], []) => Ok(()),
    }
}

fn placed_transfer(
    alloc: Global,
    facts: &Facts,
    lit: &Lit,
    cert: &TransferCert,
) -> Result<TransferCert, AllocError>
    requires { length facts.now < 2 ^ 32 }
    ensures { IfOk result (λ c. c ≡ Numbered.transfer_with_places facts.now lit.now cert.now) }
{
    let args = Vec::from_slice(alloc, cert.args.items())?;
    let mut parts = Vec::new(alloc);
    match instance_of(alloc, cert.rule, cert.args.items())? {
        Some(lits) => {
            let needs = negated_others(alloc, lits, lit)?;
            put_parts(alloc, facts, &needs, cert.parts.items(), &mut parts)?;
        }
        None => {}
    }
    Ok(TransferCert {
        rule: cert.rule,
        args: Items::new(args),
        parts: Items::new(parts),
    })
}

/// The certificate of a literal, with the places of facts.
pub fn placed_cert(alloc: Global, facts: &Facts, lit: &Lit, cert: &Cert) -> Result<Cert, AllocError>
    requires { length facts.now < 2 ^ 32 }
    ensures { IfOk result (λ c. c ≡ Numbered.cert_with_places facts.now lit.now cert.now) }
{
    match cert {
        Cert::Plain(part) => Ok(Cert::Plain(placed_part(alloc, facts, lit, part)?)),
        Cert::Transfer(transfer) => {
            Ok(Cert::Transfer(placed_transfer(alloc, facts, lit, transfer)?))
        }
    }
}

/// The certificates of literals, with the places of facts.
pub fn placed_certs(
    alloc: Global,
    facts: &Facts,
    lits: &[Lit],
    certs: &[Cert],
) -> Result<Items<Cert>, AllocError>
    requires { length facts.now < 2 ^ 32 }
    ensures { IfOk result (λ cs. cs ≡ Numbered.certs_with_places facts.now lits.now certs.now) }
{
    let mut out = Vec::new(alloc);
    match put_certs(alloc, facts, lits, certs, &mut out) {
        Ok(()) => Ok(Items::new(out)),
        Err(error) => {
            mem::drop(out);
            Err(error)
        }
    }
}

/// Puts the certificates last, each for its literal.
#[tactic(auto, using(crate::proofs::placing::PairedPlaces::certs))]
fn put_certs(
    alloc: Global,
    facts: &Facts,
    lits: &[Lit],
    certs: &[Cert],
    out: &mut Vec<Cert>,
) -> Result<(), AllocError>
    requires { length facts.now < 2 ^ 32 }
    ensures { OnOk result
        (out.new.items ≡ out.old.items ++ Numbered.certs_with_places facts.now lits.now certs.now) }
{
    match (lits, certs) {
        ([lit, lits @ ..], [cert, certs @ ..]) => {
            out.push(placed_cert(alloc, facts, lit, cert)?)?;
            put_certs(alloc, facts, lits, certs, out)
        }
        ([], _) => Ok(()),
        ([_, ..], []) => Ok(()),
    }
}

/// The certificate of a contradiction, with the places of facts.
pub fn placed_against(
    alloc: Global,
    facts: &Facts,
    against: &Against,
) -> Result<Against, AllocError>
    requires { length facts.now < 2 ^ 32 }
    ensures { IfOk result (λ a. a ≡ Numbered.against_with_places facts.now against.now) }
{
    match against {
        Against::Clash { lit } => Ok(Against::Clash {
            lit: copy(alloc, lit)?,
        }),
        Against::Metric(cert) => Ok(Against::Metric(placed_metric(alloc, facts, cert)?)),
    }
}
