//! What is kept, over the kept objects: each takes the number of the kept ones before it.

ghost use Rattle.std.specs.Prelude.{◌≡◌, ◌<◌, ◌^◌, length, map, IfOk};
ghost use Rattle.std.specs.Option.{option_map};
ghost use Rattle.e_literal.specs.declared.object.Sort.TheVariants.{Point, Line, Circle};
ghost use Rattle.e_literal.specs.Rename.{term_at, mono_at, atom_at};
ghost use Rattle.e_trim.specs.Trimmed;
ghost use Rattle.e_trim.specs.Trimmed.{is_lesser_of_sort};

use e_clause::{Against, By, Cert, MetricCert, Part, RowName, Sum, Sums, TransferCert};
use e_construct::{Construction, Superpose};
use e_literal::{Atom, Form, Items, Lit, Mono, Obj, Sort, Term};
use std::alloc::{AllocError, Global};

/// Whether the object is of the sort, and has a lesser number.
fn is_less(object: Obj, sort: Sort, number: u16) -> bool
    ensures { result ≡ is_lesser_of_sort object sort number }
{
    object.sort == sort && object.num < number
}

/// How many of the kept objects of the sort have a lesser number.
#[tactic(auto, using(crate::proofs::renumbering::Counting::counting))]
fn number(kept: &[Obj], sort: Sort, number: u16) -> u16
    requires { length kept.now < 2 ^ 16 }
    ensures { result ≡ Trimmed.kept_before kept.now sort number }
{
    let mut less = 0u16;
    for object in kept {
        if is_less(*object, sort, number) {
            less += 1;
        }
    }
    less
}

/// The object with its new number.
pub fn new_object(kept: &[Obj], object: Obj) -> Obj
    requires { length kept.now < 2 ^ 16 }
    ensures { result ≡ Trimmed.obj_at kept.now object }
{
    Obj {
        sort: object.sort,
        num: number(kept, object.sort, object.num),
    }
}

/// The objects with their new numbers, in order.
pub fn new_objects(alloc: Global, kept: &[Obj], objects: &[Obj]) -> Result<Items<Obj>, AllocError>
    requires { length kept.now < 2 ^ 16 }
    ensures { IfOk result (λ os. os ≡ map (Trimmed.obj_at kept.now) objects.now) }
{
    let mut new = Vec::new(alloc);
    for object in objects {
        new.push(new_object(kept, *object))?;
    }
    Ok(Items::new(new))
}

/// The arguments with their new numbers; a blank stays one.
pub fn new_args(
    alloc: Global,
    kept: &[Obj],
    args: &[Option<Obj>],
) -> Result<Items<Option<Obj>>, AllocError>
    requires { length kept.now < 2 ^ 16 }
    ensures { IfOk result (λ os. os ≡ Trimmed.args_at kept.now args.now) }
{
    let mut new = Vec::new(alloc);
    for arg in args {
        new.push(new_arg(kept, *arg))?;
    }
    Ok(Items::new(new))
}

fn new_arg(kept: &[Obj], arg: Option<Obj>) -> Option<Obj>
    requires { length kept.now < 2 ^ 16 }
    ensures { result ≡ option_map (Trimmed.obj_at kept.now) arg }
{
    match arg {
        Some(object) => Some(new_object(kept, object)),
        None => None,
    }
}

// ---- literals

fn point(kept: &[Obj], n: u16) -> u16
    requires { length kept.now < 2 ^ 16 }
    ensures { result ≡ Trimmed.kept_before kept.now Point n }
{
    number(kept, Sort::Point, n)
}

fn line(kept: &[Obj], n: u16) -> u16
    requires { length kept.now < 2 ^ 16 }
    ensures { result ≡ Trimmed.kept_before kept.now Line n }
{
    number(kept, Sort::Line, n)
}

fn circle(kept: &[Obj], n: u16) -> u16
    requires { length kept.now < 2 ^ 16 }
    ensures { result ≡ Trimmed.kept_before kept.now Circle n }
{
    number(kept, Sort::Circle, n)
}

fn new_term(kept: &[Obj], term: Term) -> Term
    requires { length kept.now < 2 ^ 16 }
    ensures { result ≡ term_at (Trimmed.kept_before kept.now Point) term }
{
    match term {
        Term::Seg(a, b) => Term::Seg(point(kept, a), point(kept, b)),
        Term::Ang(a, b, c) => Term::Ang(point(kept, a), point(kept, b), point(kept, c)),
        Term::Area(a, b, c) => Term::Area(point(kept, a), point(kept, b), point(kept, c)),
        Term::Right => Term::Right,
    }
}

fn new_mono(kept: &[Obj], mono: Mono) -> Mono
    requires { length kept.now < 2 ^ 16 }
    ensures { result ≡ mono_at (Trimmed.kept_before kept.now Point) mono }
{
    Mono {
        coeff: mono.coeff,
        term: new_term(kept, mono.term),
    }
}

fn new_form(alloc: Global, kept: &[Obj], form: &Form) -> Result<Form, AllocError>
    requires { length kept.now < 2 ^ 16 }
    ensures { IfOk result (λ f. f ≡ map (mono_at (Trimmed.kept_before kept.now Point)) form.now) }
{
    let mut new = Vec::new(alloc);
    for mono in form.items() {
        new.push(new_mono(kept, *mono))?;
    }
    Ok(Form::new(new))
}

fn new_atom(alloc: Global, kept: &[Obj], atom: &Atom) -> Result<Atom, AllocError>
    requires { length kept.now < 2 ^ 16 }
    ensures { IfOk result (λ a. a ≡ atom_at (Trimmed.kept_before kept.now Point)
        (Trimmed.kept_before kept.now Line) (Trimmed.kept_before kept.now Circle) atom.now) }
{
    let atom = match atom {
        Atom::On(a, l) => Atom::On(point(kept, *a), line(kept, *l)),
        Atom::OnC(a, c) => Atom::OnC(point(kept, *a), circle(kept, *c)),
        Atom::Inside(a, c) => Atom::Inside(point(kept, *a), circle(kept, *c)),
        Atom::Center(a, c) => Atom::Center(point(kept, *a), circle(kept, *c)),
        Atom::Between(a, b, c) => Atom::Between(point(kept, *a), point(kept, *b), point(kept, *c)),
        Atom::Same(a, b, l) => Atom::Same(point(kept, *a), point(kept, *b), line(kept, *l)),
        Atom::MeetLL(l, m) => Atom::MeetLL(line(kept, *l), line(kept, *m)),
        Atom::MeetLC(l, c) => Atom::MeetLC(line(kept, *l), circle(kept, *c)),
        Atom::MeetCC(c, d) => Atom::MeetCC(circle(kept, *c), circle(kept, *d)),
        Atom::EqP(a, b) => Atom::EqP(point(kept, *a), point(kept, *b)),
        Atom::EqL(l, m) => Atom::EqL(line(kept, *l), line(kept, *m)),
        Atom::EqC(c, d) => Atom::EqC(circle(kept, *c), circle(kept, *d)),
        Atom::MagEq(x, y) => {
            let x = new_form(alloc, kept, x)?;
            let y = new_form(alloc, kept, y)?;
            Atom::MagEq(x, y)
        }
        Atom::MagLt(x, y) => {
            let x = new_form(alloc, kept, x)?;
            let y = new_form(alloc, kept, y)?;
            Atom::MagLt(x, y)
        }
    };
    Ok(atom)
}

/// The literal over the kept objects.
pub fn new_lit(alloc: Global, kept: &[Obj], lit: &Lit) -> Result<Lit, AllocError>
    requires { length kept.now < 2 ^ 16 }
    ensures { IfOk result (λ l. l ≡ Trimmed.lit_among_kept kept.now lit.now) }
{
    let atom = new_atom(alloc, kept, &lit.atom)?;
    Ok(Lit { neg: lit.neg, atom })
}

/// The literals over the kept objects, in order.
pub fn new_lits(alloc: Global, kept: &[Obj], lits: &[Lit]) -> Result<Items<Lit>, AllocError>
    requires { length kept.now < 2 ^ 16 }
    ensures { IfOk result (λ ls. ls ≡ map (Trimmed.lit_among_kept kept.now) lits.now) }
{
    let mut new = Vec::new(alloc);
    for lit in lits {
        new.push(new_lit(alloc, kept, lit)?)?;
    }
    Ok(Items::new(new))
}

// ---- certificates

fn new_row(alloc: Global, kept: &[Obj], name: &RowName) -> Result<RowName, AllocError>
    requires { length kept.now < 2 ^ 16 }
    ensures { IfOk result (λ n. n ≡ Trimmed.row_name_among_kept kept.now name.now) }
{
    match name {
        RowName::Fact(lit) => Ok(RowName::Fact(new_lit(alloc, kept, lit)?)),
        RowName::Goal => Ok(RowName::Goal),
        RowName::Pos(term) => Ok(RowName::Pos(new_term(kept, *term))),
        RowName::Top(term) => Ok(RowName::Top(new_term(kept, *term))),
        RowName::Right => Ok(RowName::Right),
        RowName::Least(term) => Ok(RowName::Least(new_term(kept, *term))),
        RowName::Above => Ok(RowName::Above),
        RowName::Below => Ok(RowName::Below),
        RowName::FactAt(place) => Ok(RowName::FactAt(*place)),
    }
}

fn new_sum(alloc: Global, kept: &[Obj], sum: &Sum) -> Result<Sum, AllocError>
    requires { length kept.now < 2 ^ 16 }
    ensures { IfOk result (λ s. s ≡ Trimmed.sum_at kept.now sum.now) }
{
    let mut rows = Vec::new(alloc);
    for (multiplier, name) in sum.rows() {
        let name = new_row(alloc, kept, name)?;
        rows.push((*multiplier, name))?;
    }
    Ok(Sum::new(rows))
}

fn new_sums(alloc: Global, kept: &[Obj], sums: &Sums) -> Result<Sums, AllocError>
    requires { length kept.now < 2 ^ 16 }
    ensures { IfOk result (λ s. s ≡ Trimmed.sums_at kept.now sums.now) }
{
    match sums {
        Sums::One(sum) => Ok(Sums::One(new_sum(alloc, kept, sum)?)),
        Sums::Two {
            differs,
            above,
            below,
        } => {
            let differs = new_row(alloc, kept, differs)?;
            let above = new_sum(alloc, kept, above)?;
            let below = new_sum(alloc, kept, below)?;
            Ok(Sums::Two {
                differs,
                above,
                below,
            })
        }
    }
}

fn new_metric(alloc: Global, kept: &[Obj], cert: &MetricCert) -> Result<MetricCert, AllocError>
    requires { length kept.now < 2 ^ 16 }
    ensures { IfOk result (λ m. m ≡ Trimmed.metric_at kept.now cert.now) }
{
    Ok(MetricCert {
        sums: new_sums(alloc, kept, &cert.sums)?,
    })
}

fn new_part(alloc: Global, kept: &[Obj], part: &Part) -> Result<Part, AllocError>
    requires { length kept.now < 2 ^ 16 }
    ensures { IfOk result (λ p. p ≡ Trimmed.part_at kept.now part.now) }
{
    match part {
        Part::Fact => Ok(Part::Fact),
        Part::Metric(cert) => Ok(Part::Metric(new_metric(alloc, kept, cert)?)),
        Part::FactAt(place) => Ok(Part::FactAt(*place)),
    }
}

fn new_parts(alloc: Global, kept: &[Obj], parts: &[Part]) -> Result<Items<Part>, AllocError>
    requires { length kept.now < 2 ^ 16 }
    ensures { IfOk result (λ ps. ps ≡ map (Trimmed.part_at kept.now) parts.now) }
{
    let mut new = Vec::new(alloc);
    for part in parts {
        new.push(new_part(alloc, kept, part)?)?;
    }
    Ok(Items::new(new))
}

fn new_transfer(
    alloc: Global,
    kept: &[Obj],
    cert: &TransferCert,
) -> Result<TransferCert, AllocError>
    requires { length kept.now < 2 ^ 16 }
    ensures { IfOk result (λ t. t ≡ Trimmed.transfer_among_kept kept.now cert.now) }
{
    Ok(TransferCert {
        rule: cert.rule,
        args: new_objects(alloc, kept, cert.args.items())?,
        parts: new_parts(alloc, kept, cert.parts.items())?,
    })
}

/// The certificate over the kept objects.
pub fn new_cert(alloc: Global, kept: &[Obj], cert: &Cert) -> Result<Cert, AllocError>
    requires { length kept.now < 2 ^ 16 }
    ensures { IfOk result (λ c. c ≡ Trimmed.cert_at kept.now cert.now) }
{
    match cert {
        Cert::Plain(part) => Ok(Cert::Plain(new_part(alloc, kept, part)?)),
        Cert::Transfer(transfer) => Ok(Cert::Transfer(new_transfer(alloc, kept, transfer)?)),
    }
}

/// The certificates over the kept objects, in order.
pub fn new_certs(alloc: Global, kept: &[Obj], certs: &[Cert]) -> Result<Items<Cert>, AllocError>
    requires { length kept.now < 2 ^ 16 }
    ensures { IfOk result (λ cs. cs ≡ map (Trimmed.cert_at kept.now) certs.now) }
{
    let mut new = Vec::new(alloc);
    for cert in certs {
        new.push(new_cert(alloc, kept, cert)?)?;
    }
    Ok(Items::new(new))
}

/// The certificate of a contradiction over the kept objects.
pub fn new_against(alloc: Global, kept: &[Obj], against: &Against) -> Result<Against, AllocError>
    requires { length kept.now < 2 ^ 16 }
    ensures { IfOk result (λ a. a ≡ Trimmed.against_at kept.now against.now) }
{
    match against {
        Against::Clash { lit } => Ok(Against::Clash {
            lit: new_lit(alloc, kept, lit)?,
        }),
        Against::Metric(cert) => Ok(Against::Metric(new_metric(alloc, kept, cert)?)),
    }
}

// ---- what steps are made of

/// The citation over the kept objects.
pub fn new_by(alloc: Global, kept: &[Obj], by: &By) -> Result<By, AllocError>
    requires { length kept.now < 2 ^ 16 }
    ensures { IfOk result (λ b. b ≡ Trimmed.by_at kept.now by.now) }
{
    Ok(By {
        rule: by.rule,
        args: new_objects(alloc, kept, by.args.items())?,
        lit: new_lit(alloc, kept, &by.lit)?,
    })
}

/// The construction over the kept objects.
pub fn new_construction(
    alloc: Global,
    kept: &[Obj],
    construction: &Construction,
) -> Result<Construction, AllocError>
    requires { length kept.now < 2 ^ 16 }
    ensures { IfOk result (λ f. f ≡ Trimmed.construction_among_kept kept.now construction.now) }
{
    Ok(Construction {
        shape: construction.shape,
        args: new_objects(alloc, kept, construction.args.items())?,
        avoid: new_objects(alloc, kept, construction.avoid.items())?,
    })
}

/// The superposition over the kept objects.
pub fn new_superpose(kept: &[Obj], superposition: &Superpose) -> Superpose
    requires { length kept.now < 2 ^ 16 }
    ensures { result ≡ Trimmed.superpose_at kept.now superposition.now }
{
    let [a, b, c, d, g, h] = superposition.points;
    let [k, l] = superposition.lines;
    Superpose {
        points: [
            point(kept, a),
            point(kept, b),
            point(kept, c),
            point(kept, d),
            point(kept, g),
            point(kept, h),
        ],
        lines: [line(kept, k), line(kept, l)],
    }
}
