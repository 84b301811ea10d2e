//! Objects, terms and literals by their names, as a line spells them.
ghost use Rattle.std.specs.Prelude.{◌≡◌, ◌++◌, map, true, IfOk, OnOk};
ghost use Rattle.e_names.specs.Canonical.{missing_name, name_at, name_of_object, raw_term};
ghost use Rattle.e_names.specs.Canonical.{raw_sum, raw_atom, raw_signed, raw_of};

use e_deriv::Names;
use e_line::{RawAtom, RawLit, RawMono, RawTerm};
use e_literal::{Atom, Items, Lit, Mono, Obj, Sort, Term};
use e_text::Name;
use std::alloc::{AllocError, Global};
use std::mem;

/// What is written for an object without a name.
#[tactic(auto, unfolding(e_text::specs::Names::reserved_words))]
fn name_of_none() -> Name
    ensures { result ≡ missing_name }
{
    Name::read(b"nameless").unwrap()
}

/// The name at a place.
pub fn name_at(names: &[Name], i: usize) -> Name
    ensures { result ≡ name_at names.now i }
{
    match names.get(i) {
        Some(name) => *name,
        None => name_of_none(),
    }
}

fn point_at(names: &Names, i: u16) -> Name
    ensures { result ≡ name_at names.now.points i }
{
    name_at(names.points.items(), usize::from(i))
}

fn line_at(names: &Names, i: u16) -> Name
    ensures { result ≡ name_at names.now.lines i }
{
    name_at(names.lines.items(), usize::from(i))
}

fn circle_at(names: &Names, i: u16) -> Name
    ensures { result ≡ name_at names.now.circles i }
{
    name_at(names.circles.items(), usize::from(i))
}

/// The name of an object.
pub fn name_of_object(names: &Names, object: Obj) -> Name
    ensures { result ≡ name_of_object names.now object }
{
    match object.sort {
        Sort::Point => point_at(names, object.num),
        Sort::Line => line_at(names, object.num),
        Sort::Circle => circle_at(names, object.num),
    }
}

/// A term with the names of its points.
pub fn raw_term(names: &Names, term: Term) -> RawTerm
    ensures { result ≡ raw_term names.now term }
{
    match term {
        Term::Seg(a, b) => RawTerm::Seg(point_at(names, a), point_at(names, b)),
        Term::Ang(a, b, c) => {
            RawTerm::Ang(point_at(names, a), point_at(names, b), point_at(names, c))
        }
        Term::Area(a, b, c) => {
            RawTerm::Area(point_at(names, a), point_at(names, b), point_at(names, c))
        }
        Term::Right => RawTerm::Right,
    }
}

fn raw_sum(alloc: Global, names: &Names, monos: &[Mono]) -> Result<Items<RawMono>, AllocError>
    ensures { IfOk result (λ s. s ≡ raw_sum names.now monos.now) }
{
    let mut sum = Items::new(Vec::with_capacity(alloc, monos.len())?);
    for mono in monos {
        let term = raw_term(names, mono.term);
        let coeff = mono.coeff;
        sum.push(RawMono { coeff, term })?;
    }
    Ok(sum)
}

/// An atom with the names of its objects.
fn raw_atom(alloc: Global, names: &Names, atom: &Atom) -> Result<RawAtom, AllocError>
    ensures { IfOk result (λ a. a ≡ raw_atom names.now atom.now) }
{
    let raw = match atom {
        Atom::On(a, l) => RawAtom::On(point_at(names, *a), line_at(names, *l)),
        Atom::OnC(a, c) => RawAtom::On(point_at(names, *a), circle_at(names, *c)),
        Atom::Inside(a, c) => RawAtom::Inside(point_at(names, *a), circle_at(names, *c)),
        Atom::Center(a, c) => RawAtom::Center(point_at(names, *a), circle_at(names, *c)),
        Atom::Between(a, b, c) => {
            RawAtom::Between(
                point_at(names, *a),
                point_at(names, *b),
                point_at(names, *c),
            )
        }
        Atom::Same(a, b, l) => {
            RawAtom::Same(point_at(names, *a), point_at(names, *b), line_at(names, *l))
        }
        Atom::MeetLL(l, m) => RawAtom::Meets(line_at(names, *l), line_at(names, *m)),
        Atom::MeetLC(l, c) => RawAtom::Meets(line_at(names, *l), circle_at(names, *c)),
        Atom::MeetCC(c, d) => RawAtom::Meets(circle_at(names, *c), circle_at(names, *d)),
        Atom::EqP(a, b) => RawAtom::Equal(point_at(names, *a), point_at(names, *b)),
        Atom::EqL(l, m) => RawAtom::Equal(line_at(names, *l), line_at(names, *m)),
        Atom::EqC(c, d) => RawAtom::Equal(circle_at(names, *c), circle_at(names, *d)),
        Atom::MagEq(x, y) => {
            let left = raw_sum(alloc, names, x.items())?;
            RawAtom::SumsEqual(left, raw_sum(alloc, names, y.items())?)
        }
        Atom::MagLt(x, y) => {
            let left = raw_sum(alloc, names, x.items())?;
            RawAtom::SumsLess(left, raw_sum(alloc, names, y.items())?)
        }
    };
    Ok(raw)
}

/// A negated atom: the negation of X < Y is Y <= X.
fn raw_negated(alloc: Global, names: &Names, atom: &Atom) -> Result<RawLit, AllocError>
    ensures { IfOk result (λ l. l ≡ raw_signed names.now true atom.now) }
{
    match atom {
        Atom::MagLt(x, y) => {
            let left = raw_sum(alloc, names, y.items())?;
            let right = raw_sum(alloc, names, x.items())?;
            Ok(RawLit {
                neg: false,
                atom: RawAtom::SumsAtMost(left, right),
            })
        }
        _ => {
            let atom = raw_atom(alloc, names, atom)?;
            Ok(RawLit { neg: true, atom })
        }
    }
}

/// A literal with the names of its objects. It fails only out of memory.
pub fn raw_of(alloc: Global, names: &Names, lit: &Lit) -> Result<RawLit, AllocError>
    ensures { IfOk result (λ l. l ≡ raw_of names.now lit.now) }
{
    if lit.neg {
        return raw_negated(alloc, names, &lit.atom);
    }
    let atom = raw_atom(alloc, names, &lit.atom)?;
    Ok(RawLit { neg: false, atom })
}

/// Puts the literals last, with the names of their objects.
pub(crate) fn put_named(
    alloc: Global,
    names: &Names,
    lits: &[Lit],
    raws: &mut Items<RawLit>,
) -> Result<(), AllocError>
    ensures { OnOk result (raws.new ≡ raws.old ++ map (raw_of names.now) lits.now) }
{
    for lit in lits {
        let raw = raw_of(alloc, names, lit)?;
        raws.push(raw)?;
    }
    Ok(())
}

/// The literals with the names of their objects. It fails only out of memory.
pub fn raw_lits(alloc: Global, names: &Names, lits: &[Lit]) -> Result<Items<RawLit>, AllocError>
    ensures { IfOk result (λ r. r ≡ map (raw_of names.now) lits.now) }
{
    let mut raws = Items::new(Vec::with_capacity(alloc, lits.len())?);
    match put_named(alloc, names, lits, &mut raws) {
        Ok(()) => Ok(raws),
        Err(error) => {
            mem::drop(raws);
            Err(error)
        }
    }
}
