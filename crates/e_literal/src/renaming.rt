//! Literals with the images of their objects.

ghost use Rattle.std.specs.Prelude.{◌≡◌, IfOk, List, is_some, map as map_list};
ghost use Rattle.std.specs.List.{list_all};
ghost use Rattle.e_literal.specs.declared.object.Sort.TheVariants.{Point, Line, Circle};
ghost use Rattle.e_literal.specs.Literal.{objects_of_atom, objects_of_sum, objects_of_term};
ghost use Rattle.e_literal.specs.Rename;
ghost use Rattle.e_literal.specs.Rename.{image_in, number_at, term_at, mono_at, atom_at};

use crate::form::Form;
use crate::literal::{Atom, Lit};
use crate::map::Map;
use crate::object::{Mono, Sort, Term};
use std::alloc::{AllocError, Global};

/// The literal with the image of each object for it; none exactly where an object of it has no
/// image.
///
/// It fails only when out of memory.
pub fn rename(alloc: Global, lit: &Lit, map: &Map) -> Result<Option<Lit>, AllocError>
    ensures { IfOk result (λ r. r ≡ Rename.rename (image_in map.now) lit.now) }
{
    if !atom_has_images(map, &lit.atom) {
        return Ok(None);
    }
    let lit = with_images(alloc, lit, map)?;
    Ok(Some(lit))
}

/// The literal with the image of each object for it, where an object without image stays.
///
/// It fails only when out of memory.
pub fn with_images(alloc: Global, lit: &Lit, map: &Map) -> Result<Lit, AllocError>
    ensures { IfOk result (λ r. r ≡ Rename.with_images (image_in map.now) lit.now) }
{
    let atom = renamed_atom(alloc, &lit.atom, map)?;
    Ok(Lit { neg: lit.neg, atom })
}

fn atom_has_images(map: &Map, atom: &Atom) -> bool
    ensures { result ≡ list_all (λ o. is_some (image_in map.now o)) (objects_of_atom atom.now) }
{
    match atom {
        Atom::On(a, l) => map.has_image(Sort::Point, *a) && map.has_image(Sort::Line, *l),
        Atom::OnC(a, c) | Atom::Inside(a, c) | Atom::Center(a, c) => {
            map.has_image(Sort::Point, *a) && map.has_image(Sort::Circle, *c)
        }
        Atom::Between(a, b, c) => {
            map.has_image(Sort::Point, *a)
                && map.has_image(Sort::Point, *b)
                && map.has_image(Sort::Point, *c)
        }
        Atom::Same(a, b, l) => {
            map.has_image(Sort::Point, *a)
                && map.has_image(Sort::Point, *b)
                && map.has_image(Sort::Line, *l)
        }
        Atom::MeetLL(l, m) | Atom::EqL(l, m) => map.has_image(Sort::Line, *l)
            && map.has_image(Sort::Line, *m),
        Atom::MeetLC(l, c) => map.has_image(Sort::Line, *l) && map.has_image(Sort::Circle, *c),
        Atom::MeetCC(c, d) | Atom::EqC(c, d) => {
            map.has_image(Sort::Circle, *c) && map.has_image(Sort::Circle, *d)
        }
        Atom::EqP(a, b) => map.has_image(Sort::Point, *a) && map.has_image(Sort::Point, *b),
        Atom::MagEq(x, y) | Atom::MagLt(x, y) => {
            sum_has_images(map, x.items()) && sum_has_images(map, y.items())
        }
    }
}

fn sum_has_images(map: &Map, sum: &[Mono]) -> bool
    ensures { result ≡ list_all (λ o. is_some (image_in map.now o)) (objects_of_sum sum.now) }
{
    sum.iter().all(|m| term_has_images(map, m.term))
}

fn term_has_images(map: &Map, term: Term) -> bool
    ensures { result ≡ list_all (λ o. is_some (image_in map.now o)) (objects_of_term term) }
{
    match term {
        Term::Seg(a, b) => map.has_image(Sort::Point, a) && map.has_image(Sort::Point, b),
        Term::Ang(a, b, c) | Term::Area(a, b, c) => {
            map.has_image(Sort::Point, a)
                && map.has_image(Sort::Point, b)
                && map.has_image(Sort::Point, c)
        }
        Term::Right => true,
    }
}

fn renamed_atom(alloc: Global, atom: &Atom, map: &Map) -> Result<Atom, AllocError>
    ensures { IfOk result (λ a. a ≡ atom_at (number_at (image_in map.now) Point)
        (number_at (image_in map.now) Line) (number_at (image_in map.now) Circle) atom.now) }
{
    let atom = match atom {
        Atom::On(a, l) => Atom::On(point(map, *a), line(map, *l)),
        Atom::OnC(a, c) => Atom::OnC(point(map, *a), circle(map, *c)),
        Atom::Inside(a, c) => Atom::Inside(point(map, *a), circle(map, *c)),
        Atom::Center(a, c) => Atom::Center(point(map, *a), circle(map, *c)),
        Atom::Between(a, b, c) => Atom::Between(point(map, *a), point(map, *b), point(map, *c)),
        Atom::Same(a, b, l) => Atom::Same(point(map, *a), point(map, *b), line(map, *l)),
        Atom::MeetLL(l, m) => Atom::MeetLL(line(map, *l), line(map, *m)),
        Atom::MeetLC(l, c) => Atom::MeetLC(line(map, *l), circle(map, *c)),
        Atom::MeetCC(c, d) => Atom::MeetCC(circle(map, *c), circle(map, *d)),
        Atom::EqP(a, b) => Atom::EqP(point(map, *a), point(map, *b)),
        Atom::EqL(l, m) => Atom::EqL(line(map, *l), line(map, *m)),
        Atom::EqC(c, d) => Atom::EqC(circle(map, *c), circle(map, *d)),
        Atom::MagEq(x, y) => {
            let x = renamed_sum(alloc, x, map)?;
            let y = renamed_sum(alloc, y, map)?;
            Atom::MagEq(x, y)
        }
        Atom::MagLt(x, y) => {
            let x = renamed_sum(alloc, x, map)?;
            let y = renamed_sum(alloc, y, map)?;
            Atom::MagLt(x, y)
        }
    };
    Ok(atom)
}

fn point(map: &Map, number: u16) -> u16
    ensures { result ≡ number_at (image_in map.now) Point number }
{
    map.number(Sort::Point, number)
}

fn line(map: &Map, number: u16) -> u16
    ensures { result ≡ number_at (image_in map.now) Line number }
{
    map.number(Sort::Line, number)
}

fn circle(map: &Map, number: u16) -> u16
    ensures { result ≡ number_at (image_in map.now) Circle number }
{
    map.number(Sort::Circle, number)
}

fn renamed_sum(alloc: Global, form: &Form, map: &Map) -> Result<Form, AllocError>
    ensures { IfOk result
        (λ f. f ≡ map_list (mono_at (number_at (image_in map.now) Point)) form.now) }
{
    let mut monos = Vec::with_capacity(alloc, form.items().len())?;
    for m in form.items() {
        monos.push(renamed_mono(*m, map))?;
    }
    Ok(Form::new(monos))
}

fn renamed_mono(mono: Mono, map: &Map) -> Mono
    ensures { result ≡ mono_at (number_at (image_in map.now) Point) mono }
{
    Mono {
        coeff: mono.coeff,
        term: renamed_term(mono.term, map),
    }
}

fn renamed_term(term: Term, map: &Map) -> Term
    ensures { result ≡ term_at (number_at (image_in map.now) Point) term }
{
    match term {
        Term::Seg(a, b) => Term::Seg(point(map, a), point(map, b)),
        Term::Ang(a, b, c) => Term::Ang(point(map, a), point(map, b), point(map, c)),
        Term::Area(a, b, c) => Term::Area(point(map, a), point(map, b), point(map, c)),
        Term::Right => Term::Right,
    }
}
