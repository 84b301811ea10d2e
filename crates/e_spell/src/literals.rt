//! Objects, terms and literals by their names.
ghost use Rattle.std.specs.Prelude.{◌≡◌, ◌++◌, map, OnOk, IfOk};
ghost use Rattle.e_literal.specs.declared.object.Sort.TheVariants.{Point, Line};
ghost use Rattle.e_literal.specs.Literal.{obj};
ghost use Rattle.e_text.specs.Tokens.{with_spaces};
ghost use Rattle.e_deriv.specs.Naming.{names_of_sort};
ghost use Rattle.e_line.specs.Canonical.{mono_words, more_monos, sum_words, sums_words, lit_words};
ghost use Rattle.e_names.specs.Canonical.{raw_mono, raw_sum, raw_of, name_at, name_of_object};
ghost use Rattle.e_names.specs.Canonical.{argument_name, placed_names};
ghost use Rattle.e_spell.specs.Certificates.{named_term};
ghost use Rattle.e_spell.specs.inner.Parts.{lit_text, lits_text};

use e_construct::Superpose;
use e_deriv::Names;
use e_literal::{Atom, Items, Lit, Mono, Obj, Sort, Term};
use e_names::{name_at, name_of_object, raw_of, raw_term};
use e_text::{Name, end_line, put, put_coefficient};
use std::alloc::{AllocError, Global};
use std::mem;

/// The name of the object of a sort with a number.
pub(crate) fn name_of(names: &Names, sort: Sort, num: usize) -> Name
    ensures { result ≡ name_at (names_of_sort names.now sort) num }
{
    name_at(names.of_sort(sort), num)
}

/// The names of objects, each after a space.
pub(crate) fn put_objects(
    out: &mut Vec<u8>,
    names: &Names,
    objects: &[Obj],
) -> Result<(), AllocError>
    ensures { OnOk result
        (out.new.items ≡ out.old.items ++ with_spaces (map (name_of_object names.now) objects.now)) }
{
    for object in objects {
        put(out, name_of_object(names, *object).bytes())?;
    }
    Ok(())
}

/// The names of objects.
pub(crate) fn names_of_objects(
    alloc: Global,
    names: &Names,
    objects: &[Obj],
) -> Result<Items<Name>, AllocError>
    ensures { IfOk result (λ n. n ≡ map (name_of_object names.now) objects.now) }
{
    let mut found = Vec::with_capacity(alloc, objects.len())?;
    for object in objects {
        found.push(name_of_object(names, *object))?;
    }
    Ok(Items::new(found))
}

/// An argument: the name of an object, or a blank.
fn argument_name(names: &Names, argument: Option<Obj>) -> Option<Name>
    ensures { result ≡ argument_name names.now argument }
{
    match argument {
        None => None,
        Some(object) => Some(name_of_object(names, object)),
    }
}

/// The names of arguments.
pub(crate) fn names_of_arguments(
    alloc: Global,
    names: &Names,
    args: &[Option<Obj>],
) -> Result<Items<Option<Name>>, AllocError>
    ensures { IfOk result (λ n. n ≡ map (argument_name names.now) args.now) }
{
    let mut found = Vec::with_capacity(alloc, args.len())?;
    for argument in args {
        found.push(argument_name(names, *argument))?;
    }
    Ok(Items::new(found))
}

fn point(num: u16) -> Obj
    ensures { result ≡ obj Point num }
{
    Obj {
        sort: Sort::Point,
        num,
    }
}

fn line(num: u16) -> Obj
    ensures { result ≡ obj Line num }
{
    Obj {
        sort: Sort::Line,
        num,
    }
}

/// The names of the triangle and its line, and then of the place and its line.
pub(crate) fn placed_names(
    alloc: Global,
    names: &Names,
    superposition: Superpose,
) -> Result<Items<Name>, AllocError>
    ensures { IfOk result (λ n. n ≡ placed_names names.now superposition) }
{
    let [a, b, c, d, g, h] = superposition.points;
    let [k, l] = superposition.lines;
    let objects = [
        point(a),
        point(b),
        point(c),
        line(k),
        point(d),
        point(g),
        point(h),
        line(l),
    ];
    names_of_objects(alloc, names, &objects)
}

/// A term by the names of its points.
pub(crate) fn put_term(out: &mut Vec<u8>, names: &Names, term: Term) -> Result<(), AllocError>
    ensures { OnOk result (out.new.items ≡ out.old.items ++ with_spaces (named_term names.now term)) }
{
    let raw = raw_term(names, term);
    e_line::put_term(out, &raw)
}

/// A monomial by the names of its points.
#[tactic(auto, using(e_text::proofs::Spaced::spaced_append))]
fn put_mono(out: &mut Vec<u8>, names: &Names, mono: &Mono) -> Result<(), AllocError>
    ensures { OnOk result (out.new.items ≡ out.old.items ++ with_spaces (mono_words (raw_mono names.now mono.now))) }
{
    put_coefficient(out, mono.coeff)?;
    put_term(out, names, mono.term)
}

/// More monomials, each after a plus.
#[tactic(auto, using(e_text::proofs::Spaced::spaced_append))]
fn put_more(out: &mut Vec<u8>, names: &Names, monos: &[Mono]) -> Result<(), AllocError>
    ensures { OnOk result (out.new.items ≡ out.old.items ++ with_spaces (more_monos (raw_sum names.now monos.now))) }
{
    for mono in monos {
        put(out, b"+")?;
        put_mono(out, names, mono)?;
    }
    Ok(())
}

/// Monomials with a plus between two, and 0 for none.
#[tactic(auto, using(e_text::proofs::Spaced::spaced_append))]
fn put_sum(out: &mut Vec<u8>, names: &Names, sum: &[Mono]) -> Result<(), AllocError>
    ensures { OnOk result (out.new.items ≡ out.old.items ++ with_spaces (sum_words (raw_sum names.now sum.now))) }
{
    match sum {
        [] => put(out, b"0"),
        [first, rest @ ..] => {
            put_mono(out, names, first)?;
            put_more(out, names, rest)
        }
    }
}

/// Two sums with a sign between them.
fn put_sums(
    out: &mut Vec<u8>,
    names: &Names,
    left: &[Mono],
    sign: &[u8],
    right: &[Mono],
) -> Result<(), AllocError>
    ensures { OnOk result (out.new.items ≡ out.old.items
        ++ with_spaces (sums_words (raw_sum names.now left.now) sign.now (raw_sum names.now right.now))) }
{
    put_sum(out, names, left)?;
    put(out, sign)?;
    put_sum(out, names, right)?;
    Ok(())
}

/// A literal by the names of its objects: sums are written without a copy that holds the names.
pub(crate) fn put_literal(
    alloc: Global,
    out: &mut Vec<u8>,
    names: &Names,
    lit: &Lit,
) -> Result<(), AllocError>
    ensures { OnOk result
        (out.new.items ≡ out.old.items ++ with_spaces (lit_words (raw_of names.now lit.now))) }
{
    match &lit.atom {
        Atom::MagEq(x, y) => {
            if lit.neg {
                put_sums(out, names, x.items(), b"!=", y.items())
            } else {
                put_sums(out, names, x.items(), b"=", y.items())
            }
        }
        Atom::MagLt(x, y) => {
            if lit.neg {
                put_sums(out, names, y.items(), b"<=", x.items())
            } else {
                put_sums(out, names, x.items(), b"<", y.items())
            }
        }
        _ => {
            let raw = raw_of(alloc, names, lit)?;
            let put = e_line::put_literal(out, &raw);
            mem::drop(raw);
            put
        }
    }
}

/// A line of a word and a literal.
pub(crate) fn put_literal_line(
    alloc: Global,
    out: &mut Vec<u8>,
    word: &[u8],
    names: &Names,
    lit: &Lit,
) -> Result<(), AllocError>
    ensures { OnOk result (out.new.items ≡ out.old.items ++ lit_text word.now names.now lit.now) }
{
    out.extend_from_slice(word)?;
    put_literal(alloc, out, names, lit)?;
    end_line(out)
}

/// One line for each literal.
pub(crate) fn put_literal_lines(
    alloc: Global,
    out: &mut Vec<u8>,
    word: &[u8],
    names: &Names,
    lits: &[Lit],
) -> Result<(), AllocError>
    ensures { OnOk result (out.new.items ≡ out.old.items ++ lits_text word.now names.now lits.now) }
{
    for lit in lits {
        put_literal_line(alloc, out, word, names, lit)?;
    }
    Ok(())
}
