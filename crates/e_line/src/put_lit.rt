//! Writes terms, sums and literals, with the names that they have.
ghost use Rattle.std.specs.Prelude.{◌≡◌, ◌++◌, ◌∷◌, [], true, OnOk};
ghost use Rattle.e_text.specs.Tokens.{with_spaces};
ghost use Rattle.e_line.specs.Canonical.{term_words, mono_words, more_monos, sum_words, sums_words};
ghost use Rattle.e_line.specs.Canonical.{atom_words, not_words, lit_words, more_words, lits_words};

use crate::literal::{RawAtom, RawLit};
use crate::sum::{RawMono, RawTerm};
use e_text::{Name, put, put_coefficient, put_words};
use std::alloc::AllocError;

/// Writes a term, each word after a space. It fails only out of memory.
pub fn put_term(out: &mut Vec<u8>, term: &RawTerm) -> Result<(), AllocError>
    ensures { OnOk result (out.new.items ≡ out.old.items ++ with_spaces (term_words term.now)) }
{
    match term {
        RawTerm::Seg(x, y) => put_words(out, &[b"seg", x.bytes(), y.bytes()]),
        RawTerm::Ang(x, y, z) => put_words(out, &[b"ang", x.bytes(), y.bytes(), z.bytes()]),
        RawTerm::Area(x, y, z) => put_words(out, &[b"area", x.bytes(), y.bytes(), z.bytes()]),
        RawTerm::Right => put(out, b"right"),
    }
}

#[tactic(auto, using(e_text::proofs::Spaced::spaced_append))]
fn put_mono(out: &mut Vec<u8>, mono: &RawMono) -> Result<(), AllocError>
    ensures { OnOk result (out.new.items ≡ out.old.items ++ with_spaces (mono_words mono.now)) }
{
    put_coefficient(out, mono.coeff)?;
    put_term(out, &mono.term)
}

/// More monomials, each after a plus.
#[tactic(auto, using(e_text::proofs::Spaced::spaced_append))]
fn put_more(out: &mut Vec<u8>, monos: &[RawMono]) -> Result<(), AllocError>
    ensures { OnOk result (out.new.items ≡ out.old.items ++ with_spaces (more_monos monos.now)) }
{
    for mono in monos {
        put(out, b"+")?;
        put_mono(out, mono)?;
    }
    Ok(())
}

/// Monomials with a plus between two, and 0 for none.
#[tactic(auto, using(e_text::proofs::Spaced::spaced_append))]
fn put_sum(out: &mut Vec<u8>, sum: &[RawMono]) -> Result<(), AllocError>
    ensures { OnOk result (out.new.items ≡ out.old.items ++ with_spaces (sum_words sum.now)) }
{
    match sum {
        [] => put(out, b"0"),
        [first, rest @ ..] => {
            put_mono(out, first)?;
            put_more(out, rest)
        }
    }
}

/// A sum after a sign.
fn put_side(out: &mut Vec<u8>, sign: &[u8], sum: &[RawMono]) -> Result<(), AllocError>
    ensures { OnOk result (out.new.items ≡ out.old.items ++ with_spaces (sign.now ∷ sum_words sum.now)) }
{
    put(out, sign)?;
    put_sum(out, sum)
}

/// Two sums with a sign between them.
fn put_sums(
    out: &mut Vec<u8>,
    left: &[RawMono],
    sign: &[u8],
    right: &[RawMono],
) -> Result<(), AllocError>
    ensures { OnOk result
        (out.new.items ≡ out.old.items ++ with_spaces (sums_words left.now sign.now right.now)) }
{
    put_sum(out, left)?;
    put_side(out, sign, right)?;
    Ok(())
}

/// A word and three names.
fn put_of_three(out: &mut Vec<u8>, word: &[u8], x: Name, y: Name, z: Name) -> Result<(), AllocError>
    ensures { OnOk result (out.new.items ≡ out.old.items ++ with_spaces (word.now ∷ x ∷ y ∷ z ∷ [])) }
{
    put_words(out, &[word, x.bytes(), y.bytes(), z.bytes()])
}

fn put_atom(out: &mut Vec<u8>, atom: &RawAtom) -> Result<(), AllocError>
    ensures { OnOk result (out.new.items ≡ out.old.items ++ with_spaces (atom_words atom.now)) }
{
    match atom {
        RawAtom::On(x, y) => put_words(out, &[b"on", x.bytes(), y.bytes()]),
        RawAtom::Inside(x, y) => put_words(out, &[b"inside", x.bytes(), y.bytes()]),
        RawAtom::Center(x, y) => put_words(out, &[b"center", x.bytes(), y.bytes()]),
        RawAtom::Between(x, y, z) => put_of_three(out, b"between", *x, *y, *z),
        RawAtom::Same(x, y, z) => put_of_three(out, b"same-side", *x, *y, *z),
        RawAtom::Meets(x, y) => put_words(out, &[b"meets", x.bytes(), y.bytes()]),
        RawAtom::Equal(x, y) => put_words(out, &[x.bytes(), b"=", y.bytes()]),
        RawAtom::SumsEqual(x, y) => put_sums(out, x.items(), b"=", y.items()),
        RawAtom::SumsLess(x, y) => put_sums(out, x.items(), b"<", y.items()),
        RawAtom::SumsAtMost(x, y) => put_sums(out, x.items(), b"<=", y.items()),
    }
}

/// A negated atom: an equality by its sign, and any other atom by a word before it.
fn put_not(out: &mut Vec<u8>, atom: &RawAtom) -> Result<(), AllocError>
    ensures { OnOk result (out.new.items ≡ out.old.items ++ with_spaces (not_words atom.now)) }
{
    match atom {
        RawAtom::Equal(x, y) => put_words(out, &[x.bytes(), b"!=", y.bytes()]),
        RawAtom::SumsEqual(x, y) => put_sums(out, x.items(), b"!=", y.items()),
        _ => {
            put(out, b"not")?;
            put_atom(out, atom)
        }
    }
}

/// Writes a literal, each word after a space. It fails only out of memory.
pub fn put_literal(out: &mut Vec<u8>, lit: &RawLit) -> Result<(), AllocError>
    ensures { OnOk result (out.new.items ≡ out.old.items ++ with_spaces (lit_words lit.now)) }
{
    if lit.neg {
        put_not(out, &lit.atom)
    } else {
        put_atom(out, &lit.atom)
    }
}

/// More literals, each after a semicolon.
fn put_more_literals(out: &mut Vec<u8>, lits: &[RawLit]) -> Result<(), AllocError>
    ensures { OnOk result (out.new.items ≡ out.old.items ++ with_spaces (more_words lits.now)) }
{
    for lit in lits {
        put(out, b";")?;
        put_literal(out, lit)?;
    }
    Ok(())
}

/// Literals with a semicolon between two.
pub(crate) fn put_literals(out: &mut Vec<u8>, lits: &[RawLit]) -> Result<(), AllocError>
    ensures { OnOk result (out.new.items ≡ out.old.items ++ with_spaces (lits_words lits.now)) }
{
    match lits {
        [] => Ok(()),
        [first, rest @ ..] => {
            put_literal(out, first)?;
            put_more_literals(out, rest)?;
            Ok(())
        }
    }
}
