//! Normal forms of literals.

ghost use Rattle.std.specs.Prelude.{◌≡◌, IfOk, OnOk};
ghost use Rattle.std.specs.List.{fold};
ghost use Rattle.e_literal.specs.NormalForm;
ghost use Rattle.e_literal.specs.NormalForm.{normal_form};
ghost use Rattle.e_literal.specs.inner.Joining.{put_term};
ghost use Rattle.e_literal.specs.Normal.{normal_atom_of, form_of};

use crate::compare::{canonical, coefficient_in};
use crate::literal::{Atom, Lit};
use crate::normals::{Normal, NormalAtom};
use crate::object::{Mono, Term};
use std::alloc::{AllocError, Global};
use std::collections::BTreeMap;

/// The normal form of a literal. It fails only when out of memory.
pub fn normal(alloc: Global, lit: &Lit) -> Result<Normal, AllocError>
    ensures { IfOk result (λ n. form_of n ≡ normal_form lit.now) }
{
    let atom = normal_atom(alloc, &lit.atom)?;
    Ok(Normal {
        negated: lit.neg,
        atom,
    })
}

fn normal_atom(alloc: Global, atom: &Atom) -> Result<NormalAtom, AllocError>
    ensures { IfOk result (λ a. normal_atom_of a ≡ NormalForm.normal_atom atom.now) }
{
    match atom {
        Atom::On(a, b) => Ok(NormalAtom::On(*a, *b)),
        Atom::OnC(a, b) => Ok(NormalAtom::OnC(*a, *b)),
        Atom::Inside(a, b) => Ok(NormalAtom::Inside(*a, *b)),
        Atom::Center(a, b) => Ok(NormalAtom::Center(*a, *b)),
        Atom::Between(a, b, c) => Ok(NormalAtom::Between(*a, *b, *c)),
        Atom::Same(a, b, c) => Ok(NormalAtom::Same(*a, *b, *c)),
        Atom::MeetLL(a, b) => Ok(NormalAtom::MeetLL(*a, *b)),
        Atom::MeetLC(a, b) => Ok(NormalAtom::MeetLC(*a, *b)),
        Atom::MeetCC(a, b) => Ok(NormalAtom::MeetCC(*a, *b)),
        Atom::EqP(a, b) => Ok(NormalAtom::EqP(*a, *b)),
        Atom::EqL(a, b) => Ok(NormalAtom::EqL(*a, *b)),
        Atom::EqC(a, b) => Ok(NormalAtom::EqC(*a, *b)),
        Atom::MagEq(x, y) => {
            let form = normal_up_to_sign(alloc, x.items(), y.items())?;
            Ok(NormalAtom::MagEq(form))
        }
        Atom::MagLt(x, y) => {
            let form = normal_sum(alloc, x.items(), y.items())?;
            Ok(NormalAtom::MagLt(form))
        }
    }
}

// One form for x - y and y - x.
fn normal_up_to_sign(
    alloc: Global,
    x: &[Mono],
    y: &[Mono],
) -> Result<BTreeMap<Term, i128>, AllocError>
    ensures { IfOk result (λ m. m.entries ≡ NormalForm.normal_up_to_sign x.now y.now) }
{
    let form = normal_sum(alloc, x, y)?;
    let negative = normal_sum(alloc, y, x)?;
    Ok(form.min(negative))
}

// The terms of x - y with their coefficients, but for those with 0.
#[tactic(auto, using(crate::proofs::NormalForms::grown_is_normal))]
fn normal_sum(alloc: Global, x: &[Mono], y: &[Mono]) -> Result<BTreeMap<Term, i128>, AllocError>
    ensures { IfOk result (λ m. m.entries ≡ NormalForm.normal_sum x.now y.now) }
{
    let mut form = BTreeMap::new(alloc);
    put_terms(&mut form, x, y, x)?;
    put_terms(&mut form, x, y, y)?;
    Ok(form)
}

// Puts the terms of these monomials, each with its coefficient in x - y.
fn put_terms(
    form: &mut BTreeMap<Term, i128>,
    x: &[Mono],
    y: &[Mono],
    monos: &[Mono],
) -> Result<(), AllocError>
    ensures { OnOk result
        (form.new.entries ≡ fold (put_term x.now y.now) form.old.entries monos.now) }
{
    for m in monos {
        put_mono(form, x, y, *m)?;
    }
    Ok(())
}

fn put_mono(
    form: &mut BTreeMap<Term, i128>,
    x: &[Mono],
    y: &[Mono],
    m: Mono,
) -> Result<(), AllocError>
    ensures { OnOk result (form.new.entries ≡ put_term x.now y.now form.old.entries m) }
{
    let difference = difference(x, y, m.term);
    if difference == 0 {
        return Ok(());
    }
    form.insert(canonical(m.term), difference)?;
    Ok(())
}

// The coefficient of a term in x - y.
fn difference(x: &[Mono], y: &[Mono], term: Term) -> i128
    ensures { result ≡ NormalForm.difference x.now y.now term }
{
    coefficient_in(x, term) as i128 - coefficient_in(y, term) as i128
}
