//! The lines of a proof, each with its certificates below it, and then the blocks inside it.
ghost use Rattle.std.specs.Prelude.{◌≡◌, ◌++◌, map, OnOk};
ghost use Rattle.std.specs.Option.{option_to_list};
ghost use Rattle.e_deriv.specs.PlainStep.{plain_step};
ghost use Rattle.e_deriv.specs.Script.{script_of, close_script};
ghost use Rattle.e_names.specs.Canonical.{hence_raw_line, let_raw_line, apply_raw_line};
ghost use Rattle.e_spell.specs.inner.Parts.{raw_line_text, certs_text, superposition_text};
ghost use Rattle.e_spell.specs.inner.Parts.{qed_text, step_text, steps_text, names_after};
ghost use Rattle.e_spell.specs.inner.Parts.{script_text, contradicted_text};

use crate::certificates::{put_against_of, put_cert_of, put_certs};
use crate::literals::put_literal_line;
use crate::scope::{name_new, with_copies};
use crate::steps::{
    put_application, put_citation, put_claim, put_conclusion, put_construction, put_superposition,
};
use e_clause::{Against, Cert};
use e_construct::{Construction, Superpose};
use e_deriv::{Block, Close, Names, Step};
use e_literal::{Lit, Obj};
use e_names::Theorems;
use e_text::{Name, put_line};
use std::alloc::{AllocError, Global};
use std::mem;

/// The line of a hence, and its certificate if it has one.
fn put_hence(
    alloc: Global,
    out: &mut Vec<u8>,
    names: &Names,
    lit: &Lit,
    cert: &Option<Cert>,
) -> Result<(), AllocError>
    ensures { OnOk result
        (out.new.items ≡ out.old.items ++ (raw_line_text (hence_raw_line names.now lit.now)
        ++ certs_text names.now (option_to_list cert.now))) }
{
    put_literal_line(alloc, out, b"hence", names, lit)?;
    put_cert_of(alloc, out, names, cert)
}

/// A construction, and a certificate for each literal that it needs, with the names in scope before
/// it.
fn put_made(
    alloc: Global,
    out: &mut Vec<u8>,
    names: &Names,
    construction: &Construction,
    new: &[Name],
    certs: &[Cert],
) -> Result<(), AllocError>
    ensures { OnOk result (out.new.items ≡ out.old.items
        ++ (raw_line_text (let_raw_line names.now construction.now new.now)
        ++ certs_text names.now certs.now)) }
{
    put_construction(alloc, out, names, construction, new)?;
    put_certs(alloc, out, names, certs)
}

/// The use of an earlier theorem, and a certificate for each literal that it needs, with the names
/// in scope before it.
fn put_applied(
    alloc: Global,
    out: &mut Vec<u8>,
    known: &Theorems,
    names: &Names,
    theorem: u32,
    args: &[Option<Obj>],
    new: &[Name],
    certs: &[Cert],
) -> Result<(), AllocError>
    ensures { OnOk result (out.new.items ≡ out.old.items
        ++ (raw_line_text (apply_raw_line known.now names.now theorem args.now new.now)
        ++ certs_text names.now certs.now)) }
{
    put_application(alloc, out, known, names, theorem, args, new)?;
    put_certs(alloc, out, names, certs)
}

/// The line of a superposition, and a certificate for each literal that it needs, with the names in
/// scope before it.
fn put_superposed(
    alloc: Global,
    out: &mut Vec<u8>,
    names: &Names,
    superposition: Superpose,
    new: &[Name],
    shown: &[Lit],
    certs: &[Cert],
) -> Result<(), AllocError>
    ensures { OnOk result (out.new.items ≡ out.old.items ++ (superposition_text names.now
        superposition new.now shown.now ++ certs_text names.now certs.now)) }
{
    put_superposition(alloc, out, names, superposition, new, shown)?;
    put_certs(alloc, out, names, certs)
}

/// A step, and the block inside it. An inner block begins with the names before its step, and with
/// those of the copied points.
#[cycle(put_block)]
#[tactic(auto, using(crate::proofs::ScriptTexts::plain))]
fn put_step(
    alloc: Global,
    out: &mut Vec<u8>,
    known: &Theorems,
    names: &Names,
    step: &Step,
) -> Result<(), AllocError>
    ensures { OnOk result
        (out.new.items ≡ out.old.items ++ step_text known.now names.now (plain_step step.now)) }
{
    match step {
        Step::Cite(by) => put_citation(alloc, out, names, by),
        Step::Hence { lit, cert } => put_hence(alloc, out, names, lit, cert),
        Step::Make {
            construction,
            names: new,
            certs,
        } => put_made(alloc, out, names, construction, new.items(), certs.items()),
        Step::Apply {
            theorem,
            args,
            names: new,
            certs,
        } => put_applied(
            alloc,
            out,
            known,
            names,
            *theorem,
            args.items(),
            new.items(),
            certs.items(),
        ),
        Step::Claim { shown, inner } => {
            put_claim(alloc, out, names, shown.items())?;
            put_block(alloc, out, known, names, inner)
        }
        Step::Superposed {
            superposition,
            names: new,
            shown,
            certs,
            inner,
        } => {
            put_superposed(
                alloc,
                out,
                names,
                *superposition,
                new.items(),
                shown.items(),
                certs.items(),
            )?;
            let inside = with_copies(alloc, names, *superposition, new.items())?;
            let put = put_block(alloc, out, known, &inside, inner);
            mem::drop(inside);
            put
        }
    }
}

/// The steps, each with the names in scope before it: those of new objects come into scope after
/// the step.
#[cycle(put_block)]
fn put_steps(
    alloc: Global,
    out: &mut Vec<u8>,
    known: &Theorems,
    names: &mut Names,
    steps: &[Step],
) -> Result<(), AllocError>
    ensures text { OnOk result (out.new.items ≡ out.old.items
        ++ steps_text known.now names.old (map plain_step steps.now)) }
    ensures names { OnOk result
        (names.new ≡ names_after known.now names.old (map plain_step steps.now)) }
{
    for step in steps {
        put_step(alloc, out, known, names, step)?;
        name_new(known, names, step)?;
    }
    Ok(())
}

/// The line of a qed, and a certificate for each literal of the goal.
fn put_qed(
    alloc: Global,
    out: &mut Vec<u8>,
    names: &Names,
    objects: &[Obj],
    certs: &[Cert],
) -> Result<(), AllocError>
    ensures { OnOk result
        (out.new.items ≡ out.old.items ++ qed_text names.now objects.now certs.now) }
{
    put_conclusion(alloc, out, names, objects)?;
    put_certs(alloc, out, names, certs)
}

/// A contradiction, and its certificate if it has one.
fn put_contradiction(
    alloc: Global,
    out: &mut Vec<u8>,
    names: &Names,
    against: &Option<Against>,
) -> Result<(), AllocError>
    ensures { OnOk result
        (out.new.items ≡ out.old.items ++ contradicted_text names.now against.now) }
{
    put_line(out, b"contradiction")?;
    put_against_of(alloc, out, names, against)
}

/// A close. Each block of a split begins with the names before it.
#[cycle(put_block)]
#[tactic(auto, using(crate::proofs::ScriptTexts::closes))]
fn put_close(
    alloc: Global,
    out: &mut Vec<u8>,
    known: &Theorems,
    names: &Names,
    close: &Close,
) -> Result<(), AllocError>
    ensures { OnOk result (out.new.items ≡ out.old.items
        ++ script_text known.now names.now (close_script close.now)) }
{
    match close {
        Close::Qed { objects, certs } => put_qed(alloc, out, names, objects.items(), certs.items()),
        Close::Contradiction { against } => put_contradiction(alloc, out, names, against),
        Close::Cases { lit, first, second } => {
            put_literal_line(alloc, out, b"cases", names, lit)?;
            put_block(alloc, out, known, names, first)?;
            put_line(out, b"else")?;
            put_block(alloc, out, known, names, second)
        }
    }
}

/// The lines of a block, where these names are in scope before the first.
#[cycle(put_block)]
#[tactic(auto, using(crate::proofs::ScriptTexts::blocks))]
pub(crate) fn put_block(
    alloc: Global,
    out: &mut Vec<u8>,
    known: &Theorems,
    names: &Names,
    block: &Block,
) -> Result<(), AllocError>
    ensures { OnOk result
        (out.new.items ≡ out.old.items ++ script_text known.now names.now (script_of block.now)) }
{
    let mut names = names.copy(alloc)?;
    if let Err(error) = put_steps(alloc, out, known, &mut names, &block.steps) {
        mem::drop(names);
        return Err(error);
    }
    let put = put_close(alloc, out, known, &names, &block.close);
    mem::drop(names);
    put
}
