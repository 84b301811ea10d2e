//! The lines that answer a figure text.
ghost use Rattle.std.specs.Prelude.{◌≡◌, ◌++◌, flat_map, length, OnOk};
ghost use Rattle.e_drawing.specs.Answers.{given_word, shown_word, answer_line};
ghost use Rattle.e_drawing.specs.Answers.{given_line, shown_line, figure_line, answer_text};

use crate::plan::Plan;
use e_deriv::Names;
use e_figure::{Figure, holds, refutes};
use e_line::put_literal;
use e_literal::Lit;
use e_names::raw_of;
use e_text::{end_line, put_number};
use std::alloc::{AllocError, Global};
use std::mem;

/// Whether a given literal is true.
fn given_word(figure: &Figure, lit: &Lit) -> &'static [u8]
    ensures { result.now ≡ given_word figure.now lit.now }
{
    if holds(figure, lit) {
        return b"true";
    }
    b"false"
}

/// Whether a shown literal is true, or refuted where all given ones are true, or only not true.
fn shown_word(figure: &Figure, given: &[Lit], lit: &Lit) -> &'static [u8]
    ensures { result.now ≡ shown_word figure.now given.now lit.now }
{
    if holds(figure, lit) {
        return b"true";
    }
    if refutes(figure, given, lit) {
        return b"refuted";
    }
    b"false"
}

/// A word, what holds of a literal, and the literal, as a line.
fn put_answer(
    alloc: Global,
    out: &mut Vec<u8>,
    word: &[u8],
    holds: &[u8],
    names: &Names,
    lit: &Lit,
) -> Result<(), AllocError>
    ensures { OnOk result
        (out.new.items ≡ out.old.items ++ answer_line word.now holds.now names.now lit.now) }
{
    out.extend_from_slice(word)?;
    out.extend_from_slice(holds)?;
    let raw = raw_of(alloc, names, lit)?;
    let put = put_literal(out, &raw);
    mem::drop(raw);
    put?;
    end_line(out)
}

/// A line for each given literal.
fn put_given(alloc: Global, out: &mut Vec<u8>, plan: &Plan) -> Result<(), AllocError>
    ensures { OnOk result
        (out.new.items ≡ out.old.items ++ flat_map (given_line plan.now) plan.now.given) }
{
    for lit in plan.given.items() {
        put_answer(
            alloc,
            out,
            b"given ",
            given_word(&plan.figure, lit),
            &plan.names,
            lit,
        )?;
    }
    Ok(())
}

/// A line for each shown literal.
fn put_shown(alloc: Global, out: &mut Vec<u8>, plan: &Plan) -> Result<(), AllocError>
    ensures { OnOk result
        (out.new.items ≡ out.old.items ++ flat_map (shown_line plan.now) plan.now.shown) }
{
    for lit in plan.shown.items() {
        put_answer(
            alloc,
            out,
            b"show ",
            shown_word(&plan.figure, plan.given.items(), lit),
            &plan.names,
            lit,
        )?;
    }
    Ok(())
}

/// The line with the number of shown literals.
fn put_last(out: &mut Vec<u8>, shown: u64) -> Result<(), AllocError>
    ensures { OnOk result (out.new.items ≡ out.old.items ++ figure_line shown) }
{
    out.extend_from_slice(b"figure")?;
    put_number(out, shown)?;
    end_line(out)
}

/// The answer to a figure text.
pub fn put_answers(
    alloc: Global,
    out: &mut Vec<u8>,
    plan: &Plan,
    shown: u64,
) -> Result<(), AllocError>
    requires { shown ≡ length plan.now.shown }
    ensures { OnOk result (out.new.items ≡ out.old.items ++ answer_text plan.now) }
{
    put_given(alloc, out, plan)?;
    put_shown(alloc, out, plan)?;
    put_last(out, shown)
}
