//! The last lines of stops.
ghost use Rattle.std.specs.Prelude.{◌≡◌, ◌++◌, IfOk, OnOk};
ghost use Rattle.e_spell.specs.inner.Parts.{place_line, wanted_line, value_line};
ghost use Rattle.e_spell.specs.inner.Parts.{values_text, values_of_text, width_line};
ghost use Rattle.e_spell.specs.Spelling.{unlicensed_text, too_wide_text, stop_text, IsStop};

use crate::literals::{put_literal, put_term};
use e_deriv::{Names, Stop, Wanted};
use e_literal::{Term, Values};
use e_text::{Title, end_line, put, put_number};
use std::alloc::{AllocError, Global};

/// What happened at a step of a theorem.
fn put_place(out: &mut Vec<u8>, what: &[u8], title: Title, step: u32) -> Result<(), AllocError>
    ensures { OnOk result (out.new.items ≡ out.old.items ++ place_line what.now title step) }
{
    out.extend_from_slice(what)?;
    put(out, title.bytes())?;
    put_number(out, step)?;
    end_line(out)?;
    Ok(())
}

fn put_wanted(
    alloc: Global,
    out: &mut Vec<u8>,
    names: &Names,
    wanted: &Wanted,
) -> Result<(), AllocError>
    ensures { OnOk result (out.new.items ≡ out.old.items ++ wanted_line names.now wanted.now) }
{
    out.extend_from_slice(b"| wanted")?;
    match wanted {
        Wanted::Literal(lit) => put_literal(alloc, out, names, lit)?,
        Wanted::Match => put(out, b"match")?,
        Wanted::Contradiction => put(out, b"contradiction")?,
    }
    end_line(out)
}

/// A term and its value.
#[tactic(auto, using(e_text::proofs::Spaced::spaced_append))]
fn put_value(out: &mut Vec<u8>, names: &Names, term: Term, value: u128) -> Result<(), AllocError>
    ensures { OnOk result (out.new.items ≡ out.old.items ++ value_line names.now (term, value)) }
{
    out.extend_from_slice(b"| value")?;
    put_term(out, names, term)?;
    put_number(out, value)?;
    end_line(out)
}

/// Terms with their values, one pair a line.
fn put_values(out: &mut Vec<u8>, names: &Names, values: &[(Term, u128)]) -> Result<(), AllocError>
    ensures { OnOk result (out.new.items ≡ out.old.items ++ values_text names.now values.now) }
{
    for (term, value) in values {
        put_value(out, names, *term, *value)?;
    }
    Ok(())
}

fn put_values_of(
    out: &mut Vec<u8>,
    names: &Names,
    values: &Option<Values>,
) -> Result<(), AllocError>
    ensures { OnOk result (out.new.items ≡ out.old.items ++ values_of_text names.now values.now) }
{
    match values {
        Some(values) => put_values(out, names, values.items()),
        None => Ok(()),
    }
}

fn put_width(out: &mut Vec<u8>, width: u128) -> Result<(), AllocError>
    ensures { OnOk result (out.new.items ≡ out.old.items ++ width_line width) }
{
    out.extend_from_slice(b"| width")?;
    put_number(out, width)?;
    end_line(out)
}

fn spell_unlicensed(
    alloc: Global,
    title: Title,
    step: u32,
    wanted: &Wanted,
    values: &Option<Values>,
    names: &Names,
) -> Result<Vec<u8>, AllocError>
    ensures { IfOk result
        (λ v. v.items ≡ unlicensed_text title step wanted.now values.now names.now) }
{
    let mut out = Vec::new(alloc);
    put_place(&mut out, b"unlicensed", title, step)?;
    put_wanted(alloc, &mut out, names, wanted)?;
    put_values_of(&mut out, names, values)?;
    Ok(out)
}

fn spell_too_wide(
    alloc: Global,
    title: Title,
    step: u32,
    wanted: &Wanted,
    width: u128,
    names: &Names,
) -> Result<Vec<u8>, AllocError>
    ensures { IfOk result (λ v. v.items ≡ too_wide_text title step wanted.now width names.now) }
{
    let mut out = Vec::new(alloc);
    put_place(&mut out, b"too-wide", title, step)?;
    put_wanted(alloc, &mut out, names, wanted)?;
    put_width(&mut out, width)?;
    Ok(out)
}

/// The last lines of a stop, with the names of the stop: `unlicensed` or `too-wide`, the theorem's
/// title and the step's number; below it what the step lacks, or what is wanted where it is too
/// wide; and the values that show that it does not follow, one a line in their order where there
/// are any, or the width.
///
/// An object without a name is written as `nameless`. It fails only out of memory.
pub fn spell_stop(alloc: Global, title: Title, stop: &Stop) -> Result<Vec<u8>, AllocError>
    // The stop is at a step: out of memory has no last lines of a theorem.
    requires { IsStop stop.now }
    ensures { IfOk result (λ v. v.items ≡ stop_text title stop.now) }
{
    match stop {
        Stop::Unlicensed {
            step,
            wanted,
            values,
            names,
        } => spell_unlicensed(alloc, title, *step, wanted, values, names),
        Stop::TooWide {
            step,
            wanted,
            width,
            names,
        } => spell_too_wide(alloc, title, *step, wanted, *width, names),
        Stop::NoMemory => Ok(Vec::new(alloc)),
    }
}
