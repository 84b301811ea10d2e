//! The line of each raw line, with the names that it has, and without its end. It fails only out
//! of memory.
ghost use Rattle.std.specs.Prelude.{◌≡◌, ◌++◌, ◌∷◌, [], codes, map, OnOk};
ghost use Rattle.e_text.specs.Tokens.{with_spaces};
ghost use Rattle.e_construct.specs.Views.{piece_view};
ghost use Rattle.e_line.specs.declared.raw_line.RawLine.TheVariants as rawlines;
ghost use Rattle.e_line.specs.Superposes.{superpose_pieces};
ghost use Rattle.e_line.specs.Canonical.{lit_words, lits_words, filled_pieces, line_pieces};
ghost use Rattle.e_line.specs.Canonical.{avoid_words, argument_word, made_words, line_of};

use crate::literal::RawLit;
use crate::put_lit::{put_literal, put_literals};
use crate::raw_line::RawLine;
use crate::superposes::superposition_pieces;
use crate::words::sort_word;
use e_construct::{Piece, Shape, pieces};
use e_text::{Name, put, put_names};
use std::alloc::AllocError;

/// A citation after its first word.
fn put_citation(
    out: &mut Vec<u8>,
    rule: &[u8],
    names: &[Name],
    lit: &RawLit,
) -> Result<(), AllocError>
    ensures { OnOk result (out.new.items ≡ out.old.items
        ++ with_spaces (rule.now ∷ (names.now ++ codes ":" ∷ lit_words lit.now))) }
{
    put(out, rule)?;
    put_names(out, names)?;
    put(out, b":")?;
    put_literal(out, lit)?;
    Ok(())
}

/// Writes the line that cites a rule, by the rule's name.
pub fn put_by(
    out: &mut Vec<u8>,
    rule: &[u8],
    names: &[Name],
    lit: &RawLit,
) -> Result<(), AllocError>
    ensures { OnOk result
        (out.new.items ≡ out.old.items ++ line_of (rawlines.By rule.now names.now lit.now)) }
{
    out.extend_from_slice(b"by")?;
    put_citation(out, rule, names, lit)
}

/// The pieces of a line, with the names of new objects and of arguments at their places.
fn put_pieces(
    out: &mut Vec<u8>,
    pieces: &[Piece],
    new: &[Name],
    args: &[Name],
) -> Result<(), AllocError>
    ensures { OnOk result (out.new.items ≡ out.old.items
        ++ with_spaces (filled_pieces (map piece_view pieces.now) new.now args.now)) }
{
    let [piece, pieces @ ..] = pieces else {
        return Ok(());
    };
    match *piece {
        Piece::Word(word) => {
            put(out, word)?;
            put_pieces(out, pieces, new, args)
        }
        Piece::New => match new {
            [] => put_pieces(out, pieces, new, args),
            [name, new @ ..] => {
                put(out, name.bytes())?;
                put_pieces(out, pieces, new, args)
            }
        },
        Piece::Argument => match args {
            [] => put_pieces(out, pieces, new, args),
            [name, args @ ..] => {
                put(out, name.bytes())?;
                put_pieces(out, pieces, new, args)
            }
        },
    }
}

/// The line of the first of the shapes.
fn put_shape(
    out: &mut Vec<u8>,
    shapes: &[Shape],
    new: &[Name],
    args: &[Name],
) -> Result<(), AllocError>
    ensures { OnOk result (out.new.items ≡ out.old.items
        ++ with_spaces (filled_pieces (line_pieces shapes.now) new.now args.now)) }
{
    match shapes {
        [] => Ok(()),
        [shape, ..] => put_pieces(out, pieces(*shape), new, args),
    }
}

/// The names of the avoided objects, if there are any.
fn put_avoided(out: &mut Vec<u8>, avoid: &[Name]) -> Result<(), AllocError>
    ensures { OnOk result (out.new.items ≡ out.old.items ++ with_spaces (avoid_words avoid.now)) }
{
    if avoid.is_empty() {
        return Ok(());
    }
    put(out, b"avoid")?;
    put_names(out, avoid)
}

/// A construction after its first word.
fn put_construction(
    out: &mut Vec<u8>,
    shapes: &[Shape],
    new: &[Name],
    args: &[Name],
    avoid: &[Name],
) -> Result<(), AllocError>
    ensures { OnOk result (out.new.items ≡ out.old.items
        ++ with_spaces (filled_pieces (line_pieces shapes.now) new.now args.now ++ avoid_words avoid.now)) }
{
    put_shape(out, shapes, new, args)?;
    put_avoided(out, avoid)?;
    Ok(())
}

/// Writes the line of a construction of these shapes.
pub fn put_let(
    out: &mut Vec<u8>,
    shapes: &[Shape],
    new: &[Name],
    args: &[Name],
    avoid: &[Name],
) -> Result<(), AllocError>
    ensures { OnOk result (out.new.items ≡ out.old.items ++ line_of (rawlines.Let
        (record { shapes = shapes.now; new = new.now; args = args.now; avoid = avoid.now }))) }
{
    out.extend_from_slice(b"let")?;
    put_construction(out, shapes, new, args, avoid)
}

fn put_arguments(out: &mut Vec<u8>, args: &[Option<Name>]) -> Result<(), AllocError>
    ensures { OnOk result (out.new.items ≡ out.old.items ++ with_spaces (map argument_word args.now)) }
{
    for argument in args {
        put_argument(out, *argument)?;
    }
    Ok(())
}

/// An argument: a name, or the blank.
fn put_argument(out: &mut Vec<u8>, argument: Option<Name>) -> Result<(), AllocError>
    ensures { OnOk result (out.new.items ≡ out.old.items ++ 32 ∷ argument_word argument) }
{
    match argument {
        None => put(out, b"_"),
        Some(name) => put(out, name.bytes()),
    }
}

/// The names of made objects, if there are any.
fn put_made(out: &mut Vec<u8>, new: &[Name]) -> Result<(), AllocError>
    ensures { OnOk result (out.new.items ≡ out.old.items ++ with_spaces (made_words new.now)) }
{
    if new.is_empty() {
        return Ok(());
    }
    put(out, b"as")?;
    put_names(out, new)
}

/// The use of an earlier theorem after its first word.
fn put_use(
    out: &mut Vec<u8>,
    title: &[u8],
    args: &[Option<Name>],
    new: &[Name],
) -> Result<(), AllocError>
    ensures { OnOk result (out.new.items ≡ out.old.items
        ++ with_spaces (title.now ∷ (map argument_word args.now ++ made_words new.now))) }
{
    put(out, title)?;
    put_arguments(out, args)?;
    put_made(out, new)?;
    Ok(())
}

/// Writes the line that uses the theorem with this title.
pub fn put_apply(
    out: &mut Vec<u8>,
    title: &[u8],
    args: &[Option<Name>],
    new: &[Name],
) -> Result<(), AllocError>
    ensures { OnOk result (out.new.items ≡ out.old.items ++ line_of
        (rawlines.Apply (record { title = title.now; args = args.now; new = new.now }))) }
{
    out.extend_from_slice(b"apply")?;
    put_use(out, title, args, new)
}

/// A superposition after its first word.
#[tactic(auto, using(e_text::proofs::Spaced::spaced_append))]
fn put_superposition(
    out: &mut Vec<u8>,
    new: &[Name],
    args: &[Name],
    shown: &[RawLit],
) -> Result<(), AllocError>
    ensures { OnOk result (out.new.items ≡ out.old.items
        ++ with_spaces (filled_pieces superpose_pieces new.now args.now ++ lits_words shown.now)) }
{
    put_pieces(out, superposition_pieces(), new, args)?;
    put_literals(out, shown)?;
    Ok(())
}

/// Writes the line of a superposition: the triangle and the place, the names of the copied points,
/// and what its block shows.
pub fn put_superpose(
    out: &mut Vec<u8>,
    args: &[Name],
    new: &[Name],
    shown: &[RawLit],
) -> Result<(), AllocError>
    ensures { OnOk result (out.new.items ≡ out.old.items ++ line_of
        (rawlines.Superpose (record { args = args.now; new = new.now; shown = shown.now }))) }
{
    out.extend_from_slice(b"superpose")?;
    put_superposition(out, new, args, shown)
}

/// Writes a line of a word and names.
pub fn put_named(out: &mut Vec<u8>, word: &[u8], names: &[Name]) -> Result<(), AllocError>
    ensures { OnOk result (out.new.items ≡ out.old.items ++ (word.now ++ with_spaces names.now)) }
{
    out.extend_from_slice(word)?;
    put_names(out, names)
}

/// Writes a line of a word and literals.
pub fn put_stated(out: &mut Vec<u8>, word: &[u8], lits: &[RawLit]) -> Result<(), AllocError>
    ensures { OnOk result
        (out.new.items ≡ out.old.items ++ (word.now ++ with_spaces (lits_words lits.now))) }
{
    out.extend_from_slice(word)?;
    put_literals(out, lits)
}

/// Writes a line of a word and a literal.
pub fn put_word_and_lit(out: &mut Vec<u8>, word: &[u8], lit: &RawLit) -> Result<(), AllocError>
    ensures { OnOk result
        (out.new.items ≡ out.old.items ++ (word.now ++ with_spaces (lit_words lit.now))) }
{
    out.extend_from_slice(word)?;
    put_literal(out, lit)
}

/// Writes a raw line as it is spelled.
pub fn put_raw_line(out: &mut Vec<u8>, raw_line: &RawLine) -> Result<(), AllocError>
    ensures { OnOk result (out.new.items ≡ out.old.items ++ line_of raw_line.now) }
{
    match raw_line {
        RawLine::Theorem(title) => {
            out.extend_from_slice(b"theorem")?;
            put(out, title.bytes())
        }
        RawLine::Declare(sort, names) => put_named(out, sort_word(*sort), names.items()),
        RawLine::Given(lits) => put_stated(out, b"given", lits.items()),
        RawLine::Made(sort, names) => {
            out.extend_from_slice(b"made")?;
            put(out, sort_word(*sort))?;
            put_names(out, names.items())
        }
        RawLine::Show(lits) => put_stated(out, b"show", lits.items()),
        RawLine::Proof => out.extend_from_slice(b"proof"),
        RawLine::By(rule, names, lit) => put_by(out, rule.bytes(), names.items(), lit),
        RawLine::Hence(lit) => put_word_and_lit(out, b"hence", lit),
        RawLine::Let(raw) => put_let(
            out,
            raw.shapes.items(),
            raw.new.items(),
            raw.args.items(),
            raw.avoid.items(),
        ),
        RawLine::Apply(raw) => put_apply(out, raw.title.bytes(), raw.args.items(), raw.new.items()),
        RawLine::Qed(names) => put_named(out, b"qed", names.items()),
        RawLine::Contradiction => out.extend_from_slice(b"contradiction"),
        RawLine::Claim(lits) => put_stated(out, b"claim", lits.items()),
        RawLine::Superpose(raw) => {
            put_superpose(out, raw.args.items(), raw.new.items(), raw.shown.items())
        }
        RawLine::Cases(lit) => put_word_and_lit(out, b"cases", lit),
        RawLine::Else => out.extend_from_slice(b"else"),
        RawLine::End => out.extend_from_slice(b"end"),
    }
}
