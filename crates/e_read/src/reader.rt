//! Derivation texts, block by block.
ghost use Rattle.std.specs.Prelude.{◌≡◌, ◌≤◌, ◌<◌, ◌-◌, ◌^◌, length, IfOk, OnOk, OnSome, IsTrue};
ghost use Rattle.std.specs.List.{list_all};
ghost use Rattle.e_text.specs.Lines.{view_of_line};
ghost use Rattle.e_theorem.specs.Statements.{as_view};
ghost use Rattle.e_deriv.specs.Script.{script_of};
ghost use Rattle.e_deriv.specs.Fitting.{is_small_statement};
ghost use Rattle.e_deriv.specs.Versions.{has_certs_of};
ghost use Rattle.e_line.specs.Limits.{most_theorems};
ghost use Rattle.e_names.specs.TitledStatements.{stated_by};
ghost use Rattle.e_book.specs.Grammar.{last_line};
ghost use Rattle.e_book.specs.TheoremViews.{entry_of};
ghost use Rattle.e_book.specs.HasSpelling.{HasSpelling};
ghost use Rattle.e_read.specs.Text.{garbled_at, at_start, piece_from};
ghost use Rattle.e_read.specs.Text.{without_certs, OfTheorem, TextReads};
ghost use Rattle.e_read.specs.inner.Machine;
ghost use Rattle.e_read.specs.inner.Machine.{parser_after_line};
ghost use Rattle.e_read.specs.inner.Machine.{LineIs, LineReads, ProgressIs, FitsReading};

use crate::reading::BlockParser;
use e_book::Theorem;
use e_clause::Version;
use e_line::LineError;
use e_names::Theorems;
use e_text::{Line, Lines, faulty_line};
use std::alloc::{AllocError, Global};
use std::mem;
use thiserror::Error;

/// What is in a derivation text.
#[derive(Drop)]
pub enum Piece {
    /// A theorem with its derivation.
    Theorem(Theorem),
    /// The last line, which says how many theorems there are.
    Last { theorems: u32 },
}

/// Why a derivation text is refused.
#[derive(Clone, Copy, Debug, Error)]
pub enum TextFault {
    /// The first line that is malformed at its place; or, where the text ends too early, the line
    /// after its last.
    #[error("line {line} is malformed here")]
    Garbled { line: u64 },
    #[error("out of memory")]
    NoMemory,
}

impl From<AllocError> for TextFault {
    ghost use Rattle.std.specs.Prelude.{◌≡◌};
    ghost use Rattle.e_read.specs.declared.reader.TextFault.TheVariants.{NoMemory};

    ghost from_gives = { λ _ e. e ≡ NoMemory };

    fn from(_e: AllocError) -> TextFault {
        TextFault::NoMemory
    }
}

/// What a line makes of a block.
enum Progress {
    /// It is the last line of the text.
    Last,
    /// The theorem has ended.
    Complete,
    /// More lines have to come.
    Continue,
}

/// The next line.
fn next_line<'a>(lines: &mut Lines<'a>) -> Result<Line<'a>, TextFault>
    ensures line { LineIs result lines.old lines.new }
    ensures last { OnOk result (last_line lines.new ≡ last_line lines.old) }
    ensures shorter { OnOk result (length lines.new.lines < length lines.old.lines) }
{
    match lines.next() {
        Some(Ok(line)) => Ok(line),
        Some(Err(fault)) => Err(TextFault::Garbled {
            line: faulty_line(fault),
        }),
        None => Err(TextFault::Garbled { line: lines.line() }),
    }
}

/// The block goes on with one more line.
fn take_line(
    alloc: Global,
    known: &Theorems,
    reading: &mut BlockParser,
    line: Line<'_>,
) -> Result<(), TextFault>
    requires reading { FitsReading reading.old }
    requires few { OnSome reading.old.parser (length known.now ≤ most_theorems) }
    requires known { IsTrue (list_all is_small_statement (stated_by known.now)) }
    ensures value { LineReads result reading.new (garbled_at line.entry.number
        (parser_after_line known.now reading.old (view_of_line line.entry))) }
    ensures fits { OnOk result (FitsReading reading.new) }
    ensures few { OnOk result (OnSome reading.new.parser (length known.now ≤ most_theorems)) }
{
    match reading.take(alloc, known, line) {
        Ok(()) => Ok(()),
        Err(LineError::NoMemory) => Err(TextFault::NoMemory),
        Err(LineError::Fault(_)) => Err(TextFault::Garbled { line: line.number }),
    }
}

/// What a line makes of a block.
fn progress_with_line(
    alloc: Global,
    known: &Theorems,
    reading: &mut BlockParser,
    line: Line<'_>,
) -> Result<Progress, TextFault>
    requires reading { FitsReading reading.old }
    requires few { OnSome reading.old.parser (length known.now ≤ most_theorems) }
    requires known { IsTrue (list_all is_small_statement (stated_by known.now)) }
    ensures turn { ProgressIs known.now reading.old (view_of_line line.entry) reading.new result }
    ensures fits { OnOk result (FitsReading reading.new) }
    ensures few { OnOk result (OnSome reading.new.parser (length known.now ≤ most_theorems)) }
{
    if reading.is_end(alloc, known, line)? {
        return Ok(Progress::Last);
    }
    take_line(alloc, known, reading, line)?;
    if reading.is_finished() {
        return Ok(Progress::Complete);
    }
    Ok(Progress::Continue)
}

/// Reads line by line, up to the end of a theorem or the last line.
fn read_piece(
    alloc: Global,
    lines: &mut Lines,
    known: &Theorems,
    version: Version,
) -> Result<Piece, TextFault>
    requires few { length known.now < 2 ^ 32 - 1 }
    requires known { IsTrue (list_all is_small_statement (stated_by known.now)) }
    ensures read { TextReads known.now result lines.new
        (Machine.piece_from known.now (last_line lines.old) (Machine.at_start version)
        lines.old.lines) }
    ensures last { OnOk result (last_line lines.new ≡ last_line lines.old) }
    ensures shorter { OnOk result (length lines.new.lines < length lines.old.lines) }
{
    let mut reading = BlockParser::new(alloc, version);
    loop {
        let line = match next_line(lines) {
            Ok(line) => line,
            Err(fault) => {
                mem::drop(reading);
                return Err(fault);
            }
        };
        match progress_with_line(alloc, known, &mut reading, line) {
            Ok(Progress::Last) => {
                mem::drop(reading);
                return Ok(Piece::Last {
                    theorems: known.len() as u32,
                });
            }
            Ok(Progress::Complete) => {
                let theorem = reading.into_theorem(alloc)?;
                return Ok(Piece::Theorem(theorem));
            }
            Ok(Progress::Continue) => {}
            Err(fault) => {
                mem::drop(reading);
                return Err(fault);
            }
        }
    }
}

/// The next theorem with its derivation, or the last line, in a text of this version.
///
/// It takes the lines up to the theorem's `end`, or the last line alone. A line is garbled where it
/// is the first that is malformed at its place; after that the lines are not used again. The lines
/// are those of a text with at most 262,144 bytes a line. The known theorems are statements, as
/// each is that is read, and may be more than a text may have: then none is read any more.
pub fn read(
    alloc: Global,
    lines: &mut Lines,
    known: &Theorems,
    version: Version,
) -> Result<Piece, TextFault>
    requires few { length known.now < 2 ^ 32 - 1 }
    requires known { IsTrue (list_all is_small_statement (stated_by known.now)) }
    ensures read { TextReads known.now result lines.new
        (piece_from known.now (last_line lines.old) (at_start version) lines.old.lines) }
    ensures last { OnOk result (last_line lines.new ≡ last_line lines.old) }
    ensures shorter { OnOk result (length lines.new.lines < length lines.old.lines) }
    // without its certificates a theorem that is read has a spelling in a book: its title is new,
    // and it is within the limits
    ensures spelled { IfOk result
        (OfTheorem (λ t. HasSpelling known.now (without_certs (entry_of t)))) }
    // its certificates are of that version, and name literals that are well formed
    ensures version { IfOk result
        (OfTheorem (λ t. IsTrue (has_certs_of version (script_of t.block)))) }
    // its literals speak of its own objects
    ensures states { IfOk result
        (OfTheorem (λ t. IsTrue (is_small_statement (as_view t.statement)))) }
{
    read_piece(alloc, lines, known, version)
}
