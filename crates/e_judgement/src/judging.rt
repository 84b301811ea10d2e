//! A derivation text, theorem by theorem.
ghost use Rattle.std.specs.Prelude.{◌≡◌, ◌≤◌, ◌^◌, ◌++◌, ◌∷◌, [], false, length, IfOk, OnOk};
ghost use Rattle.e_text.specs.Lines.{view_of_line};
ghost use Rattle.e_book.specs.Grammar.{last_line};
ghost use Rattle.e_names.specs.TitledStatements.{titled_statement, is_known};
ghost use Rattle.e_judgement.specs.Judged.{head_of, is_head, version_of, JudgesText, IsJudged};
ghost use Rattle.e_judgement.specs.Steps.{IsHeadFound};

use crate::judgement::Judgement;
use crate::next::{NextItem, next_item};
use e_book::Theorem;
use e_clause::Version;
use e_names::Theorems;
use e_text::{Line, LineEnd, Lines};
use std::alloc::{AllocError, Global};
use std::mem;

/// The most bytes that a line of a derivation text may have.
pub const LONGEST_LINE: usize = 262_144;

/// The first line of a derivation text of this version.
fn head_of(version: Version) -> &'static [u8]
    ensures { result.now ≡ head_of version }
{
    match version {
        Version::One => b"derivation 1",
        Version::Two => b"derivation 2",
    }
}

/// Whether a line is the first one of a derivation text of this version.
fn is_head(version: Version, line: &Line) -> bool
    ensures { result ≡ is_head version (view_of_line line.now) }
{
    matches!(line.end, LineEnd::Lf) && line.bytes == head_of(version)
}

/// The version that the first line of a derivation text says, if it is one.
fn version_of(line: &Line) -> Option<Version>
    ensures { result ≡ version_of (view_of_line line.now) }
{
    if is_head(Version::One, line) {
        return Some(Version::One);
    }
    if is_head(Version::Two, line) {
        return Some(Version::Two);
    }
    None
}

/// Keeps the title and the statement of a theorem.
pub fn keep(known: &mut Theorems, theorem: Theorem) -> Result<(), AllocError>
    requires { is_known known.old theorem.title ≡ false }
    ensures { OnOk result (known.new ≡ known.old ++ titled_statement theorem.title theorem.statement ∷ []) }
{
    let Theorem {
        title,
        names,
        statement,
        block,
    } = theorem;
    mem::drop(names);
    mem::drop(block);
    known.add(title, statement)
}

/// The version of the text, by its head line, which is taken.
pub fn begins(lines: &mut Lines) -> Option<Version>
    requires { lines.old.line ≡ 1 }
    ensures { IsHeadFound lines.old.lines lines.new result }
{
    match lines.next() {
        Some(Ok(line)) => version_of(&line),
        Some(Err(_)) => None,
        None => None,
    }
}

/// Judges the theorems one after another, and keeps each that is certified.
fn judge_theorems(
    alloc: Global,
    version: Version,
    known: &mut Theorems,
    lines: &mut Lines,
) -> Result<Judgement, AllocError>
    requires { known.old ≡ [] }
    ensures { IfOk result (λ j. IsJudged version (last_line lines.old) lines.old.lines j) }
{
    loop {
        let theorem = match next_item(alloc, version, known, lines) {
            Ok(NextItem::Theorem(theorem)) => theorem,
            Ok(NextItem::End(judgement)) => return Ok(judgement),
            Err(_) => return Err(AllocError),
        };
        keep(known, theorem)?;
    }
}

/// Judges a derivation text. It fails only out of memory.
///
/// The text is verified exactly where it is the head line `derivation 1` or `derivation 2`, which
/// says the version, blocks of that version in which no line is malformed at its place and each
/// certificate certifies at its own step, and the line `accepted N` with their number, and nothing
/// comes after that. Else the first block in which something is wrong decides: it is garbled at its
/// first line that is malformed at its place, or, where none is, bad at its first step that is not
/// certified. No search is part of this.
pub fn judge(alloc: Global, text: &[u8]) -> Result<Judgement, AllocError>
    requires { length text.now ≤ 2 ^ 60 }
    ensures { IfOk result (λ j. JudgesText text.now j) }
{
    let mut lines = Lines::new(text, LONGEST_LINE, text.len() as u64);
    let Some(version) = begins(&mut lines) else {
        return Ok(Judgement::Garbled { line: 1 });
    };
    let mut known = Theorems::new(alloc);
    let judged = judge_theorems(alloc, version, &mut known, &mut lines);
    mem::drop(known);
    judged
}
