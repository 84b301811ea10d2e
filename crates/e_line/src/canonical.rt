//! Lines that are spelled as their raw line is.
ghost use Rattle.std.specs.Prelude.{◌≡◌, is_some, IfOk};
ghost use Rattle.std.specs.List.{list_all};
ghost use Rattle.e_line.specs.Canonical.{line_of};
ghost use Rattle.e_line.specs.Reading.{texts, Gives};
ghost use Rattle.e_line.specs.CanonicalLines.{is_less, is_canonical_lit, are_canonical_lits};
ghost use Rattle.e_line.specs.CanonicalLines.{is_canonical_form, canonical_line_of};

use crate::fault::LineError;
use crate::literal::{RawAtom, RawLit};
use crate::put_line::put_raw_line;
use crate::raw_line::{RawLine, raw_line_of};
use e_text::Name;
use std::alloc::{AllocError, Global};
use std::mem;

fn is_less(atom: &RawAtom) -> bool
    ensures { result ≡ is_less atom.now }
{
    matches!(atom, RawAtom::SumsLess(_, _))
}

/// Whether the literal is no negation of a sum being less: that is written with the sides
/// exchanged.
pub fn is_canonical_lit(lit: &RawLit) -> bool
    ensures { result ≡ is_canonical_lit lit.now }
{
    !(lit.neg && is_less(&lit.atom))
}

fn are_canonical_lits(lits: &[RawLit]) -> bool
    ensures { result ≡ are_canonical_lits lits.now }
{
    lits.iter().all(|lit| is_canonical_lit(lit))
}

fn have_no_blank(args: &[Option<Name>]) -> bool
    ensures { result ≡ list_all is_some args.now }
{
    args.iter().all(|argument| argument.is_some())
}

/// Whether the literals are canonical, one on a given or show line, and no argument is a blank.
fn is_canonical_form(raw_line: &RawLine) -> bool
    ensures { result ≡ is_canonical_form raw_line.now }
{
    match raw_line {
        RawLine::Given(lits) => lits.len() == 1 && are_canonical_lits(lits.items()),
        RawLine::Show(lits) => lits.len() == 1 && are_canonical_lits(lits.items()),
        RawLine::Hence(lit) => is_canonical_lit(lit),
        RawLine::Apply(raw) => have_no_blank(raw.args.items()),
        RawLine::Claim(lits) => are_canonical_lits(lits.items()),
        RawLine::Superpose(raw) => are_canonical_lits(raw.shown.items()),
        RawLine::Cases(lit) => is_canonical_lit(lit),
        _ => true,
    }
}

/// The line of a raw line, made in room for this many bytes.
fn line_of(alloc: Global, raw_line: &RawLine, room: usize) -> Result<Vec<u8>, AllocError>
    ensures { IfOk result (λ line. line.items ≡ line_of raw_line.now) }
{
    let mut line = Vec::with_capacity(alloc, room)?;
    put_raw_line(&mut line, raw_line)?;
    Ok(line)
}

/// The raw line of a line of these words that is spelled as this raw line is.
#[tactic(auto, unfolding(crate::specs::CanonicalLines::canonical_line_of))]
pub fn canonical_line_of(alloc: Global, line: &[u8], words: &[&[u8]]) -> Result<RawLine, LineError>
    ensures { Gives (λ f. f) result (canonical_line_of line.now (texts words.now)) }
{
    let raw_line = raw_line_of(alloc, words)?;
    let again = match line_of(alloc, &raw_line, line.len()) {
        Ok(again) => again,
        Err(error) => {
            mem::drop(raw_line);
            return Err(error.into());
        }
    };
    if is_canonical_form(&raw_line) && line == again.as_slice() {
        Ok(raw_line)
    } else {
        mem::drop(raw_line);
        Err(LineError::MALFORMED)
    }
}
