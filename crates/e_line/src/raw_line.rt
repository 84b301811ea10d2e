//! Raw lines: lines as they are spelled, known from their words alone.
ghost use Rattle.std.specs.Prelude.{◌≡◌, List, length, IfOk, [], ◌∷◌, ◌==◌};
ghost use Rattle.e_line.specs.Reading.{texts, Gives};
ghost use Rattle.e_line.specs.RawLines.{declare_of, sort_of, made_of, by_of};
ghost use Rattle.e_line.specs.RawLines.{raw_line_of, raw_line_named, theorem_line_of, bare_line};

use crate::applies::{RawApply, apply_of};
use crate::fault::LineError;
use crate::lets::{RawLet, let_of};
use crate::literal::{RawLit, diagram_lit_of, lit_of, lits_of};
use crate::superposes::{RawSuperpose, superpose_of};
use crate::words::{Words, cut_at, names_of, some_names};
use e_literal::{Items, Sort};
use e_text::{Name, Title, is};
use std::alloc::Global;
use std::mem;

/// A line, by its first word.
#[derive(Drop)]
pub enum RawLine {
    /// `theorem TITLE`
    Theorem(Title),
    /// `points NAMES`, `lines NAMES` or `circles NAMES`
    Declare(Sort, Items<Name>),
    /// `given LITERALS`
    Given(Items<RawLit>),
    /// `made points NAMES`, `made lines NAMES` or `made circles NAMES`
    Made(Sort, Items<Name>),
    /// `show LITERALS`
    Show(Items<RawLit>),
    /// `proof`
    Proof,
    /// `by RULE NAMES : LITERAL`
    By(Title, Items<Name>, RawLit),
    /// `hence LITERAL`
    Hence(RawLit),
    /// `let ..`, a construction
    Let(RawLet),
    /// `apply TITLE ARGUMENTS`, or with `as NAMES` after
    Apply(RawApply),
    /// `qed`, or `qed NAMES`
    Qed(Items<Name>),
    /// `contradiction`
    Contradiction,
    /// `claim LITERALS`
    Claim(Items<RawLit>),
    /// `superpose ..`
    Superpose(RawSuperpose),
    /// `cases LITERAL`
    Cases(RawLit),
    /// `else`
    Else,
    /// `end`
    End,
}

#[tactic(auto, unfolding(crate::specs::RawLines::declare_of))]
fn declare_of(alloc: Global, sort: Sort, words: &[&[u8]]) -> Result<RawLine, LineError>
    ensures { Gives (λ f. f) result (declare_of sort (texts words.now)) }
{
    let names = some_names(alloc, words)?;
    Ok(RawLine::Declare(sort, names))
}

/// The sort whose objects a word declares.
#[tactic(auto, unfolding(crate::specs::RawLines::sort_of))]
fn sort_of(word: &[u8]) -> Result<Sort, LineError>
    ensures { Gives (λ s. s) result (sort_of word.now) }
{
    if is(word, b"points") {
        return Ok(Sort::Point);
    }
    if is(word, b"lines") {
        return Ok(Sort::Line);
    }
    if is(word, b"circles") {
        return Ok(Sort::Circle);
    }
    Err(LineError::MALFORMED)
}

#[tactic(auto, unfolding(crate::specs::RawLines::made_of, crate::specs::Reading::first_word))]
fn made_of(alloc: Global, words: &[&[u8]]) -> Result<RawLine, LineError>
    ensures { Gives (λ f. f) result (made_of (texts words.now)) }
{
    let [word, rest @ ..] = words else {
        return Err(LineError::MALFORMED);
    };
    let sort = sort_of(word)?;
    let names = some_names(alloc, rest)?;
    Ok(RawLine::Made(sort, names))
}

#[tactic(auto, unfolding(crate::specs::RawLines::by_of, crate::specs::Reading::first_title, crate::specs::Reading::first_word))]
pub(crate) fn by_of(alloc: Global, words: &[&[u8]]) -> Result<RawLine, LineError>
    ensures { Gives (λ f. f) result (by_of (texts words.now)) }
{
    let [rule, rest @ ..] = words else {
        return Err(LineError::MALFORMED);
    };
    let Some(rule) = Title::read(rule) else {
        return Err(LineError::MALFORMED);
    };
    let (names, after) = cut_at(rest, b":");
    let Some(lit) = after else {
        return Err(LineError::MALFORMED);
    };
    let names = names_of(alloc, names)?;
    let lit = diagram_lit_of(alloc, lit)?;
    Ok(RawLine::By(rule, names, lit))
}

#[tactic(auto, unfolding(crate::specs::RawLines::theorem_line_of))]
fn theorem_of(mut words: Words) -> Result<RawLine, LineError>
    ensures { Gives (λ f. f) result (theorem_line_of words.entry) }
{
    let title = words.title()?;
    words.end()?;
    Ok(RawLine::Theorem(title))
}

#[tactic(auto, unfolding(crate::specs::RawLines::bare_line))]
fn bare_line(words: Words, raw_line: RawLine) -> Result<RawLine, LineError>
    ensures { Gives (λ f. f) result (bare_line words.entry raw_line) }
{
    match words.end() {
        Ok(()) => Ok(raw_line),
        Err(error) => {
            mem::drop(raw_line);
            Err(error)
        }
    }
}

/// The raw line of a line with this first word and this rest.
#[tactic(auto, unfolding(crate::specs::RawLines::raw_line_named))]
pub(crate) fn raw_line_named(
    alloc: Global,
    word: &[u8],
    rest: &[&[u8]],
) -> Result<RawLine, LineError>
    ensures { Gives (λ f. f) result (raw_line_named word.now (texts rest.now)) }
{
    let words = Words::new(rest);
    if is(word, b"theorem") {
        return theorem_of(words);
    }
    if is(word, b"points") {
        return declare_of(alloc, Sort::Point, rest);
    }
    if is(word, b"lines") {
        return declare_of(alloc, Sort::Line, rest);
    }
    if is(word, b"circles") {
        return declare_of(alloc, Sort::Circle, rest);
    }
    if is(word, b"given") {
        return Ok(RawLine::Given(lits_of(alloc, rest)?));
    }
    if is(word, b"made") {
        return made_of(alloc, rest);
    }
    if is(word, b"show") {
        return Ok(RawLine::Show(lits_of(alloc, rest)?));
    }
    if is(word, b"proof") {
        return bare_line(words, RawLine::Proof);
    }
    if is(word, b"by") {
        return by_of(alloc, rest);
    }
    if is(word, b"hence") {
        return Ok(RawLine::Hence(lit_of(alloc, rest)?));
    }
    if is(word, b"let") {
        return Ok(RawLine::Let(let_of(alloc, rest)?));
    }
    if is(word, b"apply") {
        return Ok(RawLine::Apply(apply_of(alloc, rest)?));
    }
    if is(word, b"qed") {
        return Ok(RawLine::Qed(names_of(alloc, rest)?));
    }
    if is(word, b"contradiction") {
        return bare_line(words, RawLine::Contradiction);
    }
    if is(word, b"claim") {
        return Ok(RawLine::Claim(lits_of(alloc, rest)?));
    }
    if is(word, b"superpose") {
        return Ok(RawLine::Superpose(superpose_of(alloc, rest)?));
    }
    if is(word, b"cases") {
        return Ok(RawLine::Cases(lit_of(alloc, rest)?));
    }
    if is(word, b"else") {
        return bare_line(words, RawLine::Else);
    }
    if is(word, b"end") {
        return bare_line(words, RawLine::End);
    }
    Err(LineError::MALFORMED)
}

/// The raw line of a line, by its words alone.
#[tactic(auto, unfolding(crate::specs::RawLines::raw_line_of))]
pub fn raw_line_of(alloc: Global, words: &[&[u8]]) -> Result<RawLine, LineError>
    ensures { Gives (λ f. f) result (raw_line_of (texts words.now)) }
{
    match words {
        [] => Err(LineError::MALFORMED),
        [word, rest @ ..] => raw_line_named(alloc, word, rest),
    }
}
