//! The lines of certificates, known from their words by spelling alone.
ghost use Rattle.std.specs.Prelude.{◌≡◌};
ghost use Rattle.e_line.specs.Reading.{texts, Gives};
ghost use Rattle.e_cert.specs.CertLines.{size_of, multiplier_of, place_of_digits};
ghost use Rattle.e_cert.specs.CertLines.{fact_row_of, bare_row, raw_row_named, raw_row_of};
ghost use Rattle.e_cert.specs.CertLines.{may_differ, bare_cert_line, differs_of, transfer_of};
ghost use Rattle.e_cert.specs.CertLines.{fact_cert_line_of, row_cert_line_of, cert_line_named};
ghost use Rattle.e_cert.specs.CertLines.{cert_line_of, row_is_of, cert_line_is_of};
ghost use Rattle.e_clause.specs.Versions.{by_literals, by_places};

use e_clause::Version;
use e_line::{LineError, RawLit, RawTerm, Words, diagram_lit_of, lit_of, names_of, term_of};
use e_literal::Items;
use e_text::{Name, Title, is, number};
use std::alloc::Global;
use std::mem;

/// A row of a sum with its names as they are spelled.
#[derive(Drop)]
pub enum RawRow {
    /// `fact LITERAL`
    Fact(RawLit),
    /// `goal`
    Goal,
    /// `pos TERM`
    Pos(RawTerm),
    /// `top TERM`
    Top(RawTerm),
    /// `right`
    Right,
    /// `least TERM`
    Least(RawTerm),
    /// `above`
    Above,
    /// `below`
    Below,
    /// `fact PLACE`
    FactAt(u32),
}

/// A line of a certificate, after its bar.
#[derive(Drop)]
pub enum CertLine {
    /// `fact`
    Fact,
    /// `metric`
    Metric,
    /// `transfer RULE NAMES`
    Transfer(Title, Items<Name>),
    /// `clash LITERAL`
    Clash(RawLit),
    /// `sum`
    Sum,
    /// `differs goal`, `differs fact LITERAL` or `differs fact PLACE`
    Differs(RawRow),
    /// `MULTIPLIER ROW`
    Row(i128, RawRow),
    /// `fact PLACE`
    FactAt(u32),
}

/// The largest size of a multiplier, 2 to the power of 80.
const MAX_MULTIPLIER: u128 = 1_208_925_819_614_629_174_706_176;

/// How many places there can be, 2 to the power of 32.
const MAX_PLACES: u128 = 4_294_967_296;

/// The size of a multiplier.
fn size_of(digits: &[u8]) -> Result<i128, LineError>
    ensures { Gives (λ z. z) result (size_of digits.now) }
{
    match number(digits) {
        Some(size) if size > 0 && size <= MAX_MULTIPLIER => Ok(size as i128),
        _ => Err(LineError::MALFORMED),
    }
}

/// A whole number other than 0, with a minus sign where it is negative.
fn multiplier_of(word: &[u8]) -> Result<i128, LineError>
    ensures { Gives (λ m. m) result (multiplier_of word.now) }
{
    match word {
        [] => Err(LineError::MALFORMED),
        [b'-', digits @ ..] => {
            let size = size_of(digits)?;
            Ok(-size)
        }
        digits => size_of(digits),
    }
}

/// A place among the facts.
fn place_of_digits(digits: &[u8]) -> Result<u32, LineError>
    ensures { Gives (λ k. k) result (place_of_digits digits.now) }
{
    match number(digits) {
        Some(place) if place < MAX_PLACES => Ok(place as u32),
        _ => Err(LineError::MALFORMED),
    }
}

/// The row of a fact: one word is its place, and a literal has more.
#[tactic(auto, unfolding(crate::specs::CertLines::fact_row_of))]
fn fact_row_of(alloc: Global, words: &[&[u8]]) -> Result<RawRow, LineError>
    ensures { Gives (λ r. r) result (fact_row_of (texts words.now)) }
{
    match words {
        [] => Err(LineError::MALFORMED),
        [word, rest @ ..] => {
            if rest.is_empty() {
                return Ok(RawRow::FactAt(place_of_digits(word)?));
            }
            Ok(RawRow::Fact(lit_of(alloc, words)?))
        }
    }
}

fn bare_row(words: Words, row: RawRow) -> Result<RawRow, LineError>
    ensures { Gives (λ r. r) result (bare_row words.entry row) }
{
    match words.end() {
        Ok(()) => Ok(row),
        Err(error) => {
            mem::drop(row);
            Err(error)
        }
    }
}

/// A row, by its first word.
#[tactic(auto, unfolding(crate::specs::CertLines::raw_row_named))]
fn row_named(alloc: Global, word: &[u8], rest: &[&[u8]]) -> Result<RawRow, LineError>
    ensures { Gives (λ r. r) result (raw_row_named word.now (texts rest.now)) }
{
    let words = Words::new(rest);
    if is(word, b"fact") {
        return fact_row_of(alloc, rest);
    }
    if is(word, b"goal") {
        return bare_row(words, RawRow::Goal);
    }
    if is(word, b"pos") {
        return Ok(RawRow::Pos(term_of(rest)?));
    }
    if is(word, b"top") {
        return Ok(RawRow::Top(term_of(rest)?));
    }
    if is(word, b"right") {
        return bare_row(words, RawRow::Right);
    }
    if is(word, b"least") {
        return Ok(RawRow::Least(term_of(rest)?));
    }
    if is(word, b"above") {
        return bare_row(words, RawRow::Above);
    }
    if is(word, b"below") {
        return bare_row(words, RawRow::Below);
    }
    Err(LineError::MALFORMED)
}

#[tactic(auto, unfolding(crate::specs::CertLines::raw_row_of))]
fn row_of(alloc: Global, words: &[&[u8]]) -> Result<RawRow, LineError>
    ensures { Gives (λ r. r) result (raw_row_of (texts words.now)) }
{
    match words {
        [] => Err(LineError::MALFORMED),
        [word, rest @ ..] => row_named(alloc, word, rest),
    }
}

/// Whether the row can say that a form is not 0.
fn may_differ(row: &RawRow) -> bool
    ensures { result ≡ may_differ row.now }
{
    matches!(row, RawRow::Fact(_) | RawRow::Goal | RawRow::FactAt(_))
}

fn bare_cert_line(words: Words, cert_line: CertLine) -> Result<CertLine, LineError>
    ensures { Gives (λ m. m) result (bare_cert_line words.entry cert_line) }
{
    match words.end() {
        Ok(()) => Ok(cert_line),
        Err(error) => {
            mem::drop(cert_line);
            Err(error)
        }
    }
}

#[tactic(auto, unfolding(crate::specs::CertLines::differs_of))]
fn differs_of(alloc: Global, words: &[&[u8]]) -> Result<CertLine, LineError>
    ensures { Gives (λ m. m) result (differs_of (texts words.now)) }
{
    let row = row_of(alloc, words)?;
    if may_differ(&row) {
        Ok(CertLine::Differs(row))
    } else {
        mem::drop(row);
        Err(LineError::MALFORMED)
    }
}

/// A rule, and the names of its arguments.
#[tactic(auto, unfolding(crate::specs::CertLines::transfer_of, e_line::specs::Reading::first_title, e_line::specs::Reading::first_word))]
fn transfer_of(alloc: Global, words: &[&[u8]]) -> Result<CertLine, LineError>
    ensures { Gives (λ m. m) result (transfer_of (texts words.now)) }
{
    let [title, rest @ ..] = words else {
        return Err(LineError::MALFORMED);
    };
    let Some(title) = Title::read(title) else {
        return Err(LineError::MALFORMED);
    };
    let names = names_of(alloc, rest)?;
    Ok(CertLine::Transfer(title, names))
}

/// A fact, or the one at a place.
#[tactic(auto, unfolding(crate::specs::CertLines::fact_cert_line_of))]
fn fact_cert_line_of(words: &[&[u8]]) -> Result<CertLine, LineError>
    ensures { Gives (λ m. m) result (fact_cert_line_of (texts words.now)) }
{
    match words {
        [] => Ok(CertLine::Fact),
        [word, rest @ ..] => {
            Words::new(rest).end()?;
            Ok(CertLine::FactAt(place_of_digits(word)?))
        }
    }
}

/// A row after its multiplier.
#[tactic(auto, unfolding(crate::specs::CertLines::row_cert_line_of))]
fn row_cert_line_of(alloc: Global, word: &[u8], rest: &[&[u8]]) -> Result<CertLine, LineError>
    ensures { Gives (λ m. m) result (row_cert_line_of word.now (texts rest.now)) }
{
    let multiplier = multiplier_of(word)?;
    let row = row_of(alloc, rest)?;
    Ok(CertLine::Row(multiplier, row))
}

#[tactic(auto, unfolding(crate::specs::CertLines::cert_line_named))]
fn cert_line_named(alloc: Global, word: &[u8], rest: &[&[u8]]) -> Result<CertLine, LineError>
    ensures { Gives (λ m. m) result (cert_line_named word.now (texts rest.now)) }
{
    let words = Words::new(rest);
    if is(word, b"fact") {
        return fact_cert_line_of(rest);
    }
    if is(word, b"metric") {
        return bare_cert_line(words, CertLine::Metric);
    }
    if is(word, b"transfer") {
        return transfer_of(alloc, rest);
    }
    if is(word, b"clash") {
        return Ok(CertLine::Clash(diagram_lit_of(alloc, rest)?));
    }
    if is(word, b"sum") {
        return bare_cert_line(words, CertLine::Sum);
    }
    if is(word, b"differs") {
        return differs_of(alloc, rest);
    }
    row_cert_line_of(alloc, word, rest)
}

/// What a line of a certificate says, by the words after its bar alone.
#[tactic(auto, unfolding(crate::specs::CertLines::cert_line_of))]
pub(crate) fn cert_line_of(alloc: Global, words: &[&[u8]]) -> Result<CertLine, LineError>
    ensures { Gives (λ m. m) result (cert_line_of (texts words.now)) }
{
    match words {
        [] => Err(LineError::MALFORMED),
        [word, rest @ ..] => cert_line_named(alloc, word, rest),
    }
}

/// Whether facts are cited by literals.
fn by_literals(version: Version) -> bool
    ensures { result ≡ by_literals version }
{
    matches!(version, Version::One)
}

/// Whether facts are cited by their places.
fn by_places(version: Version) -> bool
    ensures { result ≡ by_places version }
{
    matches!(version, Version::Two)
}

/// Whether the row may come in this version.
fn row_is_of(version: Version, row: &RawRow) -> bool
    ensures { result ≡ row_is_of version row.now }
{
    match row {
        RawRow::Fact(_) => by_literals(version),
        RawRow::FactAt(_) => by_places(version),
        _ => true,
    }
}

/// Whether the line may come in this version.
pub fn cert_line_is_of(version: Version, cert_line: &CertLine) -> bool
    ensures { result ≡ cert_line_is_of version cert_line.now }
{
    match cert_line {
        CertLine::Fact => by_literals(version),
        CertLine::FactAt(_) => by_places(version),
        CertLine::Differs(row) | CertLine::Row(_, row) => row_is_of(version, row),
        _ => true,
    }
}
