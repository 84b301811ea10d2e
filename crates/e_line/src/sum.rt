//! Sums as they are spelled, known from their words alone.
ghost use Rattle.std.specs.Prelude.{◌≡◌, true};
ghost use Rattle.e_line.specs.Reading.{texts, Gives, Moves, with_front, each};
ghost use Rattle.e_line.specs.Sums.{term_named, term_of, coefficient_of};
ghost use Rattle.e_line.specs.Sums.{counted_term, mono_of, is_plus, is_zero, sum_of};
ghost use Rattle.std.specs.List.{slice_split};
ghost use Rattle.e_text.specs.Numerals.{is_numeral};

use crate::fault::LineError;
use crate::words::{Words, first_index_of, three_names, two_names};
use e_literal::Items;
use e_text::{Name, is, number, numeral};
use std::alloc::Global;

/// What a coefficient may be.
pub const MAX_COEFFICIENT: u32 = 1_000_000;

/// A term with its points as they are spelled.
#[derive(Drop)]
pub enum RawTerm {
    /// A segment.
    Seg(Name, Name),
    /// An angle, at its second point.
    Ang(Name, Name, Name),
    /// The area of a triangle.
    Area(Name, Name, Name),
    /// A right angle.
    Right,
}

/// A term with its coefficient.
#[derive(Drop)]
pub struct RawMono {
    /// The coefficient as it is written, or 1; one more than a coefficient may be where it is
    /// larger.
    pub coeff: u32,
    pub term: RawTerm,
}

/// A term, by its first word.
#[tactic(auto, unfolding(crate::specs::Sums::term_named))]
fn term_named(word: &[u8], rest: &[&[u8]]) -> Result<RawTerm, LineError>
    ensures { Gives (λ t. t) result (term_named word.now (texts rest.now)) }
{
    if is(word, b"seg") {
        let (x, y) = two_names(rest)?;
        return Ok(RawTerm::Seg(x, y));
    }
    if is(word, b"ang") {
        let (x, y, z) = three_names(rest)?;
        return Ok(RawTerm::Ang(x, y, z));
    }
    if is(word, b"area") {
        let (x, y, z) = three_names(rest)?;
        return Ok(RawTerm::Area(x, y, z));
    }
    if is(word, b"right") {
        Words::new(rest).end()?;
        return Ok(RawTerm::Right);
    }
    Err(LineError::MALFORMED)
}

/// A term, by all its words.
#[tactic(auto, unfolding(crate::specs::Sums::term_of))]
pub fn term_of(words: &[&[u8]]) -> Result<RawTerm, LineError>
    ensures { Gives (λ t. t) result (term_of (texts words.now)) }
{
    match words {
        [] => Err(LineError::MALFORMED),
        [word, rest @ ..] => term_named(word, rest),
    }
}

/// The value of a numeral, or one more than a coefficient may be.
fn coefficient_of(word: &[u8]) -> u32
    requires { is_numeral word.now ≡ true }
    ensures { result ≡ coefficient_of word.now }
{
    match number(word) {
        Some(value) => value.min(u128::from(MAX_COEFFICIENT + 1)) as u32,
        None => MAX_COEFFICIENT + 1,
    }
}

/// A term after a numeral.
#[tactic(auto, unfolding(crate::specs::Sums::counted_term))]
fn counted_term(word: &[u8], rest: &[&[u8]]) -> Result<RawMono, LineError>
    requires { is_numeral word.now ≡ true }
    ensures { Gives (λ m. m) result (counted_term word.now (texts rest.now)) }
{
    if is(word, b"0") {
        return Err(LineError::MALFORMED);
    }
    let term = term_of(rest)?;
    let coeff = coefficient_of(word);
    Ok(RawMono { coeff, term })
}

/// A term, with a numeral other than 0 before it or with none.
#[tactic(auto, unfolding(crate::specs::Sums::mono_of))]
fn mono_of(words: &[&[u8]]) -> Result<RawMono, LineError>
    ensures { Gives (λ m. m) result (mono_of (texts words.now)) }
{
    match words {
        [] => Err(LineError::MALFORMED),
        [word, rest @ ..] => {
            if numeral(word) {
                return counted_term(word, rest);
            }
            let term = term_named(word, rest)?;
            Ok(RawMono { coeff: 1, term })
        }
    }
}

fn is_zero(words: &[&[u8]]) -> bool
    ensures { result ≡ is_zero (texts words.now) }
{
    match words {
        [word] => is(word, b"0"),
        _ => false,
    }
}

/// Monomials with a plus between two, put last.
fn read_monos_into(words: &[&[u8]], monos: &mut Items<RawMono>) -> Result<(), LineError>
    ensures { Moves result monos.new
        (with_front monos.old (each mono_of (slice_split is_plus (texts words.now)))) }
{
    let mut at = 0;
    while at <= words.len() {
        let end = at + first_index_of(&words[at..], b"+");
        let RawMono { coeff, term } = mono_of(&words[at..end])?;
        monos.push(RawMono { coeff, term })?;
        at = end + 1;
    }
    Ok(())
}

/// Monomials with a plus between two; or none, which is written `0`.
#[tactic(auto, using(crate::proofs::base::Loops::from_none), unfolding(crate::specs::Sums::sum_of))]
pub(crate) fn sum_of(alloc: Global, words: &[&[u8]]) -> Result<Items<RawMono>, LineError>
    ensures { Gives (λ s. s) result (sum_of (texts words.now)) }
{
    if is_zero(words) {
        return Ok(Items::empty(alloc));
    }
    let mut monos = Items::new(Vec::with_capacity(alloc, words.len() / 4 + 1)?);
    read_monos_into(words, &mut monos)?;
    Ok(monos)
}
