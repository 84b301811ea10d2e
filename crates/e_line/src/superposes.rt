//! A superposition, by its words.
ghost use Rattle.std.specs.Prelude.{◌≡◌, map};
ghost use Rattle.e_construct.specs.Views.{piece_view};
ghost use Rattle.e_line.specs.Reading.{texts, Gives};
ghost use Rattle.e_line.specs.Superposes.{superpose_pieces, words_to_show, words_shown};
ghost use Rattle.e_line.specs.Superposes.{raw_superpose_of, superpose_of};

use crate::fault::LineError;
use crate::lets::{Slot, are_words_of, names_at};
use crate::literal::{RawLit, lits_of};
use e_construct::Piece;
use e_literal::Items;
use e_text::Name;
use std::alloc::Global;

/// A superposition with its names as they are spelled, from left to right.
#[derive(Drop)]
pub struct RawSuperpose {
    /// The triangle and its line, and then the place and its line.
    pub args: Items<Name>,
    /// The names of the copied points.
    pub new: Items<Name>,
    /// What its block shows.
    pub shown: Items<RawLit>,
}

/// How many words come before the literals: `length superpose_pieces`.
const HEAD: usize = 13;

static PIECES: [Piece; HEAD] = [
    Piece::Argument,
    Piece::Argument,
    Piece::Argument,
    Piece::Argument,
    Piece::Word(b"onto"),
    Piece::Argument,
    Piece::Argument,
    Piece::Argument,
    Piece::Argument,
    Piece::Word(b"as"),
    Piece::New,
    Piece::New,
    Piece::Word(b"show"),
];

/// The words of a superposition after its first word, up to the literals that its block shows: the
/// triangle and its line, the place and its line, and the names of the copied points.
pub fn superposition_pieces() -> &'static [Piece]
    ensures { map piece_view result.now ≡ superpose_pieces }
{
    &PIECES
}

/// The words up to `show`, and those after them.
pub(crate) fn head_and_lits<'a, 'b>(words: &'a [&'b [u8]]) -> (&'a [&'b [u8]], &'a [&'b [u8]])
    ensures head { texts result.0.now ≡ words_to_show (texts words.now) }
    ensures rest { texts result.1.now ≡ words_shown (texts words.now) }
{
    words.split_at(HEAD.min(words.len()))
}

/// The words up to `show`, and those of the literals.
#[tactic(auto, unfolding(crate::specs::Superposes::raw_superpose_of))]
fn raw_superpose_of(
    alloc: Global,
    head: &[&[u8]],
    rest: &[&[u8]],
) -> Result<RawSuperpose, LineError>
    ensures { Gives (λ s. s) result (raw_superpose_of (texts head.now) (texts rest.now)) }
{
    if !are_words_of(superposition_pieces(), head) {
        return Err(LineError::MALFORMED);
    }
    let new = names_at(alloc, Slot::New, superposition_pieces(), head)?;
    let args = names_at(alloc, Slot::Argument, superposition_pieces(), head)?;
    let shown = lits_of(alloc, rest)?;
    Ok(RawSuperpose { args, new, shown })
}

/// What comes after `superpose`: the objects, the new names, and at least one literal.
#[tactic(auto, unfolding(crate::specs::Superposes::superpose_of))]
pub(crate) fn superpose_of(alloc: Global, words: &[&[u8]]) -> Result<RawSuperpose, LineError>
    ensures { Gives (λ s. s) result (superpose_of (texts words.now)) }
{
    let (head, rest) = head_and_lits(words);
    raw_superpose_of(alloc, head, rest)
}
