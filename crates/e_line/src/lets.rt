//! The lines of constructions, known from their words by spelling alone.
ghost use Rattle.std.specs.Prelude.{◌≡◌, List, map, slice_get, false, IfOk};
ghost use Rattle.std.specs.Option.{option_map_or};
ghost use Rattle.e_construct.specs.Views.{piece_view};
ghost use Rattle.e_line.specs.Reading.{texts, names_of, Gives};
ghost use Rattle.e_line.specs.Lets.{is_word_of, are_words_of, is_line_of, shapes_of};
ghost use Rattle.e_line.specs.Lets.{is_slot, words_in_slots, let_named, let_of};

use crate::fault::LineError;
use crate::words::{cut_at, names_after};
use e_construct::{Piece, Shape, all_shapes, may_avoid, pieces};
use e_literal::Items;
use e_text::{Name, is};
use std::alloc::{AllocError, Global};

/// A construction with its names as they are spelled, each list from left to right.
#[derive(Drop)]
pub struct RawLet {
    /// The shapes whose line it is, in the order of their table: the sorts of the arguments say
    /// which one.
    pub shapes: Items<Shape>,
    /// The names of the new objects.
    pub new: Items<Name>,
    /// The names of the arguments.
    pub args: Items<Name>,
    /// The names of the objects that it avoids.
    pub avoid: Items<Name>,
}

fn is_word_of(piece: Piece, word: &[u8]) -> bool
    ensures { result ≡ is_word_of (piece_view piece) word.now }
{
    match piece {
        Piece::New => Name::read(word).is_some(),
        Piece::Argument => Name::read(word).is_some(),
        Piece::Word(text) => is(word, text),
    }
}

/// Whether the words are those of a line, one for each piece.
#[tactic(auto, using(crate::proofs::read_again::Placed::counting))]
pub(crate) fn are_words_of(pieces: &[Piece], words: &[&[u8]]) -> bool
    ensures { result ≡ are_words_of (map piece_view pieces.now) (texts words.now) }
{
    match (pieces, words) {
        ([], []) => true,
        ([piece, pieces @ ..], [word, words @ ..]) => {
            is_word_of(*piece, word) && are_words_of(pieces, words)
        }
        ([], [_, ..]) => false,
        ([_, ..], []) => false,
    }
}

fn is_line_of(avoiding: bool, words: &[&[u8]], shape: Shape) -> bool
    ensures { result ≡ is_line_of avoiding (texts words.now) shape }
{
    are_words_of(pieces(shape), words) && (!avoiding || may_avoid(shape))
}

/// The shapes whose line the words are.
#[tactic(auto, unfolding(crate::specs::Lets::shapes_of))]
fn shapes_of(alloc: Global, avoiding: bool, words: &[&[u8]]) -> Result<Items<Shape>, AllocError>
    ensures { IfOk result (λ s. s ≡ shapes_of avoiding (texts words.now)) }
{
    let all = all_shapes();
    let mut shapes = Items::empty(alloc);
    for shape in all {
        if is_line_of(avoiding, words, *shape) {
            shapes.push(*shape)?;
        }
    }
    Ok(shapes)
}

/// What a slot of a line names: a new object or an argument.
#[derive(Clone, Copy)]
pub(crate) enum Slot {
    New,
    Argument,
}

/// Whether a piece is a slot of this kind.
fn is_slot(slot: Slot, piece: Piece) -> bool
    ensures { result ≡ is_slot slot (piece_view piece) }
{
    match (slot, piece) {
        (Slot::New, Piece::New) => true,
        (Slot::Argument, Piece::Argument) => true,
        _ => false,
    }
}

/// Whether a slot of this kind is there.
fn is_slot_at(slot: Slot, pieces: &[Piece], at: usize) -> bool
    ensures { result
        ≡ option_map_or (λ p. is_slot slot (piece_view p)) (slice_get pieces.now at) false }
{
    match pieces.get(at) {
        None => false,
        Some(piece) => is_slot(slot, *piece),
    }
}

/// The names in such slots.
pub(crate) fn names_at(
    alloc: Global,
    slot: Slot,
    pieces: &[Piece],
    words: &[&[u8]],
) -> Result<Items<Name>, LineError>
    ensures { Gives (λ n. n) result
        (names_of (words_in_slots slot (map piece_view pieces.now) (texts words.now))) }
{
    let mut names = Items::empty(alloc);
    for (i, word) in words.iter().enumerate() {
        if !is_slot_at(slot, pieces, i) {
            continue;
        }
        match Name::read(word) {
            Some(name) => names.push(name)?,
            None => return Err(LineError::MALFORMED),
        }
    }
    Ok(names)
}

/// A line of these shapes with its names.
#[tactic(auto, unfolding(crate::specs::Lets::let_named))]
fn let_named(
    alloc: Global,
    shapes: Items<Shape>,
    words: &[&[u8]],
    avoid: Items<Name>,
) -> Result<RawLet, LineError>
    ensures { Gives (λ l. l) result (let_named shapes (texts words.now) avoid) }
{
    let [first, ..] = shapes.items() else {
        return Err(LineError::MALFORMED);
    };
    let new = names_at(alloc, Slot::New, pieces(*first), words)?;
    let args = names_at(alloc, Slot::Argument, pieces(*first), words)?;
    Ok(RawLet {
        shapes,
        new,
        args,
        avoid,
    })
}

/// What comes after `let`: the line of a shape or of several, and perhaps `avoid` with names after
/// it.
#[tactic(auto, unfolding(crate::specs::Lets::let_of))]
pub(crate) fn let_of(alloc: Global, words: &[&[u8]]) -> Result<RawLet, LineError>
    ensures { Gives (λ l. l) result (let_of (texts words.now)) }
{
    let (line, after) = cut_at(words, b"avoid");
    let avoid = names_after(alloc, after)?;
    let shapes = shapes_of(alloc, after.is_some(), line)?;
    let_named(alloc, shapes, line, avoid)
}
