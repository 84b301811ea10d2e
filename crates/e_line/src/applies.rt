//! The use of an earlier theorem, by its words.
ghost use Rattle.e_line.specs.Reading.{texts, Gives};
ghost use Rattle.e_line.specs.Applies.{argument_of, arguments_of, apply_of};

use crate::fault::LineError;
use crate::words::{cut_at, names_after};
use e_literal::Items;
use e_text::{Name, Title, is};
use std::alloc::Global;

/// The use of an earlier theorem with its names as they are spelled, from left to right.
#[derive(Drop)]
pub struct RawApply {
    pub title: Title,
    /// The names of the arguments, and blanks.
    pub args: Items<Option<Name>>,
    /// The names of the made objects.
    pub new: Items<Name>,
}

/// An argument: a name, or a blank.
fn argument_of(word: &[u8]) -> Result<Option<Name>, LineError>
    ensures { Gives (λ a. a) result (argument_of word.now) }
{
    if is(word, b"_") {
        return Ok(None);
    }
    match Name::read(word) {
        Some(name) => Ok(Some(name)),
        None => Err(LineError::MALFORMED),
    }
}

fn arguments_of(alloc: Global, words: &[&[u8]]) -> Result<Items<Option<Name>>, LineError>
    ensures { Gives (λ a. a) result (arguments_of (texts words.now)) }
{
    let mut args = Items::new(Vec::with_capacity(alloc, words.len())?);
    for word in words {
        let argument = argument_of(word)?;
        args.push(argument)?;
    }
    Ok(args)
}

/// What comes after `apply`: a title, arguments, and perhaps `as` with names after it.
#[tactic(auto, unfolding(crate::specs::Applies::apply_of, crate::specs::Reading::first_title, crate::specs::Reading::first_word))]
pub(crate) fn apply_of(alloc: Global, words: &[&[u8]]) -> Result<RawApply, LineError>
    ensures { Gives (λ a. a) result (apply_of (texts words.now)) }
{
    let [title, rest @ ..] = words else {
        return Err(LineError::MALFORMED);
    };
    let Some(title) = Title::read(title) else {
        return Err(LineError::MALFORMED);
    };
    let (args, after) = cut_at(rest, b"as");
    let args = arguments_of(alloc, args)?;
    let new = names_after(alloc, after)?;
    Ok(RawApply { title, args, new })
}
