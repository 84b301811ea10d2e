//! The words of a line that are still to be read.
ghost use Rattle.std.specs.Prelude.{◌≡◌, ◌≤◌, is_some, if◌then◌else◌};
ghost use Rattle.std.specs.Prelude.{List, length, IfOk, [], ◌∷◌, ◌==◌};
ghost use Rattle.std.specs.Iterator.{YieldsFirst};
ghost use Rattle.e_text.specs.Tokens.{tokens_of};
ghost use Rattle.std.specs.List.{position_or_len};
ghost use Rattle.std.specs.Str.{bytes_eq};
ghost use Rattle.e_line.specs.Canonical.{sort_word};
ghost use Rattle.e_line.specs.Reading.{cut_at, texts, texts_after, Gives, Reads, first_word};
ghost use Rattle.e_line.specs.Reading.{first_name, first_title, no_word_left, names_of};
ghost use Rattle.e_line.specs.Reading.{some_names, names_after, two_names, three_names};

use crate::fault::LineError;
use e_literal::{Items, Sort};
use e_text::{Name, Title, Tokens, is};
use std::alloc::{AllocError, Global};
use std::marker::Model;

/// The word of the lines that declare or make objects of this sort.
pub fn sort_word(sort: Sort) -> &'static [u8]
    ensures { result.now ≡ sort_word sort }
{
    match sort {
        Sort::Point => b"points",
        Sort::Line => b"lines",
        Sort::Circle => b"circles",
    }
}

/// The tokens of a line, kept in room for as many as the line can have. It fails only out of
/// memory.
pub fn words_of_line(alloc: Global, line: &[u8]) -> Result<Vec<&[u8]>, AllocError>
    ensures { IfOk result (λ v. texts v.items ≡ tokens_of line.now) }
{
    let words = Vec::with_capacity(alloc, line.len() / 2 + 1)?;
    words_in_room(line, words)
}

/// The tokens of a line, in the room of other words. It fails only out of memory.
pub fn words_in_room<'a>(
    line: &'a [u8],
    mut words: Vec<&'a [u8]>,
) -> Result<Vec<&'a [u8]>, AllocError>
    ensures { IfOk result (λ v. texts v.items ≡ tokens_of line.now) }
{
    words.clear();
    for word in Tokens::new(line) {
        words.push(word)?;
    }
    Ok(words)
}

/// Where a word comes first, or the number of words.
pub fn first_index_of(words: &[&[u8]], word: &[u8]) -> usize
    ensures place { result ≡ position_or_len (λ w. bytes_eq w word.now) (texts words.now) }
    ensures within { result ≤ length words.now }
{
    for (i, other) in words.iter().enumerate() {
        if is(other, word) {
            return i;
        }
    }
    words.len()
}

/// The words before a word, and those after it where it is there.
pub(crate) fn cut_at<'b, 'a>(
    words: &'b [&'a [u8]],
    word: &[u8],
) -> (&'b [&'a [u8]], Option<&'b [&'a [u8]]>)
    ensures { cut_at word.now (texts words.now)
        ≡ (texts result.0.now, texts_after result.1, is_some result.1) }
{
    let end = first_index_of(words, word);
    let (part, rest) = words.split_at(end);
    match rest {
        [] => (part, None),
        [_, after @ ..] => (part, Some(after)),
    }
}

/// Words that are names.
pub fn names_of(alloc: Global, words: &[&[u8]]) -> Result<Items<Name>, LineError>
    ensures { Gives (λ n. n) result (names_of (texts words.now)) }
{
    let mut names = Items::new(Vec::with_capacity(alloc, words.len())?);
    for word in words {
        match Name::read(word) {
            Some(name) => names.push(name)?,
            None => return Err(LineError::MALFORMED),
        }
    }
    Ok(names)
}

/// At least one word, each a name.
#[tactic(auto, unfolding(crate::specs::Reading::some_names))]
pub(crate) fn some_names(alloc: Global, words: &[&[u8]]) -> Result<Items<Name>, LineError>
    ensures { Gives (λ n. n) result (some_names (texts words.now)) }
{
    let names = names_of(alloc, words)?;
    if names.is_empty() {
        return Err(LineError::MALFORMED);
    }
    Ok(names)
}

/// The names after a word, at least one where the word is there.
pub(crate) fn names_after(alloc: Global, after: Option<&[&[u8]]>) -> Result<Items<Name>, LineError>
    ensures { Gives (λ n. n) result (names_after (is_some after.entry) (texts_after after.entry)) }
{
    match after {
        Some(words) => some_names(alloc, words),
        None => Ok(Items::empty(alloc)),
    }
}

/// The words of a line that are still to be read, seen as their texts.
#[derive(Drop)]
pub struct Words<'b, 'a> {
    rest: &'b [&'a [u8]],
}

impl<'b, 'a> Model for Words<'b, 'a> {
    ghost use Rattle.std.specs.Prelude.{List, ℕ};
    ghost use Rattle.e_line.specs.Reading.{texts};

    ghost Value = { List (List ℕ) };

    ghost view = { λ w. texts w.rest.now };
}

impl<'b, 'a> Words<'b, 'a> {
    /// All these words are still to be read.
    pub fn new(words: &'b [&'a [u8]]) -> Self
        ensures { result ≡ texts words.now }
    {
        Words { rest: words }
    }

    /// The next word.
    #[tactic(auto, unfolding(crate::specs::Reading::first_word))]
    pub fn word(&mut self) -> Result<&'a [u8], LineError>
        ensures { Reads (λ w. w.now) result self.new (first_word self.old) }
    {
        match self.rest {
            [] => Err(LineError::MALFORMED),
            [word, rest @ ..] => {
                self.rest = rest;
                Ok(*word)
            }
        }
    }

    /// The next word, a name.
    #[tactic(auto, unfolding(crate::specs::Reading::first_name))]
    pub fn name(&mut self) -> Result<Name, LineError>
        ensures { Reads (λ n. n) result self.new (first_name self.old) }
    {
        match Name::read(self.word()?) {
            Some(name) => Ok(name),
            None => Err(LineError::MALFORMED),
        }
    }

    /// The next word, a title.
    #[tactic(auto, unfolding(crate::specs::Reading::first_title))]
    pub fn title(&mut self) -> Result<Title, LineError>
        ensures { Reads (λ n. n) result self.new (first_title self.old) }
    {
        match Title::read(self.word()?) {
            Some(title) => Ok(title),
            None => Err(LineError::MALFORMED),
        }
    }

    /// No word is left.
    #[tactic(auto, unfolding(crate::specs::Reading::no_word_left))]
    pub fn end(&self) -> Result<(), LineError>
        ensures { Gives (λ u. u) result (no_word_left self.now) }
    {
        if self.rest.is_empty() {
            Ok(())
        } else {
            Err(LineError::MALFORMED)
        }
    }
}

/// All the words are two names.
#[tactic(auto, unfolding(crate::specs::Reading::two_names))]
pub(crate) fn two_names(words: &[&[u8]]) -> Result<(Name, Name), LineError>
    ensures { Gives (λ p. (p.0, p.1)) result (two_names (texts words.now)) }
{
    let mut words = Words::new(words);
    let first = words.name()?;
    let second = words.name()?;
    words.end()?;
    Ok((first, second))
}

/// All the words are three names.
#[tactic(auto, unfolding(crate::specs::Reading::three_names))]
pub(crate) fn three_names(words: &[&[u8]]) -> Result<(Name, Name, Name), LineError>
    ensures { Gives (λ p. (p.0, p.1, p.2)) result (three_names (texts words.now)) }
{
    let mut words = Words::new(words);
    let first = words.name()?;
    let second = words.name()?;
    let third = words.name()?;
    words.end()?;
    Ok((first, second, third))
}
