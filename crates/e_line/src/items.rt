//! The lines of a book, known from their words by spelling alone: those of theorems, with items
//! among their literals, and the first line of a definition.
ghost use Rattle.std.specs.Prelude.{◌≡◌, ◌&&◌};
ghost use Rattle.std.specs.Str.{bytes_eq};
ghost use Rattle.e_line.specs.Reading.{texts, Gives, Moves, with_front};
ghost use Rattle.e_line.specs.Items.{as_of, item_of, items_of, begins_item, has_item, define_of};
ghost use Rattle.e_line.specs.Items.{placing_of, line_with_items, line_named, book_line_of};

use crate::fault::LineError;
use crate::lets::{Slot, are_words_of, names_at};
use crate::literal::{RawLit, lit_of};
use crate::raw_line::{RawLine, by_of, raw_line_named};
use crate::superposes::{head_and_lits, superposition_pieces};
use crate::words::{Words, first_index_of, names_of};
use e_literal::Items;
use e_text::{Name, Title, is};
use std::alloc::Global;
use std::mem;

/// A defined notion of names, as they are spelled.
#[derive(Drop)]
pub struct RawAs {
    pub title: Title,
    pub args: Items<Name>,
}

/// What is between two semicolons.
#[derive(Drop)]
pub enum RawItem {
    Literal(RawLit),
    /// `as TITLE NAMES`
    As(RawAs),
}

/// What a line that takes literals says before them: its first word, and of a superposition the
/// names.
#[derive(Drop)]
pub enum ListHead {
    Given,
    Show,
    Claim,
    /// `superpose`, with the names of the triangle and the place, and the new names.
    Superpose { args: Items<Name>, new: Items<Name> },
}

/// A line of a book.
#[derive(Drop)]
pub enum BookLine {
    /// A line without items.
    Plain(RawLine),
    /// `define TITLE`
    Define(Title),
    /// A line that takes literals, with an item among them.
    Listed(ListHead, Items<RawItem>),
}

/// What comes after `as` in a list of literals: a title and names.
#[tactic(auto, unfolding(crate::specs::Items::as_of, crate::specs::Reading::first_title, crate::specs::Reading::first_word))]
fn as_of(alloc: Global, words: &[&[u8]]) -> Result<RawAs, LineError>
    ensures { Gives (λ a. a) result (as_of (texts words.now)) }
{
    let [title, rest @ ..] = words else {
        return Err(LineError::MALFORMED);
    };
    let Some(title) = Title::read(title) else {
        return Err(LineError::MALFORMED);
    };
    let args = names_of(alloc, rest)?;
    Ok(RawAs { title, args })
}

/// A literal, or a notion of names.
#[tactic(auto, unfolding(crate::specs::Items::item_of))]
fn item_of(alloc: Global, words: &[&[u8]]) -> Result<RawItem, LineError>
    ensures { Gives (λ i. i) result (item_of (texts words.now)) }
{
    match words {
        [] => Err(LineError::MALFORMED),
        [word, rest @ ..] => {
            if is(word, b"as") {
                return Ok(RawItem::As(as_of(alloc, rest)?));
            }
            Ok(RawItem::Literal(lit_of(alloc, words)?))
        }
    }
}

/// One or more of them with semicolons between them, put last.
fn read_items_into(
    alloc: Global,
    words: &[&[u8]],
    items: &mut Items<RawItem>,
) -> Result<(), LineError>
    ensures { Moves result items.new (with_front items.old (items_of (texts words.now))) }
{
    let mut at = 0;
    while at <= words.len() {
        let end = at + first_index_of(&words[at..], b";");
        let item = item_of(alloc, &words[at..end])?;
        items.push(item)?;
        at = end + 1;
    }
    Ok(())
}

/// One or more of them with semicolons between them.
#[tactic(auto, using(crate::proofs::base::Loops::from_none))]
fn items_of(alloc: Global, words: &[&[u8]]) -> Result<Items<RawItem>, LineError>
    ensures { Gives (λ i. i) result (items_of (texts words.now)) }
{
    let mut items = Items::empty(alloc);
    read_items_into(alloc, words, &mut items)?;
    Ok(items)
}

fn begins_item(words: &[&[u8]]) -> bool
    ensures { result ≡ begins_item (texts words.now) }
{
    match words {
        [] => false,
        [word, ..] => is(word, b"as"),
    }
}

/// Whether an item is among the literals.
fn has_item(words: &[&[u8]]) -> bool
    ensures { result ≡ has_item (texts words.now) }
{
    let mut at = 0;
    while at <= words.len() {
        let end = at + first_index_of(&words[at..], b";");
        if begins_item(&words[at..end]) {
            return true;
        }
        at = end + 1;
    }
    false
}

#[tactic(auto, unfolding(crate::specs::Items::define_of))]
fn define_of(mut words: Words) -> Result<BookLine, LineError>
    ensures { Gives (λ l. l) result (define_of words.entry) }
{
    let title = words.title()?;
    words.end()?;
    Ok(BookLine::Define(title))
}

/// The words of a superposition up to `show`.
#[tactic(auto, unfolding(crate::specs::Items::placing_of))]
fn placing_of(alloc: Global, head: &[&[u8]]) -> Result<ListHead, LineError>
    ensures { Gives (λ l. l) result (placing_of (texts head.now)) }
{
    if !are_words_of(superposition_pieces(), head) {
        return Err(LineError::MALFORMED);
    }
    let new = names_at(alloc, Slot::New, superposition_pieces(), head)?;
    let args = names_at(alloc, Slot::Argument, superposition_pieces(), head)?;
    Ok(ListHead::Superpose { args, new })
}

#[tactic(auto, unfolding(crate::specs::Items::line_with_items))]
fn line_with_items(alloc: Global, line: ListHead, words: &[&[u8]]) -> Result<BookLine, LineError>
    ensures { Gives (λ l. l) result (line_with_items line (texts words.now)) }
{
    let items = match items_of(alloc, words) {
        Ok(items) => items,
        Err(error) => {
            mem::drop(line);
            return Err(error);
        }
    };
    Ok(BookLine::Listed(line, items))
}

/// Whether it is a line of this first word, with an item among its literals.
fn is_line_with_items(word: &[u8], keyword: &[u8], literals: &[&[u8]]) -> bool
    ensures { result ≡ (bytes_eq word.now keyword.now && has_item (texts literals.now)) }
{
    is(word, keyword) && has_item(literals)
}

/// A line of a book with this first word and this rest. Most lines of a proof are citations: their
/// word is looked for first.
#[tactic(auto, unfolding(crate::specs::Items::line_named))]
fn line_named(alloc: Global, word: &[u8], rest: &[&[u8]]) -> Result<BookLine, LineError>
    ensures { Gives (λ l. l) result (line_named word.now (texts rest.now)) }
{
    if is(word, b"by") {
        return match by_of(alloc, rest) {
            Ok(raw_line) => Ok(BookLine::Plain(raw_line)),
            Err(error) => Err(error),
        };
    }
    if is(word, b"define") {
        return define_of(Words::new(rest));
    }
    if is_line_with_items(word, b"given", rest) {
        return line_with_items(alloc, ListHead::Given, rest);
    }
    if is_line_with_items(word, b"show", rest) {
        return line_with_items(alloc, ListHead::Show, rest);
    }
    if is_line_with_items(word, b"claim", rest) {
        return line_with_items(alloc, ListHead::Claim, rest);
    }
    let (head, after) = head_and_lits(rest);
    if is_line_with_items(word, b"superpose", after) {
        return line_with_items(alloc, placing_of(alloc, head)?, after);
    }
    match raw_line_named(alloc, word, rest) {
        Ok(raw_line) => Ok(BookLine::Plain(raw_line)),
        Err(error) => Err(error),
    }
}

/// A line of a book, by its words alone.
#[tactic(auto, unfolding(crate::specs::Items::book_line_of))]
pub fn book_line_of(alloc: Global, words: &[&[u8]]) -> Result<BookLine, LineError>
    ensures { Gives (λ l. l) result (book_line_of (texts words.now)) }
{
    let [word, rest @ ..] = words else {
        return Err(LineError::MALFORMED);
    };
    line_named(alloc, word, rest)
}
