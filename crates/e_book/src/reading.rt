//! A theorem or a definition while its lines come, one after another.
ghost use Rattle.std.specs.Prelude.{◌≡◌, ◌<◌, ◌^◌, length, None, Some, IfOk};
ghost use Rattle.std.specs.Prelude.{OnOk, IfSome, OnSome, IsTrue};
ghost use Rattle.e_text.specs.Lines.{view_of_line};
ghost use Rattle.e_text.specs.Tokens.{tokens_of};
ghost use Rattle.e_line.specs.Reading.{texts, Moves};
ghost use Rattle.e_book.specs.Grammar.{starts_with_hash, is_skipped, last_line};
ghost use Rattle.e_names.specs.Titled.{are_notions};
ghost use Rattle.e_book.specs.Definitions.{HasWellFormedView};
ghost use Rattle.e_book.specs.inner.Machine.{FitsPartial, is_done, has_ended, IsBegun, IsEnded};
ghost use Rattle.e_book.specs.inner.Machine.{partial_after, TakesLine, ReadsOn, end_of};

use crate::item::Item;
use crate::parser::Section;
use crate::partial_item::PartialItem;
use e_line::{BookFault, LineError, book_fault_of, words_in_room};
use e_names::Known;
use e_text::{Line, Lines};
use std::alloc::Global;
use std::mem;

fn starts_with_hash(word: &[u8]) -> bool
    ensures { result ≡ starts_with_hash word.now }
{
    match word {
        [] => false,
        [first, ..] => *first == b'#',
    }
}

/// Whether a line says nothing: it has no words, or its first begins with `#`.
pub fn is_skipped(words: &[&[u8]]) -> bool
    ensures { result ≡ is_skipped (texts words.now) }
{
    match words {
        [] => true,
        [first, ..] => starts_with_hash(first),
    }
}

/// Whether its last line has come.
fn is_done(partial_item: &PartialItem) -> bool
    ensures { result ≡ is_done partial_item.now }
{
    matches!(partial_item.parser.section, Section::Done)
}

/// The words of a line begin a theorem or a definition, or go on with it.
fn take_words(
    alloc: Global,
    known: &Known,
    partial_item: &mut Option<PartialItem>,
    words: &[&[u8]],
) -> Result<(), LineError>
    requires partial_item { IfSome partial_item.old (FitsPartial known.now) }
    requires notions { IsTrue (are_notions known.now.notions) }
    ensures value { Moves result partial_item.new
        (partial_after known.now partial_item.old (texts words.now)) }
    ensures fits { OnOk result (IfSome partial_item.new (FitsPartial known.now)) }
{
    match partial_item {
        None => {
            let first = PartialItem::begin(alloc, known, words)?;
            mem::drop(mem::replace(partial_item, Some(first)));
            Ok(())
        }
        Some(partial_item) => {
            partial_item.take(alloc, known, words)?;
            Ok(())
        }
    }
}

/// What has come of the next theorem or definition: nothing before its first line. After a fault it
/// is not used again.
#[derive(Drop)]
pub struct Reading {
    pub partial_item: Option<PartialItem>,
}

impl Reading {
    /// Before the first line.
    pub fn new() -> Reading
        ensures { result ≡ record { partial_item = None } }
    {
        Reading { partial_item: None }
    }

    /// Takes the next line, and says whether the theorem or the definition ends with it.
    ///
    /// Whether the line is skipped, goes on with it, ends it or has a fault does not depend on the
    /// lines after it.
    fn take(
        &mut self,
        alloc: Global,
        known: &Known,
        line: &Line,
        words: &[&[u8]],
    ) -> Result<bool, BookFault>
        requires words { texts words.now ≡ tokens_of line.now.bytes.now }
        requires number { line.now.number < 2 ^ 32 }
        requires partial_item { IfSome self.old.partial_item (FitsPartial known.now) }
        requires notions { IsTrue (are_notions known.now.notions) }
        ensures takes { TakesLine known.now self.old.partial_item
            (view_of_line line.now) result self.new.partial_item }
        ensures fits { OnOk result (IfSome self.new.partial_item (FitsPartial known.now)) }
    {
        if is_skipped(words) {
            return Ok(false);
        }
        match take_words(alloc, known, &mut self.partial_item, words) {
            Ok(()) => Ok(self.has_ended()),
            Err(error) => Err(error.at(line.number as u32)),
        }
    }

    /// Whether its last line has come.
    fn has_ended(&self) -> bool
        ensures { result ≡ has_ended self.now.partial_item }
    {
        match &self.partial_item {
            None => false,
            Some(partial_item) => is_done(partial_item),
        }
    }

    /// What has ended with the last line, if it has: then the next line begins anew.
    fn take_ended(&mut self, alloc: Global) -> Option<Item>
        ensures { IsEnded self.old.partial_item result self.new.partial_item }
    {
        let Some(partial_item) = &self.partial_item else {
            return None;
        };
        if !is_done(partial_item) {
            return None;
        }
        match self.partial_item.take() {
            Some(partial_item) => Some(partial_item.into_item(alloc)),
            None => None,
        }
    }

    /// Takes lines up to the end of a theorem or a definition, or all that are there: then it may
    /// go on with lines that come later.
    ///
    /// A fault is the first from here on, whatever lines come later; after it the lines are not
    /// used again. What ends is what `next_item` gives where all lines come at once.
    pub fn read(
        &mut self,
        alloc: Global,
        lines: &mut Lines,
        known: &Known,
    ) -> Result<Option<Item>, BookFault>
        requires lines { last_line lines.old < 2 ^ 32 }
        requires partial_item { IfSome self.old.partial_item (FitsPartial known.now) }
        requires notions { IsTrue (are_notions known.now.notions) }
        requires begun { IsBegun known.now self.old.partial_item }
        ensures reads { ReadsOn known.now self.old.partial_item lines.old.lines result
            self.new.partial_item lines.new.lines }
        ensures last { OnOk result (last_line lines.new ≡ last_line lines.old) }
        ensures shorter { IfOk result
            (λ t. OnSome t (length lines.new.lines < length lines.old.lines)) }
        ensures fits { OnOk result (IfSome self.new.partial_item (FitsPartial known.now)) }
        ensures begun { OnOk result (IsBegun known.now self.new.partial_item) }
        ensures good { IfOk result (λ o. IfSome o (HasWellFormedView known.now)) }
    {
        let mut words = Vec::with_capacity(alloc, 64)?;
        while let Some(line) = lines.next() {
            let line = match line {
                Ok(line) => line,
                Err(fault) => return Err(book_fault_of(fault)),
            };
            words = words_in_room(line.bytes, words)?;
            let ended = self.take(alloc, known, &line, &words)?;
            if ended {
                return Ok(self.take_ended(alloc));
            }
        }
        Ok(None)
    }

    /// No lines come any more, and the next would have this number: that is a fault inside a
    /// theorem or a definition.
    pub fn end(&self, line: u64) -> Result<(), BookFault>
        requires { line < 2 ^ 32 }
        ensures { result ≡ end_of line self.now.partial_item }
    {
        match &self.partial_item {
            None => Ok(()),
            Some(_) => Err(BookFault::Unended { line: line as u32 }),
        }
    }
}
