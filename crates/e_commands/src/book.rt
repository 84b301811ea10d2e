//! A book while its lines come: each theorem is checked, and its block written, as soon as its last
//! line has come.
ghost use Rattle.std.specs.Prelude.{◌≡◌, ◌≤◌, ◌<◌, ◌^◌, ◌++◌, ℕ, List, [], Option, Some, None, Ok};
ghost use Rattle.std.specs.Prelude.{IfOk, IfNone, IsErrOf};
ghost use Rattle.e_io.specs.Bytes.{Rose};
ghost use Rattle.e_book.specs.Grammar.{last_line, Rest};
ghost use Rattle.e_book.specs.Definitions.{OfTheorem, view_of, item_from, HasWellFormedView};
ghost use Rattle.e_book.specs.TheoremViews.{entry_of};
ghost use Rattle.e_book.specs.HasSpelling.{HasSpelling};
ghost use Rattle.e_commands.specs.Outcome.{end_line_number};
ghost use Rattle.e_commands.specs.inner.BookResults.{BlocksAre};
ghost use Rattle.e_commands.specs.inner.Progress.{History, IsBook, Reaches, Handles, BookTakes};
ghost use Rattle.e_commands.specs.inner.Progress.{AreTaken, first_book, result_at};
ghost use Rattle.e_commands.specs.declared.output.Failure.{Failure};

use crate::blocks::{BookResult, block, result_of_fault, result_of_stop};
use crate::output::Failure;
use e_book::{Item, Reading, Theorem};
use e_deriv::size;
use e_io::{Sink, write_all};
use e_judgement::keep;
use e_names::Known;
use e_text::Lines;
use std::alloc::Global;
use std::mem;

/// The theorems and definitions so far, and what has come of the next one.
#[derive(Drop)]
pub struct Book {
    pub known: Known,
    pub reading: Reading,
    /// How many theorems there are, and how many step and close lines they have.
    pub theorems: u32,
    pub steps: u32,
}

impl Book {
    /// Before the first line.
    pub fn new(alloc: Global) -> Book
        ensures { result ≡ first_book }
    {
        Book {
            known: Known::new(alloc),
            reading: Reading::new(),
            theorems: 0,
            steps: 0,
        }
    }

    /// Checks the theorem that has ended and writes its block; then it is known.
    fn handle<K: Sink>(
        &mut self,
        alloc: Global,
        theorem: Theorem,
        sink: &mut K,
    ) -> Result<Option<BookResult>, Failure>
        requires book { IsBook self.old }
        requires begins { self.old.reading.partial_item ≡ None }
        requires spelled { HasSpelling self.old.known.theorems (entry_of theorem) }
        ensures handles { (lines rest after : Rest) (before : Option (List ℕ))
            → History lines before self.old.known rest (K.written sink.old) self.old.steps
            → item_from self.old.known (end_line_number lines) None rest
            ≡ Ok (Some (OfTheorem (entry_of theorem), after))
            → Handles lines before after result self.new (K.written sink.new) }
        ensures book { IfOk result (λ e. IfNone e (IsBook self.new)) }
        ensures begins { IfOk result (λ e. IfNone e (self.new.reading.partial_item ≡ None)) }
        ensures rises { K.faults sink.old ≤ K.faults sink.new }
        ensures cause { IsErrOf result Failure.WriteFault
            → Rose (K.faults sink.old) (K.faults sink.new) }
    {
        let block = match block(alloc, &self.known.theorems, &theorem) {
            Ok(block) => block,
            Err(stop) => {
                let title = theorem.title;
                mem::drop(theorem);
                return result_of_stop(title, stop);
            }
        };
        let Ok(()) = write_all(sink, &block) else {
            mem::drop(theorem);
            return Err(Failure::WriteFault);
        };
        let count = size(&theorem.block);
        let Ok(()) = keep(&mut self.known.theorems, theorem) else {
            return Err(Failure::NoMemory);
        };
        self.theorems += 1;
        self.steps += count;
        Ok(None)
    }

    /// A definition is known from its last line on; a theorem is handled.
    fn handle_item<K: Sink>(
        &mut self,
        alloc: Global,
        item: Item,
        sink: &mut K,
    ) -> Result<Option<BookResult>, Failure>
        requires book { IsBook self.old }
        requires begins { self.old.reading.partial_item ≡ None }
        requires good { HasWellFormedView self.old.known item }
        ensures handles { (lines rest after : Rest) (before : Option (List ℕ))
            → History lines before self.old.known rest (K.written sink.old) self.old.steps
            → item_from self.old.known (end_line_number lines) None rest
            ≡ Ok (Some (view_of item, after))
            → Handles lines before after result self.new (K.written sink.new) }
        ensures book { IfOk result (λ e. IfNone e (IsBook self.new)) }
        ensures begins { IfOk result (λ e. IfNone e (self.new.reading.partial_item ≡ None)) }
        ensures rises { K.faults sink.old ≤ K.faults sink.new }
        ensures cause { IsErrOf result Failure.WriteFault
            → Rose (K.faults sink.old) (K.faults sink.new) }
    {
        match item {
            Item::Theorem(theorem) => self.handle(alloc, theorem, sink),
            Item::Notion(title, notion) => {
                let Ok(()) = self.known.add_notion(title, notion) else {
                    return Err(Failure::NoMemory);
                };
                Ok(None)
            }
        }
    }

    /// Takes the lines that remain, and handles the theorems and definitions that end in them. It
    /// gives nothing where all are taken, and the book may go on; else how it ends.
    pub fn take<K: Sink>(
        &mut self,
        alloc: Global,
        lines: &mut Lines,
        sink: &mut K,
    ) -> Result<Option<BookResult>, Failure>
        requires book { IsBook self.old }
        requires lines { last_line lines.old < 2 ^ 32 }
        ensures takes { (all : Rest → Rest) (before : Option (List ℕ))
            → Reaches all (λ more. lines.old.lines ++ more) before self.old (K.written sink.old)
            → BookTakes all before result self.new (K.written sink.new) }
        ensures taken { IfOk result (λ e. IfNone e (AreTaken lines.old lines.new)) }
        ensures book { IfOk result (λ e. IfNone e (IsBook self.new)) }
        ensures rises { K.faults sink.old ≤ K.faults sink.new }
        ensures cause { IsErrOf result Failure.WriteFault
            → Rose (K.faults sink.old) (K.faults sink.new) }
    {
        loop {
            let item = match self.reading.read(alloc, lines, &self.known) {
                Ok(Some(item)) => item,
                Ok(None) => return Ok(None),
                Err(fault) => return result_of_fault(fault),
            };
            match self.handle_item(alloc, item, sink)? {
                None => {}
                Some(book_result) => return Ok(Some(book_result)),
            }
        }
    }

    /// How the book ends where no lines come any more; the next would have this number.
    pub fn end(&self, line: u64) -> BookResult
        requires { line < 2 ^ 32 }
        ensures { result
            ≡ result_at line self.now.reading.partial_item self.now.theorems self.now.steps }
    {
        match self.reading.end(line) {
            Ok(()) => BookResult::All {
                theorems: self.theorems,
                steps: self.steps,
            },
            Err(fault) => BookResult::Faulty(fault),
        }
    }

    /// Takes the lines that remain, which are the last of the book.
    pub fn take_all<K: Sink>(
        &mut self,
        alloc: Global,
        lines: &mut Lines,
        sink: &mut K,
    ) -> Result<BookResult, Failure>
        requires book { IsBook self.old }
        requires lines { last_line lines.old < 2 ^ 32 }
        ensures ends { (all : Rest → Rest) (before : Option (List ℕ))
            → end_line_number (all []) ≡ last_line lines.old
            → Reaches all (λ more. lines.old.lines ++ more) before self.old (K.written sink.old)
            → BlocksAre (all []) before (K.written sink.new) result }
        ensures rises { K.faults sink.old ≤ K.faults sink.new }
        ensures cause { IsErrOf result Failure.WriteFault
            → Rose (K.faults sink.old) (K.faults sink.new) }
    {
        match self.take(alloc, lines, sink)? {
            Some(book_result) => Ok(book_result),
            None => Ok(self.end(lines.line())),
        }
    }
}
