//! A book that is read piece by piece: its lines are taken as soon as they have their end.
ghost use Rattle.std.specs.Prelude.{◌≡◌, ◌≤◌, ◌+◌, ◌++◌, ℕ, List, [], length, Option, IfOk, IfNone};
ghost use Rattle.std.specs.Prelude.{IsErrOf, vec_len};
ghost use Rattle.e_io.specs.Bytes.{Rose};
ghost use Rattle.e_text.specs.Lines.{IsClosed, IsOpen, lines_of};
ghost use Rattle.e_commands.specs.Input.{IsAtEnd};
ghost use Rattle.e_commands.specs.Outcome.{lines_of_book};
ghost use Rattle.e_commands.specs.inner.BookResults.{BlocksAre, IsAll};
ghost use Rattle.e_commands.specs.inner.Progress.{IsBook, IsReadUpTo, PieceTakes, first_book};
ghost use Rattle.e_commands.specs.inner.Handled.{HandledBlocks, TextResultIs};
ghost use Rattle.e_commands.specs.Taken.{TookFew};
ghost use Rattle.e_commands.specs.declared.output.Failure.{Failure};

use crate::blocks::BookResult;
use crate::book::Book;
use crate::input::{LONGEST_LINE, MOST_BYTES};
use crate::output::Failure;
use e_io::{Sink, Source};
use e_text::{Lines, closed_len};
use std::alloc::Global;
use std::mem;

/// The most bytes that one call of a source is asked for.
const PIECE: usize = 4096;

/// The bytes that were read of a book and are not taken: those of its open line. And where they
/// are: the number of their first line, and how many bytes come before them.
#[derive(Drop)]
pub struct Untaken {
    pub bytes: Vec<u8>,
    pub line: u64,
    pub before: u64,
}

impl Untaken {
    /// Before the first byte.
    fn new(alloc: Global) -> Untaken
        ensures bytes { result.bytes.items ≡ [] }
        ensures line { result.line ≡ 1 }
        ensures before { result.before ≡ 0 }
    {
        Untaken {
            bytes: Vec::new(alloc),
            line: 1,
            before: 0,
        }
    }

    /// How many bytes were read.
    fn count(&self) -> usize
        requires { self.now.before + vec_len self.now.bytes ≤ 4194305 }
        ensures { result ≡ self.now.before + vec_len self.now.bytes }
    {
        self.before as usize + self.bytes.len()
    }

    /// The lines of these bytes.
    fn lines(&self) -> Lines<'_>
        requires line { self.now.line ≤ self.now.before + 1 }
        requires few { self.now.before + vec_len self.now.bytes ≤ 4194305 }
        ensures lines { result.lines ≡ lines_of (record { longest = 1600; most = 4194304 })
            (record { line = self.now.line; before = self.now.before }) self.now.bytes.items }
        ensures line { result.line ≡ self.now.line }
        ensures count { length result.lines ≤ vec_len self.now.bytes }
    {
        Lines::at(
            &self.bytes,
            LONGEST_LINE,
            MOST_BYTES as u64,
            self.line,
            self.before,
        )
    }
}

/// Takes the untaken bytes, all of whose lines have ended.
fn take_closed<K: Sink>(
    alloc: Global,
    book: &mut Book,
    untaken: &mut Untaken,
    sink: &mut K,
) -> Result<Option<BookResult>, Failure>
    requires book { IsBook book.old }
    requires line { untaken.old.line ≤ untaken.old.before + 1 }
    requires few { untaken.old.before + vec_len untaken.old.bytes ≤ 4194305 }
    requires closed { IsClosed untaken.old.bytes.items }
    ensures takes { (read : List ℕ) (before : Option (List ℕ))
        → IsReadUpTo read before book.old untaken.old (K.written sink.old)
        → PieceTakes read before result book.new untaken.new (K.written sink.new) }
    ensures book { IfOk result (λ e. IfNone e (IsBook book.new)) }
    ensures taken { IfOk result (λ e. IfNone e (untaken.new.bytes.items ≡ [])) }
    ensures count { IfOk result
        (λ e. IfNone e (untaken.new.before ≡ untaken.old.before + vec_len untaken.old.bytes)) }
    ensures line { IfOk result (λ e. IfNone e (untaken.new.line ≤ untaken.new.before + 1)) }
    ensures rises { K.faults sink.old ≤ K.faults sink.new }
    ensures cause { IsErrOf result Failure.WriteFault
        → Rose (K.faults sink.old) (K.faults sink.new) }
{
    let mut lines = untaken.lines();
    match book.take(alloc, &mut lines, sink)? {
        None => {}
        Some(book_result) => return Ok(Some(book_result)),
    }
    let line = lines.line();
    untaken.before += untaken.bytes.len() as u64;
    untaken.line = line;
    untaken.bytes.clear();
    Ok(None)
}

/// Takes a piece of a book: the lines that end in it, and with them the theorems that end in them.
/// What comes after its last line feed is kept.
fn take_piece<K: Sink>(
    alloc: Global,
    book: &mut Book,
    untaken: &mut Untaken,
    piece: &[u8],
    sink: &mut K,
) -> Result<Option<BookResult>, Failure>
    requires book { IsBook book.old }
    requires line { untaken.old.line ≤ untaken.old.before + 1 }
    requires few { untaken.old.before + vec_len untaken.old.bytes + length piece.now ≤ 4194305 }
    requires unended { IsOpen untaken.old.bytes.items }
    ensures takes { (read : List ℕ) (before : Option (List ℕ))
        → IsReadUpTo read before book.old untaken.old (K.written sink.old)
        → PieceTakes (read ++ piece.now) before result book.new untaken.new (K.written sink.new) }
    ensures book { IfOk result (λ e. IfNone e (IsBook book.new)) }
    ensures unended { IfOk result (λ e. IfNone e (IsOpen untaken.new.bytes.items)) }
    ensures count { IfOk result (λ e. IfNone e (untaken.new.before + vec_len untaken.new.bytes
        ≡ untaken.old.before + vec_len untaken.old.bytes + length piece.now)) }
    ensures line { IfOk result (λ e. IfNone e (untaken.new.line ≤ untaken.new.before + 1)) }
    ensures rises { K.faults sink.old ≤ K.faults sink.new }
    ensures cause { IsErrOf result Failure.WriteFault
        → Rose (K.faults sink.old) (K.faults sink.new) }
{
    let (ended, rest) = piece.split_at(closed_len(piece));
    if ended.is_empty() {
        untaken.bytes.extend_from_slice(rest)?;
        return Ok(None);
    }
    untaken.bytes.extend_from_slice(ended)?;
    match take_closed(alloc, book, untaken, sink)? {
        None => {}
        Some(book_result) => return Ok(Some(book_result)),
    }
    untaken.bytes.extend_from_slice(rest)?;
    Ok(None)
}

/// Takes the untaken bytes, which are the last of the book or pass what a book may have.
fn take_last<K: Sink>(
    alloc: Global,
    book: &mut Book,
    untaken: &Untaken,
    sink: &mut K,
) -> Result<BookResult, Failure>
    requires book { IsBook book.old }
    requires line { untaken.now.line ≤ untaken.now.before + 1 }
    requires few { untaken.now.before + vec_len untaken.now.bytes ≤ 4194305 }
    ensures ends { (read : List ℕ) (before : Option (List ℕ))
        → IsReadUpTo read before book.old untaken.now (K.written sink.old)
        → BlocksAre (lines_of_book read) before (K.written sink.new) result }
    ensures rises { K.faults sink.old ≤ K.faults sink.new }
    ensures cause { IsErrOf result Failure.WriteFault
        → Rose (K.faults sink.old) (K.faults sink.new) }
{
    let mut lines = untaken.lines();
    book.take_all(alloc, &mut lines, sink)
}

/// Takes a book from a source, up to the source's end, or to one byte more than a book may have:
/// with that byte it is too long, and no more are asked for.
fn take_source<S: Source, K: Sink>(
    alloc: Global,
    book: &mut Book,
    source: &mut S,
    sink: &mut K,
) -> Result<BookResult, Failure>
    requires { book.old ≡ first_book }
    ensures ends { TextResultIs (S.left source.old) (K.written sink.old)
        (K.written sink.new) result }
    ensures handled { IsErrOf result Failure.ReadFault → HandledBlocks (S.left source.old)
        (S.left source.new) (K.written sink.old) (K.written sink.new) }
    ensures took { TookFew (S.left source.old) (S.left source.new) }
    ensures end { IfOk result (λ e. IsAll e → IsAtEnd (S.left source.new)) }
    ensures read_rises { S.faults source.old ≤ S.faults source.new }
    ensures read_cause { IsErrOf result Failure.ReadFault
        → Rose (S.faults source.old) (S.faults source.new) }
    ensures write_rises { K.faults sink.old ≤ K.faults sink.new }
    ensures write_cause { IsErrOf result Failure.WriteFault
        → Rose (K.faults sink.old) (K.faults sink.new) }
{
    let mut untaken = Untaken::new(alloc);
    let mut buffer = [0u8; PIECE];
    while untaken.count() <= MOST_BYTES {
        let room = (MOST_BYTES + 1 - untaken.count()).min(PIECE);
        let n = match source.read(&mut buffer[..room]) {
            Ok(n) => n,
            Err(_) => return Err(Failure::ReadFault),
        };
        if n == 0 {
            return take_last(alloc, book, &untaken, sink);
        }
        match take_piece(alloc, book, &mut untaken, &buffer[..n], sink)? {
            None => {}
            Some(book_result) => return Ok(book_result),
        }
    }
    take_last(alloc, book, &untaken, sink)
}

/// Reads a book from a source, checks its theorems and writes their blocks, each as soon as its
/// last line is read.
pub fn blocks_of_source<S: Source, K: Sink>(
    alloc: Global,
    source: &mut S,
    sink: &mut K,
) -> Result<BookResult, Failure>
    ensures ends { TextResultIs (S.left source.old) (K.written sink.old)
        (K.written sink.new) result }
    ensures handled { IsErrOf result Failure.ReadFault → HandledBlocks (S.left source.old)
        (S.left source.new) (K.written sink.old) (K.written sink.new) }
    ensures took { TookFew (S.left source.old) (S.left source.new) }
    ensures end { IfOk result (λ e. IsAll e → IsAtEnd (S.left source.new)) }
    ensures read_rises { S.faults source.old ≤ S.faults source.new }
    ensures read_cause { IsErrOf result Failure.ReadFault
        → Rose (S.faults source.old) (S.faults source.new) }
    ensures write_rises { K.faults sink.old ≤ K.faults sink.new }
    ensures write_cause { IsErrOf result Failure.WriteFault
        → Rose (K.faults sink.old) (K.faults sink.new) }
{
    let mut book = Book::new(alloc);
    let ended = take_source(alloc, &mut book, source, sink);
    mem::drop(book);
    ended
}
