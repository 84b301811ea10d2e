//! The block of a theorem in an answer, its lines with their certificates; how the blocks of a book
//! end; and those of a book whose lines are all there.
ghost use Rattle.std.specs.Prelude.{◌≡◌, ◌≤◌, ◌<◌, ◌^◌, length, IfOk, IfErr, IsErrOf, IsTrue};
ghost use Rattle.e_io.specs.Bytes.{Rose};
ghost use Rattle.e_theorem.specs.Statements.{as_view};
ghost use Rattle.e_deriv.specs.Script.{script_of};
ghost use Rattle.e_deriv.specs.Fitting.{IsFitting};
ghost use Rattle.e_names.specs.TitledStatements.{stated_by};
ghost use Rattle.e_book.specs.TheoremViews.{entry_of};
ghost use Rattle.e_book.specs.Fits.{has_well_formed_literals};
ghost use Rattle.e_prove.specs.Stops.{StopIs, HasNames};
ghost use Rattle.e_commands.specs.Answers.{HasBlock};
ghost use Rattle.e_commands.specs.inner.BookResults.{BlocksAre, result_of_stop, result_of_fault};

use crate::book::Book;
use crate::output::Failure;
use e_book::Theorem;
use e_deriv::Stop;
use e_io::Sink;
use e_line::BookFault;
use e_names::Theorems;
use e_prove::prove;
use e_spell::spell;
use e_text::{Lines, Title};
use std::alloc::Global;
use std::mem;

/// How the blocks of a book end.
#[derive(Drop)]
pub enum BookResult {
    /// All theorems are taken: how many they are, and how many step and close lines they have.
    All { theorems: u32, steps: u32 },
    /// The next theorem stops at a step that is not licensed, or is too wide.
    Stopped { title: Title, stop: Stop },
    /// The next line has a fault.
    Faulty(BookFault),
}

/// The block of a theorem with its derivation from those that are known.
pub fn block(alloc: Global, known: &Theorems, theorem: &Theorem) -> Result<Vec<u8>, Stop>
    requires fitting { IsFitting (stated_by known.now) (as_view theorem.now.statement)
        (script_of theorem.now.block) }
    requires good { IsTrue (has_well_formed_literals (script_of theorem.now.block)) }
    ensures block { IfOk result (λ v. HasBlock known.now (entry_of theorem.now) v.items) }
    ensures stop { IfErr result (StopIs (stated_by known.now) (as_view theorem.now.statement)
        (script_of theorem.now.block)) }
    ensures names { IfErr result (HasNames (stated_by known.now)
        (as_view theorem.now.statement) theorem.now.names (script_of theorem.now.block)) }
{
    let derivation = prove(alloc, known.statements(), theorem)?;
    let text = spell(alloc, known, theorem, &derivation);
    mem::drop(derivation);
    Ok(text?)
}

/// That the next theorem stops, or that memory ran out.
pub fn result_of_stop(title: Title, stop: Stop) -> Result<Option<BookResult>, Failure>
    ensures { result ≡ result_of_stop title stop }
{
    if matches!(stop, Stop::NoMemory) {
        mem::drop(stop);
        return Err(Failure::NoMemory);
    }
    Ok(Some(BookResult::Stopped { title, stop }))
}

/// That the next line has a fault, or that memory ran out.
pub fn result_of_fault(fault: BookFault) -> Result<Option<BookResult>, Failure>
    ensures { result ≡ result_of_fault fault }
{
    if matches!(fault, BookFault::NoMemory) {
        return Err(Failure::NoMemory);
    }
    Ok(Some(BookResult::Faulty(fault)))
}

/// Takes the theorems one after another, and writes the block of each.
pub fn blocks<K: Sink>(
    alloc: Global,
    lines: &mut Lines,
    sink: &mut K,
) -> Result<BookResult, Failure>
    requires first { lines.old.line ≡ 1 }
    requires few { length lines.old.lines < 2 ^ 31 }
    ensures book_result { BlocksAre lines.old.lines (K.written sink.old)
        (K.written sink.new) result }
    ensures rises { K.faults sink.old ≤ K.faults sink.new }
    ensures cause { IsErrOf result Failure.WriteFault
        → Rose (K.faults sink.old) (K.faults sink.new) }
{
    let mut book = Book::new(alloc);
    let ended = book.take_all(alloc, lines, sink);
    mem::drop(book);
    ended
}
