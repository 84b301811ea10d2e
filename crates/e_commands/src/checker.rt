//! `check`: a book is read, checked and written as its derivations.
ghost use Rattle.std.specs.Prelude.{◌≡◌, ◌≤◌, IfOk};
ghost use Rattle.e_io.specs.Bytes.{Rose};
ghost use Rattle.e_commands.specs.Answers.{IsWriteFault, IsReadFault, IsAccepted, Outputs};
ghost use Rattle.e_commands.specs.Answers.{WroteOfText};
ghost use Rattle.e_commands.specs.Input.{IsAtEnd};
ghost use Rattle.e_commands.specs.inner.BookResults.{HasLastLines, last_lines, answer_of};
ghost use Rattle.e_commands.specs.Taken.{TookFew, HandledAll};
ghost use Rattle.e_commands.specs.Outcome.{lines_of_book};

use crate::blocks::BookResult;
use crate::output::{Answer, accepted_line, fault_line, finish, or_no_memory};
use crate::pieces::blocks_of_source;
use crate::status::Status;
use e_deriv::Stop;
use e_io::{Sink, Source, write_all};
use e_spell::spell_stop;
use e_text::Title;
use std::alloc::{AllocError, Global};
use std::mem;

/// The last lines of a book's result.
pub fn last_lines(alloc: Global, book_result: &BookResult) -> Result<Vec<u8>, AllocError>
    requires { HasLastLines book_result.now }
    ensures { IfOk result
        (λ v. v.items ≡ Rattle.e_commands.specs.inner.BookResults.last_lines book_result.now) }
{
    match book_result {
        BookResult::All { theorems, .. } => accepted_line(alloc, *theorems),
        BookResult::Stopped { title, stop } => spell_stop(alloc, *title, stop),
        BookResult::Faulty(at) => fault_line(alloc, at),
    }
}

/// The answer to a theorem that stops so.
pub fn stop_answer(title: Title, stop: Stop) -> Status
    ensures { result ≡ Rattle.e_commands.specs.inner.BookResults.stop_answer title stop }
{
    match stop {
        Stop::Unlicensed {
            step,
            wanted,
            values,
            ..
        } => Status::Unlicensed {
            title,
            step,
            wanted,
            values,
        },
        Stop::TooWide {
            step,
            wanted,
            width,
            ..
        } => Status::TooWide {
            title,
            step,
            wanted,
            width,
        },
        Stop::NoMemory => Status::NoMemory,
    }
}

/// The answer of a book's result.
pub fn answer_of(book_result: BookResult) -> Status
    ensures { result ≡ Rattle.e_commands.specs.inner.BookResults.answer_of book_result }
{
    match book_result {
        BookResult::All { theorems, .. } => Status::Accepted { theorems },
        BookResult::Stopped { title, stop } => stop_answer(title, stop),
        BookResult::Faulty(fault) => Status::Fault(fault),
    }
}

/// The answer of a book's result, with its last lines.
fn answer_of_result(alloc: Global, book_result: BookResult) -> Result<Answer, AllocError>
    requires { HasLastLines book_result }
    ensures { IfOk result (λ a. (a.status ≡ answer_of book_result)
        × (a.line.items ≡ last_lines book_result)) }
{
    match last_lines(alloc, &book_result) {
        Ok(line) => Ok(Answer {
            status: answer_of(book_result),
            line,
        }),
        Err(error) => {
            mem::drop(book_result);
            Err(error)
        }
    }
}

/// Reads a book from a source, and writes its derivations and the last lines to a sink: the block
/// of each theorem as soon as its last line is read.
pub fn check<S: Source, K: Sink>(alloc: Global, source: &mut S, sink: &mut K) -> Status
    ensures checks { WroteOfText (λ text. Outputs (lines_of_book text)) (S.left source.old)
        (K.written sink.old) (K.written sink.new) result }
    ensures took { TookFew (S.left source.old) (S.left source.new) }
    ensures handled { IsReadFault result → HandledAll (S.left source.old) (S.left source.new)
        (K.written sink.old) (K.written sink.new) }
    ensures end { IsAccepted result → IsAtEnd (S.left source.new) }
    ensures read_rises { S.faults source.old ≤ S.faults source.new }
    ensures read_cause { IsReadFault result → Rose (S.faults source.old) (S.faults source.new) }
    ensures write_rises { K.faults sink.old ≤ K.faults sink.new }
    ensures write_cause { IsWriteFault result → Rose (K.faults sink.old) (K.faults sink.new) }
{
    let Ok(()) = write_all(sink, b"derivation 1\n") else {
        return Status::WriteFault;
    };
    match blocks_of_source(alloc, source, sink) {
        Ok(book_result) => finish(sink, or_no_memory(answer_of_result(alloc, book_result))),
        Err(failure) => finish(sink, Err(failure)),
    }
}
