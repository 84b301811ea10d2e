//! `trial`: a generated book is checked, and its derivations are verified, within one call.
ghost use Rattle.std.specs.Prelude.{◌≡◌, ◌≤◌, ◌<◌, ◌^◌, length, IfOk};
ghost use Rattle.e_io.specs.Bytes.{Rose};
ghost use Rattle.e_generate.specs.Generated.{generated_text};
ghost use Rattle.e_line.specs.Limits.{most_theorems};
ghost use Rattle.e_commands.specs.Outcome.{lines_of_book};
ghost use Rattle.e_commands.specs.Answers.{IsReadFault, IsWriteFault};
ghost use Rattle.e_commands.specs.LastLines.{tried_line};
ghost use Rattle.e_commands.specs.Trials.{TrialAnswer, Tries};
ghost use Rattle.e_commands.specs.declared.status.Status.{Status};
ghost use Rattle.e_judgement.specs.Judged.{JudgesText};
ghost use Rattle.e_judgement.specs.declared.judgement.Judgement.{Judgement};

use crate::blocks::{BookResult, blocks};
use crate::checker::{answer_of, last_lines};
use crate::input::{LONGEST_LINE, MOST_BYTES, read_text};
use crate::output::{Answer, finish, or_no_memory, tried_line};
use crate::status::Status;
use crate::store::Store;
use e_generate::generated;
use e_io::{Sink, SureSource, write_all};
use e_judgement::{Judgement, judge};
use e_text::Lines;
use std::alloc::{AllocError, Global};
use std::mem;

/// The answer to an accepted book, of which `check` writes this text. It is judged once more here:
/// by what is proved of `check` it comes out verified.
fn answer_of_accepted(
    alloc: Global,
    text: &[u8],
    theorems: u32,
    steps: u32,
) -> Result<Answer, AllocError>
    requires few { length text.now ≤ 2 ^ 60 }
    requires verified { JudgesText text.now (Judgement.Verified theorems) }
    ensures { IfOk result (λ a. (a.status ≡ Status.Tried theorems steps)
        × (a.line.items ≡ tried_line theorems steps)) }
{
    let Judgement::Verified { theorems } = judge(alloc, text)? else {
        unreachable!();
    };
    let line = tried_line(alloc, theorems, steps)?;
    Ok(Answer {
        status: Status::Tried { theorems, steps },
        line,
    })
}

/// The answer to a book in memory, with its line.
fn answer_to(alloc: Global, lines: &mut Lines) -> Result<Answer, AllocError>
    requires first { lines.old.line ≡ 1 }
    requires few { length lines.old.lines < 2 ^ 31 }
    ensures { IfOk result (λ a. TrialAnswer lines.old.lines a.status a.line.items) }
{
    let mut store = Store::new(alloc);
    let Ok(()) = write_all(&mut store, b"derivation 1\n") else {
        return Err(AllocError);
    };
    let book_result = match blocks(alloc, lines, &mut store) {
        Ok(book_result) => book_result,
        Err(_) => return Err(AllocError),
    };
    let line = match last_lines(alloc, &book_result) {
        Ok(line) => line,
        Err(error) => {
            mem::drop(book_result);
            return Err(error);
        }
    };
    let BookResult::All { theorems, steps } = book_result else {
        return Ok(Answer {
            status: answer_of(book_result),
            line,
        });
    };
    mem::drop(book_result);
    let Ok(()) = write_all(&mut store, &line) else {
        return Err(AllocError);
    };
    answer_of_accepted(alloc, &store.into_bytes(), theorems, steps)
}

/// The answer to the generated book of this many theorems, with its line. The book is read as one
/// is from a source, at most one byte past the limit.
fn answer_for(alloc: Global, theorems: u32) -> Result<Answer, AllocError>
    requires { theorems ≤ most_theorems }
    ensures { IfOk result
        (λ a. TrialAnswer (lines_of_book (generated_text theorems)) a.status a.line.items) }
{
    let mut source = SureSource::new(generated(alloc, theorems)?);
    let text = match read_text(alloc, &mut source, MOST_BYTES) {
        Ok(text) => text,
        Err(_) => return Err(AllocError),
    };
    let mut lines = Lines::new(&text, LONGEST_LINE, MOST_BYTES as u64);
    answer_to(alloc, &mut lines)
}

/// Checks the generated book of this many theorems, verifies what `check` writes of it, and writes
/// the line of the answer.
pub fn trial<K: Sink>(alloc: Global, theorems: u32, sink: &mut K) -> Status
    requires { theorems ≤ most_theorems }
    ensures tries { Tries theorems (K.written sink.old) (K.written sink.new) result }
    ensures rises { K.faults sink.old ≤ K.faults sink.new }
    ensures cause { IsWriteFault result → Rose (K.faults sink.old) (K.faults sink.new) }
    ensures no_read { IsReadFault result → ⊥ }
{
    finish(sink, or_no_memory(answer_for(alloc, theorems)))
}
