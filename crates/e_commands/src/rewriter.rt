//! `upgrade`, `trim` and `uses`: a derivation text is read and verified, and what the command
//! writes of a theorem is written as soon as that one is verified.
ghost use Rattle.std.specs.Prelude.{◌≡◌, ◌≤◌, ◌^◌, [], length, IfOk, IfErr, OnOk, IsErrOf};
ghost use Rattle.e_io.specs.Bytes.{Rose};
ghost use Rattle.e_book.specs.TheoremViews.{entry_of};
ghost use Rattle.e_book.specs.Grammar.{last_line};
ghost use Rattle.e_commands.specs.Answers.{IsReadFault, IsWriteFault, WroteOfText};
ghost use Rattle.e_commands.specs.Input.{IsAtEnd};
ghost use Rattle.e_commands.specs.Rewrites.{IsRewritten, answer_of, end_line_of_job, RewriteAnswer};
ghost use Rattle.e_commands.specs.inner.Rewriting.{BlocksWritten, Broke, IsReadFor, IsVerified};
ghost use Rattle.e_commands.specs.inner.Rewriting.{Passed, TheoremsWritten};

use crate::input::{MOST_TEXT, read_text};
use crate::output::{Answer, Failure, close, finish, or_no_memory};
use crate::rewriting::{Job, answer_of, block_of, head_of, line_of, read_as};
use crate::status::Status;
use e_book::Theorem;
use e_clause::Version;
use e_io::{Sink, Source, write_all};
use e_judgement::{Judgement, LONGEST_LINE, NextItem, begins, keep, next_item};
use e_names::Theorems;
use e_text::Lines;
use std::alloc::{AllocError, Global};
use std::mem;

/// Writes what the command writes of a verified theorem, and keeps its title and its statement.
fn pass<K: Sink>(
    alloc: Global,
    job: Job,
    known: &mut Theorems,
    theorem: Theorem,
    sink: &mut K,
) -> Result<(), Failure>
    requires { IsVerified job known.old (entry_of theorem) }
    ensures passed { OnOk result (Passed job known.old (entry_of theorem) known.new
        (K.written sink.old) (K.written sink.new)) }
    ensures broke { IfErr result
        (Broke job known.old (entry_of theorem) (K.written sink.old) (K.written sink.new)) }
    ensures rises { K.faults sink.old ≤ K.faults sink.new }
    ensures cause { IsErrOf result Failure.WriteFault
        → Rose (K.faults sink.old) (K.faults sink.new) }
{
    let Ok(block) = block_of(alloc, job, known, &theorem) else {
        mem::drop(theorem);
        return Err(Failure::NoMemory);
    };
    let Ok(()) = write_all(sink, &block) else {
        mem::drop(theorem);
        return Err(Failure::WriteFault);
    };
    let Ok(()) = keep(known, theorem) else {
        return Err(Failure::NoMemory);
    };
    Ok(())
}

/// Takes the theorems of a text of this version one after another, and writes what is due of each
/// that is verified.
fn rewrite_theorems<K: Sink>(
    alloc: Global,
    job: Job,
    version: Version,
    known: &mut Theorems,
    lines: &mut Lines,
    sink: &mut K,
) -> Result<Judgement, Failure>
    requires none { known.old ≡ [] }
    requires version { IsReadFor job version }
    ensures wrote { TheoremsWritten job version (last_line lines.old) lines.old.lines
        (K.written sink.old) (K.written sink.new) result }
    ensures rises { K.faults sink.old ≤ K.faults sink.new }
    ensures cause { IsErrOf result Failure.WriteFault
        → Rose (K.faults sink.old) (K.faults sink.new) }
{
    loop {
        let theorem = match next_item(alloc, version, known, lines) {
            Ok(NextItem::Theorem(theorem)) => theorem,
            Ok(NextItem::End(judgement)) => return Ok(judgement),
            Err(_) => return Err(Failure::NoMemory),
        };
        pass(alloc, job, known, theorem, sink)?;
    }
}

/// Takes a text, and writes what is due of each theorem before the place where the text ends or is
/// not verified.
fn rewrite_blocks<K: Sink>(
    alloc: Global,
    job: Job,
    text: &[u8],
    sink: &mut K,
) -> Result<Judgement, Failure>
    requires { length text.now ≤ 2 ^ 60 }
    ensures wrote { BlocksWritten job text.now (K.written sink.old) (K.written sink.new) result }
    ensures rises { K.faults sink.old ≤ K.faults sink.new }
    ensures cause { IsErrOf result Failure.WriteFault
        → Rose (K.faults sink.old) (K.faults sink.new) }
{
    let mut lines = Lines::new(text, LONGEST_LINE, text.len() as u64);
    let Some(version) = read_as(job, begins(&mut lines)) else {
        return Ok(Judgement::Garbled { line: 1 });
    };
    let mut known = Theorems::new(alloc);
    let judged = rewrite_theorems(alloc, job, version, &mut known, &mut lines, sink);
    mem::drop(known);
    judged
}

/// The answer with a judgement.
fn answer_to(alloc: Global, job: Job, judgement: Judgement) -> Result<Answer, AllocError>
    ensures { IfOk result (λ a. (a.status ≡ answer_of job judgement)
        × (a.line.items ≡ end_line_of_job job judgement)) }
{
    let line = line_of(alloc, job, &judgement)?;
    Ok(Answer {
        status: answer_of(job, judgement),
        line,
    })
}

/// Reads a derivation text from a source, and writes to a sink the head, what the command writes of
/// each theorem as soon as it is verified, and the last line.
pub fn rewrite<S: Source, K: Sink>(alloc: Global, job: Job, source: &mut S, sink: &mut K) -> Status
    ensures rewrites { WroteOfText (RewriteAnswer job) (S.left source.old) (K.written sink.old)
        (K.written sink.new) result }
    ensures end { IsRewritten result → IsAtEnd (S.left source.new) }
    ensures read_rises { S.faults source.old ≤ S.faults source.new }
    ensures read_cause { IsReadFault result → Rose (S.faults source.old) (S.faults source.new) }
    ensures write_rises { K.faults sink.old ≤ K.faults sink.new }
    ensures write_cause { IsWriteFault result → Rose (K.faults sink.old) (K.faults sink.new) }
{
    let Ok(()) = write_all(sink, head_of(job)) else {
        return Status::WriteFault;
    };
    let text = match read_text(alloc, source, MOST_TEXT) {
        Ok(text) => text,
        Err(failure) => return finish(sink, Err(failure)),
    };
    if text.len() > MOST_TEXT {
        return close(sink, b"text limit\n", Status::TextLimit);
    }
    match rewrite_blocks(alloc, job, &text, sink) {
        Ok(judgement) => finish(sink, or_no_memory(answer_to(alloc, job, judgement))),
        Err(failure) => finish(sink, Err(failure)),
    }
}
