//! `verify`: a derivation text is read and verified.
ghost use Rattle.std.specs.Prelude.{◌≡◌, ◌≤◌, ◌^◌, length, IfOk};
ghost use Rattle.e_io.specs.Bytes.{Rose};
ghost use Rattle.e_commands.specs.Answers.{IsWriteFault, IsReadFault, IsVerified, WroteOfText};
ghost use Rattle.e_commands.specs.Input.{IsAtEnd};
ghost use Rattle.e_commands.specs.VerifierAnswers.{TextAnswer};
ghost use Rattle.e_commands.specs.inner.Finished.{HasDueOfText, HasReadFault};

use crate::input::{MOST_TEXT, read_text};
use crate::output::{
    Answer, Failure, answer_with, bad_line, finish, garbled_line, or_no_memory, verified_line,
};
use crate::status::Status;
use e_io::{Sink, Source};
use e_judgement::{Judgement, judge};
use std::alloc::{AllocError, Global};

/// The answer of a judgement.
fn answer_of(judgement: Judgement) -> Status
    ensures { result ≡ Rattle.e_commands.specs.VerifierAnswers.answer_of judgement }
{
    match judgement {
        Judgement::Verified { theorems } => Status::Verified { theorems },
        Judgement::Bad { title, step } => Status::Bad { title, step },
        Judgement::Garbled { line } => Status::Garbled { line },
    }
}

/// The line of a judgement.
fn line_of(alloc: Global, judgement: &Judgement) -> Result<Vec<u8>, AllocError>
    ensures { IfOk result
        (λ v. v.items ≡ Rattle.e_commands.specs.VerifierAnswers.judgement_line judgement.now) }
{
    match judgement {
        Judgement::Verified { theorems } => verified_line(alloc, *theorems),
        Judgement::Bad { title, step } => bad_line(alloc, *title, *step),
        Judgement::Garbled { line } => garbled_line(alloc, *line),
    }
}

/// The answer to a text.
fn answer_to(alloc: Global, text: &[u8]) -> Result<Answer, AllocError>
    requires { length text.now ≤ 2 ^ 60 }
    ensures due { IfOk result (λ a. TextAnswer text.now a.status a.line.items) }
    ensures no_read { IfOk result (λ a. IsReadFault a.status → ⊥) }
{
    let judgement = judge(alloc, text)?;
    let line = line_of(alloc, &judgement)?;
    Ok(Answer {
        status: answer_of(judgement),
        line,
    })
}

/// The answer to the text of a source.
fn answer_to_source<S: Source>(alloc: Global, source: &mut S) -> Result<Answer, Failure>
    ensures due { HasDueOfText TextAnswer (S.left source.old) result }
    ensures end { IfOk result (λ a. IsVerified a.status → IsAtEnd (S.left source.new)) }
    ensures rises { S.faults source.old ≤ S.faults source.new }
    ensures cause { HasReadFault result → Rose (S.faults source.old) (S.faults source.new) }
{
    let text = match read_text(alloc, source, MOST_TEXT) {
        Ok(text) => text,
        Err(failure) => return Err(failure),
    };
    if text.len() > MOST_TEXT {
        return or_no_memory(answer_with(alloc, Status::TextLimit, b"text limit\n"));
    }
    or_no_memory(answer_to(alloc, &text))
}

/// Reads a derivation text from a source, and writes its judgement to a sink.
pub fn verify<S: Source, K: Sink>(alloc: Global, source: &mut S, sink: &mut K) -> Status
    ensures verifies { WroteOfText TextAnswer (S.left source.old) (K.written sink.old)
        (K.written sink.new) result }
    ensures end { IsVerified result → IsAtEnd (S.left source.new) }
    ensures read_rises { S.faults source.old ≤ S.faults source.new }
    ensures read_cause { IsReadFault result → Rose (S.faults source.old) (S.faults source.new) }
    ensures write_rises { K.faults sink.old ≤ K.faults sink.new }
    ensures write_cause { IsWriteFault result → Rose (K.faults sink.old) (K.faults sink.new) }
{
    finish(sink, answer_to_source(alloc, source))
}
