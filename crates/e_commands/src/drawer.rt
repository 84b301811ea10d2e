//! `figure`: a figure text is read and answered.
ghost use Rattle.std.specs.Prelude.{◌≤◌, ◌<◌, ◌^◌, length, IfOk};
ghost use Rattle.e_io.specs.Bytes.{Rose};
ghost use Rattle.e_commands.specs.Answers.{IsDrawn, IsReadFault, IsWriteFault, WroteOfText};
ghost use Rattle.e_commands.specs.DrawerAnswers.{FigureAnswer};
ghost use Rattle.e_commands.specs.Input.{IsAtEnd};
ghost use Rattle.e_commands.specs.inner.Finished.{HasDueOfText, HasReadFault};

use crate::input::{MOST_BYTES, read_text};
use crate::output::{Answer, Failure, answer_of_fault, finish, or_no_memory};
use crate::status::Status;
use e_drawing::draw;
use e_io::{Sink, Source};
use std::alloc::{AllocError, Global};

/// The answer to a figure text.
fn answer_to(alloc: Global, text: &[u8]) -> Result<Answer, AllocError>
    requires { length text.now < 2 ^ 31 }
    ensures due { IfOk result (λ a. FigureAnswer text.now a.status a.line.items) }
    ensures no_read { IfOk result (λ a. IsReadFault a.status → ⊥) }
{
    match draw(alloc, text) {
        Ok(drawing) => Ok(Answer {
            status: Status::Drawn {
                shown: drawing.shown,
            },
            line: drawing.bytes,
        }),
        Err(at) => answer_of_fault(alloc, at),
    }
}

/// The answer to the figure text of a source.
fn answer_to_source<S: Source>(alloc: Global, source: &mut S) -> Result<Answer, Failure>
    ensures due { HasDueOfText FigureAnswer (S.left source.old) result }
    ensures end { IfOk result (λ a. IsDrawn a.status → IsAtEnd (S.left source.new)) }
    ensures rises { S.faults source.old ≤ S.faults source.new }
    ensures cause { HasReadFault result → Rose (S.faults source.old) (S.faults source.new) }
{
    let text = match read_text(alloc, source, MOST_BYTES) {
        Ok(text) => text,
        Err(failure) => return Err(failure),
    };
    or_no_memory(answer_to(alloc, &text))
}

/// Reads a figure text from a source, and writes what is answered to a sink. Nothing is written
/// before all of it was read.
pub fn figure<S: Source, K: Sink>(alloc: Global, source: &mut S, sink: &mut K) -> Status
    ensures draws { WroteOfText FigureAnswer (S.left source.old) (K.written sink.old)
        (K.written sink.new) result }
    ensures end { IsDrawn result → IsAtEnd (S.left source.new) }
    ensures read_rises { S.faults source.old ≤ S.faults source.new }
    ensures read_cause { IsReadFault result → Rose (S.faults source.old) (S.faults source.new) }
    ensures write_rises { K.faults sink.old ≤ K.faults sink.new }
    ensures write_cause { IsWriteFault result → Rose (K.faults sink.old) (K.faults sink.new) }
{
    finish(sink, answer_to_source(alloc, source))
}
