//! The top call.
ghost use Rattle.std.specs.Prelude.{◌≡◌, ◌≤◌, IsFalse, map, string_bytes};
ghost use Rattle.e_io.specs.Bytes.{Rose};
ghost use Rattle.e_commands.specs.Answers.{IsReadFault, IsWriteFault};
ghost use Rattle.e_run.specs.Runs.{HasProofs, IsDue, Runs, TakesOf};
ghost use Rattle.e_run.specs.Words.{command_of, reads};

use crate::command::{Command, command_of};
use e_commands::{Status, check, close, figure, make, rewrite, suggest, trial, verify};
use e_io::{Sink, Source};
use std::alloc::Global;

/// Does what the words say.
///
/// - `check` reads a book from the source, and writes to the sink the line `derivation 1`, the
///   block of each theorem with its derivation, as soon as its last line is read, and the last
///   lines.
/// - `verify` reads a derivation text from the source, and writes one line.
/// - `figure` reads a figure text from the source, and writes a line for each given and each shown
///   literal, and the line with the number of those shown.
/// - `make N` writes the generated book of N theorems.
/// - `trial N` checks that book, verifies its derivations, and writes one line. `N` is a numeral
///   from 1 to 500.
/// - `suggest TITLE STEP` reads a book up to the theorem with this title, and writes a line for
///   each choice of arguments at which an earlier theorem may be applied before that step. `STEP`
///   is a numeral from 1 to 1,024.
/// - `upgrade` reads a derivation text from the source, and writes to the sink the line
///   `derivation 2`, the block of each theorem in that version, as soon as it is verified, and the
///   last line.
/// - `trim` reads a derivation text of the first version likewise, and writes the line
///   `derivation 1`, the block of each theorem without the steps that nothing needs, and the last
///   line.
/// - `uses` reads a derivation text likewise, and writes for each theorem a line with the titles of
///   those that it applies, and the last line.
/// - With any other words it writes the usage line.
///
/// The answers are those of `Status`, and each has its cause:
///
/// - `Accepted`: each theorem of the book has a derivation that proves it, each certificate of
///   which is right at its own step; the bytes written spell them, and are verified.
/// - `Unlicensed`: all steps before the named one are licensed, and the named literal is not
///   allowed there, or the facts there do not contradict each other where a contradiction is
///   wanted. The values, which are in the last lines for a metric literal and for a contradiction
///   and for nothing else, make the facts true and the literal false.
/// - `TooWide`: all steps before the named one are licensed, and a minor of a linear system of what
///   is wanted there has size at least 2^63; the width is that of such a system.
/// - `Fault`: that is the first fault of the book, or of the figure text.
/// - `Drawn`: what was written is what the figure text has as its answer.
/// - `Verified`, `Bad`, `Garbled`: that is the judgement of the derivation text, found without any
///   search; a text that is verified spells proofs.
/// - `Made`: that book was written. `Tried`: it is accepted, with the N theorems that were asked
///   for and this many steps, and what `check` writes of it is verified.
/// - `Suggested`: the lines apply earlier theorems of at most six declared objects before the step,
///   each at a choice of arguments at which each given literal is allowed: the first 1,000 of all
///   these choices, and none is missing before the last.
/// - `NoStep`: the theorem has fewer steps, or the whole book is accepted and no theorem of it has
///   this title.
/// - `Upgraded`, `Trimmed`: the derivation text is verified. The bytes written are its theorems,
///   with the same derivations, which cite facts by their places, or without the steps that nothing
///   needs; they spell proofs, and are verified. `Listed`: it is verified, and the lines have the
///   titles of all that is applied. With `Bad` and `Garbled`, these commands write the theorems
///   before, or their lines; for `trim` a text of the second version is garbled at line 1.
/// - `TextLimit`: the source has more than 2^60 bytes.
/// - `ReadFault`, `WriteFault`: the count of faults of the source, or of the sink, rose in this
///   call or is at its last value.
pub fn run<S: Source, K: Sink>(
    alloc: Global,
    words: &[String],
    source: &mut S,
    sink: &mut K,
) -> Status
    // What was written of an accepted book, and of a text that is upgraded or trimmed, spells
    // proofs, and so does a text that is verified.
    ensures proofs { HasProofs (command_of (map string_bytes words.now)) (S.left source.old)
        (K.written sink.old) (K.written sink.new) result }
    // What the answer means, and what was written.
    ensures runs { Runs (command_of (map string_bytes words.now)) (S.left source.old)
        (K.written sink.old) (K.written sink.new) result }
    // A book with an outcome is answered so, a derivation text with a judgement, and each figure
    // text.
    ensures due { IsDue (command_of (map string_bytes words.now)) (S.left source.old) result }
    // What was taken of the source; the commands that read nothing leave it as it was.
    ensures taken { TakesOf (command_of (map string_bytes words.now)) (S.left source.old)
        (S.left source.new) (K.written sink.old) (K.written sink.new) result }
    ensures unread { IsFalse (reads (command_of (map string_bytes words.now)))
        → source.new ≡ source.old }
    // The causes of the other answers.
    ensures read_rises { S.faults source.old ≤ S.faults source.new }
    ensures read_cause { IsReadFault result → Rose (S.faults source.old) (S.faults source.new) }
    ensures write_rises { K.faults sink.old ≤ K.faults sink.new }
    ensures write_cause { IsWriteFault result → Rose (K.faults sink.old) (K.faults sink.new) }
{
    match command_of(words) {
        Command::Check => check(alloc, source, sink),
        Command::Verify => verify(alloc, source, sink),
        Command::Figure => figure(alloc, source, sink),
        Command::Rewrite(job) => rewrite(alloc, job, source, sink),
        Command::Make(theorems) => make(alloc, theorems, sink),
        Command::Trial(theorems) => trial(alloc, theorems, sink),
        Command::Suggest(title, step) => suggest(alloc, title, step, source, sink),
        Command::Unknown => close(
            sink,
            b"usage: elements check | verify | make N | trial N | upgrade | figure | trim | uses | suggest TITLE STEP\n",
            Status::Usage,
        ),
    }
}
