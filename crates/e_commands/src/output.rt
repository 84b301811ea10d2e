//! Answers with their last lines, and why there is none.
ghost use Rattle.std.specs.Prelude.{◌≡◌, ◌≤◌, ◌⊎◌, ◌++◌, IfOk, IsErrOf, decimal, false};
ghost use Rattle.e_io.specs.Bytes.{Rose};
ghost use Rattle.e_commands.specs.Answers.{IsReadFault, IsWriteFault};
ghost use Rattle.e_commands.specs.DrawerAnswers.{lacks_memory};
ghost use Rattle.e_commands.specs.Wrote.{ClosesWith};
ghost use Rattle.e_commands.specs.inner.Finished.{Finishes, HasNoWriteFault, HasReadFault};
ghost use Rattle.e_commands.specs.inner.Finished.{IsOrNoMemory};
ghost use Rattle.e_commands.specs.declared.status.Status.TheVariants.{Fault};
ghost use Rattle.e_commands.specs.LastLines.{tried_line, verified_line, bad_line, garbled_line};
ghost use Rattle.e_commands.specs.LastLines.{listed_line, suggested_line, fault_line, fault_words};
ghost use Rattle.e_commands.specs.LastLines.{faulty_line, what_word};
ghost use Rattle.e_roundtrip.specs.Written.{accepted_blocks_line};

use crate::status::Status;
use e_io::{Sink, write_all};
use e_line::{BookFault, What};
use e_text::Title;
use itoa::Buffer;
use std::alloc::{AllocError, Global};
use std::mem;

/// An answer with the bytes that are written last: with `suggest` all its lines.
#[derive(Drop)]
pub struct Answer {
    pub status: Status,
    pub line: Vec<u8>,
}

/// Why a run has no answer on its text.
#[derive(Clone, Copy)]
pub enum Failure {
    NoMemory,
    ReadFault,
    WriteFault,
}

impl From<AllocError> for Failure {
    ghost use Rattle.std.specs.Prelude.{◌≡◌};
    ghost use Rattle.e_commands.specs.declared.output.Failure.TheVariants.{NoMemory};

    ghost from_gives = { λ _ e. e ≡ NoMemory };

    fn from(_e: AllocError) -> Failure {
        Failure::NoMemory
    }
}

/// Writes the last lines of an answer, and gives the answer, or a write fault where the sink fails.
pub fn close<K: Sink>(sink: &mut K, last: &[u8], answer: Status) -> Status
    requires { IsWriteFault answer → ⊥ }
    ensures closes { ClosesWith (K.written sink.old) (K.written sink.new) last.now answer result }
    ensures rises { K.faults sink.old ≤ K.faults sink.new }
    ensures cause { IsWriteFault result → Rose (K.faults sink.old) (K.faults sink.new) }
    ensures no_read { IsReadFault result → IsReadFault answer }
{
    match write_all(sink, last) {
        Ok(()) => answer,
        Err(_) => {
            mem::drop(answer);
            Status::WriteFault
        }
    }
}

/// Writes the last lines of an answer, or the line of a failure, and gives the status. Where the
/// sink has failed nothing more is written.
pub fn finish<K: Sink>(sink: &mut K, answer: Result<Answer, Failure>) -> Status
    requires { HasNoWriteFault answer }
    ensures finishes { Finishes (K.written sink.old) (K.written sink.new) answer result }
    ensures rises { K.faults sink.old ≤ K.faults sink.new }
    ensures read { IsReadFault result → HasReadFault answer }
    ensures still { IsErrOf answer Failure.WriteFault → K.faults sink.new ≡ K.faults sink.old }
    ensures cause { IsWriteFault result
        → IsErrOf answer Failure.WriteFault ⊎ Rose (K.faults sink.old) (K.faults sink.new) }
{
    match answer {
        Ok(Answer { status, line }) => close(sink, &line, status),
        Err(Failure::NoMemory) => close(sink, b"no memory\n", Status::NoMemory),
        Err(Failure::ReadFault) => close(sink, b"read fault\n", Status::ReadFault),
        Err(Failure::WriteFault) => Status::WriteFault,
    }
}

/// The answer, or that memory ran out.
pub fn or_no_memory(answer: Result<Answer, AllocError>) -> Result<Answer, Failure>
    ensures { IsOrNoMemory answer result }
{
    match answer {
        Ok(answer) => Ok(answer),
        Err(_) => Err(Failure::NoMemory),
    }
}

/// An answer with this line.
pub fn answer_with(alloc: Global, status: Status, line: &[u8]) -> Result<Answer, AllocError>
    ensures { IfOk result (λ a. (a.status ≡ status) × (a.line.items ≡ line.now)) }
{
    match Vec::from_slice(alloc, line) {
        Ok(line) => Ok(Answer { status, line }),
        Err(error) => {
            mem::drop(status);
            Err(error)
        }
    }
}

/// Whether the fault is out of memory, which says nothing of the text.
fn lacks_memory(fault: BookFault) -> bool
    ensures { result ≡ lacks_memory fault }
{
    matches!(fault, BookFault::NoMemory)
}

/// The answer to a text with this fault; to out of memory there is none.
pub fn answer_of_fault(alloc: Global, at: BookFault) -> Result<Answer, AllocError>
    ensures { IfOk result
        (λ a. (lacks_memory at ≡ false) × (a.status ≡ Fault at) × (a.line.items ≡ fault_line at)) }
{
    if lacks_memory(at) {
        return Err(AllocError);
    }
    let line = fault_line(alloc, &at)?;
    Ok(Answer {
        status: Status::Fault(at),
        line,
    })
}

/// A word, a number and what follows them.
fn line_with(alloc: Global, word: &[u8], number: u64, after: &[u8]) -> Result<Vec<u8>, AllocError>
    ensures { IfOk result (λ v. v.items ≡ word.now ++ (decimal number ++ after.now)) }
{
    let mut buffer = Buffer::new();
    let mut line = Vec::from_slice(alloc, word)?;
    line.extend_from_slice(buffer.format(number).as_bytes())?;
    line.extend_from_slice(after)?;
    Ok(line)
}

/// The line of an accepted book.
pub fn accepted_line(alloc: Global, theorems: u32) -> Result<Vec<u8>, AllocError>
    ensures { IfOk result (λ v. v.items ≡ accepted_blocks_line theorems) }
{
    line_with(alloc, b"accepted ", u64::from(theorems), b"\n")
}

/// The line of a generated book that is accepted and verified.
pub fn tried_line(alloc: Global, theorems: u32, steps: u32) -> Result<Vec<u8>, AllocError>
    ensures { IfOk result (λ v. v.items ≡ tried_line theorems steps) }
{
    let mut number = Buffer::new();
    let mut count = Buffer::new();
    let (number, count) = (
        number.format(theorems).as_bytes(),
        count.format(steps).as_bytes(),
    );
    let mut line = Vec::from_slice(alloc, b"trial ")?;
    line.extend_from_slice(number)?;
    line.extend_from_slice(b" theorems ")?;
    line.extend_from_slice(number)?;
    line.extend_from_slice(b" steps ")?;
    line.extend_from_slice(count)?;
    line.extend_from_slice(b" verified ")?;
    line.extend_from_slice(number)?;
    line.extend_from_slice(b"\n")?;
    Ok(line)
}

/// The line of a verified derivation text.
pub fn verified_line(alloc: Global, theorems: u32) -> Result<Vec<u8>, AllocError>
    ensures { IfOk result (λ v. v.items ≡ verified_line theorems) }
{
    line_with(alloc, b"verified ", u64::from(theorems), b"\n")
}

/// The line after those that `uses` writes, one for each theorem of a derivation text.
pub fn listed_line(alloc: Global, theorems: u32) -> Result<Vec<u8>, AllocError>
    ensures { IfOk result (λ v. v.items ≡ listed_line theorems) }
{
    line_with(alloc, b"listed ", u64::from(theorems), b"\n")
}

/// The line that says which step is not certified.
pub fn bad_line(alloc: Global, title: Title, step: u32) -> Result<Vec<u8>, AllocError>
    ensures { IfOk result (λ v. v.items ≡ bad_line title step) }
{
    let number = line_with(alloc, b" ", u64::from(step), b"\n")?;
    let mut line = Vec::from_slice(alloc, b"bad ")?;
    line.extend_from_slice(title.bytes())?;
    line.extend_from_slice(&number)?;
    Ok(line)
}

/// The line that says which line is malformed at its place.
pub fn garbled_line(alloc: Global, number: u64) -> Result<Vec<u8>, AllocError>
    ensures { IfOk result (λ v. v.items ≡ garbled_line number) }
{
    line_with(alloc, b"garbled ", number, b"\n")
}

/// The last line of what is suggested.
pub fn suggested_line(alloc: Global, lines: u32, more: bool) -> Result<Vec<u8>, AllocError>
    ensures { IfOk result (λ v. v.items ≡ suggested_line lines more) }
{
    if more {
        line_with(alloc, b"suggest ", u64::from(lines), b" more\n")
    } else {
        line_with(alloc, b"suggest ", u64::from(lines), b"\n")
    }
}

/// The word of a limit.
fn word_of(what: What) -> &'static [u8]
    ensures { result.now ≡ what_word what }
{
    match what {
        What::Bytes => b"bytes",
        What::LineBytes => b"line-bytes",
        What::Theorems => b"theorems",
        What::Points => b"points",
        What::Lines => b"lines",
        What::Circles => b"circles",
        What::Steps => b"steps",
        What::Depth => b"depth",
        What::Facts => b"facts",
        What::Monomials => b"monomials",
        What::Coefficient => b"coefficient",
        What::Terms => b"terms",
        What::Blanks => b"blanks",
        What::Notions => b"notions",
        What::Expanded => b"expanded",
        What::Number => b"number",
    }
}

/// The number of the faulty line. Out of memory has none, and its line of a fault is never written:
/// the answer is then `no memory`.
fn faulty_line_of(fault: &BookFault) -> u32
    ensures { result ≡ faulty_line fault.now }
{
    match fault {
        BookFault::Malformed { line }
        | BookFault::UnknownName { line }
        | BookFault::NameTaken { line }
        | BookFault::WrongSort { line }
        | BookFault::Limit { line, .. }
        | BookFault::Unended { line } => *line,
        BookFault::NoMemory => 0,
    }
}

/// What is wrong with the line, after its number.
fn words_of(alloc: Global, fault: &BookFault) -> Result<Vec<u8>, AllocError>
    ensures { IfOk result (λ v. v.items ≡ fault_words fault.now) }
{
    match fault {
        BookFault::Malformed { .. } => Vec::from_slice(alloc, b" malformed\n"),
        BookFault::UnknownName { .. } => Vec::from_slice(alloc, b" unknown-name\n"),
        BookFault::NameTaken { .. } => Vec::from_slice(alloc, b" name-taken\n"),
        BookFault::WrongSort { .. } => Vec::from_slice(alloc, b" wrong-sort\n"),
        BookFault::Limit { what, .. } => {
            let mut words = Vec::from_slice(alloc, b" limit ")?;
            words.extend_from_slice(word_of(*what))?;
            words.extend_from_slice(b"\n")?;
            Ok(words)
        }
        BookFault::Unended { .. } => Vec::from_slice(alloc, b" unended\n"),
        BookFault::NoMemory => Vec::from_slice(alloc, b"\n"),
    }
}

/// The line of a fault.
pub fn fault_line(alloc: Global, fault: &BookFault) -> Result<Vec<u8>, AllocError>
    ensures { IfOk result (λ v. v.items ≡ fault_line fault.now) }
{
    let words = words_of(alloc, fault)?;
    line_with(alloc, b"fault ", u64::from(faulty_line_of(fault)), &words)
}
