//! Runs of the program over memory.

use e_io::{MemSink, MemSource, NullSink};
use e_run::{Status, exit_code, run};
use std::alloc::{AllocError, Global};

/// The room of a sink, in bytes.
const ROOM: usize = 1 << 20;

/// What is run: the words of a command, on a text.
#[derive(Drop)]
pub struct Asked {
    pub words: Vec<String>,
    pub text: Vec<u8>,
}

/// The calls of a source or of a sink: which one fails, if one does, and how many bytes each other
/// one moves.
#[derive(Clone, Copy)]
pub struct Calls {
    pub fail: Option<u64>,
    pub piece: usize,
}

/// The exit status and the number of an answer, and what was written.
#[derive(Drop)]
pub struct Answered {
    pub exit: u8,
    pub number: u64,
    pub written: Vec<u8>,
}

impl Calls {
    /// These calls, of which this one fails.
    pub fn with_failure_at(self, call: u64) -> Calls {
        Calls {
            fail: Some(call),
            piece: self.piece,
        }
    }
}

fn list_of_call(alloc: Global, call: Option<u64>) -> Result<Vec<u64>, AllocError> {
    let mut calls = Vec::new(alloc);
    if let Some(call) = call {
        calls.push(call)?;
    }
    Ok(calls)
}

fn source_of(alloc: Global, text: &[u8], calls: Calls) -> Result<MemSource, AllocError> {
    let fail = list_of_call(alloc, calls.fail)?;
    let text = Vec::from_slice(alloc, text)?;
    Ok(MemSource::new(text, fail, calls.piece.max(1)))
}

/// The number that an answer has: of theorems, of steps, of shown literals, of suggested lines, of
/// a step or of a line; 0 where it has none.
fn number_of(status: &Status) -> u64 {
    match status {
        Status::Accepted { theorems: number }
        | Status::Verified { theorems: number }
        | Status::Made { theorems: number }
        | Status::Upgraded { theorems: number }
        | Status::Trimmed { theorems: number }
        | Status::Listed { theorems: number }
        | Status::Tried { steps: number, .. }
        | Status::Suggested { lines: number, .. }
        | Status::Unlicensed { step: number, .. }
        | Status::Bad { step: number, .. }
        | Status::TooWide { step: number, .. } => u64::from(*number),
        Status::Garbled { line } => *line,
        Status::Drawn { shown } => *shown,
        _ => 0,
    }
}

/// A run whose bytes are kept.
pub fn run_and_keep(
    alloc: Global,
    asked: &Asked,
    reads: Calls,
    writes: Calls,
) -> Result<Answered, AllocError> {
    let mut source = source_of(alloc, &asked.text, reads)?;
    let fail = list_of_call(alloc, writes.fail)?;
    let mut sink = MemSink::new(alloc, ROOM, fail, writes.piece.max(1))?;
    let status = run(alloc, &asked.words, &mut source, &mut sink);
    Ok(Answered {
        exit: exit_code(&status),
        number: number_of(&status),
        written: Vec::from_slice(alloc, sink.bytes())?,
    })
}

/// A run whose bytes are kept nowhere.
pub fn run_without_sink(
    alloc: Global,
    asked: &Asked,
    reads: Calls,
) -> Result<Answered, AllocError> {
    let mut source = source_of(alloc, &asked.text, reads)?;
    let mut sink = NullSink::new();
    let status = run(alloc, &asked.words, &mut source, &mut sink);
    Ok(Answered {
        exit: exit_code(&status),
        number: number_of(&status),
        written: Vec::new(alloc),
    })
}

/// Whether two runs were answered alike.
pub fn are_alike(one: &Answered, other: &Answered) -> bool {
    one.exit == other.exit && one.number == other.number
}
