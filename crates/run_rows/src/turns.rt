//! Runs of one text in which each call of the outside fails in turn, in one line.

use crate::runs::{Answered, Asked, Calls, are_alike, run_and_keep, run_without_sink};
use std::alloc::{AllocError, Global};

/// More calls than any run of a row makes.
const MOST_CALLS: u64 = 10_000;

/// The exit status after a read fault.
const READ_FAULT: u8 = 4;

/// The exit status after a write fault.
const WRITE_FAULT: u8 = 5;

/// What a run shows in which a call of the source fails.
#[derive(Clone, Copy)]
struct Broken {
    /// Whether it wrote a front of what is written where no call fails, and the line with the
    /// fault.
    front: bool,
    /// Whether it is answered alike where the bytes are kept nowhere.
    alike: bool,
    /// How many blocks it wrote.
    blocks: u64,
}

/// Whether these are some of the first bytes, not all, of what is written where no call fails.
fn is_cut(written: &[u8], usual: &[u8]) -> bool {
    written.len() < usual.len() && usual.starts_with(written)
}

/// Whether a run in which this call of the sink fails wrote some of the first bytes; none where it
/// is not answered by a write fault.
fn cut_off(
    alloc: Global,
    asked: &Asked,
    reads: Calls,
    writes: Calls,
    usual: &Answered,
) -> Result<Option<bool>, AllocError> {
    let answered = run_and_keep(alloc, asked, reads, writes)?;
    if answered.exit != WRITE_FAULT {
        return Ok(None);
    }
    Ok(Some(is_cut(&answered.written, &usual.written)))
}

/// Each call of the sink fails in turn, until none is left to fail: how many fail and are answered
/// by a write fault, how many of these runs wrote some of the first bytes of what is written where
/// none fails, and how many these bytes are.
pub fn each_write(
    alloc: Global,
    asked: &Asked,
    reads: Calls,
    writes: Calls,
) -> Result<String, AllocError> {
    let usual = run_and_keep(alloc, asked, reads, writes)?;
    let mut calls = 0u64;
    let mut fronts = 0u64;
    for call in 0..MOST_CALLS {
        let Some(front) = cut_off(alloc, asked, reads, writes.with_failure_at(call), &usual)? else {
            break;
        };
        calls = calls.saturating_add(1);
        if front {
            fronts = fronts.saturating_add(1);
        }
    }
    let bytes = usual.written.len();
    let exit = usual.exit;
    format!(in alloc; "{calls} writes fail, {fronts} fronts of {bytes} bytes; else exit {exit}")
}

/// What was written before the line of a read fault, if that line is the last.
fn before_fault(written: &[u8]) -> Option<&str> {
    str::from_utf8(written)
        .unwrap_or("")
        .strip_suffix("read fault\n")
}

/// Whether what was written before a read fault is what is written first where no call fails, up to
/// the end of the head line or of a block.
fn is_front(front: &str, usual: &Answered) -> bool {
    let usual = str::from_utf8(&usual.written).unwrap_or("");
    let head = front == "derivation 1\n" || front == "derivation 2\n";
    let whole = front.is_empty() || head || front.ends_with("\nend\n");
    whole && usual.starts_with(front)
}

/// How many blocks of theorems end in this text.
fn blocks_in(text: &str) -> u64 {
    let mut blocks = 0u64;
    for line in text.lines() {
        if line == "end" {
            blocks = blocks.saturating_add(1);
        }
    }
    blocks
}

/// Numbers in order, each with how often it comes before another one does.
fn counts_in_turn(alloc: Global, numbers: &[u64]) -> Result<String, AllocError> {
    let mut text = String::new(alloc);
    let mut last = 0u64;
    let mut times = 0u64;
    for number in numbers {
        if *number == last {
            times = times.saturating_add(1);
        } else {
            text.push_str(format!(in alloc; " {last}*{times}")?.as_str())?;
            last = *number;
            times = 1;
        }
    }
    text.push_str(format!(in alloc; " {last}*{times}")?.as_str())?;
    Ok(text)
}

/// What a run shows in which this call of the source fails; nothing where it is not answered by a
/// read fault.
fn broken_off(
    alloc: Global,
    asked: &Asked,
    reads: Calls,
    writes: Calls,
    usual: &Answered,
) -> Result<Option<Broken>, AllocError> {
    let answered = run_and_keep(alloc, asked, reads, writes)?;
    if answered.exit != READ_FAULT {
        return Ok(None);
    }
    let silent = run_without_sink(alloc, asked, reads)?;
    let front = before_fault(&answered.written).unwrap_or("no fault is reported");
    Ok(Some(Broken {
        front: is_front(front, usual),
        alike: are_alike(&answered, &silent),
        blocks: blocks_in(front),
    }))
}

/// Each call of the source fails in turn, until none is left to fail: how many fail and are
/// answered by a read fault; how many of these runs wrote a front of what is written where none
/// fails; how many are answered alike where the bytes are kept nowhere; and how many blocks were
/// written, in order, each number with how often it came.
pub fn each_read(
    alloc: Global,
    asked: &Asked,
    reads: Calls,
    writes: Calls,
) -> Result<String, AllocError> {
    let usual = run_and_keep(alloc, asked, reads, writes)?;
    let mut blocks = Vec::new(alloc);
    let mut fronts = 0u64;
    let mut alike = 0u64;
    for call in 0..MOST_CALLS {
        let one = reads.with_failure_at(call);
        let Some(broken) = broken_off(alloc, asked, one, writes, &usual)? else {
            break;
        };
        if broken.front {
            fronts = fronts.saturating_add(1);
        }
        if broken.alike {
            alike = alike.saturating_add(1);
        }
        blocks.push(broken.blocks)?;
    }
    let calls = blocks.len();
    let groups = counts_in_turn(alloc, &blocks)?;
    let exit = usual.exit;
    format!(in alloc;
        "{calls} reads fail, {fronts} fronts, {alike} alike over no sink, blocks{groups}; else exit {exit}"
    )
}

/// The exit status and the number of the answer, where the bytes are kept and where they are kept
/// nowhere.
pub fn over_no_sink(
    alloc: Global,
    asked: &Asked,
    reads: Calls,
    writes: Calls,
) -> Result<String, AllocError> {
    let usual = run_and_keep(alloc, asked, reads, writes)?;
    let silent = run_without_sink(alloc, asked, reads)?;
    let exit = usual.exit;
    let number = usual.number;
    if are_alike(&usual, &silent) {
        format!(in alloc; "exit {exit} of {number}, alike over no sink")
    } else {
        let other = silent.exit;
        format!(in alloc; "exit {exit} of {number}, and exit {other} over no sink")
    }
}
