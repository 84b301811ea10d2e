//! Runs the program over memory on the rows of standard input, and prints what it answers to each:
//! its tests as data.
//!
//! The rows are made from the blocks in `rows/`, by `tools/rows.py`, which says what these are.
//! A row is a line: the words of a command, the call of the source that fails, the call of the sink
//! that fails (nothing where none does), and a text, with ` => ` between two. In a text a slash
//! ends a line, a tilde is a byte that no text may hold, and `{N*TEXT}` is the text N times, with
//! its number from 0 in the place of `$`. A line that begins with a star is printed as it is: it has
//! the name of the row below it. In an answer a slash ends a line, and the exit status comes last;
//! of a long one only the end is printed.
//!
//! A row may go on with further texts, with ` => ` before each: the text is run with each of them in
//! turn in the place of its `@`, and ` => ` stands between the answers. Of those that end in success
//! only the last line is printed.
//!
//! `5 by 4` in the place of a call is call 5, from 0, where each other one moves four bytes; `each
//! by 4` is each call in turn, run after run, and the answer is about all these runs. `nowhere` in
//! the place of the call of the sink is a sink that keeps nothing.
#![tactic(auto)]

mod runs;
mod turns;

use crate::runs::{Asked, Calls, run_and_keep};
use crate::turns::{each_read, each_write, over_no_sink};
use std::alloc::{AllocError, Global};
use std::io;

/// How many bytes are read at a time, where a row says nothing else.
const READ: usize = 1 << 12;

/// How many bytes are written at a time, where a row says nothing else.
const WRITTEN: usize = 16;

/// The most bytes of an answer that is printed in full.
const PRINTED: usize = 6_000;

/// Which part of a row is the text, from 0.
const TEXT: usize = 3;

/// The part of a row between its marks.
fn part<'a>(row: &'a str, number: usize) -> &'a str {
    row.split(" => ").nth(number).unwrap_or("")
}

/// The calls of a part of a row.
fn calls_of(part: &str, piece: usize) -> Calls {
    let (fail, by) = part.split_once(" by ").unwrap_or((part, ""));
    Calls {
        fail: fail.parse::<u64>().ok(),
        piece: by.parse::<usize>().unwrap_or(piece),
    }
}

/// The words of a command, with one space between two; none of an empty one.
fn words_of(alloc: Global, command: &str) -> Result<Vec<String>, AllocError> {
    let mut words = Vec::new(alloc);
    for word in command.split_terminator(' ') {
        words.push(String::from_str(alloc, word)?)?;
    }
    Ok(words)
}

/// Puts a text last, with this number where it asks for one.
fn put(alloc: Global, out: &mut Vec<u8>, text: &str, number: usize) -> Result<(), AllocError> {
    for byte in text.bytes() {
        match byte {
            b'/' => out.push(b'\n')?,
            b'~' => out.push(0x80)?,
            b'$' => out.extend_from_slice(format!(in alloc; "{number}")?.as_bytes())?,
            other => out.push(other)?,
        }
    }
    Ok(())
}

/// Puts a text of the form `N*TEXT` last: the text N times.
fn put_repeated(alloc: Global, out: &mut Vec<u8>, repeated: &str) -> Result<(), AllocError> {
    if let Some((count, text)) = repeated.split_once('*') {
        for number in 0..count.parse::<usize>().unwrap_or(0) {
            put(alloc, out, text, number)?;
        }
    }
    Ok(())
}

/// The bytes of the text of a row.
fn bytes_of_text(alloc: Global, text: &str) -> Result<Vec<u8>, AllocError> {
    let mut out = Vec::new(alloc);
    for part in text.split('{') {
        match part.split_once('}') {
            None => put(alloc, &mut out, part, 0)?,
            Some((repeated, rest)) => {
                put_repeated(alloc, &mut out, repeated)?;
                put(alloc, &mut out, rest, 0)?;
            }
        }
    }
    Ok(out)
}

/// The written bytes and the exit status, in one line; of more bytes than these the last line alone.
fn line_of_answer(
    alloc: Global,
    written: &[u8],
    exit: u8,
    most: usize,
) -> Result<String, AllocError> {
    let lines = str::from_utf8(written).unwrap_or("");
    let mut text = String::new(alloc);
    if lines.len() > most {
        text.push_str(".. ")?;
        text.push_str(lines.lines().last().unwrap_or(""))?;
        text.push_str("/")?;
    } else {
        for line in lines.lines() {
            text.push_str(line)?;
            text.push_str("/")?;
        }
    }
    text.push_str(format!(in alloc; "exit {exit}")?.as_str())?;
    Ok(text)
}

/// What the program answers to the text of a row with this one in the place of its `@`: of what ends
/// in success the last line.
fn answer_with(alloc: Global, row: &str, filling: &str) -> Result<String, AllocError> {
    let (front, back) = part(row, TEXT).split_once('@').unwrap_or(("", ""));
    let text = format!(in alloc; "{front}{filling}{back}")?;
    let words = words_of(alloc, part(row, 0))?;
    let text = bytes_of_text(alloc, text.as_str())?;
    let asked = Asked { words, text };
    let (reads, writes) = (
        calls_of(part(row, 1), READ),
        calls_of(part(row, 2), WRITTEN),
    );
    let answered = run_and_keep(alloc, &asked, reads, writes)?;
    let most = if answered.exit == 0 { 0 } else { PRINTED };
    line_of_answer(alloc, &answered.written, answered.exit, most)
}

/// What the program answers to the text of a row with each of the further texts in turn.
fn answers_in_turn(alloc: Global, row: &str) -> Result<String, AllocError> {
    let mut fillings = row.split(" => ");
    fillings.nth(TEXT);
    let mut answers = String::new(alloc);
    for (place, filling) in fillings.enumerate() {
        if place > 0 {
            answers.push_str(" => ")?;
        }
        answers.push_str(answer_with(alloc, row, filling)?.as_str())?;
    }
    Ok(answers)
}

/// What the program answers to a row with one text.
fn answer(alloc: Global, row: &str) -> Result<String, AllocError> {
    let words = words_of(alloc, part(row, 0))?;
    let text = bytes_of_text(alloc, part(row, TEXT))?;
    let asked = Asked { words, text };
    let (read, write) = (part(row, 1), part(row, 2));
    let (reads, writes) = (calls_of(read, READ), calls_of(write, WRITTEN));
    if read.starts_with("each") {
        each_read(alloc, &asked, reads, writes)
    } else if write.starts_with("each") {
        each_write(alloc, &asked, reads, writes)
    } else if write == "nowhere" {
        over_no_sink(alloc, &asked, reads, writes)
    } else {
        let answered = run_and_keep(alloc, &asked, reads, writes)?;
        line_of_answer(alloc, &answered.written, answered.exit, PRINTED)
    }
}

fn main(rt: HostRuntime) -> io::Result<()> {
    let rows = io::read_to_string(rt.alloc(), rt.stdin())?;
    for row in rows.split_terminator('\n') {
        if row.starts_with('*') {
            println!(rt; "{row}")?;
        } else if part(row, TEXT).contains('@') {
            println!(rt; "{}", answers_in_turn(rt.alloc(), row)?)?;
        } else {
            println!(rt; "{}", answer(rt.alloc(), row)?)?;
        }
    }
    Ok(())
}
