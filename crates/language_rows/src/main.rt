//! Calls the crates of outside, text, language, figures, facts, rows and generating on the rows of
//! standard input, and prints what they answer: their tests as data.
//!
//! The rows are made from the blocks in `rows/`, by `tools/rows.py`, which says what these are.
//! A row is a line: the word for a crate, the word for a call, and what it is called on. It is
//! printed with its answer after `=>`. A line that begins with a star is printed as it is: it has
//! the name of the row below it.
#![tactic(auto)]

mod answer;
mod books;
mod constructions;
mod facts;
mod figures;
mod fractions;
mod literals;
mod rows;
mod rules;
mod streams;
mod texts;
mod theorems;

use crate::answer::Answer;
use crate::rows::two;
use std::alloc::{AllocError, Global};
use std::io;

fn put_answer(alloc: Global, out: &mut Answer, row: &str) -> Result<(), AllocError> {
    let (about, row) = two(row, " ");
    let (call, on) = two(row, " ");
    match about {
        "io" => streams::put(alloc, out, call, on),
        "text" => texts::put(alloc, out, call, on),
        "literal" => literals::put(alloc, out, call, on),
        "facts" => facts::put(alloc, out, call, on),
        "clause" => rules::put(alloc, out, call, on),
        "figure" => figures::put(alloc, out, call, on),
        "construct" => constructions::put(alloc, out, call, on),
        "theorem" => theorems::put(alloc, out, call, on),
        "fraction" => fractions::put(alloc, out, call, on),
        _ => books::put(alloc, out, call),
    }
}

/// The answer to a row.
fn answer_to(alloc: Global, row: &str) -> Result<String, AllocError> {
    let mut out = Answer::new(alloc);
    put_answer(alloc, &mut out, row)?;
    out.into_text()
}

fn main(rt: HostRuntime) -> io::Result<()> {
    let rows = io::read_to_string(rt.alloc(), rt.stdin())?;
    for row in rows.split_terminator('\n') {
        if row.starts_with('*') {
            println!(rt; "{row}")?;
        } else {
            println!(rt; "{row} =>{}", answer_to(rt.alloc(), row)?)?;
        }
    }
    Ok(())
}
