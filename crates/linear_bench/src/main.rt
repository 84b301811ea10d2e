//! Decides systems like those of proofs, made from a seed, and says how each comes out.
//! `bench/linear.sh` times it.
//!
//! The words are the number of rows, of terms, the seed, and `open` or `shut`: an open system has a
//! solution, and a shut one has two more rows that contradict each other.
#![tactic(auto)]

ghost use Rattle.std.specs.Prelude.{◌<◌};

use e_fraction::{Row, RowSense, Signed, are_distinct, have_small_coefficients};
use e_literal::Term;
use e_simplex::{Absurdity, Verdict, decide};
use std::alloc::{AllocError, Global};
use std::{env, io};

/// What is asked.
#[derive(Clone, Copy)]
struct Size {
    rows: u16,
    terms: u16,
    seed: u64,
    shut: bool,
}

/// The next number of a sequence that depends on the seed alone.
fn next(seed: u64) -> u64 {
    seed.wrapping_mul(6364136223846793005)
        .wrapping_add(1442695040888963407)
}

/// A number below the bound, by a number of the sequence.
fn below(number: u64, bound: u16) -> u16
    requires { 0 < bound }
{
    ((number >> 33) % u64::from(bound)) as u16
}

/// The hidden value of a term, by which rows are made true.
fn hidden_value(term: u16) -> u64 {
    1 + u64::from(term).wrapping_mul(37) % 23
}

/// The difference of two terms, as a row of this sense.
fn difference(
    alloc: Global,
    sense: RowSense,
    first: u16,
    second: u16,
) -> Result<Option<Row>, AllocError> {
    let summands = vec![in alloc; (1i64, Term::Seg(0, first)), (-1i64, Term::Seg(0, second))]?;
    if !are_distinct(&summands) {
        return Ok(None);
    }
    Ok(Some(Row {
        sense,
        form: Signed::new(summands),
    }))
}

/// A row that the hidden values satisfy.
fn true_row(alloc: Global, a: u16, b: u16, strict: bool) -> Result<Option<Row>, AllocError> {
    let (x, y) = (hidden_value(a), hidden_value(b));
    if x == y {
        difference(alloc, RowSense::Zero, a, b)
    } else if x > y {
        let sense = if strict {
            RowSense::More
        } else {
            RowSense::AtLeast
        };
        difference(alloc, sense, a, b)
    } else {
        difference(alloc, RowSense::Not, a, b)
    }
}

/// The rows of a system of this size. Over no terms there are none.
fn system(alloc: Global, size: Size) -> Result<Vec<Row>, AllocError> {
    let mut rows = Vec::new(alloc);
    let mut seed = size.seed;
    if size.terms == 0 {
        return Ok(rows);
    }
    for _ in 0..size.rows {
        seed = next(seed);
        let a = below(seed, size.terms);
        seed = next(seed);
        let b = below(seed, size.terms);
        if let Some(row) = true_row(alloc, a, b, seed & 1024 == 0)? {
            rows.push(row)?;
        }
    }
    if size.shut {
        if let Some(row) = difference(alloc, RowSense::More, 0, 1)? {
            rows.push(row)?;
        }
        if let Some(row) = difference(alloc, RowSense::Zero, 0, 1)? {
            rows.push(row)?;
        }
    }
    Ok(rows)
}

/// How the rows come out, in a word.
fn word(alloc: Global, rows: &[Row]) -> Result<&'static str, AllocError> {
    if rows.len() > 4096 || !have_small_coefficients(rows) {
        return Ok("not asked");
    }
    match decide(alloc, rows)? {
        Verdict::Holds(_) => Ok("holds"),
        Verdict::Absurd(Absurdity::One(_)) => Ok("absurd"),
        Verdict::Absurd(Absurdity::Two { .. }) => Ok("absurd, by two sums"),
        Verdict::TooWide => Ok("too wide"),
    }
}

fn size_of(words: &[String]) -> Option<Size> {
    let [_, rows, terms, seed, end] = words else {
        return None;
    };
    Some(Size {
        rows: rows.as_str().parse().ok()?,
        terms: terms.as_str().parse().ok()?,
        seed: seed.as_str().parse().ok()?,
        shut: end.as_str() == "shut",
    })
}

fn main(rt: HostRuntime) -> io::Result<()> {
    let alloc = rt.alloc();
    let words: Vec<String> = env::args(&rt)?.collect(alloc)?;
    let Some(size) = size_of(&words) else {
        return println!(rt; "usage: linear_bench ROWS TERMS SEED open | shut");
    };
    let rows = system(alloc, size)?;
    let count = rows.len();
    let answer = word(alloc, &rows)?;
    println!(rt; "{count} rows: {answer}")
}
