//! Rows of linear systems, written as short words.

use e_fraction::{Row, RowSense, Signed, are_distinct};
use e_literal::Term;
use std::alloc::{AllocError, Global};
use std::process::Abort;

// The coefficient of a letter in a sum such as `a-3b`.
fn coefficient(form: &str, letter: u8) -> i64 {
    let mut sum: i64 = 0;
    let mut number: i64 = 0;
    let mut sign: i64 = 1;
    for byte in form.bytes() {
        match byte {
            b'+' => sign = 1,
            b'-' => sign = -1,
            b'0'..=b'9' => number = number.wrapping_mul(10).wrapping_add(i64::from(byte - b'0')),
            _ => {
                if byte == letter {
                    sum = sum.wrapping_add(sign.wrapping_mul(number.max(1)));
                }
                number = 0;
            }
        }
    }
    sum
}

fn sense(text: &str) -> RowSense {
    match text.bytes().next() {
        Some(b'=') => RowSense::Zero,
        Some(b'+') => RowSense::AtLeast,
        Some(b'>') => RowSense::More,
        _ => RowSense::Not,
    }
}

fn row(rt: &impl Abort, alloc: Global, text: &str) -> Result<Row, AllocError> {
    let mut summands = Vec::new(alloc);
    for letter in b'a'..=b'z' {
        let coefficient = coefficient(text, letter);
        if coefficient != 0 {
            summands.push((coefficient, Term::Seg(0, u16::from(letter))))?;
        }
    }
    assert!(rt; are_distinct(&summands));
    Ok(Row {
        sense: sense(text),
        form: Signed::new(summands),
    })
}

/// Rows with a space between two: each is `=`, `+`, `>` or `!`, for 0, at least 0, more than 0 or
/// not 0, and a sum of letters, each of which is a term.
pub fn rows(rt: &impl Abort, alloc: Global, text: &str) -> Result<Vec<Row>, AllocError> {
    let mut rows = Vec::new(alloc);
    for word in text.split(' ') {
        if !word.is_empty() {
            rows.push(row(rt, alloc, word)?)?;
        }
    }
    Ok(rows)
}
