//! Exact quotients, sums that refute, widths and coefficients.

use crate::answer::Answer;
use crate::rows::two;
use e_fraction::{
    Row, RowSense, Signed, are_distinct, are_small_multipliers, check_sum, cross,
    have_small_coefficients, width,
};
use e_literal::Term;
use std::alloc::{AllocError, Global};

const X: Term = Term::Seg(0, 1);

const Y: Term = Term::Seg(2, 3);

/// Puts whether a sum refutes, a width, what is known of coefficients, or the quotients.
pub fn put(alloc: Global, out: &mut Answer, call: &str, on: &str) -> Result<(), AllocError> {
    match call {
        "sum" => put_sum(alloc, out, on),
        "width" => put_width(alloc, out, on),
        "coefficients" => put_coefficients(alloc, out),
        _ => {
            put_quotients(out);
            Ok(())
        }
    }
}

// (7 * 5 - 3 * 1) / 4, and 2 ^ 128.
fn put_quotients(out: &mut Answer) {
    out.show(&cross(7, 5, 3, 1, 4));
    out.show(&cross(0x4000_0000_0000_0000_0000_0000_0000_0000, 4, 0, 0, 1));
}

fn sense(word: &str) -> RowSense {
    match word {
        "zero" => RowSense::Zero,
        "at-least" => RowSense::AtLeast,
        "more" => RowSense::More,
        _ => RowSense::Not,
    }
}

// The row of these summands; the form is 0 where a term comes twice.
fn row(alloc: Global, sense: RowSense, summands: &[(i64, Term)]) -> Result<Row, AllocError> {
    let mut form = Signed::empty(alloc);
    if are_distinct(summands) {
        form = Signed::new(Vec::from_slice(alloc, summands)?);
    }
    Ok(Row { sense, form })
}

// The rows of this sense with the forms x - y and y - x.
fn opposite_rows(alloc: Global, sense: RowSense) -> Result<Vec<Row>, AllocError> {
    let mut rows = Vec::new(alloc);
    rows.push(row(alloc, sense, &[(1, X), (-1, Y)])?)?;
    rows.push(row(alloc, sense, &[(1, Y), (-1, X)])?)?;
    Ok(rows)
}

fn multiplier(word: &str) -> i128 {
    word.parse::<i128>().unwrap_or(0)
}

// Whether the rows are absurd with these multipliers.
fn put_sum(alloc: Global, out: &mut Answer, on: &str) -> Result<(), AllocError> {
    let (word, on) = two(on, " ");
    let (first, second) = two(on, " ");
    let rows = opposite_rows(alloc, sense(word))?;
    let multipliers = [multiplier(first), multiplier(second)];
    if rows.len() == 2 && have_small_coefficients(&rows) && are_small_multipliers(&multipliers) {
        out.show(&check_sum(&rows, &multipliers));
    }
    Ok(())
}

// The width of nine rows of this sense with one summand each: eight with the coefficient 128, and
// the last with this one.
fn put_width(alloc: Global, out: &mut Answer, on: &str) -> Result<(), AllocError> {
    let (word, last) = two(on, " ");
    let last = last.parse::<i64>().unwrap_or(0);
    let mut rows = Vec::new(alloc);
    for i in 1..10u16 {
        let coefficient = if i == 9 { last } else { 128 };
        rows.push(row(alloc, sense(word), &[(coefficient, Term::Seg(0, i))])?)?;
    }
    out.show(&width(&rows));
    Ok(())
}

fn put_coefficients(alloc: Global, out: &mut Answer) -> Result<(), AllocError> {
    let row = row(
        alloc,
        RowSense::Not,
        &[(5, Term::Right), (-7, Term::Seg(1, 2))],
    )?;
    out.show(&row.form.coefficient(Term::Seg(1, 2)));
    out.show(&row.form.coefficient(Term::Seg(2, 1)));
    out.show(&row.form.summands().len());
    out.show(&Signed::empty(alloc).summands().len());
    Ok(())
}
