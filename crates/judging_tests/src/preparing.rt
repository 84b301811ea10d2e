//! Rows that are prepared, and what is answered on further rows.

use crate::rows::rows;
use e_fraction::{Row, have_small_coefficients};
use e_simplex::{Prepared, SolvedRows, Verdict, prepare};
use std::alloc::{AllocError, Global};
use std::process::Abort;
use std::test::Fail;

// Solved rows, further rows, and what is answered of all.
fn questions() -> &'static str {
    "\
>a-b >b-c/>a-c/holds
>a-b >b-c/>c-a/absurd
=a-2b !a/=a-b/absurd
=a-2b !a/>b-c !c/holds
=a-b/!a-b/absurd
>a >b/=a-x !x-y =y-b/holds
>a >b/>x-a >b-x >a-b/absurd
>a/>c-d >e-f >g-h >i-j >k-l >m-n >o-p >q-r >s-t/holds
>a/>c-d >e-f >g-h >i-j >k-l >m-n >o-p >q-r >r-q/absurd
>a-b >b-a//absurd when prepared
=a-b !a-b//absurd when prepared"
}

fn verdict(
    rt: &impl Abort,
    alloc: Global,
    prepared: &SolvedRows,
    more: &[Row],
) -> Result<&'static str, AllocError> {
    assert!(rt; prepared.rows().len() + more.len() <= 4096);
    assert!(rt; have_small_coefficients(prepared.rows()) && have_small_coefficients(more));
    Ok(match prepared.decide_with(alloc, more)? {
        Verdict::Holds(_) => "holds",
        Verdict::Absurd(_) => "absurd",
        Verdict::TooWide => "too wide",
    })
}

fn answer(
    rt: &impl Abort,
    alloc: Global,
    first: &str,
    more: &str,
) -> Result<&'static str, AllocError> {
    let more = rows(rt, alloc, more)?;
    let first = rows(rt, alloc, first)?;
    assert!(rt; first.len() <= 4096 && have_small_coefficients(&first));
    match prepare(alloc, first)? {
        Prepared::SolvedRows(prepared) => verdict(rt, alloc, &prepared, &more),
        Prepared::Absurd(_, _) => Ok("absurd when prepared"),
        Prepared::TooWide => Ok("too wide when prepared"),
    }
}

#[test]
fn further_rows(rt: HostRuntime) -> Result<(), Fail> {
    for line in questions().split('\n') {
        let mut parts = line.split('/');
        let first = parts.next().unwrap_or("");
        let more = parts.next().unwrap_or("");
        let wanted = parts.next().unwrap_or("");
        assert_eq!(rt; answer(&rt, rt.alloc(), first, more)?, wanted, "at {line}");
    }
    Ok(())
}

// Solved rows, further rows that are prepared after them, a question, and what is answered of all.
fn grown_questions() -> &'static str {
    "\
>a-b/>b-c/>a-c/holds
>a-b/>b-c/>c-a/absurd
=a-b/!a-c/=c-b/absurd
=a-b/!a-c/=c-d !d-b/holds
>a/>c-d >e-f >g-h >i-j >k-l >m-n >o-p >q-r/>r-q/absurd
>a/>c-d >e-f >g-h >i-j >k-l >m-n >o-p >q-r/>q-r >s-t/holds
>a-b/>b-a//absurd when prepared
=a-b/!a-b//absurd when prepared"
}

fn grown_answer(
    rt: &impl Abort,
    alloc: Global,
    prepared: SolvedRows,
    more: Vec<Row>,
    question: &[Row],
) -> Result<&'static str, AllocError> {
    assert!(rt; prepared.rows().len() + more.len() <= 4096);
    assert!(rt; have_small_coefficients(prepared.rows()) && have_small_coefficients(&more));
    match prepared.with(alloc, more)? {
        Prepared::SolvedRows(grown) => verdict(rt, alloc, &grown, question),
        Prepared::Absurd(_, _) => Ok("absurd when prepared"),
        Prepared::TooWide => Ok("too wide when prepared"),
    }
}

// The three lists of rows of a line, prepared one after the other and asked.
fn answer_in_turn(
    rt: &impl Abort,
    alloc: Global,
    first: &str,
    more: &str,
    question: &str,
) -> Result<&'static str, AllocError> {
    let question = rows(rt, alloc, question)?;
    let more = rows(rt, alloc, more)?;
    let first = rows(rt, alloc, first)?;
    assert!(rt; first.len() <= 4096 && have_small_coefficients(&first));
    match prepare(alloc, first)? {
        Prepared::SolvedRows(prepared) => grown_answer(rt, alloc, prepared, more, &question),
        Prepared::Absurd(_, _) | Prepared::TooWide => Ok("no solution of the first rows"),
    }
}

#[test]
fn rows_prepared_after(rt: HostRuntime) -> Result<(), Fail> {
    for line in grown_questions().split('\n') {
        let mut parts = line.split('/');
        let first = parts.next().unwrap_or("");
        let more = parts.next().unwrap_or("");
        let question = parts.next().unwrap_or("");
        let wanted = parts.next().unwrap_or("");
        assert_eq!(rt;
            answer_in_turn(&rt, rt.alloc(), first, more, question)?,
            wanted,
            "at {line}"
        );
    }
    Ok(())
}
