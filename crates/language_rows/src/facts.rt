//! Facts, and which literals are the same.

use crate::answer::Answer;
use crate::literals::{literal, literals};
use crate::rows::{number, two};
use e_facts::{Added, Facts};
use e_literal::{Lit, copy, normal, same};
use std::alloc::{AllocError, Global};

/// Puts which literals are the same, or what facts answer step by step.
pub fn put(alloc: Global, out: &mut Answer, call: &str, on: &str) -> Result<(), AllocError> {
    match call {
        "same" => put_same(alloc, out, &literals(alloc, on)?),
        _ => put_steps(alloc, out, &mut Facts::new(alloc), on),
    }
}

fn put_steps(
    alloc: Global,
    out: &mut Answer,
    facts: &mut Facts,
    steps: &str,
) -> Result<(), AllocError> {
    for step in steps.split("; ") {
        put_step(alloc, out, facts, step)?;
    }
    facts.no_two_are_same();
    out.show(&facts.checkpoint());
    Ok(())
}

// Adds a literal, looks one up, or takes all facts away from a place on.
fn put_step(
    alloc: Global,
    out: &mut Answer,
    facts: &mut Facts,
    step: &str,
) -> Result<(), AllocError> {
    let (step, on) = two(step, " ");
    match step {
        "add" => put_added(alloc, out, facts, on),
        "has" => put_looked_up(alloc, out, facts, on),
        _ => {
            facts.back_to(number(on).min(facts.len()));
            out.show(&facts.is_empty());
            Ok(())
        }
    }
}

fn put_added(
    alloc: Global,
    out: &mut Answer,
    facts: &mut Facts,
    on: &str,
) -> Result<(), AllocError> {
    out.show(&facts.add(literal(alloc, on)?)?);
    Ok(())
}

fn put_looked_up(
    alloc: Global,
    out: &mut Answer,
    facts: &Facts,
    on: &str,
) -> Result<(), AllocError> {
    for lit in literals(alloc, on)?.iter() {
        out.show(&facts.has(lit));
    }
    Ok(())
}

fn add_both(
    alloc: Global,
    facts: &mut Facts,
    first: &Lit,
    second: &Lit,
) -> Result<Added, AllocError> {
    facts.add(copy(alloc, first)?)?;
    facts.add(copy(alloc, second)?)
}

// Whether the normal forms are equal, by `==` and by `is_equal`.
fn are_equal_forms(alloc: Global, a: &Lit, b: &Lit) -> Result<[bool; 2], AllocError> {
    let left = normal(alloc, a)?;
    let right = normal(alloc, b)?;
    Ok([left == right, left.is_equal(&right)])
}

// Whether two literals are the same: `=` where they are by `same`, in both directions, by their
// normal forms and by what `add` answers, `-` where by none of these, and else `?`.
fn opinion(alloc: Global, a: &Lit, b: &Lit) -> Result<&'static str, AllocError> {
    let [equal, is_equal] = are_equal_forms(alloc, a, b)?;
    let added = add_both(alloc, &mut Facts::new(alloc), a, b)?;
    Ok(mark(
        same(a, b),
        [same(b, a), equal, is_equal, added == Added::Present],
    ))
}

fn mark(opinion: bool, others: [bool; 4]) -> &'static str {
    match (opinion, others) {
        (true, [true, true, true, true]) => "=",
        (false, [false, false, false, false]) => "-",
        _ => "?",
    }
}

fn put_opinions(
    alloc: Global,
    out: &mut Answer,
    lit: &Lit,
    lits: &[Lit],
) -> Result<(), AllocError> {
    for other in lits {
        out.mark(opinion(alloc, lit, other)?);
    }
    Ok(())
}

// For each literal the opinions on it and each.
fn put_same(alloc: Global, out: &mut Answer, lits: &[Lit]) -> Result<(), AllocError> {
    for lit in lits {
        out.word("");
        put_opinions(alloc, out, lit, lits)?;
    }
    Ok(())
}
