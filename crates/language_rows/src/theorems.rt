//! The first proposition of the Elements: on each line that joins two points there is an
//! equilateral triangle.

use crate::answer::Answer;
use crate::literals::literals;
use crate::rows::{object, objects};
use e_literal::{Items, Obj, Scope, Sort};
use e_theorem::{Notion, Statement, expand, is_pattern, use_of};
use std::alloc::{AllocError, Global};

const SCOPE: Scope = Scope {
    points: 9,
    lines: 2,
    circles: 0,
};

/// Puts the use of the proposition at arguments, or whether they are a pattern, or what a notion
/// says of them.
pub fn put(alloc: Global, out: &mut Answer, call: &str, letters: &str) -> Result<(), AllocError> {
    match call {
        "use" => put_use(alloc, out, letters),
        "expand" => put_expanded(alloc, out, letters),
        _ => put_pattern(alloc, out, letters),
    }
}

/// Points a b, given `a != b`, made a point c, shown `seg a b = seg b c` and `seg b c = seg c a`.
fn first_proposition(alloc: Global) -> Result<Statement, AllocError> {
    let declared = Vec::from_slice(alloc, &[Sort::Point, Sort::Point])?;
    let made = Vec::from_slice(alloc, &[Sort::Point])?;
    let given = literals(alloc, "not EqP ab")?;
    let shown = literals(alloc, "1 ab = 1 bc; 1 bc = 1 ca")?;
    Ok(Statement {
        declared: Items::new(declared),
        given: Items::new(given),
        made: Items::new(made),
        shown: Items::new(shown),
    })
}

fn put_use(alloc: Global, out: &mut Answer, letters: &str) -> Result<(), AllocError> {
    let args = objects(alloc, letters)?;
    let statement = first_proposition(alloc)?;
    put_used(alloc, out, &statement, &args);
    Ok(())
}

// Whether the objects of letters, and a blank for each that has none, are a pattern of arguments.
fn put_pattern(alloc: Global, out: &mut Answer, letters: &str) -> Result<(), AllocError> {
    let mut entries = Vec::new(alloc);
    for letter in letters.bytes() {
        entries.push(object(letter))?;
    }
    let statement = first_proposition(alloc)?;
    out.show(&is_pattern(&statement, &entries, SCOPE));
    Ok(())
}

// What the use of the statement at these arguments needs, and what it gives.
fn put_used(alloc: Global, out: &mut Answer, statement: &Statement, args: &[Obj]) {
    if statement.declared.len() > 2 || statement.made.len() > 1 {
        return out.word("another statement");
    }
    match use_of(alloc, statement, args, SCOPE) {
        Err(fault) => out.show(&fault),
        Ok(used) => {
            out.literals(used.needs.items());
            out.word("gives");
            out.literals(used.gives.items());
        }
    }
}

/// Of a point and a line: the point is on the line, and is not itself.
fn point_of_line(alloc: Global) -> Result<Notion, AllocError> {
    let declared = Vec::from_slice(alloc, &[Sort::Point, Sort::Line])?;
    let means = literals(alloc, "On aa; not EqP aa")?;
    Ok(Notion {
        declared: Items::new(declared),
        means: Items::new(means),
    })
}

fn put_expanded(alloc: Global, out: &mut Answer, letters: &str) -> Result<(), AllocError> {
    let args = objects(alloc, letters)?;
    let notion = point_of_line(alloc)?;
    put_meant(alloc, out, &notion, &args);
    Ok(())
}

// What the notion says of these arguments.
fn put_meant(alloc: Global, out: &mut Answer, notion: &Notion, args: &[Obj]) {
    if notion.declared.len() > 2 {
        return out.word("another notion");
    }
    match expand(alloc, notion, args, SCOPE) {
        Err(fault) => out.show(&fault),
        Ok(means) => out.literals(means.items()),
    }
}
