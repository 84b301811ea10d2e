//! Figures in whole numbers: what is true in them, a true literal of an instance, and what they
//! refute.
//!
//! The objects come first: points, lines and circles, each by its numbers, with a comma between two
//! objects and a stroke after each sort.

use crate::answer::Answer;
use crate::literals::literals;
use crate::rows::{objects, text_in_quotes, two};
use e_clause::Rule;
use e_figure::{
    Figure, Point, Round, Straight, cited_is_true, every_instance_is_true, holds, law, refutes,
};
use std::alloc::{AllocError, Global};

/// Puts what is answered on the figure of a row, or `none` where it is no figure.
pub fn put(alloc: Global, out: &mut Answer, call: &str, on: &str) -> Result<(), AllocError> {
    let (points, on) = two(on, "|");
    let (lines, on) = two(on, "|");
    let (circles, on) = two(on, "|");
    let points = points_of(alloc, points)?;
    let lines = lines_of(alloc, lines)?;
    let circles = circles_of(alloc, circles)?;
    match Figure::new(points, lines, circles) {
        None => {
            out.word("none");
            Ok(())
        }
        Some(figure) => put_call(alloc, out, &figure, call, on),
    }
}

fn put_call(
    alloc: Global,
    out: &mut Answer,
    figure: &Figure,
    call: &str,
    on: &str,
) -> Result<(), AllocError> {
    match call {
        "holds" => put_truth(alloc, out, figure, on),
        "law" => put_law(alloc, out, figure, on),
        "refutes" => put_refuted(alloc, out, figure, on),
        _ => {
            every_instance_is_true();
            cited_is_true();
            out.show(&figure.scope());
            Ok(())
        }
    }
}

// The number at a place of an object.
fn number_at(object: &str, place: usize) -> i32 {
    match object.split_whitespace().nth(place) {
        Some(word) => word.parse::<i32>().unwrap_or(0),
        None => 0,
    }
}

// The square of a circle.
fn square_of(object: &str) -> u64 {
    match object.split_whitespace().nth(2) {
        Some(word) => word.parse::<u64>().unwrap_or(0),
        None => 0,
    }
}

fn points_of(alloc: Global, text: &str) -> Result<Vec<Point>, AllocError> {
    let mut points = Vec::new(alloc);
    for object in text.split(',') {
        if !object.trim().is_empty() {
            points.push(Point {
                x: number_at(object, 0),
                y: number_at(object, 1),
            })?;
        }
    }
    Ok(points)
}

fn lines_of(alloc: Global, text: &str) -> Result<Vec<Straight>, AllocError> {
    let mut lines = Vec::new(alloc);
    for object in text.split(',') {
        if !object.trim().is_empty() {
            lines.push(Straight {
                x: number_at(object, 0),
                y: number_at(object, 1),
                dx: number_at(object, 2),
                dy: number_at(object, 3),
            })?;
        }
    }
    Ok(lines)
}

fn circles_of(alloc: Global, text: &str) -> Result<Vec<Round>, AllocError> {
    let mut circles = Vec::new(alloc);
    for object in text.split(',') {
        if !object.trim().is_empty() {
            circles.push(Round {
                x: number_at(object, 0),
                y: number_at(object, 1),
                square: square_of(object),
            })?;
        }
    }
    Ok(circles)
}

fn put_truth(alloc: Global, out: &mut Answer, figure: &Figure, on: &str) -> Result<(), AllocError> {
    for lit in literals(alloc, on.trim())?.iter() {
        out.show(&holds(figure, lit));
    }
    Ok(())
}

fn put_law(alloc: Global, out: &mut Answer, figure: &Figure, on: &str) -> Result<(), AllocError> {
    let (_, letters) = two(on.trim(), "\" ");
    let args = objects(alloc, letters)?;
    match Rule::named(text_in_quotes(on).as_bytes()) {
        Some(rule) if !rule.is_transfer() => out.show(&law(alloc, figure, rule, &args)),
        _ => out.word("none"),
    }
    Ok(())
}

// Whether the last literal is refuted by those before it.
fn put_refuted(
    alloc: Global,
    out: &mut Answer,
    figure: &Figure,
    on: &str,
) -> Result<(), AllocError> {
    let lits = literals(alloc, on.trim())?;
    if let Some((last, facts)) = lits.split_last() {
        out.show(&refutes(figure, facts, last));
    }
    Ok(())
}
