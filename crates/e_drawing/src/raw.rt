//! The lines of a figure text, known from their words by spelling alone.
ghost use Rattle.std.specs.Prelude.{IfOk};
ghost use Rattle.e_line.specs.Reading.{texts, Gives};
ghost use Rattle.e_drawing.specs.inner.Nondegenerate.{IsNondegenerate};
ghost use Rattle.e_drawing.specs.Lines.{plan_point_of, straight_of, round_of};
ghost use Rattle.e_drawing.specs.Lines.{line_of_one_word, plan_line_named, plan_line_of};

use crate::number::{coordinate, square};
use e_figure::{Point, Round, Straight, has_direction, has_inside};
use e_line::{FaultKind, LineError, RawLit, Words, diagram_lits_of};
use e_literal::Items;
use e_text::{Name, is};
use std::alloc::Global;
use std::mem;

/// A line of a figure text. Numbers that are out of their bounds are one past them.
#[derive(Drop)]
pub enum RawLine {
    /// The first line.
    Figure,
    Point(Name, Point),
    Line(Name, Straight),
    Circle(Name, Round),
    Given(Items<RawLit>),
    Show(Items<RawLit>),
    End,
}

/// A name and two coordinates.
#[tactic(auto, unfolding(crate::specs::Lines::plan_point_of))]
fn point_of(words: &[&[u8]]) -> Result<RawLine, LineError>
    ensures value { Gives (λ l. l) result (plan_point_of (texts words.now)) }
    ensures good { IfOk result IsNondegenerate }
{
    let mut words = Words::new(words);
    let name = words.name()?;
    let x = coordinate(&mut words)?;
    let y = coordinate(&mut words)?;
    words.end()?;
    Ok(RawLine::Point(name, Point { x, y }))
}

/// A name, the coordinates of a point on it, and a direction other than two zeros.
#[tactic(auto, unfolding(crate::specs::Lines::straight_of))]
fn straight_of(words: &[&[u8]]) -> Result<RawLine, LineError>
    ensures value { Gives (λ l. l) result (straight_of (texts words.now)) }
    ensures good { IfOk result IsNondegenerate }
{
    let mut words = Words::new(words);
    let name = words.name()?;
    let x = coordinate(&mut words)?;
    let y = coordinate(&mut words)?;
    let dx = coordinate(&mut words)?;
    let dy = coordinate(&mut words)?;
    words.end()?;
    let line = Straight { x, y, dx, dy };
    if !has_direction(line) {
        return Err(LineError::Fault(FaultKind::Malformed));
    }
    Ok(RawLine::Line(name, line))
}

/// A name, the coordinates of the center, and the square of the radius, which is not 0.
#[tactic(auto, unfolding(crate::specs::Lines::round_of))]
fn round_of(words: &[&[u8]]) -> Result<RawLine, LineError>
    ensures value { Gives (λ l. l) result (round_of (texts words.now)) }
    ensures good { IfOk result IsNondegenerate }
{
    let mut words = Words::new(words);
    let name = words.name()?;
    let x = coordinate(&mut words)?;
    let y = coordinate(&mut words)?;
    let square = square(&mut words)?;
    words.end()?;
    let circle = Round { x, y, square };
    if !has_inside(circle) {
        return Err(LineError::Fault(FaultKind::Malformed));
    }
    Ok(RawLine::Circle(name, circle))
}

/// A line of one word.
fn line_of_one_word(words: &[&[u8]], line: RawLine) -> Result<RawLine, LineError>
    requires { IsNondegenerate line }
    ensures value { Gives (λ l. l) result (line_of_one_word (texts words.now) line) }
    ensures good { IfOk result IsNondegenerate }
{
    match Words::new(words).end() {
        Ok(()) => Ok(line),
        Err(error) => {
            mem::drop(line);
            Err(error)
        }
    }
}

/// A line, by its first word.
#[tactic(auto, unfolding(crate::specs::Lines::plan_line_named))]
fn line_named(alloc: Global, word: &[u8], rest: &[&[u8]]) -> Result<RawLine, LineError>
    ensures value { Gives (λ l. l) result (plan_line_named word.now (texts rest.now)) }
    ensures good { IfOk result IsNondegenerate }
{
    if is(word, b"figure") {
        return line_of_one_word(rest, RawLine::Figure);
    }
    if is(word, b"point") {
        return point_of(rest);
    }
    if is(word, b"line") {
        return straight_of(rest);
    }
    if is(word, b"circle") {
        return round_of(rest);
    }
    if is(word, b"given") {
        let lits = diagram_lits_of(alloc, rest)?;
        return Ok(RawLine::Given(lits));
    }
    if is(word, b"show") {
        let lits = diagram_lits_of(alloc, rest)?;
        return Ok(RawLine::Show(lits));
    }
    if is(word, b"end") {
        return line_of_one_word(rest, RawLine::End);
    }
    Err(LineError::Fault(FaultKind::Malformed))
}

/// What a line is by its words.
#[tactic(auto, unfolding(crate::specs::Lines::plan_line_of))]
pub fn line_of(alloc: Global, words: &[&[u8]]) -> Result<RawLine, LineError>
    ensures value { Gives (λ l. l) result (plan_line_of (texts words.now)) }
    ensures good { IfOk result IsNondegenerate }
{
    match words {
        [] => Err(LineError::Fault(FaultKind::Malformed)),
        [word, rest @ ..] => line_named(alloc, word, rest),
    }
}
