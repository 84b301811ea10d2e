//! Points, lines and circles with whole numbers.

ghost use Rattle.std.specs.Prelude.{◌≡◌, ◌<◌, ◌&&◌, [], length, IsTrue, OnOk, OnErr, pos};
ghost use Rattle.std.specs.List.{list_all};
ghost use Rattle.std.specs.Ordering.{int_eq};
ghost use Rattle.e_figure.specs.Figure as spec;

use crate::measure::are_equal;
use e_literal::Scope;
use std::alloc::{AllocError, Global};
use std::marker::Model;
use std::mem;

/// A point.
#[derive(Clone, Copy)]
pub struct Point {
    pub x: i32,
    pub y: i32,
}

/// A line, by a point on it and a direction.
#[derive(Clone, Copy)]
pub struct Straight {
    pub x: i32,
    pub y: i32,
    pub dx: i32,
    pub dy: i32,
}

/// A circle, by its center and the square of its radius.
#[derive(Clone, Copy)]
pub struct Round {
    pub x: i32,
    pub y: i32,
    pub square: u64,
}

/// A figure. Its lines have directions, and its circles are no points.
#[derive(Drop)]
pub struct Figure {
    points: Vec<Point>,
    lines: Vec<Straight>,
    circles: Vec<Round>,
}

impl Model for Figure {
    ghost use Rattle.std.specs.Prelude.{IsTrue};
    ghost use Rattle.e_figure.specs.Figure.{FigureView, is_figure, is_bounded, HasFewObjects};

    ghost Value = { FigureView };

    ghost view = { λ f. record {
      points = f.points.items;
      lines = f.lines.items;
      circles = f.circles.items;
    } };

    ghost invariant = { λ f. IsTrue (is_figure
        (record { points = f.points.items; lines = f.lines.items; circles = f.circles.items }))
        × (IsTrue (is_bounded
        (record { points = f.points.items; lines = f.lines.items; circles = f.circles.items }))
        × HasFewObjects
        (record { points = f.points.items; lines = f.lines.items; circles = f.circles.items })) };
}

impl Figure {
    /// The figure of these objects, numbered as they come: none exactly where a coordinate or a
    /// number of a direction is past plus or minus 1,000,000, a direction is two zeros, a square is
    /// 0 or past 10^12, or there are more than 40 points, 24 lines or 16 circles.
    pub fn new(points: Vec<Point>, lines: Vec<Straight>, circles: Vec<Round>) -> Option<Figure>
        ensures { result ≡ spec.figure_of points.items lines.items circles.items }
    {
        if !can_be_drawn(&points, &lines, &circles) {
            mem::drop(points);
            mem::drop(lines);
            mem::drop(circles);
            return None;
        }
        Some(Figure::of_objects(points, lines, circles))
    }

    fn of_objects(points: Vec<Point>, lines: Vec<Straight>, circles: Vec<Round>) -> Figure
        requires { IsTrue
            (spec.can_be_drawn (spec.view_of_figure points.items lines.items circles.items)) }
        ensures { result ≡ spec.view_of_figure points.items lines.items circles.items }
    {
        Figure {
            points,
            lines,
            circles,
        }
    }

    /// The figure without objects.
    pub fn empty(alloc: Global) -> Figure
        ensures { result ≡ spec.view_of_figure [] [] [] }
    {
        Figure {
            points: Vec::new(alloc),
            lines: Vec::new(alloc),
            circles: Vec::new(alloc),
        }
    }

    /// Puts a point after the others. It fails only out of memory, and then the figure is as
    /// before.
    pub fn add_point(&mut self, a: Point) -> Result<(), AllocError>
        requires few { length self.old.points < 40 }
        requires small { IsTrue (spec.is_small_point a) }
        ensures ok { OnOk result (self.new ≡ spec.with_point self.old a) }
        ensures err { OnErr result (self.new ≡ self.old) }
    {
        self.points.push(a)?;
        Ok(())
    }

    /// Puts a line after the others. It fails only out of memory, and then the figure is as before.
    pub fn add_line(&mut self, l: Straight) -> Result<(), AllocError>
        requires few { length self.old.lines < 24 }
        requires small { IsTrue (spec.is_small_line l) }
        requires direction { IsTrue (spec.has_direction l) }
        ensures ok { OnOk result (self.new ≡ spec.with_line self.old l) }
        ensures err { OnErr result (self.new ≡ self.old) }
    {
        self.lines.push(l)?;
        Ok(())
    }

    /// Puts a circle after the others. It fails only out of memory, and then the figure is as
    /// before.
    pub fn add_circle(&mut self, c: Round) -> Result<(), AllocError>
        requires few { length self.old.circles < 16 }
        requires small { IsTrue (spec.is_small_circle c) }
        requires inside { IsTrue (spec.has_inside c) }
        ensures ok { OnOk result (self.new ≡ spec.with_circle self.old c) }
        ensures err { OnErr result (self.new ≡ self.old) }
    {
        self.circles.push(c)?;
        Ok(())
    }

    /// Its lines have directions and its circles insides: a law of the figure, which a caller has by
    /// the call.
    pub fn lines_and_circles_are_proper(&self)
        ensures { IsTrue (spec.is_figure self.now) }
    {
        let _ = self.points.len();
    }

    /// How many objects of each sort it has.
    pub fn scope(&self) -> Scope
        ensures { result ≡ spec.scope_of_figure self.now }
    {
        Scope {
            points: self.points.len() as u16,
            lines: self.lines.len() as u16,
            circles: self.circles.len() as u16,
        }
    }

    /// The point with this number; where there is none, one that says nothing.
    pub fn point(&self, n: u16) -> Point
        ensures value { result ≡ spec.point_of self.now n }
        ensures small { IsTrue (spec.is_small_point result) }
    {
        match self.points.get(usize::from(n)) {
            Some(point) => *point,
            None => Point { x: 0, y: 0 },
        }
    }

    /// The line with this number; where there is none, one that says nothing.
    pub fn line(&self, n: u16) -> Straight
        ensures value { result ≡ spec.line_of_figure self.now n }
        ensures small { IsTrue (spec.is_small_line result) }
    {
        match self.lines.get(usize::from(n)) {
            Some(line) => *line,
            None => Straight {
                x: 0,
                y: 0,
                dx: 1,
                dy: 0,
            },
        }
    }

    /// The circle with this number; where there is none, one that says nothing.
    pub fn circle(&self, n: u16) -> Round
        ensures value { result ≡ spec.circle_of self.now n }
        ensures small { IsTrue (spec.is_small_circle result) }
    {
        match self.circles.get(usize::from(n)) {
            Some(circle) => *circle,
            None => Round {
                x: 0,
                y: 0,
                square: 1,
            },
        }
    }
}

/// Whether the objects make a figure.
fn can_be_drawn(points: &[Point], lines: &[Straight], circles: &[Round]) -> bool
    ensures { result ≡ spec.can_be_drawn (spec.view_of_figure points.now lines.now circles.now) }
{
    are_few(points, lines, circles)
        && are_bounded(points, lines, circles)
        && have_extent(lines, circles)
}

/// Whether there are not too many objects.
fn are_few(points: &[Point], lines: &[Straight], circles: &[Round]) -> bool
    ensures { result ≡ spec.has_few_objects (spec.view_of_figure points.now lines.now circles.now) }
{
    points.len() <= 40 && lines.len() <= 24 && circles.len() <= 16
}

/// Whether all numbers are in their bounds.
fn are_bounded(points: &[Point], lines: &[Straight], circles: &[Round]) -> bool
    ensures { result ≡ spec.is_bounded (spec.view_of_figure points.now lines.now circles.now) }
{
    are_small_points(points) && are_small_lines(lines) && are_small_circles(circles)
}

/// Whether the lines have directions, and the circles insides.
fn have_extent(lines: &[Straight], circles: &[Round]) -> bool
    ensures { result
        ≡ (list_all spec.has_direction lines.now && list_all spec.has_inside circles.now) }
{
    have_directions(lines) && have_insides(circles)
}

fn have_directions(lines: &[Straight]) -> bool
    ensures { result ≡ list_all spec.has_direction lines.now }
{
    lines.iter().all(|l| has_direction(*l))
}

fn have_insides(circles: &[Round]) -> bool
    ensures { result ≡ list_all spec.has_inside circles.now }
{
    circles.iter().all(|c| has_inside(*c))
}

fn are_small_points(points: &[Point]) -> bool
    ensures { result ≡ list_all spec.is_small_point points.now }
{
    points.iter().all(|a| is_small_point(*a))
}

fn are_small_lines(lines: &[Straight]) -> bool
    ensures { result ≡ list_all spec.is_small_line lines.now }
{
    lines.iter().all(|l| is_small_line(*l))
}

fn are_small_circles(circles: &[Round]) -> bool
    ensures { result ≡ list_all spec.is_small_circle circles.now }
{
    circles.iter().all(|c| is_small_circle(*c))
}

/// Whether a coordinate, or a number of a direction, is within plus or minus 1,000,000.
fn is_small(n: i32) -> bool
    ensures { result ≡ spec.is_small_number n }
{
    n.unsigned_abs() <= 1_000_000
}

/// Whether the point's numbers are in their bounds.
pub fn is_small_point(a: Point) -> bool
    ensures { result ≡ spec.is_small_point a }
{
    is_small(a.x) && is_small(a.y)
}

/// Whether the line's numbers are in their bounds.
pub fn is_small_line(l: Straight) -> bool
    ensures { result ≡ spec.is_small_line l }
{
    is_small(l.x) && is_small(l.y) && is_small(l.dx) && is_small(l.dy)
}

/// Whether the circle's numbers are in their bounds: its square is at most 10^12.
pub fn is_small_circle(c: Round) -> bool
    ensures { result ≡ spec.is_small_circle c }
{
    is_small(c.x) && is_small(c.y) && c.square <= 1_000_000_000_000
}

/// Whether the line has a direction: not two zeros.
pub fn has_direction(l: Straight) -> bool
    ensures { result ≡ spec.has_direction l }
{
    !(is_nil(l.dx) && is_nil(l.dy))
}

fn is_nil(n: i32) -> bool
    ensures { result ≡ int_eq n (pos 0) }
{
    are_equal(i128::from(n), 0)
}

/// Whether the circle has an inside: its square is not 0.
pub fn has_inside(c: Round) -> bool
    ensures { result ≡ spec.has_inside c }
{
    0 < c.square
}
