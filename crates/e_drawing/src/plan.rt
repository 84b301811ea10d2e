//! A figure while its lines come.
ghost use Rattle.std.specs.Prelude.{◌≡◌, OnOk, IsTrue};
ghost use Rattle.e_line.specs.Reading.{Gives, Moves};
ghost use Rattle.e_line.specs.LineLimits.{or_limit};
ghost use Rattle.e_line.specs.declared.fault.What.TheVariants as limits;
ghost use Rattle.e_figure.specs.Figure.{has_direction, has_inside};
ghost use Rattle.e_drawing.specs.Plans.{plan_line_may_come, FitsPlan};
ghost use Rattle.e_drawing.specs.Plans as plans;
ghost use Rattle.e_drawing.specs.inner.Nondegenerate.{IsNondegenerate};

use crate::raw::RawLine;
use e_book::{declare, no_names};
use e_deriv::Names;
use e_figure::{Figure, Point, Round, Straight, is_small_circle, is_small_line, is_small_point};
use e_line::{FaultKind, LineError, RawLit, What};
use e_literal::{Items, Lit, Sort};
use e_names::put_lits;
use e_text::Name;
use std::alloc::Global;
use std::slice;

/// Which lines may come.
#[derive(Clone, Copy)]
pub enum Place {
    /// Before the first line.
    Start,
    /// Among the objects.
    Placing,
    /// Among the given literals.
    Giving,
    /// Among the literals to be shown.
    Showing,
    Done,
}

/// What has come of the lines of a figure text.
#[derive(Drop)]
pub struct Plan {
    pub names: Names,
    pub figure: Figure,
    pub given: Items<Lit>,
    pub shown: Items<Lit>,
    pub place: Place,
}

/// Whether the line may come at this place.
fn may_come(place: Place, line: &RawLine) -> bool
    ensures { result ≡ plan_line_may_come place line.now }
{
    match line {
        RawLine::Figure => matches!(place, Place::Start),
        RawLine::Point(_, _) => matches!(place, Place::Placing),
        RawLine::Line(_, _) => matches!(place, Place::Placing),
        RawLine::Circle(_, _) => matches!(place, Place::Placing),
        RawLine::Given(_) => matches!(place, Place::Placing | Place::Giving),
        RawLine::Show(_) => matches!(place, Place::Placing | Place::Giving | Place::Showing),
        RawLine::End => matches!(place, Place::Showing),
    }
}

/// The limit of numbers.
fn in_bounds(small: bool) -> Result<(), LineError>
    ensures value { Gives (λ u. u) result (or_limit small limits.Number) }
    ensures small { OnOk result (IsTrue small) }
{
    if !small {
        return Err(LineError::Fault(FaultKind::Limit(What::Number)));
    }
    Ok(())
}

impl Plan {
    /// Nothing has come.
    pub fn new(alloc: Global) -> Plan
        ensures value { result ≡ plans.no_plan }
        ensures fits { FitsPlan result }
    {
        Plan {
            names: no_names(alloc),
            figure: Figure::empty(alloc),
            given: Items::empty(alloc),
            shown: Items::empty(alloc),
            place: Place::Start,
        }
    }

    /// Whether the last line of the figure has come.
    pub fn is_done(&self) -> bool
        ensures { result ≡ plans.is_done_plan self.now }
    {
        matches!(self.place, Place::Done)
    }

    /// A point: its name, the limit of points, and that of numbers. After a fault the plan is not
    /// used again.
    #[tactic(auto, unfolding(crate::specs::Plans::with_named_point))]
    fn put_point(&mut self, name: Name, a: Point) -> Result<(), LineError>
        requires { FitsPlan self.old }
        ensures value { Moves result self.new (plans.with_named_point self.old name a) }
        ensures fits { OnOk result (FitsPlan self.new) }
    {
        declare(&mut self.names, Sort::Point, slice::from_ref(&name))?;
        in_bounds(is_small_point(a))?;
        self.figure.add_point(a)?;
        Ok(())
    }

    /// A line with a direction: its name, the limit of lines, and that of numbers.
    #[tactic(auto, unfolding(crate::specs::Plans::with_named_line))]
    fn put_line(&mut self, name: Name, l: Straight) -> Result<(), LineError>
        requires fits { FitsPlan self.old }
        requires direction { IsTrue (has_direction l) }
        ensures value { Moves result self.new (plans.with_named_line self.old name l) }
        ensures fits { OnOk result (FitsPlan self.new) }
    {
        declare(&mut self.names, Sort::Line, slice::from_ref(&name))?;
        in_bounds(is_small_line(l))?;
        self.figure.add_line(l)?;
        Ok(())
    }

    /// A circle with an inside: its name, the limit of circles, and that of numbers.
    #[tactic(auto, unfolding(crate::specs::Plans::with_named_circle))]
    fn put_circle(&mut self, name: Name, c: Round) -> Result<(), LineError>
        requires fits { FitsPlan self.old }
        requires inside { IsTrue (has_inside c) }
        ensures value { Moves result self.new (plans.with_named_circle self.old name c) }
        ensures fits { OnOk result (FitsPlan self.new) }
    {
        declare(&mut self.names, Sort::Circle, slice::from_ref(&name))?;
        in_bounds(is_small_circle(c))?;
        self.figure.add_circle(c)?;
        Ok(())
    }

    /// Given literals, by their names.
    fn give(&mut self, alloc: Global, raw: &[RawLit]) -> Result<(), LineError>
        requires { FitsPlan self.old }
        ensures value { Moves result self.new (plans.with_given self.old raw.now) }
        ensures fits { OnOk result (FitsPlan self.new) }
    {
        put_lits(alloc, &self.names, raw, &mut self.given)?;
        self.place = Place::Giving;
        Ok(())
    }

    /// Literals to be shown, by their names.
    fn show(&mut self, alloc: Global, raw: &[RawLit]) -> Result<(), LineError>
        requires { FitsPlan self.old }
        ensures value { Moves result self.new (plans.with_shown self.old raw.now) }
        ensures fits { OnOk result (FitsPlan self.new) }
    {
        put_lits(alloc, &self.names, raw, &mut self.shown)?;
        self.place = Place::Showing;
        Ok(())
    }

    /// Goes to a place.
    fn go_to(&mut self, place: Place)
        requires { FitsPlan self.old }
        ensures value { self.new ≡ record self.old { place = place } }
        ensures fits { FitsPlan self.new }
    {
        self.place = place;
    }

    /// Puts what the line adds. After a fault the plan is not used again.
    fn put(&mut self, alloc: Global, line: &RawLine) -> Result<(), LineError>
        requires fits { FitsPlan self.old }
        requires line { IsNondegenerate line.now }
        ensures value { Moves result self.new (plans.plan_with_line self.old line.now) }
        ensures fits { OnOk result (FitsPlan self.new) }
    {
        match line {
            RawLine::Figure => {
                self.go_to(Place::Placing);
                Ok(())
            }
            RawLine::Point(name, a) => self.put_point(*name, *a),
            RawLine::Line(name, l) => self.put_line(*name, *l),
            RawLine::Circle(name, c) => self.put_circle(*name, *c),
            RawLine::Given(raw) => self.give(alloc, raw.items()),
            RawLine::Show(raw) => self.show(alloc, raw.items()),
            RawLine::End => {
                self.go_to(Place::Done);
                Ok(())
            }
        }
    }

    /// Takes a line, where it may come. After a fault the plan is not used again.
    #[tactic(auto, unfolding(crate::specs::Plans::plan_after_line))]
    pub fn take(&mut self, alloc: Global, line: &RawLine) -> Result<(), LineError>
        requires fits { FitsPlan self.old }
        requires line { IsNondegenerate line.now }
        ensures value { Moves result self.new (plans.plan_after_line self.old line.now) }
        ensures fits { OnOk result (FitsPlan self.new) }
    {
        if !may_come(self.place, line) {
            return Err(LineError::Fault(FaultKind::Malformed));
        }
        self.put(alloc, line)
    }
}
