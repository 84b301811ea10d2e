//! On which blanks each given literal depends. It is a matter of speed alone: a literal that is
//! asked too late is asked of more choices, and one that is asked too early says nothing yet.

ghost use Rattle.std.specs.Prelude.{◌≡◌, IsTrue};
ghost use Rattle.e_literal.specs.Scopes.{nothing, next_objects as declared_objects};
ghost use Rattle.e_theorem.specs.Pattern.{is_pattern};
ghost use Rattle.e_theorem.specs.Statements.{as_view};

use crate::blanks::images;
use e_literal::{Atom, Items, Lit, Map, Obj, Scope, kind, with_images};
use e_theorem::Statement;
use e_transfer::{Span, is_well_formed_in};
use std::alloc::{AllocError, Global};
use std::mem;

/// What is known of a given literal.
#[derive(Clone, Copy)]
pub struct Ready {
    /// With how many of the numbers of a choice all its objects are known.
    pub known: usize,
    /// On how many blanks it depends.
    pub blanks: usize,
    /// The first of these.
    pub first: usize,
    /// Whether it compares magnitudes.
    pub metric: bool,
}

/// The places of the given literals, those that are cheap to ask first: by the median of what a
/// search for one takes that is not allowed.
fn places_by_cost(alloc: Global, given: &[Lit]) -> Result<Vec<usize>, AllocError> {
    let mut places = Vec::with_capacity(alloc, given.len())?;
    for cost in 0..COSTS {
        for (at, lit) in given.iter().enumerate() {
            if cost_of(lit) == cost {
                places.push(at)?;
            }
        }
    }
    Ok(places)
}

// How many costs there are.
const COSTS: usize = 7;

fn cost_of(lit: &Lit) -> usize {
    match lit.atom {
        Atom::Between(_, _, _) => 0,
        Atom::EqL(_, _) | Atom::EqC(_, _) => 1,
        Atom::OnC(_, _) | Atom::Inside(_, _) | Atom::Center(_, _) => 2,
        Atom::MeetLC(_, _) | Atom::MeetCC(_, _) => 2,
        Atom::MagLt(_, _) => 3,
        Atom::MagEq(_, _) => 4,
        Atom::MeetLL(_, _) | Atom::Same(_, _, _) | Atom::EqP(_, _) => 5,
        Atom::On(_, _) => 6,
    }
}

/// For each number of numbers of a choice, up to that of a whole one, the places of the given
/// literals that so many complete, those that are cheap to ask first.
pub fn completed_places(
    alloc: Global,
    given: &[Lit],
    ready: &[Ready],
    whole: usize,
) -> Result<Items<Items<usize>>, AllocError> {
    let order = places_by_cost(alloc, given)?;
    let mut completed = Items::empty(alloc);
    for length in 0..=whole {
        let mut places = Items::empty(alloc);
        for at in &order {
            if *at < ready.len() && ready[*at].known == length {
                places.push(*at)?;
            }
        }
        completed.push(places)?;
    }
    Ok(completed)
}

/// For each given literal on which blanks it depends: it does on one where it is out of scope by
/// an object that is out of scope there, and by no other.
pub fn ready_places(
    alloc: Global,
    scope: Scope,
    statement: &Statement,
    declared: &[Obj],
    pattern: &[Option<Obj>],
    spans: &[Span],
) -> Result<Vec<Ready>, AllocError>
    requires declares { declared.now ≡ declared_objects nothing statement.now.declared }
    requires fits { IsTrue (is_pattern (as_view statement.now) scope pattern.now) }
{
    let given = statement.given.items();
    let mut ready = Vec::with_capacity(alloc, given.len())?;
    for lit in given {
        ready.push(Ready {
            known: 0,
            blanks: 0,
            first: 0,
            metric: kind(lit).is_some(),
        })?;
    }
    for blank in 0..spans.len() {
        let part = out_at(alloc, spans, blank)?;
        let images = images(alloc, scope, statement, declared, pattern, &part)?;
        mark_blank(alloc, scope, given, &images, blank, &mut ready)?;
    }
    Ok(ready)
}

// A choice with a number that is out of scope at this blank alone.
fn out_at(alloc: Global, spans: &[Span], blank: usize) -> Result<Vec<u16>, AllocError> {
    let mut part = Vec::with_capacity(alloc, spans.len())?;
    for (at, span) in spans.iter().enumerate() {
        part.push(if at == blank { span.to } else { 0 })?;
    }
    Ok(part)
}

// Those that are out of scope by these images depend on the blank.
fn mark_blank(
    alloc: Global,
    scope: Scope,
    given: &[Lit],
    images: &Map,
    blank: usize,
    ready: &mut [Ready],
) -> Result<(), AllocError> {
    for (at, lit) in given.iter().enumerate() {
        if at < ready.len() {
            let image = with_images(alloc, lit, images)?;
            if !is_well_formed_in(scope, &image) {
                ready[at] = with_blank(ready[at], blank);
            }
            mem::drop(image);
        }
    }
    Ok(())
}

fn with_blank(ready: Ready, blank: usize) -> Ready {
    Ready {
        known: blank.saturating_add(1),
        blanks: ready.blanks.saturating_add(1),
        first: if ready.blanks == 0 {
            blank
        } else {
            ready.first
        },
        metric: ready.metric,
    }
}
