//! The terms of sums, with the points of their names.
ghost use Rattle.std.specs.Prelude.{◌≡◌, List};
ghost use Rattle.e_literal.specs.WellFormed.{same_kind};
ghost use Rattle.e_line.specs.Reading.{Gives, each};
ghost use Rattle.e_names.specs.Scope.{FewNames, term_in, kind_of_raw, first_kind, mono_in, sums_in};

use crate::scope::number_of;
use e_deriv::Names;
use e_line::{FaultKind, LineError, RawMono, RawTerm};
use e_literal::{Form, Kind as Magnitude, Mono, Sort, Term};
use std::alloc::Global;

/// A term with the points of its names; the leftmost fault.
#[tactic(auto, unfolding(crate::specs::Scope::term_in))]
pub fn term_in(names: &Names, term: &RawTerm) -> Result<Term, LineError>
    requires { FewNames names.now }
    ensures { Gives (λ t. t) result (term_in names.now term.now) }
{
    match term {
        RawTerm::Seg(x, y) => {
            let first = number_of(names, Sort::Point, *x)?;
            let second = number_of(names, Sort::Point, *y)?;
            Ok(Term::Seg(first, second))
        }
        RawTerm::Ang(x, y, z) => {
            let first = number_of(names, Sort::Point, *x)?;
            let middle = number_of(names, Sort::Point, *y)?;
            let last = number_of(names, Sort::Point, *z)?;
            Ok(Term::Ang(first, middle, last))
        }
        RawTerm::Area(x, y, z) => {
            let first = number_of(names, Sort::Point, *x)?;
            let second = number_of(names, Sort::Point, *y)?;
            let third = number_of(names, Sort::Point, *z)?;
            Ok(Term::Area(first, second, third))
        }
        RawTerm::Right => Ok(Term::Right),
    }
}

fn kind_of(term: &RawTerm) -> Magnitude
    ensures { result ≡ kind_of_raw term.now }
{
    match term {
        RawTerm::Seg(..) => Magnitude::Segment,
        RawTerm::Ang(..) | RawTerm::Right => Magnitude::Angle,
        RawTerm::Area(..) => Magnitude::Area,
    }
}

/// The kind of the first term, from left to right.
fn first_kind(left: &[RawMono], right: &[RawMono]) -> Magnitude
    ensures { result ≡ first_kind left.now right.now }
{
    match (left, right) {
        ([m, ..], _) | ([], [m, ..]) => kind_of(&m.term),
        ([], []) => Magnitude::Segment,
    }
}

fn is_kind(a: Magnitude, b: Magnitude) -> bool
    ensures { result ≡ same_kind a b }
{
    matches!(
        (a, b),
        (Magnitude::Segment, Magnitude::Segment)
            | (Magnitude::Angle, Magnitude::Angle)
            | (Magnitude::Area, Magnitude::Area)
    )
}

/// A term of this kind, and then its points.
#[tactic(auto, unfolding(crate::specs::Scope::mono_in))]
fn mono_in(names: &Names, kind: Magnitude, mono: &RawMono) -> Result<Mono, LineError>
    requires { FewNames names.now }
    ensures { Gives (λ m. m) result (mono_in names.now kind mono.now) }
{
    if !is_kind(kind_of(&mono.term), kind) {
        return Err(LineError::Fault(FaultKind::WrongSort));
    }
    let term = term_in(names, &mono.term)?;
    Ok(Mono {
        coeff: mono.coeff,
        term,
    })
}

fn sum_in(alloc: Global, names: &Names, kind: Magnitude, sum: &[RawMono]) -> Result<Form, LineError>
    requires { FewNames names.now }
    ensures { Gives (λ f. f) result (each (mono_in names.now kind) sum.now) }
{
    let mut monos = Vec::with_capacity(alloc, sum.len())?;
    for mono in sum {
        let mono = mono_in(names, kind, mono)?;
        monos.push(mono)?;
    }
    Ok(Form::new(monos))
}

/// Two sums with their points: each term has the kind of the first one.
pub(crate) struct Sides {
    pub left: Form,
    pub right: Form,
}

/// The two sums with their points; a fault where a term is of another kind than the first one.
#[tactic(auto, unfolding(crate::specs::Scope::sums_in))]
pub(crate) fn sums_in(
    alloc: Global,
    names: &Names,
    left: &[RawMono],
    right: &[RawMono],
) -> Result<Sides, LineError>
    requires { FewNames names.now }
    ensures { Gives (λ s. (s.left, s.right)) result (sums_in names.now left.now right.now) }
{
    let kind = first_kind(left, right);
    let left = sum_in(alloc, names, kind, left)?;
    let right = sum_in(alloc, names, kind, right)?;
    Ok(Sides { left, right })
}
