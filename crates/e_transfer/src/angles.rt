//! Angles and segments that values list, by their points.

ghost use Rattle.std.specs.Prelude.{◌≡◌, ◌++◌, IfOk, OnOk};
ghost use Rattle.e_transfer.specs.inner.ListedTerms;

use crate::listing::Triple;
use e_literal::Term;
use std::alloc::{AllocError, Global};

/// Adds the points of an angle, in both orders.
fn add_angle(points: &mut Vec<Triple>, term: Term) -> Result<(), AllocError>
    ensures { OnOk result (points.new.items ≡ points.old.items ++ ListedTerms.angle_points term) }
{
    if let Term::Ang(a, b, c) = term {
        points.push((a, b, c))?;
        points.push((c, b, a))?;
    }
    Ok(())
}

/// Adds the points of a segment, in both orders.
fn add_segment(points: &mut Vec<Triple>, term: Term) -> Result<(), AllocError>
    ensures { OnOk result (points.new.items ≡ points.old.items ++ ListedTerms.segment_points term) }
{
    if let Term::Seg(a, b) = term {
        points.push((a, b, 0))?;
        points.push((b, a, 0))?;
    }
    Ok(())
}

/// Adds the points of a segment that is 0.
fn add_if_zero(points: &mut Vec<Triple>, term: Term, value: u128) -> Result<(), AllocError>
    ensures { OnOk result
        (points.new.items ≡ points.old.items ++ ListedTerms.zero_points (term, value)) }
{
    if value == 0 {
        add_segment(points, term)?;
    }
    Ok(())
}

/// The points of the angles that the values list, in both orders.
pub fn angles_of(alloc: Global, values: &[(Term, u128)]) -> Result<Vec<Triple>, AllocError>
    ensures { IfOk result (λ v. v.items ≡ ListedTerms.angles_of values.now) }
{
    let mut points = Vec::new(alloc);
    for pair in values {
        add_angle(&mut points, pair.0)?;
    }
    Ok(points)
}

/// The points of the segments that the values list, in both orders.
pub fn segments_of(alloc: Global, values: &[(Term, u128)]) -> Result<Vec<Triple>, AllocError>
    ensures { IfOk result (λ v. v.items ≡ ListedTerms.segments_of values.now) }
{
    let mut points = Vec::new(alloc);
    for pair in values {
        add_segment(&mut points, pair.0)?;
    }
    Ok(points)
}

/// The points of the segments for which the values list 0, in both orders.
pub fn zero_segments_of(alloc: Global, values: &[(Term, u128)]) -> Result<Vec<Triple>, AllocError>
    ensures { IfOk result (λ v. v.items ≡ ListedTerms.zero_segments_of values.now) }
{
    let mut points = Vec::new(alloc);
    for pair in values {
        add_if_zero(&mut points, pair.0, pair.1)?;
    }
    Ok(points)
}
