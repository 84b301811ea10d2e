//! A superposition, with the objects of its names.
ghost use Rattle.e_line.specs.Reading.{Gives};
ghost use Rattle.e_names.specs.Scope.{FewNames};
ghost use Rattle.e_names.specs.Superposes.{placed_in, superpose_in};

use crate::scope::{fresh, number_of, put_lits};
use e_construct::Superpose;
use e_deriv::Names;
use e_line::{FaultKind, LineError, RawSuperpose};
use e_literal::{Items, Lit, Sort};
use e_text::Name;
use std::alloc::Global;

/// The triangle and its line, then the place and its line, in the order of the line of text.
#[tactic(auto, unfolding(crate::specs::Superposes::placed_in))]
pub fn placed_in(names: &Names, args: &[Name]) -> Result<Superpose, LineError>
    requires { FewNames names.now }
    ensures { Gives (λ s. s) result (placed_in names.now args.now) }
{
    let [a, b, c, k, d, g, h, l] = args else {
        return Err(LineError::Fault(FaultKind::Malformed));
    };
    let a = number_of(names, Sort::Point, *a)?;
    let b = number_of(names, Sort::Point, *b)?;
    let c = number_of(names, Sort::Point, *c)?;
    let k = number_of(names, Sort::Line, *k)?;
    let d = number_of(names, Sort::Point, *d)?;
    let g = number_of(names, Sort::Point, *g)?;
    let h = number_of(names, Sort::Point, *h)?;
    let l = number_of(names, Sort::Line, *l)?;
    Ok(Superpose {
        points: [a, b, c, d, g, h],
        lines: [k, l],
    })
}

/// A superposition, and the literals that its block shows.
#[derive(Drop)]
pub struct Placement {
    pub superposition: Superpose,
    pub shown: Items<Lit>,
}

/// The objects, then the new names, then the literals; the leftmost fault.
#[tactic(auto, unfolding(crate::specs::Superposes::superpose_in))]
pub fn superpose_in(
    alloc: Global,
    names: &Names,
    raw: &RawSuperpose,
) -> Result<Placement, LineError>
    requires { FewNames names.now }
    ensures { Gives (λ p. (p.superposition, p.shown)) result (superpose_in names.now raw.now) }
{
    let superposition = placed_in(names, raw.args.items())?;
    fresh(names, raw.new.items())?;
    let mut shown = Items::empty(alloc);
    put_lits(alloc, names, raw.shown.items(), &mut shown)?;
    Ok(Placement {
        superposition,
        shown,
    })
}
