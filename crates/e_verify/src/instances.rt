//! The literals of which one of an instance follows.

ghost use Rattle.std.specs.Prelude.{◌≡◌, IfOk, map};
ghost use Rattle.e_literal.specs.Facts;
ghost use Rattle.e_literal.specs.Literal.{negation};

use crate::alike::are_same;
use e_literal::{Lit, negate};
use std::alloc::{AllocError, Global};
use std::mem;

/// Whether one of the literals is the same as this one.
pub fn is_among(lits: &[Lit], lit: &Lit) -> bool
    ensures { result ≡ Facts.has lits.now lit.now }
{
    lits.iter().any(|m| are_same(m, lit))
}

/// The negations of the literals that are not the same as this one, in order.
pub fn negated_others(alloc: Global, lits: Vec<Lit>, lit: &Lit) -> Result<Vec<Lit>, AllocError>
    ensures { IfOk result (λ v. v.items ≡ map negation (Facts.others lits.items lit.now)) }
{
    let mut others = Vec::new(alloc);
    for other in lits {
        if are_same(&other, lit) {
            mem::drop(other);
        } else {
            others.push(negate(other))?;
        }
    }
    Ok(others)
}
