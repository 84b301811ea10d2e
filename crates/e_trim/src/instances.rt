//! The literals of which one of an instance follows.

ghost use Rattle.std.specs.Prelude.{◌≡◌, IfOk, map};
ghost use Rattle.e_literal.specs.Facts;
ghost use Rattle.e_literal.specs.Literal.{negation};
ghost use Rattle.e_trim.specs.inner.Wanted.{negations_of_others};

use e_clause::{Rule, instance_of};
use e_literal::{Lit, Obj, negate, same};
use std::alloc::{AllocError, Global};
use std::mem;

/// The negations of the literals that are not the same as this one, in order.
fn negated_among(alloc: Global, lits: Vec<Lit>, lit: &Lit) -> Result<Vec<Lit>, AllocError>
    ensures { IfOk result (λ v. v.items ≡ map negation (Facts.others lits.items lit.now)) }
{
    let mut others = Vec::new(alloc);
    for other in lits {
        if same(&other, lit) {
            mem::drop(other);
        } else {
            others.push(negate(other))?;
        }
    }
    Ok(others)
}

/// The negations of the others of the literal in the instance; none where the arguments do not fit.
pub fn negated_others(
    alloc: Global,
    rule: Rule,
    args: &[Obj],
    lit: &Lit,
) -> Result<Vec<Lit>, AllocError>
    ensures { IfOk result (λ v. v.items ≡ negations_of_others rule args.now lit.now) }
{
    match instance_of(alloc, rule, args)? {
        Some(lits) => negated_among(alloc, lits, lit),
        None => Ok(Vec::new(alloc)),
    }
}
