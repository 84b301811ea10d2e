//! The names of the objects in scope while the lines of a proof are written.
ghost use Rattle.std.specs.Prelude.{◌≡◌, take, IfOk, OnOk};
ghost use Rattle.e_construct.specs.Superposing.{sorts_copied};
ghost use Rattle.e_deriv.specs.Naming.{first_names, with_new_names};
ghost use Rattle.e_deriv.specs.PlainStep.{plain_step};
ghost use Rattle.e_names.specs.TitledStatements.{theorem_of};
ghost use Rattle.e_spell.specs.inner.Counts.{scope_of_counts};
ghost use Rattle.e_spell.specs.inner.Parts.{names_after_step};

use crate::declarations::Counts;
use e_construct::Superpose;
use e_deriv::{Names, Step};
use e_literal::Items;
use e_names::{Theorems, put_names};
use e_text::Name;
use std::alloc::{AllocError, Global};
use std::mem;

fn first_of(alloc: Global, names: &[Name], count: usize) -> Result<Items<Name>, AllocError>
    ensures { IfOk result (λ n. n ≡ take count names.now) }
{
    let end = names.len().min(count);
    Ok(Items::new(Vec::from_slice(alloc, &names[..end])?))
}

/// Equal names of the first objects of each sort.
pub(crate) fn first_names(alloc: Global, names: &Names, counts: Counts) -> Result<Names, AllocError>
    ensures { IfOk result (λ n. n ≡ first_names (scope_of_counts counts) names.now) }
{
    Ok(Names {
        points: first_of(alloc, names.points.items(), counts.points)?,
        lines: first_of(alloc, names.lines.items(), counts.lines)?,
        circles: first_of(alloc, names.circles.items(), counts.circles)?,
    })
}

/// Equal names, and those of the copied points.
pub(crate) fn with_copies(
    alloc: Global,
    names: &Names,
    superposition: Superpose,
    copies: &[Name],
) -> Result<Names, AllocError>
    ensures { IfOk result (λ n. n ≡ with_new_names names.now sorts_copied copies.now) }
{
    let mut inside = names.copy(alloc)?;
    match put_names(&mut inside, superposition.made(), copies) {
        Ok(()) => Ok(inside),
        Err(error) => {
            mem::drop(inside);
            Err(error)
        }
    }
}

/// The names of the made objects of an earlier theorem come into scope.
#[tactic(auto, using(crate::proofs::Applied::made_past))]
fn name_shown(
    known: &Theorems,
    names: &mut Names,
    place: usize,
    new: &[Name],
) -> Result<(), AllocError>
    ensures { OnOk result (names.new ≡ with_new_names names.old (theorem_of known.now place).made new.now) }
{
    if place < known.len() {
        put_names(names, known.statement(place).made.items(), new)
    } else {
        Ok(())
    }
}

/// The names of the objects that a step makes come into scope. Those of the block inside it are
/// gone after it.
#[tactic(auto, using(crate::proofs::ScriptTexts::plain))]
pub(crate) fn name_new(known: &Theorems, names: &mut Names, step: &Step) -> Result<(), AllocError>
    ensures { OnOk result (names.new ≡ names_after_step known.now names.old (plain_step step.now)) }
{
    match step {
        Step::Cite(_) | Step::Hence { .. } | Step::Claim { .. } | Step::Superposed { .. } => Ok(()),
        Step::Make {
            construction,
            names: new,
            ..
        } => put_names(names, construction.made(), new.items()),
        Step::Apply {
            theorem,
            names: new,
            ..
        } => name_shown(known, names, *theorem as usize, new.items()),
    }
}
