//! The arguments of an application, and the literals of a goal, as a check or a licence needs them.
ghost use Rattle.std.specs.Prelude.{◌≡◌, IfOk, Some, None, map, if◌then◌else◌};
ghost use Rattle.std.specs.Option.{option_map};
ghost use Rattle.e_deriv.specs.Goal.{goal_view, goal_with};
ghost use Rattle.e_deriv.specs.Parts.{args_written, has_no_blank};

use crate::block::Goal;
use e_literal::{Lit, Map, Obj};
use e_theorem::all_renamed;
use std::alloc::{AllocError, Global};

/// The arguments, or none where one of them is a blank.
pub fn written_args(alloc: Global, args: &[Option<Obj>]) -> Result<Option<Vec<Obj>>, AllocError>
    ensures { IfOk result (λ o. option_map (λ v. v.items) o
        ≡ (if has_no_blank args.now then Some (args_written args.now) else None)) }
{
    let mut objects = Vec::new(alloc);
    for arg in args {
        let Some(object) = arg else {
            return Ok(None);
        };
        objects.push(*object)?;
    }
    Ok(Some(objects))
}

/// The literals of the goal with these objects for its made ones.
pub fn goal_with(alloc: Global, goal: &Goal, objects: &[Obj]) -> Result<Vec<Lit>, AllocError>
    requires one_sort { map (λ o. o.sort) goal.now.made.now ≡ map (λ o. o.sort) objects.now }
    ensures { IfOk result (λ lits. lits.items ≡ goal_with (goal_view goal.now) objects.now) }
{
    let images = Map::of_pairs(alloc, goal.made, objects)?;
    all_renamed(alloc, goal.shown, &images)
}
