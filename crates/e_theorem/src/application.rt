//! The use of a statement: its literals at arguments for the declared objects and new objects for
//! the made ones.

ghost use Rattle.std.specs.Prelude.{◌≡◌, ◌<◌, ◌+◌, ◌^◌, ◌++◌, IsTrue, IfOk};
ghost use Rattle.std.specs.Prelude.{IfErr, length, take, map as map_list};
ghost use Rattle.e_literal.specs.declared.object.Obj.{Obj as Object};
ghost use Rattle.e_literal.specs.Rename.{image_in, with_images as at_images};
ghost use Rattle.e_literal.specs.Scopes;
ghost use Rattle.e_literal.specs.Use.{are_arguments, image_in_use, needs_of_use, gives_of_use};
ghost use Rattle.e_literal.specs.Use.{scope_of};
ghost use Rattle.e_theorem.specs.Statements.{as_view};
ghost use Rattle.e_theorem.specs.Faults.{UseFaultIs};
ghost use Rattle.e_theorem.specs.Notions.{as_stated, literals_of_notion};
ghost use Rattle.e_theorem.specs.declared.application.UseFault.TheVariants.{NoMemory};

use crate::notion::Notion;
use crate::statement::Statement;
use e_literal::{
    Items, Lit, Map, NOTHING, Obj, Scope, Sort, count, next_objects, with_images, with_sorts,
};
use std::alloc::{AllocError, Global};
use thiserror::Error;

/// What a use of a statement needs and gives, each in the statement's order.
#[derive(Drop)]
pub struct Applied {
    pub needs: Items<Lit>,
    pub gives: Items<Lit>,
}

/// Why a statement has no use at some arguments.
#[derive(Debug, Drop, PartialEq, Eq, Error)]
pub enum UseFault {
    /// They are not one object in scope for each declared object, of its sort.
    #[error("the arguments do not fit the declared objects")]
    BadArgs,
    /// Out of memory.
    #[error("out of memory")]
    NoMemory,
}

impl From<AllocError> for UseFault {
    ghost from_gives = { λ _ e. e ≡ NoMemory };

    fn from(_e: AllocError) -> UseFault {
        UseFault::NoMemory
    }
}

/// The use of the statement at these arguments: its given literals with the arguments for the
/// declared objects, and its shown literals with the next objects of the scope for the made ones
/// too.
///
/// `BadArgs` exactly where the arguments are not one object in scope for each declared object, of
/// its sort.
pub fn use_of(
    alloc: Global,
    statement: &Statement,
    args: &[Obj],
    scope: Scope,
) -> Result<Applied, UseFault>
    requires few { length statement.now.declared + length statement.now.made < 2 ^ 16 }
    requires points { scope.points + length statement.now.made < 2 ^ 16 }
    requires lines { scope.lines + length statement.now.made < 2 ^ 16 }
    requires circles { scope.circles + length statement.now.made < 2 ^ 16 }
    ensures fit { IfOk result (λ _. IsTrue (are_arguments (as_view statement.now) scope args.now)) }
    ensures needs { IfOk result
        (λ a. a.needs ≡ needs_of_use (as_view statement.now) args.now scope) }
    ensures gives { IfOk result
        (λ a. a.gives ≡ gives_of_use (as_view statement.now) args.now scope) }
    ensures err { IfErr result (UseFaultIs (as_view statement.now) args.now scope) }
{
    if !are_of_sorts(scope, statement.declared.items(), args) {
        return Err(UseFault::BadArgs);
    }
    let images = images(alloc, statement, args, scope)?;
    Ok(Applied {
        needs: at(alloc, statement.given.items(), &images)?,
        gives: at(alloc, statement.shown.items(), &images)?,
    })
}

/// What a notion says of these arguments: its literals with the arguments for its declared objects,
/// in order.
///
/// `BadArgs` exactly where the arguments are not one object in scope for each declared object, of
/// its sort.
pub fn expand(
    alloc: Global,
    notion: &Notion,
    args: &[Obj],
    scope: Scope,
) -> Result<Items<Lit>, UseFault>
    requires few { length notion.now.declared < 2 ^ 16 }
    ensures fit { IfOk result (λ _. IsTrue (are_arguments (as_stated notion.now) scope args.now)) }
    ensures lits { IfOk result (λ ls. ls ≡ literals_of_notion notion.now args.now scope) }
    ensures err { IfErr result (UseFaultIs (as_stated notion.now) args.now scope) }
{
    expand_first(alloc, notion, args, scope, notion.means.len())
}

/// The first `most` literals of what a notion says of these arguments, or all where there are
/// fewer; `BadArgs` as `expand`.
pub fn expand_first(
    alloc: Global,
    notion: &Notion,
    args: &[Obj],
    scope: Scope,
    most: usize,
) -> Result<Items<Lit>, UseFault>
    requires few { length notion.now.declared < 2 ^ 16 }
    ensures fit { IfOk result (λ _. IsTrue (are_arguments (as_stated notion.now) scope args.now)) }
    ensures lits { IfOk result (λ ls. ls ≡ take most (literals_of_notion notion.now args.now scope)) }
    ensures err { IfErr result (UseFaultIs (as_stated notion.now) args.now scope) }
{
    if !are_of_sorts(scope, notion.declared.items(), args) {
        return Err(UseFault::BadArgs);
    }
    let images = images_declared(alloc, notion, args, scope)?;
    let first = most.min(notion.means.len());
    Ok(at(alloc, &notion.means.items()[..first], &images)?)
}

// The images of a notion's objects: the arguments.
fn images_declared(
    alloc: Global,
    notion: &Notion,
    args: &[Obj],
    scope: Scope,
) -> Result<Map, AllocError>
    requires fit { IsTrue (are_arguments (as_stated notion.now) scope args.now) }
    requires few { length notion.now.declared < 2 ^ 16 }
    ensures { IfOk result
        (λ m. (o : Object) → image_in m o ≡ image_in_use (as_stated notion.now) args.now scope o) }
{
    let sources = next_objects(alloc, NOTHING, notion.declared.items())?;
    let images = Map::of_pairs(alloc, &sources, args)?;
    Ok(images)
}

// The images of the statement's objects: the arguments, and the next objects of the scope.
fn images(
    alloc: Global,
    statement: &Statement,
    args: &[Obj],
    scope: Scope,
) -> Result<Map, AllocError>
    requires fit { IsTrue (are_arguments (as_view statement.now) scope args.now) }
    requires few { length statement.now.declared + length statement.now.made < 2 ^ 16 }
    requires points { scope.points + length statement.now.made < 2 ^ 16 }
    requires lines { scope.lines + length statement.now.made < 2 ^ 16 }
    requires circles { scope.circles + length statement.now.made < 2 ^ 16 }
    ensures { IfOk result
        (λ m. (o : Object) → image_in m o ≡ image_in_use (as_view statement.now) args.now scope o) }
{
    let sources = objects(alloc, statement)?;
    let mut targets = Vec::from_slice(alloc, args)?;
    targets.extend_from_slice(&next_objects(alloc, scope, statement.made.items())?)?;
    let images = Map::of_pairs(alloc, &sources, &targets)?;
    Ok(images)
}

// The declared and the made objects.
fn objects(alloc: Global, statement: &Statement) -> Result<Vec<Obj>, AllocError>
    requires few { length statement.now.declared + length statement.now.made < 2 ^ 16 }
    ensures { IfOk result
        (λ os. os.items ≡ Scopes.next_objects Scopes.nothing statement.now.declared
        ++ Scopes.next_objects (scope_of (as_view statement.now)) statement.now.made) }
{
    let declared = statement.declared.items();
    let mut objects = next_objects(alloc, NOTHING, declared)?;
    let made = next_objects(alloc, with_sorts(NOTHING, declared), statement.made.items())?;
    objects.extend_from_slice(&made)?;
    Ok(objects)
}

// The literals with the images of their objects.
fn at(alloc: Global, lits: &[Lit], images: &Map) -> Result<Items<Lit>, AllocError>
    ensures { IfOk result (λ ls. ls ≡ map_list (at_images (image_in images.now)) lits.now) }
{
    let at = all_renamed(alloc, lits, images)?;
    Ok(Items::new(at))
}

/// The literals with the images of their objects, in their order. It fails only out of memory.
pub fn all_renamed(alloc: Global, lits: &[Lit], images: &Map) -> Result<Vec<Lit>, AllocError>
    ensures { IfOk result (λ ls. ls.items ≡ map_list (at_images (image_in images.now)) lits.now) }
{
    let mut with = Vec::with_capacity(alloc, lits.len())?;
    for lit in lits {
        with.push(with_images(alloc, lit, images)?)?;
    }
    Ok(with)
}

// Whether the objects are as many as the sorts, of these sorts, and in scope.
#[tactic(auto, using(crate::proofs::Imaging::objects))]
fn are_of_sorts(scope: Scope, sorts: &[Sort], objects: &[Obj]) -> bool
    ensures { result ≡ Scopes.are_of_sorts scope sorts.now objects.now }
{
    match (sorts, objects) {
        ([], []) => true,
        ([sort, sorts @ ..], [object, objects @ ..]) => {
            *sort == object.sort
                && object.num < count(scope, object.sort)
                && are_of_sorts(scope, sorts, objects)
        }
        ([], [_, ..]) => false,
        ([_, ..], []) => false,
    }
}
