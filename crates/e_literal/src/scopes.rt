//! Scopes that grow: new objects take the next numbers of their sort.

ghost use Rattle.std.specs.Prelude.{◌≡◌, ◌<◌, ◌+◌, ◌^◌, length, map, IfOk};
ghost use Rattle.e_literal.specs.Literal.{count_of, is_in_scope};
ghost use Rattle.e_literal.specs.Scopes;
ghost use Rattle.e_literal.specs.Scopes.{same_sort};

use crate::object::{Obj, Scope, Sort};
use std::alloc::{AllocError, Global};

/// The scope with no object.
pub const NOTHING: Scope = Scope {
    points: 0,
    lines: 0,
    circles: 0,
};

/// How many objects of the sort are in scope.
pub fn count(scope: Scope, sort: Sort) -> u16
    ensures { result ≡ count_of scope sort }
{
    match sort {
        Sort::Point => scope.points,
        Sort::Line => scope.lines,
        Sort::Circle => scope.circles,
    }
}

/// Whether the object is in scope: its number is below the count of its sort.
pub fn object_in_scope(scope: Scope, object: Obj) -> bool
    ensures { result ≡ is_in_scope scope object }
{
    object.num < count(scope, object.sort)
}

/// Whether two sorts are the same.
pub fn is_same_sort(a: Sort, b: Sort) -> bool
    ensures { result ≡ same_sort a b }
{
    a == b
}

/// Whether the objects are one for each of these, of its sort, and in scope.
#[tactic(auto, using(crate::proofs::MatchedSorts::matching))]
pub fn have_sorts_of(scope: Scope, models: &[Obj], objects: &[Obj]) -> bool
    ensures { result ≡ Scopes.are_of_sorts scope (map (λ o. o.sort) models.now) objects.now }
{
    match (models, objects) {
        ([], []) => true,
        ([model, models @ ..], [object, objects @ ..]) => {
            model.sort == object.sort
                && object_in_scope(scope, *object)
                && have_sorts_of(scope, models, objects)
        }
        ([], [_, ..]) => false,
        ([_, ..], []) => false,
    }
}

/// The scope with one more object of the sort.
pub fn with_one(scope: Scope, sort: Sort) -> Scope
    requires { count_of scope sort + 1 < 2 ^ 16 }
    ensures { result ≡ Scopes.with_one scope sort }
{
    match sort {
        Sort::Point => Scope {
            points: scope.points + 1,
            ..scope
        },
        Sort::Line => Scope {
            lines: scope.lines + 1,
            ..scope
        },
        Sort::Circle => Scope {
            circles: scope.circles + 1,
            ..scope
        },
    }
}

/// The scope with one more object for each sort of the list.
#[tactic(auto, using(crate::proofs::GrownScopes::growing))]
pub fn with_sorts(scope: Scope, sorts: &[Sort]) -> Scope
    requires points { scope.points + length sorts.now < 2 ^ 16 }
    requires lines { scope.lines + length sorts.now < 2 ^ 16 }
    requires circles { scope.circles + length sorts.now < 2 ^ 16 }
    ensures { result ≡ Scopes.with_sorts scope sorts.now }
{
    let mut scope = scope;
    for sort in sorts {
        scope = with_one(scope, *sort);
    }
    scope
}

/// The objects that come next, one for each sort of the list.
///
/// It fails only when out of memory.
#[tactic(auto, using(crate::proofs::GrownScopes::growing))]
pub fn next_objects(alloc: Global, scope: Scope, sorts: &[Sort]) -> Result<Vec<Obj>, AllocError>
    requires points { scope.points + length sorts.now < 2 ^ 16 }
    requires lines { scope.lines + length sorts.now < 2 ^ 16 }
    requires circles { scope.circles + length sorts.now < 2 ^ 16 }
    ensures { IfOk result (λ objects. objects.items ≡ Scopes.next_objects scope sorts.now) }
{
    let mut scope = scope;
    let mut objects = Vec::new(alloc);
    for sort in sorts {
        objects.push(Obj {
            sort: *sort,
            num: count(scope, *sort),
        })?;
        scope = with_one(scope, *sort);
    }
    Ok(objects)
}
