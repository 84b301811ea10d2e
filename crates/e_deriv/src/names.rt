//! The names of objects.
ghost use Rattle.std.specs.Prelude.{◌≡◌, [], ◌∷◌, ◌++◌, OnOk, OnErr, IfOk, take};
ghost use Rattle.e_deriv.specs.Naming.{first_names, names_of_sort, with_names};

use e_literal::{Items, Scope, Sort};
use e_text::Name;
use std::alloc::{AllocError, Global};

/// The names of the objects of each sort, in the order of their numbers.
#[derive(Drop)]
pub struct Names {
    pub points: Items<Name>,
    pub lines: Items<Name>,
    pub circles: Items<Name>,
}

impl Names {
    /// The names of the objects of the sort.
    pub fn of_sort(&self, sort: Sort) -> &[Name]
        ensures { result.now ≡ names_of_sort self.now sort }
    {
        match sort {
            Sort::Point => self.points.items(),
            Sort::Line => self.lines.items(),
            Sort::Circle => self.circles.items(),
        }
    }

    /// Puts a name last among those of the sort. It fails only out of memory, and then the names
    /// are as before.
    pub fn push(&mut self, sort: Sort, name: Name) -> Result<(), AllocError>
        ensures ok { OnOk result
            (self.new ≡ with_names self.old sort (names_of_sort self.old sort ++ name ∷ [])) }
        ensures err { OnErr result (self.new ≡ self.old) }
    {
        match sort {
            Sort::Point => self.points.push(name),
            Sort::Line => self.lines.push(name),
            Sort::Circle => self.circles.push(name),
        }
    }

    /// Equal names. It fails only out of memory.
    pub fn copy(&self, alloc: Global) -> Result<Names, AllocError>
        ensures { IfOk result (λ n. n ≡ self.now) }
    {
        Ok(Names {
            points: Items::new(Vec::from_slice(alloc, self.points.items())?),
            lines: Items::new(Vec::from_slice(alloc, self.lines.items())?),
            circles: Items::new(Vec::from_slice(alloc, self.circles.items())?),
        })
    }

    /// Equal names of the objects of the scope, which are the first ones of each sort. It fails
    /// only out of memory.
    pub fn first(&self, alloc: Global, scope: Scope) -> Result<Names, AllocError>
        ensures { IfOk result (λ n. n ≡ first_names scope self.now) }
    {
        Ok(Names {
            points: first_of(alloc, self.points.items(), scope.points)?,
            lines: first_of(alloc, self.lines.items(), scope.lines)?,
            circles: first_of(alloc, self.circles.items(), scope.circles)?,
        })
    }
}

fn first_of(alloc: Global, names: &[Name], count: u16) -> Result<Items<Name>, AllocError>
    ensures { IfOk result (λ n. n ≡ take count names.now) }
{
    let end = names.len().min(usize::from(count));
    Ok(Items::new(Vec::from_slice(alloc, &names[..end])?))
}
