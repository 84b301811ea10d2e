//! The use of an earlier theorem, with the objects of its names.
ghost use Rattle.std.specs.Prelude.{◌≡◌, ◌<◌, ◌≤◌, IfOk, length};
ghost use Rattle.e_line.specs.Reading.{Gives};
ghost use Rattle.e_names.specs.TitledStatements.{place_in};
ghost use Rattle.e_line.specs.Limits.{most_theorems};
ghost use Rattle.e_names.specs.Scope.{FewNames};
ghost use Rattle.e_names.specs.Applies.{known_place, entry_in, entries_in, apply_in, count_blanks};

use crate::scope::{fresh, object_as};
use crate::theorems::Theorems;
use e_deriv::Names;
use e_line::{FaultKind, LineError, RawApply};
use e_literal::{Items, Obj, Sort};
use e_text::{Name, Title};
use std::alloc::Global;

/// The place of the earlier theorem with this title.
fn place_of_title(known: &Theorems, title: Title) -> Result<usize, LineError>
    ensures value { Gives (λ k. k) result (known_place (place_in known.now title)) }
    ensures within { IfOk result (λ k. k < length known.now) }
{
    match known.place(title) {
        Some(place) => Ok(place),
        None => Err(LineError::Fault(FaultKind::UnknownName)),
    }
}

/// What is given for a declared object of a sort: an object of this sort, or a blank.
fn entry_in(names: &Names, sort: Sort, name: Option<Name>) -> Result<Option<Obj>, LineError>
    requires { FewNames names.now }
    ensures { Gives (λ o. o) result (entry_in names.now sort name) }
{
    match name {
        None => Ok(None),
        Some(name) => {
            let object = object_as(names, sort, name)?;
            Ok(Some(object))
        }
    }
}

/// An entry for each declared object.
fn entries_in(
    alloc: Global,
    names: &Names,
    sorts: &[Sort],
    of: &[Option<Name>],
) -> Result<Items<Option<Obj>>, LineError>
    requires { FewNames names.now }
    ensures { Gives (λ p. p) result (entries_in names.now sorts.now of.now) }
{
    let mut found = Items::new(Vec::with_capacity(alloc, of.len())?);
    for (sort, name) in sorts.iter().zip(of) {
        let entry = entry_in(names, *sort, *name)?;
        found.push(entry)?;
    }
    Ok(found)
}

/// How many of the entries are blanks.
pub fn count_blanks(pattern: &[Option<Obj>]) -> usize
    ensures { result ≡ count_blanks pattern.now }
{
    pattern.iter().filter(|entry| entry.is_none()).count()
}

/// The place of an earlier theorem, and what is given for its declared objects.
#[derive(Drop)]
pub struct Application {
    pub theorem: u32,
    pub args: Items<Option<Obj>>,
}

/// The title, then how many arguments and new names there are, then the arguments, then the new
/// names; the leftmost fault.
#[tactic(auto, unfolding(crate::specs::Applies::apply_in))]
pub fn apply_in(
    alloc: Global,
    known: &Theorems,
    names: &Names,
    raw: &RawApply,
) -> Result<Application, LineError>
    requires known { length known.now ≤ most_theorems }
    requires names { FewNames names.now }
    ensures value { Gives (λ a. (a.theorem, a.args)) result (apply_in known.now names.now raw.now) }
    ensures within { IfOk result (λ a. a.theorem < length known.now) }
{
    let place = place_of_title(known, raw.title)?;
    let statement = known.statement(place);
    if raw.args.len() != statement.declared.len() || raw.new.len() != statement.made.len() {
        return Err(LineError::Fault(FaultKind::Malformed));
    }
    let args = entries_in(alloc, names, statement.declared.items(), raw.args.items())?;
    fresh(names, raw.new.items())?;
    Ok(Application {
        theorem: place as u32,
        args,
    })
}
