//! Images of objects.

ghost use Rattle.std.specs.Prelude.{◌≡◌, [], ◌∷◌, if◌then◌else◌, OnOk, OnErr, IfOk, Some};
ghost use Rattle.std.specs.Prelude.{is_some, map};
ghost use Rattle.e_literal.specs.declared.object.Obj.{Obj};
ghost use Rattle.e_literal.specs.Literal.{obj};
ghost use Rattle.e_literal.specs.Rename.{image_in, number_at, pairs_of, same_obj};

use crate::object::{Obj, Sort};
use std::alloc::{AllocError, Global};
use std::marker::Model;

/// An object and its image.
#[derive(Clone, Copy)]
pub struct Entry {
    pub source: Obj,
    pub target: Obj,
}

/// A finite map from objects to objects of their sorts.
///
/// Contracts see the list of what was set, the last first; the image of an object is that of the
/// first entry with it.
#[derive(Drop)]
pub struct Map {
    entries: Vec<Entry>,
}

impl Model for Map {
    ghost use Rattle.std.specs.Prelude.{List};
    ghost use Rattle.e_literal.specs.declared.map.Entry.{Entry};

    ghost Value = { List Entry };

    ghost view = { λ m. m.entries.items };
}

impl Map {
    /// The map in which no object has an image.
    pub fn new(alloc: Global) -> Self
        ensures { result ≡ [] }
    {
        Map {
            entries: Vec::new(alloc),
        }
    }

    /// The map that sends each object to the one in its place, and an object that comes twice to
    /// that of its first place.
    ///
    /// It fails only when out of memory.
    pub fn of_pairs(alloc: Global, from: &[Obj], to: &[Obj]) -> Result<Self, AllocError>
        requires one_sort { map (λ o. o.sort) from.now ≡ map (λ o. o.sort) to.now }
        ensures { IfOk result (λ m. m ≡ pairs_of from.now to.now) }
    {
        let mut entries = Vec::with_capacity(alloc, from.len())?;
        for (source, target) in from.iter().zip(to) {
            entries.push(Entry {
                source: *source,
                target: *target,
            })?;
        }
        Ok(Map { entries })
    }

    /// The map with these entries, where the first one of an object counts.
    pub fn of_entries(entries: Vec<Entry>) -> Self
        requires one_sort { map (λ e. e.source.sort) entries.items
            ≡ map (λ e. e.target.sort) entries.items }
        ensures { result ≡ entries.items }
    {
        Map { entries }
    }

    /// From now on `to` is the image of `from`, and each other object keeps its image.
    ///
    /// It fails only when out of memory, and then the map is as before.
    pub fn set(&mut self, from: Obj, to: Obj) -> Result<(), AllocError>
        requires one_sort { from.sort ≡ to.sort }
        ensures ok { OnOk result (self.new ≡ record { source = from; target = to } ∷ self.old) }
        ensures images { OnOk result ((o : Obj) → image_in self.new o
            ≡ (if same_obj from o then Some to else image_in self.old o)) }
        ensures err { OnErr result (self.new ≡ self.old) }
    {
        let entry = Entry {
            source: from,
            target: to,
        };
        self.entries.insert(0, entry)?;
        Ok(())
    }

    /// The image of an object, if it has one.
    pub fn image(&self, object: Obj) -> Option<Obj>
        ensures { result ≡ image_in self.now object }
    {
        image_among(&self.entries, object)
    }

    /// Whether the object with this number has an image.
    pub(crate) fn has_image(&self, sort: Sort, number: u16) -> bool
        ensures { result ≡ is_some (image_in self.now (obj sort number)) }
    {
        self.image(Obj { sort, num: number }).is_some()
    }

    /// The number of the image; an object without image keeps its own.
    pub(crate) fn number(&self, sort: Sort, number: u16) -> u16
        ensures { result ≡ number_at (image_in self.now) sort number }
    {
        match self.image(Obj { sort, num: number }) {
            Some(image) => image.num,
            None => number,
        }
    }
}

fn image_among(entries: &[Entry], object: Obj) -> Option<Obj>
    ensures { result ≡ image_in entries.now object }
{
    for entry in entries {
        if is_same_object(entry.source, object) {
            return Some(entry.target);
        }
    }
    None
}

/// Whether two objects are the same.
pub fn is_same_object(a: Obj, b: Obj) -> bool
    ensures { result ≡ same_obj a b }
{
    a == b
}
