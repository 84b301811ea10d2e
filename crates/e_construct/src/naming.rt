//! The objects for the variables of a shape.

ghost use Rattle.std.specs.Prelude.{◌≡◌, false};
ghost use Rattle.e_literal.specs.Rename.{image_in, pairs_of, number_at, with_images};
ghost use Rattle.e_literal.specs.declared.object.Sort.TheVariants.{Point, Line, Circle};
ghost use Rattle.e_construct.specs.inner.Views.{atom_of_relation, lit_of_shape_pattern, image_of};

use crate::pattern::{Pattern, Relation};
use e_literal::{Atom, Lit, Obj, Sort, is_same_object};

/// The arguments in the places of their variables, and the new objects in the places of theirs.
#[derive(Clone, Copy)]
pub struct Naming<'a> {
    pub letters: &'a [Obj],
    pub objects: &'a [Obj],
    pub new_letters: &'a [Obj],
    pub new_objects: &'a [Obj],
}

impl<'a> Naming<'a> {
    /// The literal with the objects for its variables.
    pub fn literal(&self, pattern: &Pattern) -> Lit
        ensures { result ≡ with_images (image_of self.now) (lit_of_shape_pattern pattern.now) }
    {
        match pattern {
            Pattern::Is(relation) => Lit {
                neg: false,
                atom: self.atom(relation),
            },
            Pattern::Not(relation) => Lit {
                neg: true,
                atom: self.atom(relation),
            },
        }
    }

    fn atom(&self, relation: &Relation) -> Atom
        ensures { result ≡ (with_images (image_of self.now) (record {
          neg = false;
          atom = atom_of_relation relation.now;
        })).atom }
    {
        match relation {
            Relation::On(x, y) => Atom::On(self.point(*x), self.line(*y)),
            Relation::OnC(x, y) => Atom::OnC(self.point(*x), self.circle(*y)),
            Relation::Inside(x, y) => Atom::Inside(self.point(*x), self.circle(*y)),
            Relation::Center(x, y) => Atom::Center(self.point(*x), self.circle(*y)),
            Relation::Between(x, y, z) => {
                Atom::Between(self.point(*x), self.point(*y), self.point(*z))
            }
            Relation::Same(x, y, z) => Atom::Same(self.point(*x), self.point(*y), self.line(*z)),
            Relation::MeetLL(x, y) => Atom::MeetLL(self.line(*x), self.line(*y)),
            Relation::MeetLC(x, y) => Atom::MeetLC(self.line(*x), self.circle(*y)),
            Relation::MeetCC(x, y) => Atom::MeetCC(self.circle(*x), self.circle(*y)),
            Relation::EqP(x, y) => Atom::EqP(self.point(*x), self.point(*y)),
        }
    }

    fn point(&self, letter: Obj) -> u16
        ensures { result ≡ number_at (image_of self.now) Point letter.num }
    {
        self.number(Sort::Point, letter.num)
    }

    fn line(&self, letter: Obj) -> u16
        ensures { result ≡ number_at (image_of self.now) Line letter.num }
    {
        self.number(Sort::Line, letter.num)
    }

    fn circle(&self, letter: Obj) -> u16
        ensures { result ≡ number_at (image_of self.now) Circle letter.num }
    {
        self.number(Sort::Circle, letter.num)
    }

    /// The number of the object for a variable, which keeps its own where there is none.
    #[tactic(auto, using(crate::proofs::Images::namings))]
    fn number(&self, sort: Sort, num: u16) -> u16
        ensures { result ≡ number_at (image_of self.now) sort num }
    {
        let letter = Obj { sort, num };
        match image(self.letters, self.objects, letter) {
            Some(object) => object.num,
            None => match image(self.new_letters, self.new_objects, letter) {
                Some(object) => object.num,
                None => num,
            },
        }
    }
}

/// The object in the place that the variable has among the variables. Unlike a map it takes objects
/// of any sorts and any number, as a construction that does not fit has them.
pub fn image(letters: &[Obj], objects: &[Obj], letter: Obj) -> Option<Obj>
    ensures { result ≡ image_in (pairs_of letters.now objects.now) letter }
{
    for (name, object) in letters.iter().zip(objects) {
        if is_same_object(*name, letter) {
            return Some(*object);
        }
    }
    None
}
