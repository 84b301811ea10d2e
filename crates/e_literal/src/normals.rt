//! The type of normal forms.

ghost use Rattle.std.specs.Prelude.{◌≡◌, ◌↔◌, IsTrue};
ghost use Rattle.e_literal.specs.declared.literal.Lit.{Lit};
ghost use Rattle.e_literal.specs.Same.{same_lit};
ghost use Rattle.e_literal.specs.NormalForm.{normal_form};
ghost use Rattle.e_literal.specs.Normal.{form_of};

use crate::object::Term;
use std::collections::BTreeMap;

/// The normal form of a literal. Those of two literals are equal exactly where the literals are the
/// same.
///
/// A diagram literal is its own normal form. Of a metric one all terms are on one side, each in its
/// normal order and once, and those with coefficient 0 are dropped; an equation has one normal form
/// for both signs.
#[derive(PartialEq, Eq, Drop)]
pub struct Normal {
    pub(crate) negated: bool,
    pub(crate) atom: NormalAtom,
}

/// An atom with its two sums in one.
#[derive(PartialEq, Eq, Drop)]
pub(crate) enum NormalAtom {
    On(u16, u16),
    OnC(u16, u16),
    Inside(u16, u16),
    Center(u16, u16),
    Between(u16, u16, u16),
    Same(u16, u16, u16),
    MeetLL(u16, u16),
    MeetLC(u16, u16),
    MeetCC(u16, u16),
    EqP(u16, u16),
    EqL(u16, u16),
    EqC(u16, u16),
    MagEq(BTreeMap<Term, i128>),
    MagLt(BTreeMap<Term, i128>),
}

impl Normal {
    /// Whether the two are equal, as `==` answers: exactly where they are the normal forms of
    /// literals that are the same.
    pub fn is_equal(&self, other: &Normal) -> bool
        ensures decides { IsTrue result ↔ (form_of self.now ≡ form_of other.now) }
        ensures same { (a b : Lit) → form_of self.now ≡ normal_form a
            → form_of other.now ≡ normal_form b → result ≡ same_lit a b }
    {
        self == other
    }
}

/// A law: the normal forms of two literals are equal exactly where the literals are the same.
pub fn equal_normal_forms_are_same()
    ensures { (a b : Lit) → (normal_form a ≡ normal_form b) ↔ IsTrue (same_lit a b) }
{}
