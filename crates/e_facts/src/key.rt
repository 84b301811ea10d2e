//! The keys by which diagram literals are looked up.

ghost use Rattle.std.specs.Prelude.{◌≡◌, ◌<◌};
ghost use Rattle.std.specs.Hash as fed;
ghost use Rattle.std.specs.Cmp.Rules.{hashing};
ghost use Rattle.std.proofs.Common.{rules};
ghost use Rattle.e_facts.specs.inner.Key as keys;
ghost use Rattle.e_facts.specs.inner.Key.{key_of_lit, parts_of_atom, number_of_key};

use e_literal::{Atom, Lit};
use std::hash::{Hash, Hasher};

/// The relation of a diagram literal.
#[derive(Clone, Copy, PartialEq, Eq)]
pub enum Relation {
    OnLine,
    OnCircle,
    Inside,
    Center,
    Between,
    SameSide,
    LinesMeet,
    LineMeetsCircle,
    CirclesMeet,
    PointsEqual,
    LinesEqual,
    CirclesEqual,
}

/// A diagram literal as a small value: its sign, its relation, and its numbers, with 0 for the
/// third of two.
#[derive(Clone, Copy, PartialEq, Eq)]
pub struct Key {
    pub negated: bool,
    pub relation: Relation,
    pub first: u16,
    pub second: u16,
    pub third: u16,
}

/// The number of a relation.
fn number_of_relation(relation: Relation) -> u64
    ensures is { result ≡ keys.number_of_relation relation }
    ensures below { result < 12 }
{
    match relation {
        Relation::OnLine => 0,
        Relation::OnCircle => 1,
        Relation::Inside => 2,
        Relation::Center => 3,
        Relation::Between => 4,
        Relation::SameSide => 5,
        Relation::LinesMeet => 6,
        Relation::LineMeetsCircle => 7,
        Relation::CirclesMeet => 8,
        Relation::PointsEqual => 9,
        Relation::LinesEqual => 10,
        Relation::CirclesEqual => 11,
    }
}

/// The number of a key: it is hashed at once.
fn number_of(key: &Key) -> u64
    ensures { result ≡ number_of_key key.now }
{
    let sign = if key.negated { 0 } else { 12 };
    let numbers = u64::from(key.first)
        + 65_536 * u64::from(key.second)
        + 4_294_967_296 * u64::from(key.third);
    32 * numbers + number_of_relation(key.relation) + sign
}

impl Hash for Key {
    ghost hash_input = { λ k. fed.u64 (number_of_key k) };

    ghost respects_eq = { Prim.search (hashing, rules) };

    fn hash<H: Hasher>(&self, state: &mut H) {
        state.write_u64(number_of(self));
    }
}

/// The key of a diagram literal; none for a metric one.
pub fn key_of(lit: &Lit) -> Option<Key>
    ensures { result ≡ key_of_lit lit.now }
{
    let (relation, first, second, third) = parts(&lit.atom)?;
    Some(Key {
        negated: lit.neg,
        relation,
        first,
        second,
        third,
    })
}

fn parts(atom: &Atom) -> Option<(Relation, u16, u16, u16)>
    ensures { result ≡ parts_of_atom atom.now }
{
    match atom {
        Atom::On(a, l) => Some((Relation::OnLine, *a, *l, 0)),
        Atom::OnC(a, c) => Some((Relation::OnCircle, *a, *c, 0)),
        Atom::Inside(a, c) => Some((Relation::Inside, *a, *c, 0)),
        Atom::Center(a, c) => Some((Relation::Center, *a, *c, 0)),
        Atom::Between(a, b, c) => Some((Relation::Between, *a, *b, *c)),
        Atom::Same(a, b, l) => Some((Relation::SameSide, *a, *b, *l)),
        Atom::MeetLL(l, m) => Some((Relation::LinesMeet, *l, *m, 0)),
        Atom::MeetLC(l, c) => Some((Relation::LineMeetsCircle, *l, *c, 0)),
        Atom::MeetCC(c, d) => Some((Relation::CirclesMeet, *c, *d, 0)),
        Atom::EqP(a, b) => Some((Relation::PointsEqual, *a, *b, 0)),
        Atom::EqL(l, m) => Some((Relation::LinesEqual, *l, *m, 0)),
        Atom::EqC(c, d) => Some((Relation::CirclesEqual, *c, *d, 0)),
        Atom::MagEq(_, _) | Atom::MagLt(_, _) => None,
    }
}
