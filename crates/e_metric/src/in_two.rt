//! Lists in two parts.

ghost use Rattle.std.specs.Prelude.{◌≡◌, ◌++◌, ◌<◌, get_or, length};

use std::marker::Model;

/// A list in two parts, which contracts see as one.
#[derive(Drop)]
pub struct InTwo<'a, T> {
    first: &'a [T],
    more: &'a [T],
}

impl<'a, T> Model for InTwo<'a, T> {
    ghost use Rattle.std.specs.Prelude.{List, ◌++◌};

    ghost Value = { List T };

    ghost view = { λ p. p.first.now ++ p.more.now };
}

impl<'a, T> InTwo<'a, T> {
    /// The list of these, one after the other.
    pub fn new(first: &'a [T], more: &'a [T]) -> InTwo<'a, T>
        ensures { result ≡ first.now ++ more.now }
    {
        InTwo { first, more }
    }

    /// What is at a place.
    pub fn at(&self, place: usize) -> &'a T
        requires { place < length self.now }
        ensures { (d : T) → result.now ≡ get_or self.now place d }
    {
        let count = self.first.len();
        if place < count {
            &self.first[place]
        } else {
            &self.more[place - count]
        }
    }
}
