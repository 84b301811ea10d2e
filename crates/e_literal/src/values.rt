//! Values of terms.

ghost use Rattle.std.specs.Prelude.{◌≡◌};

use crate::object::Term;
use std::marker::Model;

/// Whole numbers for some terms, as an assignment gives them; contracts see the list of the pairs.
#[derive(Drop)]
pub struct Values {
    pairs: Vec<(Term, u128)>,
}

impl Model for Values {
    ghost use Rattle.std.specs.Prelude.{List, ℕ};
    ghost use Rattle.e_literal.specs.declared.object.Term.{Term};

    ghost Value = { List (Term × ℕ) };

    ghost view = { λ v. v.pairs.items };
}

impl Values {
    /// The list of these pairs.
    pub fn new(items: Vec<(Term, u128)>) -> Self
        ensures { result ≡ items.items }
    {
        Values { pairs: items }
    }

    /// The pairs, in order.
    pub fn items(&self) -> &[(Term, u128)]
        ensures { result.now ≡ self.now }
    {
        self.pairs.as_slice()
    }
}
