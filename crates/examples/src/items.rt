//! Books.

ghost use Rattle.std.specs.Prelude.{◌≤◌, ◌^◌, length, IsTrue};
ghost use Rattle.std.specs.List.{list_all};
ghost use Rattle.e_deriv.specs.Fitting.{is_small_statement};
ghost use Rattle.e_names.specs.TitledStatements.{stated_by};
ghost use Rattle.e_names.specs.Titled.{are_notions};
ghost use Rattle.examples.specs.FirstItem.{IsFirstItem};

use e_book::{BookFault, Item, Known, LONGEST_LINE, MOST_BYTES, next_item};
use e_text::Lines;
use std::alloc::Global;

/// The first theorem or definition of a book, or nothing where it has none. What it says of earlier
/// ones is asked of what is known.
pub fn first_item(alloc: Global, known: &Known, text: &[u8]) -> Result<Option<Item>, BookFault>
    requires few { length text.now ≤ 2 ^ 31 }
    requires theorems { IsTrue (list_all is_small_statement (stated_by known.now.theorems)) }
    requires notions { IsTrue (are_notions known.now.notions) }
    ensures { IsFirstItem known.now text.now result }
{
    let mut lines = Lines::new(text, LONGEST_LINE, MOST_BYTES);
    next_item(alloc, &mut lines, known)
}
