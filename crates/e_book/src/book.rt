//! A book, theorem by theorem and definition by definition.
ghost use Rattle.std.specs.Prelude.{◌≡◌, ◌<◌, ◌^◌, length, None, IfOk};
ghost use Rattle.std.specs.Prelude.{OnOk, IfSome, OnSome, IsTrue};
ghost use Rattle.std.specs.List.{list_all};
ghost use Rattle.e_deriv.specs.Fitting.{is_small_statement};
ghost use Rattle.e_names.specs.TitledStatements.{stated_by};
ghost use Rattle.e_names.specs.Titled.{are_notions};
ghost use Rattle.e_book.specs.Grammar.{last_line};
ghost use Rattle.e_book.specs.Definitions.{item_from, BookReads, HasWellFormedView, IsFittingItem};
ghost use Rattle.e_book.specs.inner.Machine as machine;

use crate::item::Item;
use crate::reading::Reading;
use e_line::BookFault;
use e_names::Known;
use e_text::Lines;
use std::alloc::Global;
use std::mem;

/// The theorem or the definition that ends in these lines, or what is wrong where they end inside
/// one.
fn read_with(
    alloc: Global,
    reading: &mut Reading,
    lines: &mut Lines,
    known: &Known,
) -> Result<Option<Item>, BookFault>
    requires begins { reading.old.partial_item ≡ None }
    requires notions { IsTrue (are_notions known.now.notions) }
    requires lines { last_line lines.old < 2 ^ 32 }
    ensures read { BookReads result lines.new
        (machine.item_from known.now (last_line lines.old) None lines.old.lines) }
    ensures last { OnOk result (last_line lines.new ≡ last_line lines.old) }
    ensures shorter { IfOk result
        (λ t. OnSome t (length lines.new.lines < length lines.old.lines)) }
{
    match reading.read(alloc, lines, known)? {
        Some(item) => Ok(Some(item)),
        None => {
            reading.end(lines.line())?;
            Ok(None)
        }
    }
}

/// The next theorem or definition, or nothing where only skipped lines are left.
///
/// It takes the lines up to its `end`. A fault is the first of the book from here on, and after it
/// the lines are not used again. The lines are those of a text with at most `LONGEST_LINE` bytes a
/// line and `MOST_BYTES` bytes in all. The known theorems are statements and the known notions mean
/// something of their declared objects, as each is that is read.
pub fn next_item(alloc: Global, lines: &mut Lines, known: &Known) -> Result<Option<Item>, BookFault>
    requires lines { last_line lines.old < 2 ^ 32 }
    requires theorems { IsTrue (list_all is_small_statement (stated_by known.now.theorems)) }
    requires notions { IsTrue (are_notions known.now.notions) }
    ensures read { BookReads result lines.new
        (item_from known.now (last_line lines.old) None lines.old.lines) }
    ensures last { OnOk result (last_line lines.new ≡ last_line lines.old) }
    ensures shorter { IfOk result
        (λ t. OnSome t (length lines.new.lines < length lines.old.lines)) }
    ensures good { IfOk result (λ o. IfSome o (HasWellFormedView known.now)) }
    ensures fitting { IfOk result (λ o. IfSome o (IsFittingItem known.now)) }
{
    let mut reading = Reading::new();
    let read = read_with(alloc, &mut reading, lines, known);
    mem::drop(reading);
    read
}
