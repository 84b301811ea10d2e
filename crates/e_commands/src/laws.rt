//! What follows from the definitions of books and their outcomes.
ghost use Rattle.e_commands.specs.Laws.{BooksHaveOneOutcome, RefusalIsOutcome, TooWideIsWide};
ghost use Rattle.e_commands.specs.Laws.{SuggestionsAreOne, WaysAreOne};

/// A book has one outcome.
pub fn books_have_one_outcome()
    ensures { BooksHaveOneOutcome }
{}

/// Where the next theorem of a book is refused, the book's outcome is that stop.
pub fn refusal_is_outcome()
    ensures { RefusalIsOutcome }
{}

/// Where `check` may answer that a step is too wide, a step of the book that is reached is wide.
pub fn too_wide_is_wide()
    ensures { TooWideIsWide }
{}

/// The way to a step of a theorem of a book has one outcome: that the step is reached, that there
/// is none, or the stop or the fault before it.
pub fn ways_are_one()
    ensures { WaysAreOne }
{}

/// What is suggested at a step of a theorem of a book is one.
pub fn suggestions_are_one()
    ensures { SuggestionsAreOne }
{}
