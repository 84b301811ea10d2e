//! What holds of reading: each law is the contract of a function.
ghost use Rattle.e_read.specs.Laws.{DerivationsAreOfBooks, GarbledLineIsFirst};

/// A theorem that is read with its derivation is, without the lines of certificates, that theorem
/// of a book.
pub fn derivations_are_of_books()
    ensures { DerivationsAreOfBooks }
{}

/// The garbled line is the first that is malformed at its place, and depends on the lines up to it
/// alone; or no line is wrong, and they end too soon.
pub fn garbled_line_is_first()
    ensures { GarbledLineIsFirst }
{}
