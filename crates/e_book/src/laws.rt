//! What holds of the grammar: each law is the contract of a function.
ghost use Rattle.e_book.specs.Laws.{CanonicalLinesAreRead, ReadTheoremsHaveASpelling};
ghost use Rattle.e_book.specs.Laws.{ReadDefinitionsAreNotions, LiteralsAreReadAsNamed};
ghost use Rattle.e_book.specs.Laws.{FaultIsFirst, FaultIsOfTheFront};

/// A theorem that has a spelling, and no definition's title, is read from its canonical lines, and
/// the lines after them are left.
pub fn canonical_lines_are_read()
    ensures { CanonicalLinesAreRead }
{}

/// A theorem that is read, from whatever lines, has a spelling: so its canonical lines are read as
/// it.
pub fn read_theorems_have_a_spelling()
    ensures { ReadTheoremsHaveASpelling }
{}

/// A definition that is read has a title that nothing has, means something, and speaks of its
/// declared objects alone.
pub fn read_definitions_are_notions()
    ensures { ReadDefinitionsAreNotions }
{}

/// Literals that are written out with the names of their objects are read as they were.
pub fn literals_are_read_as_named()
    ensures { LiteralsAreReadAsNamed }
{}

/// A fault is the first: the lines before it are taken, or all are, and they end inside a theorem
/// or a definition.
pub fn fault_is_first()
    ensures { FaultIsFirst }
{}

/// A fault depends on the lines up to it alone: it is that fault whatever follows it.
pub fn fault_is_of_the_front()
    ensures { FaultIsOfTheFront }
{}
