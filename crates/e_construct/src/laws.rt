//! What holds of the table: each law is the contract of a function.

ghost use Rattle.e_construct.specs.Laws.{LinesNameAllObjects};

/// The line of each shape names as many new objects as the shape makes, and as many arguments as it
/// has.
pub fn lines_name_all_objects()
    ensures { LinesNameAllObjects }
{}
