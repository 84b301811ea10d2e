//! Laws of the spelling, each as a function that does nothing and whose contract is the law.
ghost use Rattle.e_spell.specs.Laws.{LinesAreTheTheorem};

/// The spelling of a derivation without its certificates is the canonical spelling of its theorem.
pub fn lines_are_the_theorem()
    ensures { LinesAreTheTheorem }
{}
