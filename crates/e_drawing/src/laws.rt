//! Laws of figures and figure texts: each law is the contract of a function.
ghost use Rattle.e_drawing.specs.Citing.{RefutedIsNotShown};
ghost use Rattle.e_drawing.specs.FirstFault.{FigureFaultIsFirst};
ghost use Rattle.e_drawing.specs.Spelled.{CanonicalFigureIsRead};

/// What a figure refutes is shown by no proof from the same facts that only cites, claims, splits
/// and closes where facts contradict each other.
pub fn refuted_is_not_shown()
    ensures { RefutedIsNotShown }
{}

/// The fault of a figure text is that of its first line that is wrong, whatever follows it; or no
/// line is wrong, and they end too soon.
pub fn figure_fault_is_first()
    ensures { FigureFaultIsFirst }
{}

/// The canonical text of a figure whose numbers are in their bounds, with the literals that are
/// given and shown, is read as that figure.
pub fn canonical_figure_is_read()
    ensures { CanonicalFigureIsRead }
{}
