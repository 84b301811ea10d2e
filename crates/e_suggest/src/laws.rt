//! Laws, each as a function that does nothing and whose contract is the law.
ghost use Rattle.e_suggest.specs.Laws.{FirstOfChoices};

/// The first choices are a front of the list of all good choices, and there are more exactly where
/// that is longer.
pub fn first_of_choices()
    ensures { FirstOfChoices }
{}
