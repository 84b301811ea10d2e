//! Laws of figures, each as a function that does nothing and whose contract is the law.
ghost use Rattle.e_figure.specs.Law.{EveryInstanceIsTrue};
ghost use Rattle.e_figure.specs.Cite.{CitedIsTrue};

/// Some literal of each instance of a rule of diagrams and equality is true in each figure.
pub fn every_instance_is_true()
    ensures { EveryInstanceIsTrue }
{}

/// What is cited from facts that are true in a figure is true in it.
pub fn cited_is_true()
    ensures { CitedIsTrue }
{}
