//! What a figure shows not to follow.

ghost use Rattle.std.specs.Prelude.{◌≡◌, IsTrue};
ghost use Rattle.std.specs.List.{list_all};
ghost use Rattle.e_figure.specs.Truth as truth;
ghost use Rattle.e_figure.specs.Figure.{scope_of_figure};
ghost use Rattle.e_figure.specs.Cite.{is_refuted, IsUncited};

use crate::figure::Figure;
use crate::truth::holds;
use e_literal::Lit;

/// Whether the facts are all true in the figure and the literal is not. Then no steps that cite
/// rules of diagrams and equality, one after the other, lead from the facts to the literal. It is
/// asked of diagram literals in the figure's scope.
pub fn refutes(figure: &Figure, facts: &[Lit], lit: &Lit) -> bool
    ensures value { result ≡ is_refuted figure.now facts.now lit.now }
    ensures uncited { IsTrue result → IsUncited (scope_of_figure figure.now) facts.now lit.now }
{
    figure.lines_and_circles_are_proper();
    only_it_fails(figure, facts, lit)
}

fn only_it_fails(figure: &Figure, facts: &[Lit], lit: &Lit) -> bool
    ensures { result ≡ is_refuted figure.now facts.now lit.now }
{
    all_hold(figure, facts) && !holds(figure, lit)
}

/// Whether the literals are all true in the figure.
fn all_hold(figure: &Figure, lits: &[Lit]) -> bool
    ensures { result ≡ list_all (truth.is_true figure.now) lits.now }
{
    lits.iter().all(|lit| holds(figure, lit))
}
