//! What holds before a step, and after it.

ghost use Rattle.std.specs.Prelude.{◌≡◌, ◌≤◌, ◌<◌, ◌+◌, ◌^◌, length, OnOk, IsTrue};
ghost use Rattle.e_literal.specs.Facts.{with_facts};
ghost use Rattle.e_deriv.specs.Fitting.{is_small};
ghost use Rattle.e_trim.specs.inner.StepState.{checkpoint_of, state_at, state_with};

use e_facts::Facts;
use e_literal::{Lit, Scope, Sort, copy, with_sorts};
use std::alloc::{AllocError, Global};

/// The scope and the facts before a step.
#[derive(Drop)]
pub struct StepState {
    pub scope: Scope,
    pub facts: Facts,
}

/// Where a step or an inner block is entered: the objects in scope, and how many facts there are.
#[derive(Clone, Copy)]
pub struct Checkpoint {
    pub scope: Scope,
    pub facts: usize,
}

impl StepState {
    /// Where a step or an inner block is entered, for [`StepState::restore`] after it.
    pub fn checkpoint(&self) -> Checkpoint
        ensures { result ≡ checkpoint_of self.now }
    {
        Checkpoint {
            scope: self.scope,
            facts: self.facts.checkpoint(),
        }
    }

    /// What held where it was entered holds again: the objects and facts that came since are gone.
    pub fn restore(&mut self, outer: Checkpoint)
        requires { outer.facts ≤ length self.old.facts }
        ensures { self.new ≡ state_at outer self.old }
    {
        self.scope = outer.scope;
        self.facts.back_to(outer.facts);
    }

    /// The next objects of these sorts come into scope, and the literals are facts.
    pub fn extend(&mut self, alloc: Global, sorts: &[Sort], lits: &[Lit]) -> Result<(), AllocError>
        requires scope { IsTrue (is_small self.old.scope) }
        requires few { length sorts.now < 2 ^ 15 }
        ensures { OnOk result (self.new ≡ state_with sorts.now lits.now self.old) }
    {
        self.scope = with_sorts(self.scope, sorts);
        join_copies(alloc, &mut self.facts, lits)
    }
}

/// The literals are facts, each put last unless one the same is there.
pub fn join_copies(alloc: Global, facts: &mut Facts, lits: &[Lit]) -> Result<(), AllocError>
    ensures { OnOk result (facts.new ≡ with_facts facts.old lits.now) }
{
    for lit in lits {
        facts.add(copy(alloc, lit)?)?;
    }
    Ok(())
}
