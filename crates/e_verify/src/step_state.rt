//! What holds before a step, and after it.

ghost use Rattle.std.specs.Prelude.{◌≡◌, OnOk, IsTrue};
ghost use Rattle.e_literal.specs.Literal.{negation};
ghost use Rattle.e_literal.specs.Facts.{with_fact, with_facts};
ghost use Rattle.e_theorem.specs.Statements.{as_view};
ghost use Rattle.e_deriv.specs.Fitting.{is_small, is_small_statement};
ghost use Rattle.e_verify.specs.StepStates.{checkpoint_of_state, state_restored};
ghost use Rattle.e_verify.specs.StepStates.{state_with_facts, state_after_make};
ghost use Rattle.e_verify.specs.StepStates.{state_after_superposed, state_after_use};

use crate::facts::Facts;
use e_construct::{Construction, Superpose};
use e_literal::{Lit, Scope, copy, negate, with_sorts};
use e_theorem::Statement;
use std::alloc::{AllocError, Global};

/// The objects in scope and the facts before a step.
#[derive(Drop)]
pub struct StepState {
    pub scope: Scope,
    pub facts: Facts,
}

/// Where an inner block is entered: the objects in scope, and how many facts there are.
#[derive(Clone, Copy)]
pub struct Checkpoint {
    pub scope: Scope,
    pub facts: usize,
}

impl StepState {
    /// Where an inner block is entered, for [`StepState::restore`] after it.
    pub fn checkpoint(&self) -> Checkpoint
        ensures { result ≡ checkpoint_of_state self.now }
    {
        Checkpoint {
            scope: self.scope,
            facts: self.facts.len(),
        }
    }

    /// What held where an inner block was entered holds again: its objects and facts are gone.
    pub fn restore(&mut self, outer: Checkpoint)
        ensures { self.new ≡ state_restored outer self.old }
    {
        self.scope = outer.scope;
        self.facts.back_to(outer.facts);
    }

    /// Makes the literal a fact.
    pub fn assume(&mut self, alloc: Global, lit: &Lit) -> Result<(), AllocError>
        ensures { OnOk result
            (self.new ≡ state_with_facts (with_fact self.old.facts lit.now) self.old) }
    {
        self.facts.add(copy(alloc, lit)?)
    }

    /// Makes the negation of the literal a fact.
    pub fn assume_not(&mut self, alloc: Global, lit: &Lit) -> Result<(), AllocError>
        ensures { OnOk result
            (self.new ≡ state_with_facts (with_fact self.old.facts (negation lit.now)) self.old) }
    {
        self.facts.add(negate(copy(alloc, lit)?))
    }

    /// What a construction makes comes into scope, and what it gives are facts.
    pub fn make(&mut self, alloc: Global, construction: &Construction) -> Result<(), AllocError>
        requires { IsTrue (is_small self.old.scope) }
        ensures { OnOk result (self.new ≡ state_after_make construction.now self.old) }
    {
        let scope = self.scope;
        let given = construction.gives(alloc, scope)?;
        self.facts.join(given)?;
        self.scope = with_sorts(scope, construction.made());
        Ok(())
    }

    /// The copied points of a superposition come into scope, and what it gives are facts.
    pub fn superpose(&mut self, alloc: Global, superposition: &Superpose) -> Result<(), AllocError>
        requires { IsTrue (is_small self.old.scope) }
        ensures { OnOk result (self.new ≡ state_after_superposed superposition.now self.old) }
    {
        let scope = self.scope;
        let given = superposition.gives(alloc, scope)?;
        self.facts.join(given)?;
        self.scope = with_sorts(scope, superposition.made());
        Ok(())
    }

    /// The made objects of a statement come into scope, and what a use of it gives are facts.
    pub fn take_use(
        &mut self,
        alloc: Global,
        statement: &Statement,
        gives: &[Lit],
    ) -> Result<(), AllocError>
        requires statement { IsTrue (is_small_statement (as_view statement.now)) }
        requires scope { IsTrue (is_small self.old.scope) }
        ensures { OnOk result
            (self.new ≡ state_after_use (as_view statement.now) gives.now self.old) }
    {
        let scope = self.scope;
        self.scope = with_sorts(scope, statement.made.items());
        self.assume_all(alloc, gives)
    }

    /// Makes each of the literals a fact.
    pub fn assume_all(&mut self, alloc: Global, lits: &[Lit]) -> Result<(), AllocError>
        ensures { OnOk result
            (self.new ≡ state_with_facts (with_facts self.old.facts lits.now) self.old) }
    {
        join_copies(alloc, &mut self.facts, lits)
    }
}

/// Adds a copy of each literal, unless one the same is there. It is given the facts alone, so that
/// the loop is proved without the scope.
fn join_copies(alloc: Global, facts: &mut Facts, lits: &[Lit]) -> Result<(), AllocError>
    ensures { OnOk result (facts.new ≡ with_facts facts.old lits.now) }
{
    for lit in lits {
        facts.add(copy(alloc, lit)?)?;
    }
    Ok(())
}
