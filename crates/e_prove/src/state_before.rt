//! What holds before a step.
ghost use Rattle.std.specs.Prelude.{◌≡◌, ◌<◌, ◌+◌, ◌^◌, length, OnOk, IfOk, [], IsTrue};
ghost use Rattle.e_literal.specs.Literal.{negation};
ghost use Rattle.e_literal.specs.Facts.{with_fact, with_facts};
ghost use Rattle.e_literal.specs.Scopes;
ghost use Rattle.e_literal.specs.Use.{scope_of};
ghost use Rattle.e_clause.specs.LimitedFacts.{are_limited_facts};
ghost use Rattle.e_theorem.specs.Statements.{as_view};
ghost use Rattle.e_deriv.specs.Goal.{facts_of_statement};
ghost use Rattle.e_deriv.specs.Naming.{with_new_names};
ghost use Rattle.e_prove.specs.inner.NextStates.{start_with_names, entered_at, IsOutsideAgain};
ghost use Rattle.e_prove.specs.inner.NextStates.{IsOutsideWith, CanJoinLast, HasRoomForMore};
ghost use Rattle.e_prove.specs.inner.NextStates.{after_literal, after_make, after_superposed};

use e_construct::{Construction, Superpose};
use e_deriv::Names;
use e_facts::Facts;
use e_licence::Context;
use e_literal::{Lit, NOTHING, Sort, copy, negate, with_sorts};
use e_names::put_names;
use e_text::Name;
use e_theorem::Statement;
use std::alloc::{AllocError, Global};
use std::mem;

/// The objects in scope and the facts, and the names of the objects. What changes it fails only out
/// of memory, and no clause says what holds then.
#[derive(Drop)]
pub struct StateBefore {
    pub context: Context,
    pub names: Names,
}

impl StateBefore {
    /// What holds before the first step of a statement's proof: the declared objects have the first
    /// of the names.
    pub(crate) fn first(
        alloc: Global,
        statement: &Statement,
        names: &Names,
    ) -> Result<StateBefore, AllocError>
        requires few { length statement.now.declared < 2 ^ 16 }
        requires good { IsTrue (are_limited_facts (scope_of (as_view statement.now))
            (facts_of_statement (as_view statement.now))) }
        ensures { IfOk result (λ x. x ≡ start_with_names (as_view statement.now) names.now) }
    {
        let scope = with_sorts(NOTHING, statement.declared.items());
        let names = names.first(alloc, scope)?;
        let facts = match facts_of(alloc, statement.given.items()) {
            Ok(facts) => facts,
            Err(error) => {
                mem::drop(names);
                return Err(error);
            }
        };
        match Context::new(alloc, scope, facts) {
            Ok(context) => Ok(StateBefore { context, names }),
            Err((facts, error)) => {
                mem::drop(facts);
                mem::drop(names);
                Err(error)
            }
        }
    }

    /// A block inside begins: the present state is kept as the innermost one outside of the open
    /// blocks, and the names are handed out, which [`StateBefore::leave_block`] takes back. The
    /// linear systems of the facts are solved before, since each block inside would have to solve
    /// them anew.
    pub(crate) fn enter_block(&mut self, alloc: Global) -> Result<Names, AllocError>
        ensures names { IfOk result (λ names. names ≡ self.old.names) }
        ensures held { OnOk result (self.new ≡ entered_at self.old) }
    {
        self.context.solve(alloc)?;
        self.context.hold()?;
        let names = self.names.copy(alloc)?;
        Ok(names)
    }

    /// The block inside ends: its objects, facts and names are gone.
    pub(crate) fn leave_block(&mut self, names: Names)
        requires { 0 < length self.old.context.held }
        ensures { IsOutsideAgain names self.old self.new }
    {
        self.context.release();
        self.names = names;
    }

    /// The block inside ends, and what it shows are facts.
    pub(crate) fn leave_block_with(
        &mut self,
        alloc: Global,
        names: Names,
        shown: &[Lit],
    ) -> Result<(), AllocError>
        requires held { 0 < length self.old.context.held }
        requires good { CanJoinLast shown.now self.old }
        ensures { OnOk result (IsOutsideWith names shown.now self.old self.new) }
    {
        self.leave_block(names);
        join_copies(alloc, &mut self.context, shown)
    }

    /// Makes the literal a fact.
    pub(crate) fn assume(&mut self, alloc: Global, lit: &Lit) -> Result<(), AllocError>
        requires { IsTrue
            (are_limited_facts self.old.context.scope (with_fact self.old.context.facts lit.now)) }
        ensures { OnOk result (self.new ≡ after_literal lit.now self.old) }
    {
        self.context.add(copy(alloc, lit)?)?;
        Ok(())
    }

    /// Makes the negation of the literal a fact.
    pub(crate) fn assume_not(&mut self, alloc: Global, lit: &Lit) -> Result<(), AllocError>
        requires { IsTrue (are_limited_facts self.old.context.scope
            (with_fact self.old.context.facts (negation lit.now))) }
        ensures { OnOk result (self.new ≡ after_literal (negation lit.now) self.old) }
    {
        self.context.add(negate(copy(alloc, lit)?))?;
        Ok(())
    }

    /// New objects of these sorts come into scope, with these names.
    pub(crate) fn grow(&mut self, sorts: &[Sort], names: &[Name]) -> Result<(), AllocError>
        requires points { self.old.context.scope.points + length sorts.now < 2 ^ 16 }
        requires lines { self.old.context.scope.lines + length sorts.now < 2 ^ 16 }
        requires circles { self.old.context.scope.circles + length sorts.now < 2 ^ 16 }
        ensures scope { OnOk result (self.new.context ≡ record self.old.context {
          scope = Scopes.with_sorts self.old.context.scope sorts.now;
        }) }
        ensures names { OnOk result
            (self.new.names ≡ with_new_names self.old.names sorts.now names.now) }
    {
        let scope = with_sorts(self.context.scope(), sorts);
        self.context.widen(scope);
        put_names(&mut self.names, sorts, names)
    }

    /// The literals join the facts, one after the other.
    pub(crate) fn join(&mut self, lits: Vec<Lit>) -> Result<(), AllocError>
        requires { IsTrue (are_limited_facts self.old.context.scope
            (with_facts self.old.context.facts lits.items)) }
        ensures { OnOk result (self.new ≡ record self.old {
          context
              = record self.old.context { facts = with_facts self.old.context.facts lits.items };
        }) }
    {
        join_all(&mut self.context, lits)
    }

    /// What a construction makes comes into scope, with these names, and what it gives are facts.
    pub(crate) fn make(
        &mut self,
        alloc: Global,
        construction: &Construction,
        names: &[Name],
    ) -> Result<(), AllocError>
        requires room { HasRoomForMore self.old.context.scope }
        requires after { let after = after_make construction.now names.now self.old
            in IsTrue (are_limited_facts after.context.scope after.context.facts) }
        ensures { OnOk result (self.new ≡ after_make construction.now names.now self.old) }
    {
        let scope = self.context.scope();
        self.grow(construction.made(), names)?;
        let given = construction.gives(alloc, scope)?;
        self.join(given)
    }

    /// The copied points of a superposition come into scope, with these names, and what it gives
    /// are facts.
    pub(crate) fn superpose(
        &mut self,
        alloc: Global,
        superposition: &Superpose,
        names: &[Name],
    ) -> Result<(), AllocError>
        requires room { HasRoomForMore self.old.context.scope }
        requires after { let after = after_superposed superposition.now names.now self.old
            in IsTrue (are_limited_facts after.context.scope after.context.facts) }
        ensures { OnOk result (self.new ≡ after_superposed superposition.now names.now self.old) }
    {
        let scope = self.context.scope();
        self.grow(superposition.made(), names)?;
        let given = superposition.gives(alloc, scope)?;
        self.join(given)
    }

    /// Copies of the literals join the facts, one after the other.
    pub(crate) fn join_copied(&mut self, alloc: Global, lits: &[Lit]) -> Result<(), AllocError>
        requires { IsTrue (are_limited_facts self.old.context.scope
            (with_facts self.old.context.facts lits.now)) }
        ensures { OnOk result (self.new ≡ record self.old {
          context
              = record self.old.context { facts = with_facts self.old.context.facts lits.now };
        }) }
    {
        join_copies(alloc, &mut self.context, lits)
    }
}

/// Adds each literal unless one the same is there. It is given the context alone, so that the loop
/// is proved without the names.
fn join_all(context: &mut Context, lits: Vec<Lit>) -> Result<(), AllocError>
    requires { IsTrue
        (are_limited_facts context.old.scope (with_facts context.old.facts lits.items)) }
    ensures { OnOk result
        (context.new ≡ record context.old { facts = with_facts context.old.facts lits.items }) }
{
    for lit in lits {
        context.add(lit)?;
    }
    Ok(())
}

/// Adds a copy of each literal, unless one the same is there: of the context alone, as
/// [`join_all`].
fn join_copies(alloc: Global, context: &mut Context, lits: &[Lit]) -> Result<(), AllocError>
    requires { IsTrue
        (are_limited_facts context.old.scope (with_facts context.old.facts lits.now)) }
    ensures { OnOk result
        (context.new ≡ record context.old { facts = with_facts context.old.facts lits.now }) }
{
    for lit in lits {
        context.add(copy(alloc, lit)?)?;
    }
    Ok(())
}

/// The literals, each put last unless one the same is there.
fn facts_of(alloc: Global, lits: &[Lit]) -> Result<Facts, AllocError>
    ensures { IfOk result (λ f. f ≡ with_facts [] lits.now) }
{
    let mut facts = Facts::new(alloc);
    match add_copies(alloc, &mut facts, lits) {
        Ok(()) => Ok(facts),
        Err(error) => {
            mem::drop(facts);
            Err(error)
        }
    }
}

/// Puts a copy of each literal last, unless one the same is there.
fn add_copies(alloc: Global, facts: &mut Facts, lits: &[Lit]) -> Result<(), AllocError>
    ensures { OnOk result (facts.new ≡ with_facts facts.old lits.now) }
{
    for lit in lits {
        facts.add(copy(alloc, lit)?)?;
    }
    Ok(())
}
