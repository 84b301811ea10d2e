//! What a step is licensed by.

ghost use Rattle.std.specs.Prelude.{◌≡◌, ◌<◌, [], ◌∷◌, ◌++◌, length, IsTrue, IfOk};
ghost use Rattle.std.specs.Prelude.{IfErr, IfSome, OnOk, OnErr, option_copied};
ghost use Rattle.e_literal.specs.Facts.{with_fact};
ghost use Rattle.e_clause.specs.LimitedFacts.{are_limited_facts, is_well_formed_in};
ghost use Rattle.e_facts.specs.Adding.{AddedIs};
ghost use Rattle.e_metric.specs.Fronts.{AreFronts};
ghost use Rattle.e_licence.specs.Contexts.{IsReleased, IsWithin, state_of};
ghost use Rattle.e_licence.specs.Licences.{IsLicence, IsAnswerAgainst};

use crate::contradiction::{Refuted, by_arithmetic, clash};
use crate::held::Held;
use crate::licensing::{Licensed, licence_in_turn};
use crate::solving::{copy_or_new, metric_facts_before};
use e_clause::{Against, Cert, Part};
use e_facts::{Added, Facts};
use e_literal::{Lit, Scope};
use e_metric::MetricFacts;
use std::alloc::{AllocError, Global};
use std::marker::Model;
use std::mem;

/// The objects in scope and the facts, which are in scope, well formed and not too many; and the
/// states that are held, each with the objects and the facts of its time, the last one last.
///
/// What is solved of the facts' magnitudes is kept beside them, and grows with them. Contracts see
/// nothing of it.
#[derive(Drop)]
pub struct Context {
    scope: Scope,
    facts: Facts,
    held: Vec<Held>,
    // That of the first facts, or nothing.
    solved: Option<MetricFacts>,
}

impl Model for Context {
    ghost use Rattle.std.specs.Prelude.{map};
    ghost use Rattle.e_licence.specs.Contexts.{Basis};

    ghost Value = { Basis };

    ghost use Rattle.e_licence.specs.HeldStates.{held_in, IsHeldContext};

    ghost view = { λ c. record
        { scope = c.scope; facts = c.facts; held = map (held_in c.facts) c.held.items } };

    ghost invariant = { λ c. IsHeldContext c.scope c.facts c.held.items c.solved };
}

impl Context {
    /// These facts over this scope, with no state held.
    ///
    /// It fails only out of memory, and then hands the facts back.
    pub fn new(alloc: Global, scope: Scope, facts: Facts) -> Result<Context, (Facts, AllocError)>
        requires { IsTrue (are_limited_facts scope facts) }
        ensures ok { IfOk result (λ c. c ≡ record { scope = scope; facts = facts; held = [] }) }
        ensures err { IfErr result (λ e. e.0 ≡ facts) }
    {
        Ok(Context {
            scope,
            facts,
            held: Vec::new(alloc),
            solved: None,
        })
    }

    /// How many objects of each sort are in scope.
    pub fn scope(&self) -> Scope
        ensures { result ≡ self.now.scope }
    {
        self.scope
    }

    /// The facts, in the order in which they came. They are in scope and well formed, and their
    /// terms are few.
    pub fn facts(&self) -> &Facts
        ensures facts { result.now ≡ self.now.facts }
        ensures limited { IsTrue (are_limited_facts self.now.scope result.now) }
    {
        &self.facts
    }

    /// What is solved of the facts, if anything is.
    pub(crate) fn metric_facts(&self) -> Option<&MetricFacts>
        ensures { IfSome (option_copied result) (AreFronts self.now.facts) }
    {
        self.solved.as_ref()
    }

    /// A copy of what is solved of the facts, or nothing known.
    pub(crate) fn copy_of_metric_facts(&self, alloc: Global) -> Result<MetricFacts, AllocError>
        ensures { IfOk result (AreFronts self.now.facts) }
    {
        copy_or_new(alloc, &self.solved)
    }

    /// The literal joins the facts, unless one the same is there.
    ///
    /// It fails only out of memory, and then all is as before.
    pub fn add(&mut self, lit: Lit) -> Result<Added, AllocError>
        requires { IsTrue (are_limited_facts self.old.scope (with_fact self.old.facts lit)) }
        ensures added { IfOk result (AddedIs self.old.facts lit self.new.facts) }
        ensures joined { OnOk result
            (self.new ≡ record self.old { facts = with_fact self.old.facts lit }) }
        ensures err { OnErr result (self.new ≡ self.old) }
    {
        self.facts.add(lit)
    }

    /// More objects come into scope.
    pub fn widen(&mut self, scope: Scope)
        requires { IsWithin self.old.scope scope }
        ensures { self.new ≡ record self.old { scope = scope } }
    {
        self.scope = scope;
    }

    /// The present state is held last.
    ///
    /// It fails only out of memory, and then all that contracts see is as before.
    pub fn hold(&mut self) -> Result<(), AllocError>
        ensures ok { OnOk result
            (self.new ≡ record self.old { held = self.old.held ++ state_of self.old ∷ [] }) }
        ensures err { OnErr result (self.new ≡ self.old) }
    {
        let solved = self.solved.take();
        let facts = self.facts.len();
        let state = Held {
            scope: self.scope,
            facts,
            solved,
        };
        if let Err(refused) = self.held.push(state) {
            mem::drop(refused);
            return Err(AllocError);
        }
        Ok(())
    }

    /// The last held state is the present one again, and is held no more: the objects and the facts
    /// that came after it are gone. It takes no memory.
    pub fn release(&mut self)
        requires { 0 < length self.old.held }
        ensures { IsReleased self.old self.new }
    {
        if let Some(last) = self.held.pop() {
            let Held {
                scope,
                facts,
                solved,
            } = last;
            self.facts.back_to(facts);
            self.scope = scope;
            mem::drop(mem::replace(&mut self.solved, solved));
        }
    }

    /// What is solved is brought up to all facts, so that questions begin there.
    ///
    /// It fails only out of memory. Contracts see nothing of it.
    pub fn solve(&mut self, alloc: Global) -> Result<(), AllocError>
        ensures { self.new ≡ self.old }
    {
        let own = self.solved.take();
        let mut metric_facts = metric_facts_before(alloc, own, &self.held)?;
        let brought = metric_facts.catch_up_all(alloc, &self.facts);
        mem::drop(mem::replace(&mut self.solved, Some(metric_facts)));
        brought
    }

    /// Whether the literal is allowed, as [`licence`] answers. Each kind of magnitude is solved
    /// where it is first asked, and what is solved is kept.
    ///
    /// [`licence`]: crate::licensing::licence
    pub fn licence(&mut self, alloc: Global, lit: &Lit) -> Result<Licensed, AllocError>
        requires { IsTrue (is_well_formed_in self.old.scope lit.now) }
        ensures licence { IfOk result (IsLicence self.old lit.now) }
        ensures same { self.new ≡ self.old }
    {
        if self.facts.has(lit) {
            return Ok(Licensed::Yes(Cert::Plain(Part::Fact)));
        }
        let own = self.solved.take();
        let mut metric_facts = metric_facts_before(alloc, own, &self.held)?;
        let licensed = licence_in_turn(alloc, self, &mut metric_facts, lit);
        mem::drop(mem::replace(&mut self.solved, Some(metric_facts)));
        licensed
    }

    /// Whether the facts contradict each other, as [`refute`] answers. No more kinds of magnitude
    /// are solved than needed, and what is solved is kept.
    ///
    /// [`refute`]: crate::contradiction::refute
    pub fn refute(&mut self, alloc: Global) -> Result<Refuted, AllocError>
        ensures refuted { IfOk result (IsAnswerAgainst self.old) }
        ensures same { self.new ≡ self.old }
    {
        if let Some(lit) = clash(alloc, &self.facts)? {
            return Ok(Refuted::Yes(Against::Clash { lit }));
        }
        let own = self.solved.take();
        let mut metric_facts = metric_facts_before(alloc, own, &self.held)?;
        let refuted = by_arithmetic(alloc, self, &mut metric_facts);
        mem::drop(mem::replace(&mut self.solved, Some(metric_facts)));
        refuted
    }
}
