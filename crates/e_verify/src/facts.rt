//! The facts before a step: as `e_facts::Facts`, with fingerprints.

ghost use Rattle.std.specs.Prelude.{◌≡◌, ◌≤◌, [], take, length, slice_get, OnOk};
ghost use Rattle.std.specs.List.{list_any, position};
ghost use Rattle.std.specs.Option.{option_copied};
ghost use Rattle.e_literal.specs.Facts.{has, has_all, with_fact, with_facts};
ghost use Rattle.e_literal.specs.Facts.{are_apart, are_equal_points};
ghost use Rattle.e_literal.specs.Literal.{negation};
ghost use Rattle.e_literal.specs.Same.{same_lit, term_eq};
ghost use Rattle.e_verify.specs.inner.Fingerprint.{atom_fingerprint};
ghost use Rattle.e_clause.specs.Assignment.{terms_of_lits, lit_has_term};

use crate::alike::are_same;
use crate::fingerprint::fingerprint_of;
use e_clause::lit_has_term;
use e_literal::{Atom, Lit, Term};
use std::alloc::{AllocError, Global};
use std::marker::Model;
use std::mem;

/// A fact with its fingerprint, by which most literals that are not the same are found different
/// at once. Contracts see the literal.
#[derive(Drop)]
struct Fact {
    lit: Lit,
    fingerprint: u128,
}

impl Model for Fact {
    ghost use Rattle.std.specs.Prelude.{◌≡◌};
    ghost use Rattle.e_literal.specs.declared.literal.Lit.{Lit};
    ghost use Rattle.e_verify.specs.inner.Fingerprint.{atom_fingerprint};

    ghost Value = { Lit };

    ghost view = { λ f. f.lit };

    ghost invariant = { λ f. f.fingerprint ≡ atom_fingerprint f.lit.atom };
}

impl Fact {
    /// Whether the literal, which has this fingerprint, is the same.
    fn is_same(&self, lit: &Lit, fingerprint: u128) -> bool
        requires { fingerprint ≡ atom_fingerprint lit.now.atom }
        ensures { result ≡ same_lit self.now lit.now }
    {
        self.fingerprint == fingerprint && are_same(&self.lit, lit)
    }

    /// Whether the term occurs in it, as it is written.
    fn has_term(&self, term: Term) -> bool
        ensures { result ≡ lit_has_term term self.now }
    {
        lit_has_term(&self.lit, term)
    }
}

/// The facts before a step, which contracts see as their list. No two that are put in are the same.
#[derive(Drop)]
pub struct Facts {
    lits: Vec<Fact>,
}

impl Model for Facts {
    ghost use Rattle.std.specs.Prelude.{List};
    ghost use Rattle.e_literal.specs.declared.literal.Lit.{Lit};

    ghost Value = { List Lit };

    ghost view = { λ f. f.lits.items };
}

impl Facts {
    /// No facts.
    pub(crate) fn new(alloc: Global) -> Facts
        ensures { result ≡ [] }
    {
        Facts {
            lits: Vec::new(alloc),
        }
    }

    /// Whether one the same is there.
    pub(crate) fn has(&self, lit: &Lit) -> bool
        ensures { result ≡ has self.now lit.now }
    {
        has_same(&self.lits, lit, fingerprint_of(lit))
    }

    /// The fact at this place, counted from 0.
    pub fn get(&self, place: u32) -> Option<&Lit>
        ensures { option_copied result ≡ slice_get self.now place }
    {
        match self.lits.get(place as usize) {
            Some(fact) => Some(&fact.lit),
            None => None,
        }
    }

    /// The place of the first fact that is the same, counted from 0.
    pub fn place_of(&self, lit: &Lit) -> Option<usize>
        ensures { result ≡ position (λ f. same_lit f lit.now) self.now }
    {
        let fingerprint = fingerprint_of(lit);
        self.lits
            .iter()
            .position(|fact| fact.is_same(lit, fingerprint))
    }

    /// Whether each of the literals is there.
    pub(crate) fn have_all(&self, lits: &[Lit]) -> bool
        ensures { result ≡ has_all self.now lits.now }
    {
        lits.iter().all(|lit| self.has(lit))
    }

    /// Whether the facts say that two points differ, in one order or the other.
    pub(crate) fn are_apart(&self, a: u16, b: u16) -> bool
        ensures { result ≡ are_apart self.now a b }
    {
        self.has_differ(a, b) || self.has_differ(b, a)
    }

    /// Whether the facts say that two points differ, in this order.
    fn has_differ(&self, a: u16, b: u16) -> bool
        ensures { result ≡ has self.now (negation (are_equal_points a b)) }
    {
        let lit = differ(a, b);
        let is_there = self.has(&lit);
        mem::drop(lit);
        is_there
    }

    /// Whether the term occurs in a fact, as it is written.
    #[tactic(auto, using(e_clause::proofs::WrittenTerms::in_literals))]
    pub(crate) fn has_term(&self, term: Term) -> bool
        ensures { result ≡ list_any (term_eq term) (terms_of_lits self.now) }
    {
        stands_in_any(&self.lits, term)
    }

    /// Puts the literal last, unless one the same is there.
    #[tactic(auto, unfolding(e_literal::specs::Facts::with_fact))]
    pub(crate) fn add(&mut self, lit: Lit) -> Result<(), AllocError>
        ensures { OnOk result (self.new ≡ with_fact self.old lit) }
    {
        let fingerprint = fingerprint_of(&lit);
        if has_same(&self.lits, &lit, fingerprint) {
            mem::drop(lit);
            return Ok(());
        }
        self.lits.push(Fact { lit, fingerprint })?;
        Ok(())
    }

    /// Puts the literals in, one after the other.
    pub(crate) fn join(&mut self, lits: Vec<Lit>) -> Result<(), AllocError>
        ensures { OnOk result (self.new ≡ with_facts self.old lits.items) }
    {
        for lit in lits {
            self.add(lit)?;
        }
        Ok(())
    }

    /// How many facts there are.
    pub fn len(&self) -> usize
        ensures { result ≡ length self.now }
    {
        self.lits.len()
    }

    /// Takes away all facts but the first `count`.
    pub(crate) fn back_to(&mut self, count: usize)
        ensures { self.new ≡ take count self.old }
    {
        self.lits.truncate(count);
    }
}

/// Whether one the same as the literal, which has this fingerprint, is among the facts. They are
/// looked through from the last on, since most that are asked for came late.
fn has_same(facts: &[Fact], lit: &Lit, fingerprint: u128) -> bool
    requires { fingerprint ≡ atom_fingerprint lit.now.atom }
    ensures { result ≡ has facts.now lit.now }
{
    facts
        .iter()
        .rev()
        .any(|fact| fact.is_same(lit, fingerprint))
}

fn differ(a: u16, b: u16) -> Lit
    ensures { result ≡ negation (are_equal_points a b) }
{
    Lit {
        neg: true,
        atom: Atom::EqP(a, b),
    }
}

fn stands_in_any(facts: &[Fact], term: Term) -> bool
    ensures { result ≡ list_any (lit_has_term term) facts.now }
{
    facts.iter().any(|fact| fact.has_term(term))
}
