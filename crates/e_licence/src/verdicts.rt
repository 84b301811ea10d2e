//! What was answered on literals before, so that none is asked twice in one context.

ghost use Rattle.std.specs.Prelude.{◌≡◌, true, IfSome, OnOk};
ghost use Rattle.std.specs.List.{list_any};
ghost use Rattle.e_clause.specs.Allowed.{Allowed};
ghost use Rattle.e_licence.specs.Contexts.{Basis};
ghost use Rattle.e_licence.specs.Verdicts.{AreRight, JudgedIs, has_loop, is_loop};

use e_facts::Facts;
use e_literal::{Atom, Lit, Mono, Term, kind};
use e_transfer::Verdict;
use std::alloc::{AllocError, Global};
use std::mem;

/// Where so many literals are refused no metric one is kept.
const MOST_METRIC: usize = 1024;

/// The literals that were asked, those that are allowed and those that are not.
#[derive(Drop)]
pub struct Verdicts {
    pub allowed: Facts,
    pub refused: Facts,
}

impl Verdicts {
    /// None was asked.
    pub fn new(alloc: Global) -> Verdicts
        ensures { (b : Basis) → AreRight b result }
    {
        Verdicts {
            allowed: Facts::new(alloc),
            refused: Facts::new(alloc),
        }
    }

    /// What was answered on the literal, if it was asked.
    pub(crate) fn get(&self, lit: &Lit) -> Option<Verdict<()>>
        ensures { (b : Basis) → AreRight b self.now → IfSome result (JudgedIs b lit.now) }
    {
        if self.is_refused(lit) {
            Some(Verdict::No)
        } else if self.allowed.has(lit) {
            Some(Verdict::Yes(()))
        } else {
            None
        }
    }

    /// Whether the literal was asked and is refused.
    pub(crate) fn is_refused(&self, lit: &Lit) -> bool
        ensures { (b : Basis) → AreRight b self.now → result ≡ true
            → ¬ Allowed b.scope b.facts lit.now }
    {
        self.refused.has(lit) && !has_loop(&lit.atom)
    }

    /// Keeps what is answered on a literal; a metric one only while few are refused, since it is
    /// looked for among all metric ones.
    pub(crate) fn keep(&mut self, lit: Lit, verdict: &Verdict<()>) -> Result<(), AllocError>
        ensures { OnOk result ((b : Basis) → AreRight b self.old → JudgedIs b lit verdict.now
            → AreRight b self.new) }
    {
        if has_loop(&lit.atom) || (kind(&lit).is_some() && self.refused.len() >= MOST_METRIC) {
            mem::drop(lit);
            return Ok(());
        }
        match verdict {
            Verdict::Yes(()) => {
                self.allowed.add(lit)?;
            }
            Verdict::No => {
                self.refused.add(lit)?;
            }
            Verdict::TooWide(_) => mem::drop(lit),
        }
        Ok(())
    }
}

/// Whether a metric literal has a segment from a point to itself. Where facts tell the point from
/// itself, there are no values for it, so that all of it follows; and what is the same may be
/// written without it.
fn has_loop(atom: &Atom) -> bool
    ensures { result ≡ has_loop atom.now }
{
    match atom {
        Atom::MagEq(x, y) | Atom::MagLt(x, y) => some_loop(x.items()) || some_loop(y.items()),
        _ => false,
    }
}

fn some_loop(sum: &[Mono]) -> bool
    ensures { result ≡ list_any (λ m. is_loop m.term) sum.now }
{
    sum.iter().any(|mono| is_loop(mono.term))
}

fn is_loop(term: Term) -> bool
    ensures { result ≡ is_loop term }
{
    match term {
        Term::Seg(a, b) => a == b,
        _ => false,
    }
}
