//! The terms of the literals of a kind.

ghost use Rattle.std.specs.Prelude.{◌≡◌, ◌≤◌, ◌++◌, ◌∷◌, [], length};
ghost use Rattle.std.specs.Prelude.{map, drop, option_copied, OnOk, IfOk};
ghost use Rattle.e_literal.specs.Rows;
ghost use Rattle.e_clause.specs.Assignment.{terms_of_atom, terms_of_lits};
ghost use Rattle.e_clause.specs.System;
ghost use Rattle.e_clause.specs.System.{of_kind};
ghost use Rattle.e_metric.specs.ListedTerms.{distinct_terms, with_listed};
ghost use Rattle.e_metric.specs.inner.FurtherRows;

use e_facts::Facts;
use e_literal::{Atom, Kind, Lit, Mono, Term, is_one_term, kind};
use std::alloc::{AllocError, Global};

/// Whether the literal is metric, and of this kind.
pub fn is_of_kind(which: Kind, lit: &Lit) -> bool
    ensures { result ≡ System.is_of_kind which lit.now }
{
    kind(lit) == Some(which)
}

/// Whether the term, or one that is the same term, is in the list.
pub fn has_term(terms: &[Term], term: Term) -> bool
    ensures { result ≡ Rows.has_term terms.now term }
{
    terms.iter().any(|t| is_one_term(term, *t))
}

// Puts the terms of a sum last that are none of those before.
fn add_sum(terms: &mut Vec<Term>, sum: &[Mono]) -> Result<(), AllocError>
    ensures { OnOk result
        (terms.new.items ≡ with_listed terms.old.items (map (λ m. m.term) sum.now)) }
{
    for m in sum {
        if !has_term(terms, m.term) {
            terms.push(m.term)?;
        }
    }
    Ok(())
}

// Puts the terms of a literal last that are none of those before, if it is of the kind.
#[tactic(auto, using(crate::proofs::terms::FirstTerms::atom_terms, crate::proofs::terms::FirstTerms::literal_terms))]
fn add_literal(terms: &mut Vec<Term>, which: Kind, lit: &Lit) -> Result<(), AllocError>
    ensures { OnOk result (terms.new.items
        ≡ with_listed terms.old.items (terms_of_lits (of_kind which (lit.now ∷ [])))) }
{
    match &lit.atom {
        Atom::MagEq(x, y) | Atom::MagLt(x, y) if is_of_kind(which, lit) => {
            add_sum(terms, x.items())?;
            add_sum(terms, y.items())
        }
        _ => Ok(()),
    }
}

// Puts the terms of the facts of the kind from a place on last that are none of those before.
fn add_facts(
    terms: &mut Vec<Term>,
    which: Kind,
    facts: &Facts,
    from: usize,
) -> Result<(), AllocError>
    requires { from ≤ length facts.now }
    ensures { OnOk result (terms.new.items
        ≡ with_listed terms.old.items (terms_of_lits (of_kind which (drop from facts.now)))) }
{
    for fact in &facts.items()[from..] {
        add_literal(terms, which, fact)?;
    }
    Ok(())
}

// The terms of the facts of a kind.
fn terms_of_facts(alloc: Global, which: Kind, facts: &Facts) -> Result<Vec<Term>, AllocError>
    ensures { IfOk result
        (λ v. v.items ≡ with_listed [] (terms_of_lits (of_kind which facts.now))) }
{
    let mut terms = Vec::with_capacity(alloc, facts.len())?;
    add_facts(&mut terms, which, facts, 0)?;
    Ok(terms)
}

/// The terms of the facts of a kind and of the wanted literal, if it is of the kind, each once, as
/// it is written first.
#[tactic(auto, using(crate::proofs::terms::FirstTerms::all_terms))]
pub fn terms_of_kind(
    alloc: Global,
    which: Kind,
    facts: &Facts,
    wanted: Option<&Lit>,
) -> Result<Vec<Term>, AllocError>
    ensures { IfOk result
        (λ v. v.items ≡ distinct_terms which facts.now (option_copied wanted.entry)) }
{
    let mut terms = terms_of_facts(alloc, which, facts)?;
    if let Some(lit) = wanted {
        add_literal(&mut terms, which, lit)?;
    }
    Ok(terms)
}

// Equal terms, with room for more.
fn copies_with_room(alloc: Global, terms: &[Term]) -> Result<Vec<Term>, AllocError>
    ensures { IfOk result (λ v. v.items ≡ terms.now) }
{
    let mut copies = Vec::with_capacity(alloc, terms.len().saturating_add(8))?;
    copies.extend_from_slice(terms)?;
    Ok(copies)
}

/// The terms of a literal, if it is of the kind, that are none of these, each once.
#[tactic(auto, using(crate::proofs::rows::GoalRows::as_long_one))]
pub fn fresh_terms(
    alloc: Global,
    which: Kind,
    terms: &[Term],
    lit: &Lit,
) -> Result<Vec<Term>, AllocError>
    ensures { IfOk result (λ v. v.items ≡ FurtherRows.terms_added which terms.now (lit.now ∷ [])) }
{
    let mut all = copies_with_room(alloc, terms)?;
    add_literal(&mut all, which, lit)?;
    let fresh = Vec::from_slice(alloc, &all[terms.len()..])?;
    Ok(fresh)
}

/// The terms of the facts of the kind from a place on that are none of these, each once.
#[tactic(auto, using(crate::proofs::rows::GoalRows::as_long))]
pub fn fresh_terms_of_facts(
    alloc: Global,
    which: Kind,
    terms: &[Term],
    facts: &Facts,
    from: usize,
) -> Result<Vec<Term>, AllocError>
    requires { from ≤ length facts.now }
    ensures { IfOk result
        (λ v. v.items ≡ FurtherRows.terms_added which terms.now (drop from facts.now)) }
{
    let mut all = copies_with_room(alloc, terms)?;
    add_facts(&mut all, which, facts, from)?;
    let fresh = Vec::from_slice(alloc, &all[terms.len()..])?;
    Ok(fresh)
}
