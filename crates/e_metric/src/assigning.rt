//! Values of the terms of a step.

ghost use Rattle.std.specs.Prelude.{◌≡◌, ℕ, ◌++◌, [], ◌∷◌, map, option_copied, IsTrue, IfOk, OnOk};
ghost use Rattle.std.specs.List.{list_all};
ghost use Rattle.e_literal.specs.declared.object.Term.{Term};
ghost use Rattle.e_literal.specs.declared.object.Kind.{Kind};
ghost use Rattle.e_literal.specs.WellFormed.{is_well_formed};
ghost use Rattle.e_literal.specs.Solution.{Satisfy};
ghost use Rattle.e_literal.specs.Same;
ghost use Rattle.e_literal.specs.Width.{is_among};
ghost use Rattle.e_clause.specs.Assignment.{terms_of_atom, terms_of_lits};
ghost use Rattle.e_clause.specs.Assignment.{terms_of_wanted, terms_of_step};
ghost use Rattle.e_clause.specs.Laws.{is_well_formed_metric};
ghost use Rattle.e_clause.specs.System.{rows_of_system};
ghost use Rattle.e_clause.specs.Counterexample.{are_in_order, ListsCounterexample};
ghost use Rattle.e_simplex.specs.Answer;
ghost use Rattle.e_metric.specs.inner.AssignedValues.{values_of, step_value};

use crate::by_kind::ByKind;
use e_facts::Facts;
use e_literal::{Atom, Lit, Mono, Term, Values, canonical, is_degenerate};
use std::alloc::{AllocError, Global};

// Puts terms into their order, and drops those that are there again.
fn put_in_order(terms: &mut Vec<Term>)
    ensures in_order { IsTrue (are_in_order terms.new.items) }
    ensures same { (t : Term) → is_among terms.new.items t ≡ is_among terms.old.items t }
{
    terms.sort_unstable();
    terms.dedup();
}

// Puts the terms of a sum last, in their normal order.
fn add_sum(terms: &mut Vec<Term>, sum: &[Mono]) -> Result<(), AllocError>
    ensures { OnOk result
        (terms.new.items ≡ terms.old.items ++ map (λ m. Same.canonical m.term) sum.now) }
{
    for m in sum {
        terms.push(canonical(m.term))?;
    }
    Ok(())
}

// Puts the terms of an atom last, in their normal order.
#[tactic(auto, using(crate::proofs::terms::StepTerms::atom_terms))]
fn add_atom(terms: &mut Vec<Term>, atom: &Atom) -> Result<(), AllocError>
    ensures { OnOk result
        (terms.new.items ≡ terms.old.items ++ map Same.canonical (terms_of_atom atom.now)) }
{
    match atom {
        Atom::MagEq(x, y) | Atom::MagLt(x, y) => {
            add_sum(terms, x.items())?;
            add_sum(terms, y.items())
        }
        _ => Ok(()),
    }
}

// Right, and the terms of the facts, in their normal order.
fn terms_of_facts(alloc: Global, facts: &Facts) -> Result<Vec<Term>, AllocError>
    ensures { IfOk result
        (λ v. v.items ≡ map Same.canonical (Term.Right ∷ terms_of_lits facts.now)) }
{
    let mut terms = Vec::with_capacity(alloc, facts.len().saturating_add(1))?;
    terms.push(Term::Right)?;
    for fact in facts.items() {
        add_atom(&mut terms, &fact.atom)?;
    }
    Ok(terms)
}

// Puts the terms of the wanted literal last, if one is wanted, in their normal order.
fn add_wanted(terms: &mut Vec<Term>, wanted: Option<&Lit>) -> Result<(), AllocError>
    ensures { OnOk result (terms.new.items ≡ terms.old.items
        ++ map Same.canonical (terms_of_wanted (option_copied wanted.entry))) }
{
    match wanted {
        Some(lit) => add_atom(terms, &lit.atom),
        None => Ok(()),
    }
}

// The terms of the step, in their order, each once.
#[tactic(auto, using(crate::proofs::terms::StepTerms::step_terms))]
fn step_terms(alloc: Global, facts: &Facts, wanted: Option<&Lit>) -> Result<Vec<Term>, AllocError>
    ensures in_order { IfOk result (λ v. IsTrue (are_in_order v.items)) }
    ensures same { IfOk result (λ v. (t : Term) → is_among v.items t
        ≡ is_among (map Same.canonical (terms_of_step facts.now (option_copied wanted.entry))) t) }
{
    let mut terms = terms_of_facts(alloc, facts)?;
    add_wanted(&mut terms, wanted)?;
    put_in_order(&mut terms);
    Ok(terms)
}

/// The number of the term in a list of pairs, or 0.
pub fn assigned_value(pairs: &[(Term, u128)], term: Term) -> u128
    ensures { result ≡ Answer.assigned_value pairs.now term }
{
    for pair in pairs {
        if term == pair.0 {
            return pair.1;
        }
    }
    0
}

// The value of a term of the step.
fn value(values: &ByKind<Values>, term: Term) -> u128
    ensures { result ≡ step_value values.now term }
{
    if is_degenerate(term) {
        return 0;
    }
    let of_kind = match term {
        Term::Seg(_, _) => &values.segments,
        Term::Ang(_, _, _) | Term::Right => &values.angles,
        Term::Area(_, _, _) => &values.areas,
    };
    assigned_value(of_kind.items(), canonical(term))
}

// The terms with their values.
fn with_values(alloc: Global, terms: &[Term], values: &ByKind<Values>) -> Result<Values, AllocError>
    ensures { IfOk result (λ v. v ≡ map (λ t. (t, step_value values.now t)) terms.now) }
{
    let mut pairs = Vec::with_capacity(alloc, terms.len())?;
    for term in terms {
        pairs.push((*term, value(values, *term)))?;
    }
    Ok(Values::new(pairs))
}

/// The terms of the step, in their order, with their values, where values of each kind satisfy the
/// rows of its system.
pub fn counterexample(
    alloc: Global,
    facts: &Facts,
    wanted: Option<&Lit>,
    values: &ByKind<Values>,
) -> Result<Values, AllocError>
    requires facts { IsTrue (list_all is_well_formed facts.now) }
    requires wanted { IsTrue (is_well_formed_metric (option_copied wanted)) }
    requires solved { (which : Kind) → Satisfy (values_of values.now which)
        (rows_of_system which facts.now (option_copied wanted)) }
    ensures { IfOk result (ListsCounterexample facts.now (option_copied wanted.entry)) }
{
    let terms = step_terms(alloc, facts, wanted)?;
    let listed = with_values(alloc, &terms, values)?;
    Ok(listed)
}
