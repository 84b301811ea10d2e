//! Values of all terms, with which a metric literal that does not follow is mostly seen to be
//! false, at no great cost.

ghost use Rattle.std.specs.Prelude.{◌≡◌, map, IfSome, IsTrue, true, false};
ghost use Rattle.std.specs.List.{list_all};
ghost use Rattle.e_literal.specs.Truth.{holds, all_hold, value_of};
ghost use Rattle.e_clause.specs.Assignment.{terms_of_atom, terms_of_lits};
ghost use Rattle.e_clause.specs.Metric.{MetricConsequence};
ghost use Rattle.e_transfer.specs.Models;
ghost use Rattle.e_transfer.specs.inner.ListedTerms;
ghost use Rattle.e_transfer.specs.Models.{value_by, fits_term, fits_terms, is_model};

use crate::areas::terms_of_two;
use e_facts::Facts;
use e_literal::{Atom, Lit, Mono, Term, canonical, is_degenerate};

/// Which values the terms have that no list gives.
#[derive(Clone, Copy)]
pub enum Filling {
    /// This number for each.
    Each(u128),
    /// Mostly different numbers.
    Spread,
    /// 1 for each, but 0 for each area, whether it is listed or not.
    Flat,
}

/// What a term has that is not listed.
fn default_value(filling: Filling, term: Term) -> u128
    ensures { result ≡ Models.filling_value filling term }
{
    match filling {
        Filling::Each(number) => number,
        Filling::Flat => 1,
        Filling::Spread => spread_value(term),
    }
}

fn spread_value(term: Term) -> u128
    ensures { result ≡ Models.spread_number term }
{
    match term {
        Term::Seg(a, b) => 1 + u128::from(a) + 64 * u128::from(b),
        Term::Ang(a, b, c) => 1 + (u128::from(a) + u128::from(b) + u128::from(c)) % 2,
        Term::Area(a, b, c) => 1 + u128::from(a) + 64 * u128::from(b) + 4096 * u128::from(c),
        Term::Right => 1,
    }
}

/// The value that is listed, or else the default one.
fn listed_value(filling: Filling, values: &[(Term, u128)], term: Term) -> u128
    ensures { result ≡ Models.value_in_list filling values.now term }
{
    for pair in values {
        if term == pair.0 {
            return pair.1;
        }
    }
    default_value(filling, term)
}

/// Whether the term is an area, and all areas are to be 0.
fn is_flat(filling: Filling, term: Term) -> bool
    ensures { result ≡ Models.is_flattened filling term }
{
    matches!((filling, term), (Filling::Flat, Term::Area(_, _, _)))
}

/// The value of a term that is written the one way.
fn canonical_value(filling: Filling, values: &[(Term, u128)], term: Term) -> u128
    ensures { result ≡ Models.value_when_canonical filling values.now term }
{
    if is_flat(filling, term) {
        0
    } else {
        listed_value(filling, values, term)
    }
}

/// The value of a term, in whatever order its points are written.
fn value(filling: Filling, values: &[(Term, u128)], term: Term) -> u128
    ensures { result ≡ value_by filling values.now term }
{
    if is_degenerate(term) {
        0
    } else {
        canonical_value(filling, values, canonical(term))
    }
}

/// The value of a sum, unless it is too large.
fn sum_value(filling: Filling, values: &[(Term, u128)], sum: &[Mono]) -> Option<u128>
    ensures { IfSome result (λ n. n ≡ value_of (value_by filling values.now) sum.now) }
{
    match sum {
        [] => Some(0),
        [m, rest @ ..] => {
            let own = u128::from(m.coeff).checked_mul(value(filling, values, m.term))?;
            let more = sum_value(filling, values, rest)?;
            own.checked_add(more)
        }
    }
}

/// The truth of a metric literal, or of none where a sum is too large; a diagram literal is true.
fn truth(filling: Filling, values: &[(Term, u128)], lit: &Lit) -> Option<bool>
    ensures { IfSome result (λ b. b ≡ holds (value_by filling values.now) lit.now) }
{
    match &lit.atom {
        Atom::MagEq(x, y) => {
            let x = sum_value(filling, values, x.items())?;
            let y = sum_value(filling, values, y.items())?;
            Some((x == y) != lit.neg)
        }
        Atom::MagLt(x, y) => {
            let x = sum_value(filling, values, x.items())?;
            let y = sum_value(filling, values, y.items())?;
            Some((x < y) != lit.neg)
        }
        _ => Some(true),
    }
}

/// Whether a literal is seen to be true.
fn is_true(filling: Filling, values: &[(Term, u128)], lit: &Lit) -> bool
    ensures { result ≡ true → IsTrue (holds (value_by filling values.now) lit.now) }
{
    match truth(filling, values, lit) {
        Some(truth) => truth,
        None => false,
    }
}

/// Whether a literal is seen to be false.
fn is_false(filling: Filling, values: &[(Term, u128)], lit: &Lit) -> bool
    ensures { result ≡ true → holds (value_by filling values.now) lit.now ≡ false }
{
    match truth(filling, values, lit) {
        Some(truth) => !truth,
        None => false,
    }
}

/// The number for each term that is not listed with which two terms are equal, where the literal
/// says of them alone that they differ and one is not listed. That is a matter of speed alone.
pub fn equal_value(values: &[(Term, u128)], lit: &Lit) -> Option<u128> {
    if !lit.neg {
        return None;
    }
    let Atom::MagEq(x, y) = &lit.atom else {
        return None;
    };
    let (one, other) = terms_of_two(x.items(), y.items())?;
    match value(Filling::Each(1), values, one) {
        1 => Some(value(Filling::Each(1), values, other)),
        number => Some(number),
    }
}

/// Whether an angle that has this value is at most so much.
fn is_angle_below(most: u128, term: Term, number: u128) -> bool
    ensures { result ≡ ListedTerms.is_angle_below most term number }
{
    !matches!(term, Term::Ang(_, _, _)) || number <= most
}

/// Whether each angle that is listed is at most so much.
fn are_angles_below(most: u128, values: &[(Term, u128)]) -> bool
    ensures { result ≡ list_all (λ p. ListedTerms.is_angle_below most p.0 p.1) values.now }
{
    values
        .iter()
        .all(|pair| is_angle_below(most, pair.0, pair.1))
}

/// Whether no angle that is listed is above two right ones.
pub fn are_angles_within(values: &[(Term, u128)]) -> bool
    ensures { result ≡ true → IsTrue (ListedTerms.are_angles_within values.now) }
{
    match value(Filling::Each(0), values, Term::Right).checked_mul(2) {
        Some(most) => are_angles_below(most, values),
        None => false,
    }
}

/// Whether a term of a step may have its value.
fn may_have(facts: &Facts, filling: Filling, values: &[(Term, u128)], term: Term) -> bool
    ensures { result ≡ true → IsTrue (fits_term facts.now (value_by filling values.now) term) }
{
    match term {
        Term::Seg(a, b) => value(filling, values, term) >= 1 || !facts.tell_apart(a, b),
        Term::Ang(_, _, _) => match value(filling, values, Term::Right).checked_mul(2) {
            Some(most) => value(filling, values, term) <= most,
            None => false,
        },
        Term::Area(_, _, _) => true,
        Term::Right => value(filling, values, term) >= 1,
    }
}

fn all_may_have(facts: &Facts, filling: Filling, values: &[(Term, u128)], sum: &[Mono]) -> bool
    ensures { result ≡ true
        → IsTrue (fits_terms facts.now (value_by filling values.now) (map (λ m. m.term) sum.now)) }
{
    match sum {
        [] => true,
        [m, rest @ ..] => {
            may_have(facts, filling, values, m.term) && all_may_have(facts, filling, values, rest)
        }
    }
}

/// Whether the terms of a literal may have their values.
fn literal_fits(facts: &Facts, filling: Filling, values: &[(Term, u128)], lit: &Lit) -> bool
    ensures { result ≡ true
        → IsTrue (fits_terms facts.now (value_by filling values.now) (terms_of_atom lit.now.atom)) }
{
    match &lit.atom {
        Atom::MagEq(x, y) | Atom::MagLt(x, y) => {
            all_may_have(facts, filling, values, x.items())
                && all_may_have(facts, filling, values, y.items())
        }
        _ => true,
    }
}

/// Whether a fact is true, and its terms may have their values.
fn fact_fits(facts: &Facts, filling: Filling, values: &[(Term, u128)], fact: &Lit) -> bool
    ensures terms { result ≡ true → IsTrue
        (fits_terms facts.now (value_by filling values.now) (terms_of_atom fact.now.atom)) }
    ensures holds { result ≡ true → IsTrue (holds (value_by filling values.now) fact.now) }
{
    is_true(filling, values, fact) && literal_fits(facts, filling, values, fact)
}

fn facts_fit(facts: &Facts, filling: Filling, values: &[(Term, u128)]) -> bool
    ensures terms { result ≡ true
        → IsTrue (fits_terms facts.now (value_by filling values.now) (terms_of_lits facts.now)) }
    ensures hold { result ≡ true → IsTrue (all_hold (value_by filling values.now) facts.now) }
{
    facts
        .items()
        .iter()
        .all(|fact| fact_fits(facts, filling, values, fact))
}

/// Whether the facts are true with these values, and these are values that the terms may have.
pub fn are_of_model(facts: &Facts, filling: Filling, values: &[(Term, u128)]) -> bool
    ensures { result ≡ true → IsTrue (is_model facts.now (value_by filling values.now)) }
{
    may_have(facts, filling, values, Term::Right) && facts_fit(facts, filling, values)
}

/// Whether the metric literal is false with the values of a model of the facts, and these are
/// values that its terms may have.
pub fn refutes(facts: &Facts, filling: Filling, values: &[(Term, u128)], lit: &Lit) -> bool
    requires { IsTrue (is_model facts.now (value_by filling values.now)) }
    ensures { result ≡ true → ¬ MetricConsequence facts.now lit.now }
{
    is_false(filling, values, lit) && literal_fits(facts, filling, values, lit)
}
