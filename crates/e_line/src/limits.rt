//! How large a literal may be.
ghost use Rattle.std.specs.Prelude.{◌≡◌, ◌+◌, length, nat_le};
ghost use Rattle.std.specs.List.{list_all};
ghost use Rattle.e_line.specs.Reading.{Gives};
ghost use Rattle.e_line.specs.Literals.{monos_of};
ghost use Rattle.e_line.specs.Limits.{most_coefficient, within};
ghost use Rattle.e_line.specs.LineLimits.{have_few_monomials, have_low_coefficients, check_literal_limits};

use crate::fault::{FaultKind, LineError, What};
use crate::literal::{RawAtom, RawLit};
use crate::sum::{MAX_COEFFICIENT, RawMono};

/// How many monomials a literal may have, as it is written.
pub const MAX_MONOMIALS: usize = 32;

/// At most this many, or the limit.
pub fn within(count: usize, most: usize, what: What) -> Result<(), LineError>
    ensures { Gives (λ u. u) result (within count most what) }
{
    if count > most {
        return Err(LineError::Fault(FaultKind::Limit(what)));
    }
    Ok(())
}

/// How many monomials a literal has.
pub fn monomial_count(lit: &RawLit) -> usize
    ensures { result ≡ length (monos_of lit.now.atom) }
{
    match &lit.atom {
        RawAtom::SumsEqual(x, y) => x.items().len() + y.items().len(),
        RawAtom::SumsLess(x, y) => x.items().len() + y.items().len(),
        RawAtom::SumsAtMost(x, y) => x.items().len() + y.items().len(),
        _ => 0,
    }
}

fn are_low(monos: &[RawMono]) -> bool
    ensures { result ≡ list_all (λ m. nat_le m.coeff most_coefficient) monos.now }
{
    monos.iter().all(|m| m.coeff <= MAX_COEFFICIENT)
}

fn has_low_coefficients(lit: &RawLit) -> bool
    ensures { result ≡ list_all (λ m. nat_le m.coeff most_coefficient) (monos_of lit.now.atom) }
{
    match &lit.atom {
        RawAtom::SumsEqual(x, y) => are_low(x.items()) && are_low(y.items()),
        RawAtom::SumsLess(x, y) => are_low(x.items()) && are_low(y.items()),
        RawAtom::SumsAtMost(x, y) => are_low(x.items()) && are_low(y.items()),
        _ => true,
    }
}

/// Whether no literal has more monomials than it may.
fn have_few_monomials(lits: &[RawLit]) -> bool
    ensures { result ≡ have_few_monomials lits.now }
{
    lits.iter().all(|lit| monomial_count(lit) <= MAX_MONOMIALS)
}

/// Whether no coefficient is larger than it may be.
fn have_low_coefficients(lits: &[RawLit]) -> bool
    ensures { result ≡ have_low_coefficients lits.now }
{
    lits.iter().all(|lit| has_low_coefficients(lit))
}

/// The limits of each literal: of its monomials, and then of the coefficients of all.
#[tactic(auto, unfolding(crate::specs::LineLimits::check_literal_limits))]
pub fn check_literal_limits(lits: &[RawLit]) -> Result<(), LineError>
    ensures { Gives (λ u. u) result (check_literal_limits lits.now) }
{
    if !have_few_monomials(lits) {
        return Err(LineError::Fault(FaultKind::Limit(What::Monomials)));
    }
    if !have_low_coefficients(lits) {
        return Err(LineError::Fault(FaultKind::Limit(What::Coefficient)));
    }
    Ok(())
}
