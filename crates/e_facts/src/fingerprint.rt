//! Fingerprints of metric literals: numbers by which most that are not the same differ at once.

ghost use Rattle.std.specs.Prelude.{◌≡◌, ◌*◌, ◌<◌, ◌≤◌, ◌^◌};
ghost use Rattle.e_literal.specs.Solution.{values_for_all};
ghost use Rattle.e_facts.specs.inner.Fingerprint.{square_residue, term_number};
ghost use Rattle.e_facts.specs.inner.Fingerprint.{sum_weight, fingerprint};

use e_literal::{Atom, Mono, Term, canonical, is_degenerate};

/// The square modulo a prime below 2^30, so that a sum of such numbers with small coefficients
/// stays far within 128 bits.
#[tactic(auto, unfolding(crate::specs::inner::Fingerprint::square_residue))]
fn residue_of_square(n: u64) -> u64
    requires { n < 2 ^ 32 }
    ensures value { result ≡ square_residue n }
    ensures bound { result < 2 ^ 30 }
{
    n * n % 1_073_741_789
}

/// The number of a term that is written one way.
fn number_of(term: Term) -> u64
    ensures value { result ≡ term_number term }
    ensures bound { result < 2 ^ 30 }
{
    match term {
        Term::Seg(a, b) => residue_of_square(u64::from(a) + 251 * u64::from(b)),
        Term::Ang(a, b, c) | Term::Area(a, b, c) => {
            residue_of_square(u64::from(a) + 251 * u64::from(b) + 63_001 * u64::from(c))
        }
        Term::Right => 1,
    }
}

/// The number of a term, however it is written; 0 where it is 0 in itself.
fn carried_number(term: Term) -> u64
    ensures value { result ≡ values_for_all term_number term }
    ensures bound { result < 2 ^ 30 }
{
    if is_degenerate(term) {
        0
    } else {
        number_of(canonical(term))
    }
}

/// The number of a term as often as the sum has it.
fn share(mono: &Mono) -> u64
    ensures value { result ≡ mono.now.coeff * values_for_all term_number mono.now.term }
    ensures bound { result < 2 ^ 62 }
{
    u64::from(mono.coeff) * carried_number(mono.term)
}

/// The value of a sum where each term has its number.
fn weight_of(sum: &[Mono]) -> u128
    ensures { result ≡ sum_weight sum.now }
{
    let mut total = 0u128;
    for mono in sum {
        total += u128::from(share(mono));
    }
    total
}

/// The fingerprint of an atom: equal for metric atoms that are the same.
#[tactic(auto, unfolding(crate::specs::inner::Fingerprint::fingerprint))]
pub fn fingerprint_of(atom: &Atom) -> u128
    ensures { result ≡ fingerprint atom.now }
{
    match atom {
        Atom::MagEq(x, y) | Atom::MagLt(x, y) => {
            weight_of(x.items()).abs_diff(weight_of(y.items()))
        }
        _ => 0,
    }
}
