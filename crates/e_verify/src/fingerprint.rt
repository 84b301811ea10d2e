//! Fingerprints of literals: numbers by which most literals that are not the same differ at
//! once.

ghost use Rattle.std.specs.Prelude.{◌≡◌, ◌*◌, ◌<◌, ◌≤◌, ◌^◌};
ghost use Rattle.e_literal.specs.Solution.{values_for_all};
ghost use Rattle.e_verify.specs.inner.Fingerprint.{square_residue, term_number};
ghost use Rattle.e_verify.specs.inner.Fingerprint.{sum_weight, packed_number, atom_fingerprint};

use crate::key::pack;
use e_literal::{Atom, Lit, Mono, Term, canonical, is_degenerate};

/// The square modulo 2^30 - 35, the largest prime below 2^30, so that a sum of such numbers with
/// small coefficients stays far within 128 bits.
#[tactic(auto, unfolding(crate::specs::inner::Fingerprint::square_residue))]
fn residue_of_square(n: u64) -> u64
    requires { n < 2 ^ 32 }
    ensures value { result ≡ square_residue n }
    ensures bound { result < 2 ^ 30 }
{
    n * n % 1_073_741_789
}

/// The number of a term that is written one way. 251 and its square only spread the objects:
/// nothing rests on which numbers these are.
fn number_of(term: Term) -> u64
    ensures value { result ≡ term_number term }
    ensures bound { result < 2 ^ 30 }
{
    match term {
        Term::Seg(a, b) => residue_of_square(u64::from(a) + 251 * u64::from(b)),
        Term::Ang(a, b, c) | Term::Area(a, b, c) => {
            residue_of_square(u64::from(a) + 251 * u64::from(b) + 63_001 * u64::from(c))
        }
        Term::Right => 1,
    }
}

/// The number of a term, however it is written; 0 where it is 0 in itself.
fn carried_number(term: Term) -> u64
    ensures value { result ≡ values_for_all term_number term }
    ensures bound { result < 2 ^ 30 }
{
    if is_degenerate(term) {
        0
    } else {
        number_of(canonical(term))
    }
}

/// The number of a term as often as the sum has it.
fn share(mono: &Mono) -> u64
    ensures value { result ≡ mono.now.coeff * values_for_all term_number mono.now.term }
    ensures bound { result < 2 ^ 62 }
{
    u64::from(mono.coeff) * carried_number(mono.term)
}

/// The value of a sum where each term has its number.
fn weight_of(sum: &[Mono]) -> u128
    ensures { result ≡ sum_weight sum.now }
{
    let mut total = 0u128;
    for mono in sum {
        total += u128::from(share(mono));
    }
    total
}

/// A kind of atom, from 1 to 12, and its objects as one number.
fn number_for(kind: u16, a: u16, b: u16, c: u16) -> u128
    ensures { result ≡ packed_number kind a b c }
{
    u128::from(pack(kind, a, b, c))
}

/// The fingerprint of a literal's atom: equal for literals that are the same, and for a literal and
/// its negation.
#[tactic(auto, unfolding(crate::specs::inner::Fingerprint::atom_fingerprint))]
pub(crate) fn fingerprint_of(lit: &Lit) -> u128
    ensures { result ≡ atom_fingerprint lit.now.atom }
{
    match &lit.atom {
        Atom::On(a, b) => number_for(1, *a, *b, 0),
        Atom::OnC(a, b) => number_for(2, *a, *b, 0),
        Atom::Inside(a, b) => number_for(3, *a, *b, 0),
        Atom::Center(a, b) => number_for(4, *a, *b, 0),
        Atom::Between(a, b, c) => number_for(5, *a, *b, *c),
        Atom::Same(a, b, c) => number_for(6, *a, *b, *c),
        Atom::MeetLL(a, b) => number_for(7, *a, *b, 0),
        Atom::MeetLC(a, b) => number_for(8, *a, *b, 0),
        Atom::MeetCC(a, b) => number_for(9, *a, *b, 0),
        Atom::EqP(a, b) => number_for(10, *a, *b, 0),
        Atom::EqL(a, b) => number_for(11, *a, *b, 0),
        Atom::EqC(a, b) => number_for(12, *a, *b, 0),
        Atom::MagEq(x, y) | Atom::MagLt(x, y) => {
            weight_of(x.items()).abs_diff(weight_of(y.items()))
        }
    }
}
