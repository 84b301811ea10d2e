//! Marks of the sums that literals compare: most metric literals that are neither the goal nor a
//! fact are seen to be neither before they are made.

ghost use Rattle.std.specs.Prelude.{◌≡◌, ◌*◌, ◌<◌, ◌^◌, IsTrue, length};
ghost use Rattle.e_literal.specs.Solution.{values_for_all};
ghost use Rattle.e_transfer.specs.SumMarks;
ghost use Rattle.e_transfer.specs.SumMarks.{mixed_number, mark_of_term, mark_total};
ghost use Rattle.e_transfer.specs.SumMarks.{folded_distance, has_sum_mark, have_sum_marks};

use e_facts::Facts;
use e_literal::{Atom, Lit, Mono, Term, canonical, is_degenerate};

/// How many marks of sums there are.
pub const SUM_MARKS: usize = 256;

/// The square modulo a prime below 2^30, so that a sum of such numbers with small coefficients
/// stays far within 128 bits.
#[tactic(auto, unfolding(crate::specs::SumMarks::mixed_number))]
fn square_mod_prime(n: u64) -> u64
    requires { n < 2 ^ 32 }
    ensures value { result ≡ mixed_number n }
    ensures bound { result < 2 ^ 30 }
{
    n * n % 1_073_741_789
}

/// The number of a term that is written one way.
fn number_of_term(term: Term) -> u64
    ensures value { result ≡ mark_of_term term }
    ensures bound { result < 2 ^ 30 }
{
    match term {
        Term::Seg(a, b) => square_mod_prime(u64::from(a) + 251 * u64::from(b)),
        Term::Ang(a, b, c) | Term::Area(a, b, c) => {
            square_mod_prime(u64::from(a) + 251 * u64::from(b) + 63_001 * u64::from(c))
        }
        Term::Right => 1,
    }
}

/// The number of a term, however it is written; 0 where it is 0 in itself.
fn carried_number(term: Term) -> u64
    ensures value { result ≡ values_for_all mark_of_term term }
    ensures bound { result < 2 ^ 30 }
{
    if is_degenerate(term) {
        0
    } else {
        number_of_term(canonical(term))
    }
}

/// The number of a term, so many times.
pub fn share(times: u32, term: Term) -> u64
    ensures value { result ≡ times * values_for_all mark_of_term term }
    ensures bound { result < 2 ^ 62 }
{
    u64::from(times) * carried_number(term)
}

/// The value of a sum where each term has its number.
fn total_of(sum: &[Mono]) -> u128
    ensures { result ≡ mark_total sum.now }
{
    let mut total = 0u128;
    for mono in sum {
        total += u128::from(share(mono.coeff, mono.term));
    }
    total
}

/// The mark of two sums, from their totals.
#[tactic(auto, unfolding(crate::specs::SumMarks::folded_distance))]
pub fn mark_of_totals(x: u128, y: u128) -> usize
    ensures is { result ≡ folded_distance x y }
    ensures below { result < 256 }
{
    (x.abs_diff(y) % 256) as usize
}

/// The mark of the literal's sums.
fn sum_mark_of(lit: &Lit) -> usize
    ensures is { result ≡ SumMarks.sum_mark lit.now.atom }
    ensures below { result < 256 }
{
    match &lit.atom {
        Atom::MagEq(x, y) | Atom::MagLt(x, y) => {
            mark_of_totals(total_of(x.items()), total_of(y.items()))
        }
        _ => 0,
    }
}

/// The marks of the facts' sums.
fn marks_of_facts(facts: &Facts) -> [bool; SUM_MARKS]
    ensures long { length result ≡ 256 }
    ensures all { IsTrue (have_sum_marks result facts.now) }
{
    let mut marks = [false; SUM_MARKS];
    for fact in facts.items() {
        marks[sum_mark_of(fact)] = true;
    }
    marks
}

/// The marks of the sums of the facts and of the goal.
pub fn sum_marks_of(facts: &Facts, goal: &Lit) -> [bool; SUM_MARKS]
    ensures facts { IsTrue (have_sum_marks result facts.now) }
    ensures goal { IsTrue (has_sum_mark result goal.now) }
{
    let mut marks = marks_of_facts(facts);
    marks[sum_mark_of(goal)] = true;
    marks
}
