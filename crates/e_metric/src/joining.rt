//! The difference of two sums, in which each term occurs once.

ghost use Rattle.std.specs.Prelude.{◌≡◌, ◌+◌, ◌<◌, ◌≤◌, ◌^◌, length, pos, OnOk, IfOk};
ghost use Rattle.e_literal.specs.Same.{coeff_of};
ghost use Rattle.e_metric.specs.inner.Differences.{coefficient_in_difference, difference_form};
ghost use Rattle.e_metric.specs.inner.Differences.{with_summand, with_summands};

use e_fraction::has_summand;
use e_literal::{Mono, Term, canonical, coefficient_in, is_degenerate};
use std::alloc::{AllocError, Global};

// The coefficient of a term in a sum of so few monomials.
fn coefficient(sum: &[Mono], term: Term) -> i64
    requires { length sum.now ≤ 32 }
    ensures value { result ≡ pos (coeff_of sum.now term) }
    ensures bound { coeff_of sum.now term < 2 ^ 40 }
{
    coefficient_in(sum, term) as i64
}

// The coefficient of a term in the difference.
fn difference(x: &[Mono], y: &[Mono], term: Term) -> i64
    requires { length x.now + length y.now ≤ 32 }
    ensures { result ≡ coefficient_in_difference x.now y.now term }
{
    coefficient(x, term) - coefficient(y, term)
}

// Puts the term with its coefficient in x - y last, unless it is 0 in itself, is there or cancels.
fn add_term(
    form: &mut Vec<(i64, Term)>,
    x: &[Mono],
    y: &[Mono],
    term: Term,
) -> Result<(), AllocError>
    requires { length x.now + length y.now ≤ 32 }
    ensures { OnOk result (form.new.items ≡ with_summand x.now y.now form.old.items term) }
{
    if is_degenerate(term) || has_summand(form, term) {
        return Ok(());
    }
    let coefficient = difference(x, y, term);
    if coefficient != 0 {
        form.push((coefficient, term))?;
    }
    Ok(())
}

// Puts the terms of a sum last, each as `add_term` does.
fn add_terms(
    form: &mut Vec<(i64, Term)>,
    x: &[Mono],
    y: &[Mono],
    sum: &[Mono],
) -> Result<(), AllocError>
    requires { length x.now + length y.now ≤ 32 }
    ensures { OnOk result (form.new.items ≡ with_summands x.now y.now form.old.items sum.now) }
{
    for m in sum {
        add_term(form, x, y, canonical(m.term))?;
    }
    Ok(())
}

/// The summands of x - y, each term once, where it occurs first.
pub fn difference_summands(
    alloc: Global,
    x: &[Mono],
    y: &[Mono],
) -> Result<Vec<(i64, Term)>, AllocError>
    requires { length x.now + length y.now ≤ 32 }
    ensures { IfOk result (λ v. v.items ≡ difference_form x.now y.now) }
{
    let mut form = Vec::with_capacity(alloc, x.len() + y.len())?;
    add_terms(&mut form, x, y, x)?;
    add_terms(&mut form, x, y, y)?;
    Ok(form)
}
