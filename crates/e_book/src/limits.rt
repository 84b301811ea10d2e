//! The limits of a book, and what is counted for them.
ghost use Rattle.std.specs.Prelude.{◌≡◌, ◌≤◌, ◌+◌, length, IfOk};
ghost use Rattle.e_line.specs.Reading.{Gives};
ghost use Rattle.e_line.specs.declared.fault.What.TheVariants as limits;
ghost use Rattle.e_line.specs.Limits.{most_facts, most_of, what_of, within};
ghost use Rattle.e_line.specs.Limits.{most_monomials_of_facts};
ghost use Rattle.e_book.specs.LineLimits.{few_objects, FewNamed};
ghost use Rattle.e_book.specs.Steps.{terms_after_raw, terms_after};

use e_deriv::Names;
use e_line::{FaultKind, LineError, RawLit, What, monomial_count, within};
use e_literal::{Atom, Lit, Sort};

/// How many bytes a book may have.
pub const MOST_BYTES: u64 = 4_194_304;

/// How many bytes a line of a book may have, without its end.
pub const LONGEST_LINE: usize = 1_600;

/// How many theorems a book may have.
pub const MAX_THEOREMS: usize = 500;

/// How many points may be in scope.
pub const MAX_POINTS: usize = 40;

/// How many lines may be in scope.
pub const MAX_LINES: usize = 24;

/// How many circles may be in scope.
pub const MAX_CIRCLES: usize = 16;

/// How many step and close lines a theorem may have.
pub const MAX_STEPS: usize = 1_024;

/// How many blocks may be one inside the other.
pub const MAX_DEPTH: usize = 32;

/// How many blanks may be on a line.
pub const MAX_BLANKS: usize = 6;

/// How many literals may be facts, repeats counted.
pub const MAX_FACTS: usize = 2_048;

/// How many monomials the literals that are facts may have, repeats counted.
pub const MAX_TERMS: usize = 1_024;

/// How many definitions a book may have.
pub const MAX_NOTIONS: usize = 200;

/// How many objects of a sort may be in scope.
pub(crate) fn most_of(sort: Sort) -> usize
    ensures { result ≡ most_of sort }
{
    match sort {
        Sort::Point => MAX_POINTS,
        Sort::Line => MAX_LINES,
        Sort::Circle => MAX_CIRCLES,
    }
}

/// What the limit of objects of this sort counts.
pub(crate) fn what_of(sort: Sort) -> What
    ensures { result ≡ what_of sort }
{
    match sort {
        Sort::Point => What::Points,
        Sort::Line => What::Lines,
        Sort::Circle => What::Circles,
    }
}

/// The limits of objects in scope: points, then lines, then circles.
#[tactic(auto, unfolding(crate::specs::LineLimits::few_objects))]
pub(crate) fn few_objects(names: &Names) -> Result<(), LineError>
    ensures value { Gives (λ u. u) result (few_objects names.now) }
    ensures fits { IfOk result (λ u. FewNamed names.now) }
{
    within(names.points.len(), MAX_POINTS, What::Points)?;
    within(names.lines.len(), MAX_LINES, What::Lines)?;
    within(names.circles.len(), MAX_CIRCLES, What::Circles)?;
    Ok(())
}

/// This many monomials and those of the literals as they are written; the limit where they are too
/// many.
pub(crate) fn terms_with(before: usize, lits: &[RawLit]) -> Result<usize, LineError>
    requires { before ≤ most_monomials_of_facts }
    ensures { Gives (λ n. n) result (terms_after_raw before lits.now) }
{
    let mut terms = before;
    for lit in lits {
        let more = monomial_count(lit);
        if more > MAX_TERMS - terms {
            return Err(LineError::Fault(FaultKind::Limit(What::Terms)));
        }
        terms += more;
    }
    Ok(terms)
}

/// This many facts and these; the limit where they are too many.
pub(crate) fn facts_of(before: usize, lits: &[Lit]) -> Result<usize, LineError>
    requires { before ≤ most_facts }
    ensures value { Gives (λ n. tt) result
        (within (before + length lits.now) most_facts limits.Facts) }
    ensures sum { IfOk result (λ n. n ≡ before + length lits.now) }
{
    if lits.len() > MAX_FACTS - before {
        return Err(LineError::Fault(FaultKind::Limit(What::Facts)));
    }
    Ok(before + lits.len())
}

/// How many monomials a literal has.
pub(crate) fn monomials(lit: &Lit) -> usize
    ensures { result ≡ Rattle.e_line.specs.Limits.monomials lit.now.atom }
{
    match &lit.atom {
        Atom::MagEq(x, y) => x.items().len() + y.items().len(),
        Atom::MagLt(x, y) => x.items().len() + y.items().len(),
        _ => 0,
    }
}

/// This many monomials and those of the literals; the limit where they are too many.
pub(crate) fn terms_of(before: usize, lits: &[Lit]) -> Result<usize, LineError>
    requires { before ≤ most_monomials_of_facts }
    ensures { Gives (λ n. n) result (terms_after before lits.now) }
{
    let mut terms = before;
    for lit in lits {
        let more = monomials(lit);
        if more > MAX_TERMS - terms {
            return Err(LineError::Fault(FaultKind::Limit(What::Terms)));
        }
        terms += more;
    }
    Ok(terms)
}
