//! The rows that a sum names.

ghost use Rattle.std.specs.Prelude.{◌≡◌, IfSome, IsTrue, true};
ghost use Rattle.std.specs.Option.{option_map, option_map_or, option_copied};
ghost use Rattle.std.specs.List.{list_all};
ghost use Rattle.e_literal.specs.Rows;
ghost use Rattle.e_literal.specs.Rows.{row_of_atom};
ghost use Rattle.e_literal.specs.WellFormed.{is_well_formed_atom, is_well_formed};
ghost use Rattle.e_clause.specs.Sum;
ghost use Rattle.e_clause.specs.declared.cert.RowName.TheVariants.{Least};
ghost use Rattle.e_verify.specs.inner.Small.{is_small_row, is_small_lit_row};
ghost use Rattle.e_verify.specs.inner.Views.{row_view, lit_row_view, sense_view, row_scope_view};
ghost use Rattle.e_clause.specs.Written.{is_writable_name};
ghost use Rattle.e_verify.specs.inner.RowScopes.{is_well_formed_row_scope};

use crate::facts::Facts;
use e_clause::{RowName, lit_has_term};
use e_literal::{Atom, Lit, Mono, Term};

/// The sense of a row, what it says of its form: that it is 0, at least 0, more than 0, or not 0.
#[derive(Clone, Copy, PartialEq, Eq)]
pub enum RowSense {
    Zero,
    AtLeast,
    More,
    Differs,
}

/// A row of a step.
#[derive(Clone, Copy)]
pub enum Row<'a> {
    /// The form is the one sum less the other, or minus that.
    Sums {
        sense: RowSense,
        plus: &'a [Mono],
        minus: &'a [Mono],
        turned: bool,
    },
    /// The term is more than 0.
    Pos(Term),
    /// The term is at most two right angles.
    Top(Term),
    /// The right angle is more than 0.
    Right,
    /// The term is at least 0.
    Least(Term),
}

/// The row of a literal: what it says of the one sum less the other.
#[derive(Clone, Copy)]
pub struct LitRow<'a> {
    pub sense: RowSense,
    pub plus: &'a [Mono],
    pub minus: &'a [Mono],
}

/// What the names of rows are read at: the facts, the literal that is wanted, none where a
/// contradiction is, and the rows that `above` and `below` name.
#[derive(Clone, Copy)]
pub struct RowScope<'a> {
    pub facts: &'a Facts,
    pub wanted: Option<&'a Lit>,
    pub above: Option<Row<'a>>,
    pub below: Option<Row<'a>>,
}

impl<'a> Row<'a> {
    /// What it says of its form.
    pub fn sense(&self) -> RowSense
        ensures { sense_view result ≡ (row_view self.now).sense }
    {
        match self {
            Row::Sums { sense, .. } => *sense,
            Row::Pos(_) | Row::Right => RowSense::More,
            Row::Top(_) | Row::Least(_) => RowSense::AtLeast,
        }
    }
}

/// The row with this name, or none where the name may not be used here.
pub fn row_named<'a>(row_scope: &RowScope<'a>, name: &'a RowName) -> Option<Row<'a>>
    requires row_scope { IsTrue (is_well_formed_row_scope row_scope.now) }
    requires name { IsTrue (is_writable_name name.now) }
    ensures row { option_map row_view result
        ≡ Sum.row_named (row_scope_view row_scope.now) name.now }
    ensures small { IfSome result (λ r. IsTrue (is_small_row r)) }
{
    match name {
        RowName::Fact(lit) => without_differs(fact_row(row_scope.facts, lit)),
        RowName::Goal => without_differs(goal_row(row_scope.wanted)),
        RowName::Pos(term) => pos_row(row_scope, *term),
        RowName::Top(term) => top_row(row_scope, *term),
        RowName::Right => Some(Row::Right),
        RowName::Least(term) => least_row(row_scope, *term),
        RowName::Above => row_scope.above,
        RowName::Below => row_scope.below,
        RowName::FactAt(at) => without_differs(row_at(row_scope.facts, *at)),
    }
}

/// The row of a fact, whatever it says.
pub fn fact_row<'a>(facts: &Facts, lit: &'a Lit) -> Option<LitRow<'a>>
    requires { IsTrue (is_well_formed lit.now) }
    ensures row { option_map lit_row_view result ≡ Sum.fact_row facts.now lit.now }
    ensures small { IfSome result (λ c. IsTrue (is_small_lit_row c)) }
{
    if facts.has(lit) {
        row_of(&lit.atom, lit.neg)
    } else {
        None
    }
}

/// The row of the fact at this place, counted from 0, whatever it says.
pub fn row_at<'a>(facts: &'a Facts, place: u32) -> Option<LitRow<'a>>
    requires { IsTrue (list_all is_well_formed facts.now) }
    ensures row { option_map lit_row_view result ≡ Sum.row_at facts.now place }
    ensures small { IfSome result (λ c. IsTrue (is_small_lit_row c)) }
{
    match facts.get(place) {
        Some(lit) => row_of(&lit.atom, lit.neg),
        None => None,
    }
}

/// The row of the negated wanted literal, whatever it says.
pub fn goal_row<'a>(wanted: Option<&'a Lit>) -> Option<LitRow<'a>>
    requires { IsTrue (option_map_or is_well_formed (option_copied wanted) true) }
    ensures row { option_map lit_row_view result ≡ Sum.goal_row (option_copied wanted.entry) }
    ensures small { IfSome result (λ c. IsTrue (is_small_lit_row c)) }
{
    match wanted {
        Some(lit) => row_of(&lit.atom, !lit.neg),
        None => None,
    }
}

/// The row of an atom or of its negation; none where it does not compare magnitudes.
#[tactic(auto, using(crate::proofs::arithmetic::SmallSums::good_sums))]
fn row_of<'a>(atom: &'a Atom, neg: bool) -> Option<LitRow<'a>>
    requires { IsTrue (is_well_formed_atom atom.now) }
    ensures row { option_map lit_row_view result ≡ row_of_atom atom.now neg }
    ensures small { IfSome result (λ c. IsTrue (is_small_lit_row c)) }
{
    match atom {
        Atom::MagEq(x, y) => Some(LitRow {
            sense: if neg {
                RowSense::Differs
            } else {
                RowSense::Zero
            },
            plus: x.items(),
            minus: y.items(),
        }),
        Atom::MagLt(x, y) => Some(if neg {
            LitRow {
                sense: RowSense::AtLeast,
                plus: x.items(),
                minus: y.items(),
            }
        } else {
            LitRow {
                sense: RowSense::More,
                plus: y.items(),
                minus: x.items(),
            }
        }),
        _ => None,
    }
}

/// The row, unless it says that its form differs from 0.
fn without_differs<'a>(row: Option<LitRow<'a>>) -> Option<Row<'a>>
    requires { IfSome row (λ c. IsTrue (is_small_lit_row c)) }
    ensures row { option_map row_view result
        ≡ Sum.unless_not (option_map lit_row_view row.entry) }
    ensures small { IfSome result (λ r. IsTrue (is_small_row r)) }
{
    match row {
        Some(LitRow { sense, plus, minus }) => {
            if sense == RowSense::Differs {
                return None;
            }
            Some(Row::Sums {
                sense,
                plus,
                minus,
                turned: false,
            })
        }
        None => None,
    }
}

/// A segment of the step whose ends are apart by the facts.
fn pos_row<'a>(row_scope: &RowScope<'a>, term: Term) -> Option<Row<'a>>
    ensures row { option_map row_view result ≡ Sum.pos_of (row_scope_view row_scope.now) term }
    ensures small { IfSome result (λ r. IsTrue (is_small_row r)) }
{
    match term {
        Term::Seg(a, b) if is_step_term(row_scope, term) && row_scope.facts.are_apart(a, b) => {
            Some(Row::Pos(term))
        }
        _ => None,
    }
}

/// An angle of the step.
fn top_row<'a>(row_scope: &RowScope<'a>, term: Term) -> Option<Row<'a>>
    ensures row { option_map row_view result ≡ Sum.top_of (row_scope_view row_scope.now) term }
    ensures small { IfSome result (λ r. IsTrue (is_small_row r)) }
{
    match term {
        Term::Ang(_, _, _) if is_step_term(row_scope, term) => Some(Row::Top(term)),
        _ => None,
    }
}

/// A term of the step.
fn least_row<'a>(row_scope: &RowScope<'a>, term: Term) -> Option<Row<'a>>
    ensures row { option_map row_view result
        ≡ Sum.row_named (row_scope_view row_scope.now) (Least term) }
    ensures small { IfSome result (λ r. IsTrue (is_small_row r)) }
{
    if is_step_term(row_scope, term) {
        Some(Row::Least(term))
    } else {
        None
    }
}

/// Whether the term is one of the step, as it is written there.
#[tactic(auto, using(crate::proofs::arithmetic::StepTerms::of_step))]
fn is_step_term(row_scope: &RowScope, term: Term) -> bool
    ensures { result ≡ Sum.is_step_term (row_scope_view row_scope.now) term }
{
    if term == Term::Right || row_scope.facts.has_term(term) {
        return true;
    }
    match row_scope.wanted {
        Some(lit) => lit_has_term(lit, term),
        None => false,
    }
}
