//! The metric systems.

ghost use Rattle.std.specs.Prelude.{◌≡◌, ◌≤◌, ◌∷◌, [], true, length, drop};
ghost use Rattle.std.specs.Prelude.{option_copied, flat_map, IfOk, OnOk, IsTrue, Some};
ghost use Rattle.std.specs.Option.{option_map_or};
ghost use Rattle.std.specs.List.{list_all};
ghost use Rattle.e_literal.specs.WellFormed.{is_well_formed};
ghost use Rattle.e_clause.specs.declared.cert.RowName.TheVariants as name;
ghost use Rattle.e_clause.specs.System.{NamedRow};
ghost use Rattle.e_clause.specs.System;
ghost use Rattle.e_clause.specs.System.{of_kind, against_goal, rows_named};
ghost use Rattle.e_clause.specs.System.{rows_of_term, rows_of_kind};
ghost use Rattle.e_metric.specs.inner.FurtherRows;
ghost use Rattle.e_metric.specs.ListedTerms.{distinct_terms};
ghost use Rattle.e_metric.specs.AgreeingRows.{AreRows, AllLimited, GrowBy, IsRow, IsLimited};

use crate::listing::is_of_kind;
use crate::literals::row_of;
use e_clause::RowName;
use e_facts::Facts;
use e_fraction::{Row, RowSense, Signed};
use e_literal::{Kind, Lit, Term, canonical, copy, is_degenerate};
use std::alloc::{AllocError, Global};

// The row that says that a term is more than 0.
fn positive(alloc: Global, term: Term) -> Result<Row, AllocError>
    ensures row { IfOk result (λ r. IsRow r (System.pos_row term)) }
    ensures limited { IfOk result IsLimited }
{
    let mut summands = Vec::new(alloc);
    if !is_degenerate(term) {
        summands.push((1, canonical(term)))?;
    }
    Ok(Row {
        sense: RowSense::More,
        form: Signed::new(summands),
    })
}

// The row that says that an angle is at most two right.
fn at_most_two_right(alloc: Global, a: u16, b: u16, c: u16) -> Result<Row, AllocError>
    ensures row { IfOk result (λ r. IsRow r (System.top_row (Term.Ang a b c))) }
    ensures limited { IfOk result IsLimited }
{
    let mut summands = Vec::new(alloc);
    summands.push((2, Term::Right))?;
    summands.push((-1, canonical(Term::Ang(a, b, c))))?;
    Ok(Row {
        sense: RowSense::AtLeast,
        form: Signed::new(summands),
    })
}

// Adds the row that a term brings: of a segment whose ends are apart by the facts, or of an angle.
fn add_term_row(
    rows: &mut Vec<(RowName, Row)>,
    alloc: Global,
    facts: &Facts,
    term: Term,
) -> Result<(), AllocError>
    ensures { OnOk result (GrowBy (rows_of_term facts.now term) rows.old.items rows.new.items) }
{
    match term {
        Term::Seg(a, b) => {
            if facts.tell_apart(a, b) {
                let row = positive(alloc, term)?;
                rows.push((RowName::Pos(term), row))?;
            }
        }
        Term::Ang(a, b, c) => {
            let row = at_most_two_right(alloc, a, b, c)?;
            rows.push((RowName::Top(term), row))?;
        }
        Term::Area(_, _, _) | Term::Right => {}
    }
    Ok(())
}

// Adds the rows that the terms bring.
fn add_term_rows(
    rows: &mut Vec<(RowName, Row)>,
    alloc: Global,
    facts: &Facts,
    terms: &[Term],
) -> Result<(), AllocError>
    ensures { OnOk result
        (GrowBy (flat_map (rows_of_term facts.now) terms.now) rows.old.items rows.new.items) }
{
    for term in terms {
        add_term_row(rows, alloc, facts, *term)?;
    }
    Ok(())
}

// Adds the row of the right angle, for angles.
fn add_right_row(
    rows: &mut Vec<(RowName, Row)>,
    alloc: Global,
    which: Kind,
) -> Result<(), AllocError>
    ensures { OnOk result (GrowBy (rows_of_kind which) rows.old.items rows.new.items) }
{
    match which {
        Kind::Angle => {
            let row = positive(alloc, Term::Right)?;
            rows.push((RowName::Right, row))?;
        }
        Kind::Segment | Kind::Area => {}
    }
    Ok(())
}

// Adds the row of a fact, if it is of the kind.
fn add_fact_row(
    rows: &mut Vec<(RowName, Row)>,
    alloc: Global,
    which: Kind,
    fact: &Lit,
) -> Result<(), AllocError>
    requires { IsTrue (is_well_formed fact.now) }
    ensures { OnOk result (GrowBy (rows_named (λ l. name.Fact l) (of_kind which (fact.now ∷ [])))
        rows.old.items rows.new.items) }
{
    if is_of_kind(which, fact) {
        if let Some(row) = row_of(alloc, &fact.atom, fact.neg)? {
            rows.push((RowName::Fact(copy(alloc, fact)?), row))?;
        }
    }
    Ok(())
}

// Adds the rows of the facts of the kind from a place on.
fn add_fact_rows(
    rows: &mut Vec<(RowName, Row)>,
    alloc: Global,
    which: Kind,
    facts: &Facts,
    from: usize,
) -> Result<(), AllocError>
    requires facts { IsTrue (list_all is_well_formed facts.now) }
    requires within { from ≤ length facts.now }
    ensures { OnOk result
        (GrowBy (rows_named (λ l. name.Fact l) (of_kind which (drop from facts.now))) rows.old.items
        rows.new.items) }
{
    for fact in &facts.items()[from..] {
        add_fact_row(rows, alloc, which, fact)?;
    }
    Ok(())
}

// Adds the row of the negation of a literal, if it is of the kind.
fn add_negation_row(
    rows: &mut Vec<(RowName, Row)>,
    alloc: Global,
    which: Kind,
    goal: &Lit,
) -> Result<(), AllocError>
    requires { IsTrue (is_well_formed goal.now) }
    ensures { OnOk
        result (GrowBy (rows_named (λ l. name.Goal) (of_kind which (against_goal (Some goal.now))))
        rows.old.items rows.new.items) }
{
    if is_of_kind(which, goal) {
        if let Some(row) = row_of(alloc, &goal.atom, !goal.neg)? {
            rows.push((RowName::Goal, row))?;
        }
    }
    Ok(())
}

// Adds the row of the negation of the goal, if there is one and it is of the kind.
fn add_goal_row(
    rows: &mut Vec<(RowName, Row)>,
    alloc: Global,
    which: Kind,
    goal: Option<&Lit>,
) -> Result<(), AllocError>
    requires { IsTrue (option_map_or is_well_formed (option_copied goal) true) }
    ensures { OnOk result (GrowBy
        (rows_named (λ l. name.Goal) (of_kind which (against_goal (option_copied goal.entry))))
        rows.old.items rows.new.items) }
{
    match goal {
        Some(lit) => add_negation_row(rows, alloc, which, lit),
        None => Ok(()),
    }
}

/// The rows of the metric system of a kind, each with its name: the facts of the kind and the
/// negation of the goal, if it is of the kind; then, for each of their terms, that it is more than
/// 0 or at most two right; then, for angles, that right is more than 0. A row whose terms all
/// cancel stays, with an empty form.
pub fn system(
    alloc: Global,
    which: Kind,
    facts: &Facts,
    goal: Option<&Lit>,
    terms: &[Term],
) -> Result<Vec<(RowName, Row)>, AllocError>
    requires facts { IsTrue (list_all is_well_formed facts.now) }
    requires goal { IsTrue (option_map_or is_well_formed (option_copied goal) true) }
    requires terms { terms.now ≡ distinct_terms which facts.now (option_copied goal) }
    ensures rows { IfOk result
        (λ v. AreRows (System.system which facts.now (option_copied goal.entry)) v.items) }
    ensures limited { IfOk result (λ v. AllLimited v.items) }
{
    let mut rows = Vec::new(alloc);
    add_fact_rows(&mut rows, alloc, which, facts, 0)?;
    add_goal_row(&mut rows, alloc, which, goal)?;
    add_term_rows(&mut rows, alloc, facts, terms)?;
    add_right_row(&mut rows, alloc, which)?;
    Ok(rows)
}

/// The rows that a goal adds to those of the facts of its kind, each with its name: that of its
/// negation, and those of its terms that are none of the facts'.
pub fn rows_of_goal(
    alloc: Global,
    which: Kind,
    facts: &Facts,
    fresh: &[Term],
    goal: &Lit,
) -> Result<Vec<(RowName, Row)>, AllocError>
    requires { IsTrue (is_well_formed goal.now) }
    ensures rows { IfOk result
        (λ v. AreRows (FurtherRows.rows_added_by_goal which facts.now fresh.now goal.now) v.items) }
    ensures limited { IfOk result (λ v. AllLimited v.items) }
{
    let mut rows = Vec::new(alloc);
    add_negation_row(&mut rows, alloc, which, goal)?;
    add_term_rows(&mut rows, alloc, facts, fresh)?;
    Ok(rows)
}

/// The rows that the facts from a place on add to those of the facts of their kind before them,
/// each with its name: their own, and those of their terms that are none of the others'.
pub fn rows_of_facts(
    alloc: Global,
    which: Kind,
    facts: &Facts,
    from: usize,
    fresh: &[Term],
) -> Result<Vec<(RowName, Row)>, AllocError>
    requires facts { IsTrue (list_all is_well_formed facts.now) }
    requires within { from ≤ length facts.now }
    ensures rows { IfOk result (λ v. AreRows
        (FurtherRows.rows_added_by_facts which facts.now (drop from facts.now) fresh.now) v.items) }
    ensures limited { IfOk result (λ v. AllLimited v.items) }
{
    let mut rows = Vec::new(alloc);
    add_fact_rows(&mut rows, alloc, which, facts, from)?;
    add_term_rows(&mut rows, alloc, facts, fresh)?;
    Ok(rows)
}

// How many rows a term brings: one, or none.
fn count_rows_of(facts: &Facts, term: Term) -> usize
    ensures value { result ≡ length (rows_of_term facts.now term) }
    ensures bound { result ≤ 1 }
{
    match term {
        Term::Seg(a, b) => { if facts.tell_apart(a, b) { 1 } else { 0 } }
        Term::Ang(_, _, _) => 1,
        Term::Area(_, _, _) | Term::Right => 0,
    }
}

/// How many rows the terms bring.
#[tactic(auto, using(crate::proofs::rows::RowsOfMoreFacts::raised_more))]
pub fn count_term_rows(facts: &Facts, terms: &[Term]) -> usize
    ensures { result ≡ length (flat_map (rows_of_term facts.now) terms.now) }
{
    let mut count = 0;
    for term in terms {
        count += count_rows_of(facts, *term);
    }
    count
}
