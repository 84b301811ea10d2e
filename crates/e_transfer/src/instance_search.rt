//! The search at one place of a clause.

ghost use Rattle.std.specs.Prelude.{◌≡◌, ◌<◌, Bool, length, map, slice_get, true, IfSome};
ghost use Rattle.std.specs.Prelude.{false, slice_index, IfOk, IsTrue, Some};
ghost use Rattle.e_literal.specs.declared.literal.Lit.{Lit};
ghost use Rattle.e_literal.specs.Literal.{negation};
ghost use Rattle.e_literal.specs.Same.{same_lit};
ghost use Rattle.e_clause.specs.RuleKinds.{is_transfer};
ghost use Rattle.e_clause.specs.Table.{table};
ghost use Rattle.e_clause.specs.Views.{row_of};
ghost use Rattle.e_clause.specs.Instance.{clause_of, lit_at};
ghost use Rattle.e_transfer.specs.GivenGoals.{IsFittingLiteral, IsWideTransfer, Suffices};
ghost use Rattle.e_transfer.specs.declared.query.Strength.TheVariants as strength;
ghost use Rattle.e_transfer.specs.Areas;
ghost use Rattle.e_transfer.specs.Marks;
ghost use Rattle.e_transfer.specs.Marks.{is_area_term, relation_number};
ghost use Rattle.e_transfer.specs.Verdicts.{Excludes};
ghost use Rattle.e_transfer.specs.inner.ListedTerms.{NeverDiffer, NeverDifferUnseen};
ghost use Rattle.e_transfer.specs.inner.ListedTerms.{AreEqualAt, IsOneUnlisted, AreSeenAngles, AreSeenSegments};
ghost use Rattle.e_transfer.specs.inner.PartsOfChoices.{arguments_by};
ghost use Rattle.e_transfer.specs.inner.SearchedPlaces.{Wanted, NoneFrom, Shown};

use crate::areas::{Equality, equal_terms, is_one_of};
use crate::bound_facts::is_unknown;
use crate::candidates::{
    is_unlisted, known_numbers, next_of, seen_by_both, seen_by_one, seen_numbers, seen_points,
    seen_zero, variables_at,
};
use crate::clause::{clause_len, pattern_at};
use crate::instance_check::{check_instance, is_refuted};
use crate::listing::Triple;
use crate::marks::{
    has_to_be_fact, is_area, is_equality_of_points, is_equation, mark, mark_of, parts, relation_at,
};
use crate::numbers::Numbers;
use crate::plan::{Plan, last_of_term};
use crate::prepared::Prepared;
use crate::query::{Query, Strength, asks_facts};
use crate::walk::{CANDIDATES, Span, Task, Verdict};
use e_clause::{Row, Rule, TransferCert};
use e_literal::{Lit, Term, is_degenerate, kind, negate, same};
use std::alloc::{AllocError, Global};
use std::mem;

/// The instances of a transfer clause that have the goal at one place, with the variables chosen by
/// a plan.
#[derive(Drop)]
pub struct InstanceSearch<'a> {
    pub query: Query<'a>,
    pub rule: Rule,
    pub row: &'a Row,
    pub place: usize,
    pub plan: &'a Plan,
    /// Where the clause says of two terms alone that they are equal, if it does. That is a matter
    /// of speed alone.
    pub equality: Option<Equality>,
    ghost transfer: { IsTrue (is_transfer rule) },
    ghost of_table: { slice_get table rule ≡ Some (row_of row.now) },
}

/// Whether the last number of a part of this length completes the literal at a place of the clause.
fn is_completed(ready_at: &[usize], at: usize, length: usize) -> bool
    ensures bound { result ≡ true → slice_get ready_at.now at ≡ Some (slice_index ready_at.now at) }
    ensures below { result ≡ true → slice_index ready_at.now at < length }
{
    at < ready_at.len() && is_last(ready_at[at], length)
}

/// Whether the place is the last of a part of this length.
fn is_last(place: usize, length: usize) -> bool
    ensures { result ≡ true → place < length }
{
    place < length && place == length - 1
}

/// Whether what an instance needs may hold: a fact, or a metric literal that is not seen to be
/// false with values with which the facts are true.
fn may_suffice(query: &Query, need: &Lit) -> bool
    ensures { result ≡ false → Suffices query.now.strength query.now.facts.now need.now → ⊥ }
{
    if query.strength == Strength::Facts || kind(need).is_none() {
        return query.facts.has(need);
    }
    !is_refuted(query, need)
}

/// Whether the goal is the negation of this literal.
fn is_negated_goal(query: &Query, need: Lit) -> bool
    ensures { result ≡ same_lit (negation need) query.now.goal.now }
{
    if need.neg == query.goal.neg {
        mem::drop(need);
        return false;
    }
    let lit = negate(need);
    let is_goal = same(&lit, query.goal);
    mem::drop(lit);
    is_goal
}

/// Whether a literal of an instance that compares no sums may be what it has to be: at the goal's
/// place the goal, elsewhere the goal or one whose negation is a fact.
fn diagram_may_hold(query: &Query, here: bool, lit: Lit) -> bool
    requires { relation_number lit.atom < 12 }
    ensures { result ≡ false
        → IsFittingLiteral query.now.strength query.now.facts.now query.now.goal.now here lit → ⊥ }
{
    if same(&lit, query.goal) {
        mem::drop(lit);
        return true;
    }
    if here {
        mem::drop(lit);
        return false;
    }
    let need = negate(lit);
    let holds = query.facts.has(&need);
    mem::drop(need);
    holds
}

/// Whether a literal of an instance may be what it has to be: at the goal's place the goal,
/// elsewhere the goal or one whose negation may hold. Most that do not are not the goal's negation
/// by their sign, so this comes last.
fn may_hold(query: &Query, here: bool, lit: Lit) -> bool
    ensures { result ≡ false
        → IsFittingLiteral query.now.strength query.now.facts.now query.now.goal.now here lit → ⊥ }
{
    let need = negate(lit);
    if here {
        return is_negated_goal(query, need);
    }
    if may_suffice(query, &need) {
        mem::drop(need);
        return true;
    }
    is_negated_goal(query, need)
}

/// Whether no need holds that says that the area differs from another: there are values with which
/// all facts are true, and no fact names the area.
fn is_free(query: &Query, area: Term) -> bool
    requires { IsTrue (is_area_term area) }
    ensures { result ≡ true → Areas.IsFree query.now.facts.now area }
{
    let Some(hints) = query.hints else {
        return false;
    };
    if is_degenerate(area) || is_one_of(&hints.areas, area) {
        return false;
    }
    hints.plain_model || hints.spread_model
}

// Whether the last number of the part is that of the point variable.
fn is_newest(numbers: &Numbers, at: u16) -> bool {
    match numbers.positions.get(usize::from(at)) {
        Some(place) => is_last(*place, numbers.part.len()),
        None => false,
    }
}

// Whether the last number of the part is one of the term.
fn has_newest(numbers: &Numbers, term: Term) -> bool {
    match term {
        Term::Ang(x, y, z) | Term::Area(x, y, z) => {
            is_newest(numbers, x) || is_newest(numbers, y) || is_newest(numbers, z)
        }
        Term::Seg(_, _) | Term::Right => false,
    }
}

// Whether more may be seen of the two terms than before the last number of the part came. It is a
// matter of speed alone.
fn is_news(numbers: &Numbers, equality: Equality) -> bool {
    numbers.part.is_empty()
        || has_newest(numbers, equality.one)
        || has_newest(numbers, equality.other)
}

/// The numbers that may come next with which the two angles may differ: with others one of the two
/// is not listed, and may be what the other is.
fn seen_angles(
    prepared: &Prepared,
    numbers: &Numbers,
    term: Term,
    other: Term,
) -> Option<[bool; CANDIDATES]>
    ensures { IfSome result
        (AreSeenAngles prepared.now.angles.items numbers.now term other) }
{
    let one = seen_points(numbers, &prepared.angles, term)?;
    let another = seen_points(numbers, &prepared.angles, other)?;
    Some(seen_by_both(&one, &another))
}

/// The numbers that may come next with which the two segments may differ: with others one of the
/// two is not listed, neither is 0, and the one may be what the other is.
fn seen_segments(
    prepared: &Prepared,
    numbers: &Numbers,
    term: Term,
    other: Term,
) -> Option<[bool; CANDIDATES]>
    ensures { IfSome result (AreSeenSegments prepared.now.segments.items
        prepared.now.zero_segments.items numbers.now term other) }
{
    let one = seen_points(numbers, &prepared.segments, term)?;
    let another = seen_points(numbers, &prepared.segments, other)?;
    let zero = seen_zero(numbers, &prepared.zero_segments, term)?;
    let other_zero = seen_zero(numbers, &prepared.zero_segments, other)?;
    let both = seen_by_both(&one, &another);
    Some(seen_by_one(&both, &seen_by_one(&zero, &other_zero)))
}

/// The numbers that may come next with which the two terms may differ.
fn seen_terms(
    query: &Query,
    numbers: &Numbers,
    term: Term,
    other: Term,
) -> Option<[bool; CANDIDATES]>
    ensures { IfSome result (NeverDifferUnseen query.now.facts.now numbers.now term other) }
{
    let prepared = query.hints?;
    if !prepared.lists_all {
        return None;
    }
    match (term, other) {
        (Term::Ang(_, _, _), Term::Ang(_, _, _)) => seen_angles(prepared, numbers, term, other),
        (Term::Seg(_, _), Term::Seg(_, _)) => seen_segments(prepared, numbers, term, other),
        _ => None,
    }
}

/// Whether one of the two angles is not listed, whatever numbers come next: it may be what the other
/// is.
fn is_one_unlisted(prepared: &Prepared, numbers: &Numbers, term: Term, other: Term) -> bool
    ensures { result ≡ true
        → IsOneUnlisted prepared.now.angles.items numbers.now term other }
{
    let angles: &[Triple] = &prepared.angles;
    let one = is_unlisted(numbers, angles, term);
    if one {
        return true;
    }
    is_unlisted(numbers, angles, other)
}

/// Whether it is seen that two terms that are no areas do not differ, whatever numbers come next.
fn never_differ_by_list(query: &Query, numbers: &Numbers, term: Term, other: Term) -> bool
    ensures { result ≡ true → NeverDiffer query.now.facts.now numbers.now term other }
{
    let Some(prepared) = query.hints else {
        return false;
    };
    if !prepared.lists_all {
        return false;
    }
    match (term, other) {
        (Term::Ang(_, _, _), Term::Ang(_, _, _)) => {
            is_one_unlisted(prepared, numbers, term, other)
        }
        _ => false,
    }
}

/// Whether it is seen that no need holds that says that the two terms differ, whatever numbers come
/// next: the last number of the part completes the first of two areas, and it is free, or one of
/// two angles is not listed.
fn never_differ(query: &Query, numbers: &Numbers, term: Term, other: Term) -> bool
    ensures { result ≡ true → NeverDiffer query.now.facts.now numbers.now term other }
{
    let first = is_area(term);
    let second = is_area(other);
    if !first || !second {
        return never_differ_by_list(query, numbers, term, other);
    }
    if !is_last(last_of_term(numbers.positions, term), numbers.part.len()) {
        return false;
    }
    is_free(query, numbers.term(term))
}

impl<'a> InstanceSearch<'a> {
    /// The two terms, where the clause says at this place of them alone that they are equal, and
    /// the goal is not that.
    fn equal_terms_at(&self, row: &Row, equality: Equality) -> Option<(Term, Term)>
        ensures { IfSome result (AreEqualAt (row_of row.now) equality.at self.now.place
            self.now.query.goal.now) }
    {
        let at = equality.at;
        if at >= clause_len(row) || at == self.place || is_equation(self.query.goal) {
            return None;
        }
        let (pattern, negated) = pattern_at(row, at);
        if negated {
            return None;
        }
        equal_terms(pattern)
    }

    /// Whether the clause says at this place of two terms that they are equal, and it is seen that
    /// they never differ.
    fn has_equal_terms(&self, numbers: &Numbers, equality: Equality) -> bool
        requires of_table { slice_get table self.now.rule ≡ Some (row_of numbers.now.row.now) }
        requires places { numbers.now.positions.now ≡ self.now.plan.now.positions.items }
        ensures { result ≡ true
            → NoneFrom self.now.query.strength self.now.query.scope self.now.query.facts.now
            self.now.query.goal.now self.now.rule self.now.place self.now.plan.now
            numbers.now.part.now }
    {
        if !is_news(numbers, equality) {
            return false;
        }
        match self.equal_terms_at(numbers.row, equality) {
            Some(both) => never_differ(&self.query, numbers, both.0, both.1),
            None => false,
        }
    }

    /// The numbers that may come next with which the terms may differ of which the clause says at
    /// this place that they are equal.
    fn seen_where_equal(&self, numbers: &Numbers, equality: Equality) -> Option<[bool; CANDIDATES]>
        requires of_table { slice_get table self.now.rule ≡ Some (row_of numbers.now.row.now) }
        requires places { numbers.now.positions.now ≡ self.now.plan.now.positions.items }
        ensures { Excludes (Wanted self.now.query.strength self.now.query.scope
            self.now.query.facts.now self.now.query.goal.now self.now.rule self.now.place
            self.now.plan.now) numbers.now.part.now result }
    {
        let both = self.equal_terms_at(numbers.row, equality)?;
        seen_terms(&self.query, numbers, both.0, both.1)
    }

    /// Whether the literal at a place of the clause is seen by its sums to be neither the goal nor
    /// the negation of a fact, where it has to be one of them.
    fn is_unmarked(&self, numbers: &Numbers, j: usize) -> bool
        requires in_clause { j < length (clause_of (row_of numbers.now.row.now)) }
        ensures { result ≡ true → (l : Lit)
            × (slice_get (map (lit_at (row_of numbers.now.row.now) (arguments_by numbers.now))
            (clause_of (row_of numbers.now.row.now))) j ≡ Some l)
            × ((here : Bool) → IsFittingLiteral self.now.query.strength self.now.query.facts.now
            self.now.query.goal.now here l → ⊥) }
    {
        if !asks_facts(self.query.strength) {
            return false;
        }
        let (pattern, negated) = pattern_at(numbers.row, j);
        let (shape, _neg) = parts(pattern, negated);
        match numbers.sum_mark(shape) {
            Some(mark) => !self.query.sum_marks[mark],
            None => false,
        }
    }

    /// Whether the last number of the part completes the literal at a place of the clause, and the
    /// literal compares no sums and is excluded.
    fn is_excluded_diagram(&self, numbers: &Numbers, j: usize) -> bool
        requires of_table { slice_get table self.now.rule ≡ Some (row_of numbers.now.row.now) }
        requires places { numbers.now.positions.now ≡ self.now.plan.now.positions.items }
        requires in_clause { j < length (clause_of (row_of numbers.now.row.now)) }
        ensures { result ≡ true
            → NoneFrom self.now.query.strength self.now.query.scope self.now.query.facts.now
            self.now.query.goal.now self.now.rule self.now.place self.now.plan.now
            numbers.now.part.now }
    {
        if !is_completed(&self.plan.ready_at, j, numbers.part.len()) {
            return false;
        }
        match numbers.diagram(j) {
            Some(lit) => !diagram_may_hold(&self.query, j == self.place, lit),
            None => false,
        }
    }

    /// Whether no literal that the last number of the part completes is excluded, but for those
    /// that compare sums.
    fn diagrams_may_hold(&self, numbers: &Numbers) -> bool
        requires of_table { slice_get table self.now.rule ≡ Some (row_of numbers.now.row.now) }
        requires places { numbers.now.positions.now ≡ self.now.plan.now.positions.items }
        ensures { result ≡ false
            → NoneFrom self.now.query.strength self.now.query.scope self.now.query.facts.now
            self.now.query.goal.now self.now.rule self.now.place self.now.plan.now
            numbers.now.part.now }
    {
        for j in 0..clause_len(numbers.row) {
            if self.is_excluded_diagram(numbers, j) {
                return false;
            }
        }
        true
    }

    /// Whether the last number of the part completes the literal at a place of the clause, and the
    /// literal compares sums and is excluded.
    fn is_excluded(&self, alloc: Global, numbers: &Numbers, j: usize) -> Result<bool, AllocError>
        requires of_table { slice_get table self.now.rule ≡ Some (row_of numbers.now.row.now) }
        requires places { numbers.now.positions.now ≡ self.now.plan.now.positions.items }
        requires in_clause { j < length (clause_of (row_of numbers.now.row.now)) }
        ensures { IfOk result (λ b. b ≡ true
            → NoneFrom self.now.query.strength self.now.query.scope self.now.query.facts.now
            self.now.query.goal.now self.now.rule self.now.place self.now.plan.now
            numbers.now.part.now) }
    {
        if !is_completed(&self.plan.ready_at, j, numbers.part.len()) {
            return Ok(false);
        }
        if !numbers.compares_sums(j) {
            return Ok(false);
        }
        if self.is_unmarked(numbers, j) {
            return Ok(true);
        }
        let lit = numbers.literal(alloc, j)?;
        Ok(!may_hold(&self.query, j == self.place, lit))
    }

    /// Whether no literal that compares sums and that the last number of the part completes is
    /// excluded.
    fn sums_may_hold(&self, alloc: Global, numbers: &Numbers) -> Result<bool, AllocError>
        requires of_table { slice_get table self.now.rule ≡ Some (row_of numbers.now.row.now) }
        requires places { numbers.now.positions.now ≡ self.now.plan.now.positions.items }
        ensures { IfOk result (λ b. b ≡ false
            → NoneFrom self.now.query.strength self.now.query.scope self.now.query.facts.now
            self.now.query.goal.now self.now.rule self.now.place self.now.plan.now
            numbers.now.part.now) }
    {
        for j in 0..clause_len(numbers.row) {
            if self.is_excluded(alloc, numbers, j)? {
                return Ok(false);
            }
        }
        Ok(true)
    }

    /// The numbers that may come next with which the literal at a place of the clause may hold, if
    /// it has to be a fact and another number of it is known.
    fn seen_at(&self, numbers: &Numbers, goal_mark: usize, j: usize) -> Option<[bool; CANDIDATES]>
        requires of_table { slice_get table self.now.rule ≡ Some (row_of numbers.now.row.now) }
        requires places { numbers.now.positions.now ≡ self.now.plan.now.positions.items }
        requires of_goal { goal_mark ≡ Marks.lit_mark self.now.query.goal.now }
        requires in_clause { j < length (clause_of (row_of numbers.now.row.now)) }
        ensures { Excludes (Wanted self.now.query.strength self.now.query.scope
            self.now.query.facts.now self.now.query.goal.now self.now.rule self.now.place
            self.now.plan.now) numbers.now.part.now result }
    {
        let (relation, neg) = relation_at(numbers.row, j);
        if is_equality_of_points(relation) || !has_to_be_fact(relation, neg, goal_mark) {
            return None;
        }
        let variables = variables_at(numbers.row, j);
        let place = next_of(numbers, variables)?;
        let known = known_numbers(numbers, variables);
        if is_unknown(known) {
            return None;
        }
        let triples = self.query.listing[mark(relation, !neg)].items();
        Some(seen_numbers(known, place, triples))
    }
}

impl<'a> Task for InstanceSearch<'a> {
    type Proof = Option<TransferCert>;

    type Memory = ();

    ghost wanted = { λ s c. Wanted s.query.strength s.query.scope s.query.facts.now s.query.goal.now
        s.rule s.place s.plan.now c };

    ghost kept = { λ s part. Unit {0} };

    ghost shown = { λ s part p. Shown s.query.scope s.query.facts.now s.query.goal.now
        (length s.plan.now.spans.items) part p };

    ghost wide = { λ s part w. (s.query.strength ≡ strength.Sums)
        × IsWideTransfer s.query.scope s.query.facts.now s.query.goal.now w };

    ghost right = { λ s m. Unit {0} };

    fn check(
        &self,
        alloc: Global,
        _memory: &mut (),
        part: &[u16],
    ) -> Result<Verdict<Option<TransferCert>>, AllocError> {
        let numbers = Numbers {
            row: self.row,
            positions: &self.plan.positions,
            part,
        };
        if !self.diagrams_may_hold(&numbers) {
            return Ok(Verdict::No);
        }
        if let Some(equality) = self.equality {
            if self.has_equal_terms(&numbers, equality) {
                return Ok(Verdict::No);
            }
        }
        if !self.sums_may_hold(alloc, &numbers)? {
            return Ok(Verdict::No);
        }
        if part.len() < self.plan.spans.len() {
            return Ok(Verdict::Yes(None));
        }
        let args = numbers.arguments(alloc)?;
        match check_instance(alloc, &self.query, self.rule, args)? {
            Verdict::Yes(cert) => Ok(Verdict::Yes(Some(cert))),
            Verdict::No => Ok(Verdict::No),
            Verdict::TooWide(width) => Ok(Verdict::TooWide(width)),
        }
    }

    fn candidates(&self, part: &[u16], span: Span) -> Option<[bool; CANDIDATES]> {
        if span.from.saturating_add(1) < span.to {
            let numbers = Numbers {
                row: self.row,
                positions: &self.plan.positions,
                part,
            };
            let goal_mark = mark_of(self.query.goal);
            for j in 0..clause_len(self.row) {
                if let Some(seen) = self.seen_at(&numbers, goal_mark, j) {
                    return Some(seen);
                }
            }
            if let Some(equality) = self.equality {
                return self.seen_where_equal(&numbers, equality);
            }
        }
        None
    }
}
