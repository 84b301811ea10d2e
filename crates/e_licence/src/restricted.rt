//! Numbers of one blank that are passed over: some given literal of two blanks is not allowed with
//! any number of the other one.

ghost use Rattle.std.specs.Prelude.{◌≡◌, ◌⊎◌, ◌<◌, ◌++◌, ℕ, List, Contains, IfOk, OnOk, length};
ghost use Rattle.std.specs.Prelude.{true};
ghost use Rattle.e_licence.specs.Verdicts.{AreRight};
ghost use Rattle.e_licence.specs.inner.BlankChoices.{IsKeptChoice, IsWanted, IsRefusedAt};
ghost use Rattle.e_licence.specs.inner.BlankChoices.{SomeIsWideAt, images_of_choice};
ghost use Rattle.e_licence.specs.inner.Rows.{IsPair, NoneHas, AreMarked, AreExcluded};
ghost use Rattle.e_licence.specs.inner.Rows.{choosing_of, spans_with};

use crate::blanks::{Blanks, images};
use crate::ready::Ready;
use crate::verdicts::Verdicts;
use e_literal::{Items, Lit};
use e_transfer::{CANDIDATES, Span, Task, Verdict};
use std::alloc::{AllocError, Global};

/// A search for choices, where some numbers are passed over.
#[derive(Drop)]
pub struct BlankSearch<'a> {
    pub blanks: &'a Blanks<'a>,
    /// For each blank, for each number, whether it is passed over.
    pub excluded: Items<Items<bool>>,
    ghost excludes: { AreExcluded (choosing_of blanks.now) excluded },
}

/// Two blanks with a number for each.
#[derive(Clone, Copy)]
struct Pair {
    first: usize,
    value: u16,
    last: usize,
    num: u16,
}

/// The number at a place: that of a blank of the two, or one that is out of scope.
fn number_at(pair: Pair, at: usize, span: Span) -> u16
    ensures { ((at ≡ pair.first) × (result ≡ pair.value))
        ⊎ (((at ≡ pair.last) × (result ≡ pair.num)) ⊎ (result ≡ span.to)) }
{
    if at == pair.first {
        pair.value
    } else if at == pair.last {
        pair.num
    } else {
        span.to
    }
}

/// A choice with these two numbers, whose other numbers are out of scope.
fn pair_choice(alloc: Global, spans: &[Span], pair: Pair) -> Result<Vec<u16>, AllocError>
    ensures { IfOk result
        (λ c. IsPair spans.now pair.first pair.value pair.last pair.num c.items) }
{
    let mut choice = Vec::with_capacity(alloc, spans.len())?;
    for (at, span) in spans.iter().enumerate() {
        choice.push(number_at(pair, at, *span))?;
    }
    Ok(choice)
}

impl<'a> Blanks<'a> {
    /// Whether the literal is refused with this choice.
    fn fails_with(
        &self,
        alloc: Global,
        memory: &mut Verdicts,
        lit: &Lit,
        choice: &[u16],
    ) -> Result<bool, AllocError>
        requires { AreRight self.now.context.now memory.old }
        ensures refused { IfOk result (λ b. b ≡ true → IsRefusedAt self.now.context.now
            (images_of_choice self.now.context.now.scope self.now.declared.items
            self.now.pattern.now choice.now) lit.now) }
        ensures memory { OnOk result (AreRight self.now.context.now memory.new) }
    {
        let scope = self.context.scope();
        let declared = &self.declared;
        let images = images(alloc, scope, self.statement, declared, self.pattern, choice)?;
        match self.license_one(alloc, memory, lit, &images)? {
            Verdict::No => Ok(true),
            Verdict::Yes(()) | Verdict::TooWide(_) => Ok(false),
        }
    }

    /// Whether the given literal is refused with this number of the first blank, whatever that of
    /// the last one is.
    fn row_fails(
        &self,
        alloc: Global,
        memory: &mut Verdicts,
        spans: &[Span],
        lit: &Lit,
        pair: Pair,
    ) -> Result<bool, AllocError>
        requires memory { AreRight self.now.context.now memory.old }
        requires spans { spans.now ≡ spans_with (choosing_of self.now) }
        requires last { pair.last < length spans.now }
        ensures none { IfOk result (λ b. b ≡ true → Contains self.now.statement.now.given lit.now
            → NoneHas (choosing_of self.now) pair.first pair.value) }
        ensures memory { OnOk result (AreRight self.now.context.now memory.new) }
    {
        for num in 0..spans[pair.last].to {
            let choice = pair_choice(alloc, spans, Pair { num, ..pair })?;
            if !self.fails_with(alloc, memory, lit, &choice)? {
                return Ok(false);
            }
        }
        Ok(true)
    }

    /// Whether a given literal of this blank and a later one is refused so.
    fn is_passed_over(
        &self,
        alloc: Global,
        memory: &mut Verdicts,
        spans: &[Span],
        blank: usize,
        value: u16,
    ) -> Result<bool, AllocError>
        requires memory { AreRight self.now.context.now memory.old }
        requires spans { spans.now ≡ spans_with (choosing_of self.now) }
        ensures none { IfOk result (λ b. b ≡ true → NoneHas (choosing_of self.now) blank value) }
        ensures memory { OnOk result (AreRight self.now.context.now memory.new) }
    {
        for (at, lit) in self.statement.given.items().iter().enumerate() {
            if let Some(last) = self.later_blank(at, blank) {
                if last < spans.len() {
                    let pair = Pair {
                        first: blank,
                        value,
                        last,
                        num: 0,
                    };
                    if self.row_fails(alloc, memory, spans, lit, pair)? {
                        return Ok(true);
                    }
                }
            }
        }
        Ok(false)
    }

    /// The other blank of a given diagram literal of two, where this is the first one.
    fn later_blank(&self, at: usize, blank: usize) -> Option<usize> {
        let ready: &Ready = self.ready.get(at)?;
        if ready.metric || ready.blanks != 2 || ready.first != blank {
            return None;
        }
        ready.known.checked_sub(1)
    }

    /// For each number of a blank, whether it is passed over.
    fn marks(
        &self,
        alloc: Global,
        memory: &mut Verdicts,
        spans: &[Span],
        blank: usize,
        count: u16,
    ) -> Result<Items<bool>, AllocError>
        requires memory { AreRight self.now.context.now memory.old }
        requires spans { spans.now ≡ spans_with (choosing_of self.now) }
        ensures marks { IfOk result (AreMarked (choosing_of self.now) blank) }
        ensures memory { OnOk result (AreRight self.now.context.now memory.new) }
    {
        let mut marks = Items::empty(alloc);
        for value in 0..count {
            let mark = self.is_passed_over(alloc, memory, spans, blank, value)?;
            marks.push(mark)?;
        }
        Ok(marks)
    }

    /// For each blank, for each of its numbers, whether it is passed over.
    pub fn excluded_numbers(
        &self,
        alloc: Global,
        memory: &mut Verdicts,
        spans: &[Span],
    ) -> Result<Items<Items<bool>>, AllocError>
        requires memory { AreRight self.now.context.now memory.old }
        requires spans { spans.now ≡ spans_with (choosing_of self.now) }
        ensures table { IfOk result (AreExcluded (choosing_of self.now)) }
        ensures memory { OnOk result (AreRight self.now.context.now memory.new) }
    {
        let mut excluded = Items::empty(alloc);
        for (blank, span) in spans.iter().enumerate() {
            let marks = self.marks(alloc, memory, spans, blank, span.to)?;
            excluded.push(marks)?;
        }
        Ok(excluded)
    }
}

impl<'a> BlankSearch<'a> {
    /// Whether the last number of the part is passed over.
    fn is_excluded(&self, part: &[u16]) -> bool
        ensures { result ≡ true → (rest : List ℕ) → IsWanted self.now.blanks.now.context.now
            self.now.blanks.now.declared.items self.now.blanks.now.pattern.now
            self.now.blanks.now.statement.now.given (part.now ++ rest) → ⊥ }
    {
        if part.is_empty() {
            return false;
        }
        let blank = part.len() - 1;
        let value = part[blank];
        match self.excluded.items().get(blank) {
            Some(marks) => match marks.items().get(usize::from(value)) {
                Some(mark) => *mark,
                None => false,
            },
            None => false,
        }
    }
}

impl<'a> Task for BlankSearch<'a> {
    type Proof = ();

    type Memory = Verdicts;

    ghost wanted = { λ s c. IsWanted s.blanks.now.context.now s.blanks.now.declared.items
        s.blanks.now.pattern.now s.blanks.now.statement.now.given c };

    ghost kept = { λ s part. IsKeptChoice s.blanks.now.context.now s.blanks.now.declared.items
        s.blanks.now.pattern.now s.blanks.now.statement.now.given part };

    ghost shown = { λ s part p. Unit {0} };

    ghost wide = { λ s part w. SomeIsWideAt s.blanks.now.context.now
        (images_of_choice s.blanks.now.context.now.scope s.blanks.now.declared.items
        s.blanks.now.pattern.now part) s.blanks.now.statement.now.given w };

    ghost right = { λ s m. AreRight s.blanks.now.context.now m };

    fn check(
        &self,
        alloc: Global,
        memory: &mut Verdicts,
        part: &[u16],
    ) -> Result<Verdict<()>, AllocError> {
        if self.is_excluded(part) {
            return Ok(Verdict::No);
        }
        self.blanks.check(alloc, memory, part)
    }

    fn candidates(&self, _part: &[u16], _span: Span) -> Option<[bool; CANDIDATES]> {
        None
    }
}
