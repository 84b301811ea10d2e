//! The blanks of an application, filled by the least good choice.

ghost use Rattle.std.specs.Prelude.{◌≡◌, ◌<◌, ◌^◌, ◌==◌, IsTrue, IfOk, OnOk};
ghost use Rattle.std.specs.Prelude.{length, true, false, Contains, IfSome, option_copied};
ghost use Rattle.std.specs.List.{list_any};
ghost use Rattle.e_literal.specs.Scopes.{nothing, next_objects as declared_objects};
ghost use Rattle.e_literal.specs.Use.{is_statement};
ghost use Rattle.e_clause.specs.LimitedFacts;
ghost use Rattle.e_metric.specs.Fronts.{AreFronts};
ghost use Rattle.e_theorem.specs.Pattern.{is_pattern};
ghost use Rattle.e_theorem.specs.Statements.{as_view};
ghost use Rattle.e_transfer.specs.Prepared.{IsPrepared};
ghost use Rattle.e_licence.specs.inner.BlankChoices;
ghost use Rattle.e_licence.specs.inner.BlankChoices.{IsKeptChoice, IsWanted};
ghost use Rattle.e_licence.specs.inner.BlankChoices.{KnownIs, OneIs, AllIs, SomeIsWideAt};
ghost use Rattle.e_licence.specs.inner.BlankChoices.{IsRefusedAt, SomeIsRefusedAt};
ghost use Rattle.e_licence.specs.Verdicts.{AreRight};
ghost use Rattle.e_licence.specs.FilledBlanks.{FilledIs};

use crate::context::Context;
use crate::licensing::Question;
use crate::ready::{Ready, completed_places, ready_places};
use crate::verdicts::Verdicts;
use e_literal::{
    Entry, Items, Lit, Map, NOTHING, Obj, Scope, count, kind, next_objects, with_images,
};
use e_metric::{MetricFacts, StepFacts};
use e_theorem::Statement;
use e_transfer::{CANDIDATES, Prepared, Span, Task, Verdict, is_well_formed_in, prepare, search};
use std::alloc::{AllocError, Global};
use std::mem;

/// What is answered on the blanks of an application.
#[derive(Drop)]
pub enum Filled {
    /// All arguments, with the least good choice for the blanks.
    Found(Items<Obj>),
    /// No choice is good.
    None,
    /// Under a choice that is not above the least good one, if there is one, a given literal is
    /// wide, and this is the width of one of its systems.
    TooWide(u128),
}

/// The choices for the blanks of an application, as a task of a search.
#[derive(Drop)]
pub struct Blanks<'a> {
    pub context: &'a Context,
    pub step_facts: &'a StepFacts<'a>,
    pub prepared: &'a Prepared,
    pub statement: &'a Statement,
    pub pattern: &'a [Option<Obj>],
    pub declared: Vec<Obj>,
    /// On which blanks each given literal depends. It is a matter of speed alone.
    pub ready: Vec<Ready>,
    /// For each number of numbers, the places of the given literals that so many complete, in the
    /// order in which they are asked: of speed alone too.
    pub completed: Items<Items<usize>>,
    /// How many numbers a whole choice has.
    pub whole: usize,
    ghost fronts: { step_facts.now ≡ context.now.facts },
    ghost prepares: { IsPrepared context.now.facts prepared.now },
    ghost declares: { declared.items ≡ declared_objects nothing statement.now.declared },
    ghost fits: { IsTrue (is_pattern (as_view statement.now) context.now.scope pattern.now) },
    ghost counted: { whole
        ≡ length (BlankChoices.spans_of context.now.scope declared.items pattern.now) },
}

/// The least good choice for the blanks of an application of the statement: arguments that agree
/// with the pattern, with which each given literal is allowed, compared in declared order by the
/// objects' numbers.
///
/// The blanks are filled in declared order, the lowest number first, and a choice is given up at
/// the first given literal that is not allowed, as soon as its objects are known. It fails only out
/// of memory.
///
/// It begins from what the context has solved of its facts: a [`Context::solve`] before it is worth
/// its time.
#[tactic(auto, using(crate::proofs::LimitsOfFacts::well_formed))]
pub fn match_blanks(
    alloc: Global,
    context: &Context,
    statement: &Statement,
    pattern: &[Option<Obj>],
) -> Result<Filled, AllocError>
    requires states { IsTrue (is_statement (as_view statement.now)) }
    requires fits { IsTrue (is_pattern (as_view statement.now) context.now.scope pattern.now) }
    requires few { length statement.now.declared < 2 ^ 16 }
    ensures { IfOk result (FilledIs (as_view statement.now) context.now pattern.now) }
{
    if let Some(metric_facts) = context.metric_facts() {
        return match_solved(alloc, context, metric_facts, statement, pattern);
    }
    let facts = context.facts();
    let metric_facts = MetricFacts::of(alloc, facts)?;
    let filled = match_solved(alloc, context, &metric_facts, statement, pattern);
    mem::drop(metric_facts);
    filled
}

/// Fills the blanks by what is solved of the facts.
#[tactic(auto, using(crate::proofs::LimitsOfFacts::well_formed))]
fn match_solved(
    alloc: Global,
    context: &Context,
    metric_facts: &MetricFacts,
    statement: &Statement,
    pattern: &[Option<Obj>],
) -> Result<Filled, AllocError>
    requires metric_facts { AreFronts context.now.facts metric_facts.now }
    requires states { IsTrue (is_statement (as_view statement.now)) }
    requires fits { IsTrue (is_pattern (as_view statement.now) context.now.scope pattern.now) }
    requires few { length statement.now.declared < 2 ^ 16 }
    ensures { IfOk result (FilledIs (as_view statement.now) context.now pattern.now) }
{
    let facts = context.facts();
    let prepared = prepare(alloc, facts, metric_facts)?;
    let filled = match_prepared(alloc, context, metric_facts, &prepared, statement, pattern);
    mem::drop(prepared);
    filled
}

/// Fills the blanks by what is made of the facts once for all choices.
fn match_prepared(
    alloc: Global,
    context: &Context,
    metric_facts: &MetricFacts,
    prepared: &Prepared,
    statement: &Statement,
    pattern: &[Option<Obj>],
) -> Result<Filled, AllocError>
    requires metric_facts { AreFronts context.now.facts metric_facts.now }
    requires prepared { IsPrepared context.now.facts prepared.now }
    requires states { IsTrue (is_statement (as_view statement.now)) }
    requires fits { IsTrue (is_pattern (as_view statement.now) context.now.scope pattern.now) }
    requires few { length statement.now.declared < 2 ^ 16 }
    ensures { IfOk result (FilledIs (as_view statement.now) context.now pattern.now) }
{
    let declared = next_objects(alloc, NOTHING, statement.declared.items())?;
    let spans = spans(alloc, context.scope(), &declared, pattern)?;
    if has_empty(&spans) {
        return Ok(Filled::None);
    }
    let scope = context.scope();
    let whole = spans.len();
    let ready = ready_places(alloc, scope, statement, &declared, pattern, &spans)?;
    let completed = completed_places(alloc, statement.given.items(), &ready, whole)?;
    let step_facts = StepFacts::new(context.facts(), metric_facts);
    let blanks = Blanks {
        context,
        step_facts: &step_facts,
        prepared,
        statement,
        pattern,
        declared,
        ready,
        completed,
        whole,
    };
    let mut memory = Verdicts::new(alloc);
    let mut chosen = Vec::new(alloc);
    match search(alloc, &blanks, &mut memory, &spans, &mut chosen)? {
        Verdict::Yes(()) => {
            let args = arguments(alloc, scope, &blanks.declared, pattern, &chosen)?;
            Ok(Filled::Found(Items::new(args)))
        }
        Verdict::No => Ok(Filled::None),
        Verdict::TooWide(width) => Ok(Filled::TooWide(width)),
    }
}

/// For each blank the numbers in scope.
#[tactic(auto, using(crate::proofs::BlankChoices::ending))]
pub fn spans(
    alloc: Global,
    scope: Scope,
    declared: &[Obj],
    pattern: &[Option<Obj>],
) -> Result<Vec<Span>, AllocError>
    ensures { IfOk result
        (λ spans. spans.items ≡ BlankChoices.spans_of scope declared.now pattern.now) }
{
    let mut spans = Vec::new(alloc);
    for (object, entry) in declared.iter().zip(pattern) {
        if entry.is_none() {
            spans.push(Span {
                from: 0,
                to: count(scope, object.sort),
            })?;
        }
    }
    Ok(spans)
}

/// Whether a blank has no number in scope.
pub fn has_empty(spans: &[Span]) -> bool
    ensures { result ≡ list_any (λ s. s.to == 0) spans.now }
{
    spans.iter().any(|span| span.to == 0)
}

/// The arguments by the first numbers of a choice; where none is left, objects that are not in
/// scope.
#[tactic(auto, using(crate::proofs::BlankChoices::ending))]
pub fn arguments(
    alloc: Global,
    scope: Scope,
    declared: &[Obj],
    pattern: &[Option<Obj>],
    part: &[u16],
) -> Result<Vec<Obj>, AllocError>
    ensures { IfOk result (λ args. args.items
        ≡ BlankChoices.filled_arguments scope declared.now pattern.now part.now) }
{
    let mut rest = part;
    let mut args = Vec::with_capacity(alloc, declared.len())?;
    for (object, entry) in declared.iter().zip(pattern) {
        args.push(argument(scope, *object, *entry, rest))?;
        rest = numbers_after(*entry, rest);
    }
    Ok(args)
}

/// The argument for a declared object.
fn argument(scope: Scope, declared: Obj, entry: Option<Obj>, rest: &[u16]) -> Obj
    ensures { result ≡ BlankChoices.argument_for scope declared entry rest.now }
{
    match (entry, rest) {
        (Some(object), _) => object,
        (None, [num, ..]) => Obj {
            sort: declared.sort,
            num: *num,
        },
        (None, []) => Obj {
            sort: declared.sort,
            num: count(scope, declared.sort),
        },
    }
}

/// The numbers of the choice for the declared objects after this one.
fn numbers_after(entry: Option<Obj>, rest: &[u16]) -> &[u16]
    ensures { result.now ≡ BlankChoices.numbers_left entry rest.now }
{
    match (entry, rest) {
        (None, [_, left @ ..]) => left,
        (None, []) | (Some(_), _) => rest,
    }
}

/// The images of the declared objects by the first numbers of a choice.
#[tactic(auto, using(crate::proofs::BlankChoices::ending))]
pub fn images(
    alloc: Global,
    scope: Scope,
    statement: &Statement,
    declared: &[Obj],
    pattern: &[Option<Obj>],
    part: &[u16],
) -> Result<Map, AllocError>
    requires declares { declared.now ≡ declared_objects nothing statement.now.declared }
    requires fits { IsTrue (is_pattern (as_view statement.now) scope pattern.now) }
    ensures { IfOk result
        (λ map. map ≡ BlankChoices.images_of_choice scope declared.now pattern.now part.now) }
{
    let mut rest = part;
    let mut entries = Vec::with_capacity(alloc, declared.len())?;
    for (object, entry) in declared.iter().zip(pattern) {
        entries.push(Entry {
            source: *object,
            target: argument(scope, *object, *entry, rest),
        })?;
        rest = numbers_after(*entry, rest);
    }
    Ok(Map::of_entries(entries))
}

impl<'a> Blanks<'a> {
    /// Whether the literal is allowed, where its objects are in scope. What is answered is kept.
    fn license_image(
        &self,
        alloc: Global,
        memory: &mut Verdicts,
        image: Lit,
    ) -> Result<Verdict<()>, AllocError>
        requires { AreRight self.now.context.now memory.old }
        ensures verdict { IfOk result (KnownIs self.now.context.now image) }
        ensures memory { OnOk result (AreRight self.now.context.now memory.new) }
    {
        if !is_well_formed_in(self.context.scope(), &image) {
            mem::drop(image);
            return Ok(Verdict::Yes(()));
        }
        if let Some(verdict) = memory.get(&image) {
            mem::drop(image);
            return Ok(verdict);
        }
        self.ask(alloc, memory, image)
    }

    /// Whether a literal that was not asked before is allowed. What is answered is kept.
    fn ask(
        &self,
        alloc: Global,
        memory: &mut Verdicts,
        image: Lit,
    ) -> Result<Verdict<()>, AllocError>
        requires memory { AreRight self.now.context.now memory.old }
        requires image { IsTrue
            (LimitedFacts.is_well_formed_in self.now.context.now.scope image) }
        ensures verdict { IfOk result (KnownIs self.now.context.now image) }
        ensures memory { OnOk result (AreRight self.now.context.now memory.new) }
    {
        let question = Question {
            context: self.context,
            step_facts: self.step_facts,
            prepared: self.prepared,
            lit: &image,
        };
        match question.verdict(alloc) {
            Ok(verdict) => {
                memory.keep(image, &verdict)?;
                Ok(verdict)
            }
            Err(error) => {
                mem::drop(image);
                Err(error)
            }
        }
    }

    /// Whether a given literal is allowed, by the images of its objects.
    pub fn license_one(
        &self,
        alloc: Global,
        memory: &mut Verdicts,
        lit: &Lit,
        images: &Map,
    ) -> Result<Verdict<()>, AllocError>
        requires { AreRight self.now.context.now memory.old }
        ensures verdict { IfOk result (OneIs self.now.context.now images.now lit.now) }
        ensures memory { OnOk result (AreRight self.now.context.now memory.new) }
    {
        let image = with_images(alloc, lit, images)?;
        self.license_image(alloc, memory, image)
    }

    /// Whether a given literal, by the images of its objects, is known to be refused.
    fn is_known_refused(
        &self,
        alloc: Global,
        memory: &Verdicts,
        lit: &Lit,
        images: &Map,
    ) -> Result<bool, AllocError>
        requires { AreRight self.now.context.now memory.now }
        ensures { IfOk result
            (λ b. b ≡ true → IsRefusedAt self.now.context.now images.now lit.now) }
    {
        let image = with_images(alloc, lit, images)?;
        let refused = memory.is_refused(&image) && is_well_formed_in(self.context.scope(), &image);
        mem::drop(image);
        Ok(refused)
    }

    /// The places of the given literals that this many numbers complete.
    fn completed(&self, length: usize) -> &[usize] {
        match self.completed.items().get(length) {
            Some(places) => places.items(),
            None => &[],
        }
    }

    /// The given literal at a place.
    fn given(&self, at: usize) -> Option<&Lit>
        ensures { IfSome (option_copied result) (Contains self.now.statement.now.given) }
    {
        self.statement.given.items().get(at)
    }

    /// Whether one of the given literals at these places, which is not metric, is known to be
    /// refused.
    fn some_known_refused(
        &self,
        alloc: Global,
        memory: &Verdicts,
        images: &Map,
        places: &[usize],
    ) -> Result<bool, AllocError>
        requires { AreRight self.now.context.now memory.now }
        ensures { IfOk result (λ b. b ≡ true → SomeIsRefusedAt self.now.context.now images.now
            self.now.statement.now.given) }
    {
        for at in places {
            if let Some(lit) = self.given(*at) {
                if kind(lit).is_none() && self.is_known_refused(alloc, memory, lit, images)? {
                    return Ok(true);
                }
            }
        }
        Ok(false)
    }

    /// Licenses the given literals that this many numbers complete, up to the first that is not
    /// allowed. Where there are more than one, it is first looked whether one of them is known to
    /// be refused.
    fn license_completed(
        &self,
        alloc: Global,
        memory: &mut Verdicts,
        images: &Map,
        length: usize,
    ) -> Result<Verdict<()>, AllocError>
        requires { AreRight self.now.context.now memory.old }
        ensures verdict { IfOk result (AllIs self.now.context.now images.now false
            self.now.statement.now.given) }
        ensures memory { OnOk result (AreRight self.now.context.now memory.new) }
    {
        let places = self.completed(length);
        if places.len() > 1 && self.some_known_refused(alloc, memory, images, places)? {
            return Ok(Verdict::No);
        }
        for at in places {
            if let Some(lit) = self.given(*at) {
                match self.license_one(alloc, memory, lit, images)? {
                    Verdict::Yes(()) => {}
                    Verdict::No => return Ok(Verdict::No),
                    Verdict::TooWide(width) => return Ok(Verdict::TooWide(width)),
                }
            }
        }
        Ok(Verdict::Yes(()))
    }

    /// Licenses all given literals, up to the first that is not allowed.
    fn license_all(
        &self,
        alloc: Global,
        memory: &mut Verdicts,
        images: &Map,
    ) -> Result<Verdict<()>, AllocError>
        requires { AreRight self.now.context.now memory.old }
        ensures verdict { IfOk result (AllIs self.now.context.now images.now true
            self.now.statement.now.given) }
        ensures memory { OnOk result (AreRight self.now.context.now memory.new) }
    {
        for lit in self.statement.given.items() {
            match self.license_one(alloc, memory, lit, images)? {
                Verdict::Yes(()) => {}
                Verdict::No => return Ok(Verdict::No),
                Verdict::TooWide(width) => return Ok(Verdict::TooWide(width)),
            }
        }
        Ok(Verdict::Yes(()))
    }

    /// Licenses all given literals of a whole choice, whenever they were known.
    fn license_whole(
        &self,
        alloc: Global,
        memory: &mut Verdicts,
        images: &Map,
        length: usize,
    ) -> Result<Verdict<()>, AllocError>
        requires { AreRight self.now.context.now memory.old }
        ensures verdict { IfOk result (AllIs self.now.context.now images.now
            (length == self.now.whole) self.now.statement.now.given) }
        ensures memory { OnOk result (AreRight self.now.context.now memory.new) }
    {
        if length == self.whole {
            self.license_all(alloc, memory, images)
        } else {
            Ok(Verdict::Yes(()))
        }
    }
}

impl<'a> Task for Blanks<'a> {
    type Proof = ();

    type Memory = Verdicts;

    ghost wanted = { λ s c. IsWanted s.context.now s.declared.items s.pattern.now
        s.statement.now.given c };

    ghost kept = { λ s part. IsKeptChoice s.context.now s.declared.items s.pattern.now
        s.statement.now.given part };

    ghost shown = { λ s part p. Unit {0} };

    ghost wide = { λ s part w. SomeIsWideAt s.context.now (BlankChoices.images_of_choice
        s.context.now.scope s.declared.items s.pattern.now part) s.statement.now.given w };

    ghost right = { λ s m. AreRight s.context.now m };

    fn check(
        &self,
        alloc: Global,
        memory: &mut Verdicts,
        part: &[u16],
    ) -> Result<Verdict<()>, AllocError> {
        let scope = self.context.scope();
        let length = part.len();
        if length != self.whole && self.completed(length).is_empty() {
            return Ok(Verdict::Yes(()));
        }
        let images = images(
            alloc,
            scope,
            self.statement,
            &self.declared,
            self.pattern,
            part,
        )?;
        match self.license_completed(alloc, memory, &images, length)? {
            Verdict::Yes(()) => self.license_whole(alloc, memory, &images, length),
            Verdict::No => Ok(Verdict::No),
            Verdict::TooWide(width) => Ok(Verdict::TooWide(width)),
        }
    }

    fn candidates(&self, _part: &[u16], _span: Span) -> Option<[bool; CANDIDATES]> {
        None
    }
}
