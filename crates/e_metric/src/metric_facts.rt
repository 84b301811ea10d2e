//! What is solved of the facts of a step, kind by kind, from as many of them as were asked about.

ghost use Rattle.std.specs.Prelude.{◌≡◌, ◌≤◌, [], length, take, true, option_copied};
ghost use Rattle.std.specs.Prelude.{IsTrue, IfOk, IfSome, List, Some, None};
ghost use Rattle.std.specs.List.{list_all};
ghost use Rattle.e_literal.specs.declared.object.Kind.{Kind};
ghost use Rattle.e_literal.specs.declared.literal.Lit.{Lit};
ghost use Rattle.e_literal.specs.Literal.{kind_of_atom};
ghost use Rattle.e_literal.specs.WellFormed.{is_well_formed};
ghost use Rattle.e_clause.specs.Assignment.{terms_of_lits};
ghost use Rattle.e_clause.specs.Laws.{is_well_formed_metric};
ghost use Rattle.e_clause.specs.LimitedFacts.{most_terms_of_step};
ghost use Rattle.e_clause.specs.Metric.{MetricConsequence, Unsatisfiable};
ghost use Rattle.e_clause.specs.System.{of_kind, against_goal};
ghost use Rattle.e_metric.specs.Fronts.{IsFrontSystem, IsFrontAs, AreFronts};
ghost use Rattle.e_metric.specs.SolvedSystems.{IsKindSystem};
ghost use Rattle.e_metric.specs.MetricAnswers.{IsMetricCertificate, IsMetricAnswer};
ghost use Rattle.e_metric.specs.MetricAnswers.{IsKindAnswer, IsConsequence, IfYes, IfNo};

use crate::by_kind::{ByKind, other_kinds};
use crate::consequence::{Consequence, Metric, answer_of_kind, joined_answer, joined_consequence};
use crate::kind_system::{KindSystem, system_of_all_facts};
use e_clause::MetricCert;
use e_facts::Facts;
use e_literal::{Kind, Lit, kind};
use std::alloc::{AllocError, Global};
use std::mem;

/// What is solved of the first facts of a kind, as many as were there when it was asked; or nothing
/// yet.
#[derive(Drop)]
pub struct Slot {
    kind_system: Option<KindSystem>,
    upto: usize,
}

impl Slot {
    // Nothing is asked yet.
    fn new() -> Slot
        ensures kind_system { result.kind_system ≡ None }
        ensures upto { result.upto ≡ 0 }
    {
        Slot {
            kind_system: None,
            upto: 0,
        }
    }

    // Whether all facts were there.
    fn is_whole(&self, facts: &Facts) -> bool
        ensures { result ≡ true → self.now.upto ≡ length facts.now }
    {
        self.upto == facts.len()
    }

    // Brings what is solved up to all facts. No contract promises that it does, since what is there
    // is right in any case.
    fn catch_up(&mut self, alloc: Global, which: Kind, facts: &Facts) -> Result<(), AllocError>
        requires front { IsFrontSystem which facts.now self.old }
        requires facts { IsTrue (list_all is_well_formed facts.now) }
        requires few { length (terms_of_lits facts.now) ≤ most_terms_of_step }
        ensures { IsFrontSystem which facts.now self.new }
    {
        if self.is_whole(facts) {
            return Ok(());
        }
        let known = mem::replace(&mut self.kind_system, None);
        let kind_system = system_of_all_facts(alloc, known, which, facts, self.upto)?;
        mem::drop(mem::replace(&mut self.kind_system, Some(kind_system)));
        self.upto = facts.len();
        Ok(())
    }

    // The answer where a literal of this kind is wanted.
    fn ask(
        &self,
        alloc: Global,
        which: Kind,
        facts: &Facts,
        goal: &Lit,
    ) -> Result<Metric, AllocError>
        requires front { IsFrontSystem which facts.now self.now }
        requires facts { IsTrue (list_all is_well_formed facts.now) }
        requires few { length (terms_of_lits facts.now) ≤ most_terms_of_step }
        requires goal { IsTrue (is_well_formed_metric (Some goal.now)) }
        ensures { IfOk result (IsKindAnswer which facts.now (Some goal.now)) }
    {
        if self.is_whole(facts) {
            if let Some(kind_system) = &self.kind_system {
                return kind_system.ask(alloc, which, facts, goal);
            }
        }
        answer_of_kind(alloc, which, facts, Some(goal))
    }

    // The answer where no literal of this kind is wanted.
    fn answer_alone(
        &self,
        alloc: Global,
        which: Kind,
        facts: &Facts,
        wanted: Option<&Lit>,
    ) -> Result<Metric, AllocError>
        requires front { IsFrontSystem which facts.now self.now }
        requires facts { IsTrue (list_all is_well_formed facts.now) }
        requires few { length (terms_of_lits facts.now) ≤ most_terms_of_step }
        requires wanted { IsTrue (is_well_formed_metric (option_copied wanted)) }
        requires other { of_kind which (against_goal (option_copied wanted)) ≡ [] }
        ensures { IfOk result (IsKindAnswer which facts.now (option_copied wanted.entry)) }
    {
        if self.is_whole(facts) {
            if let Some(kind_system) = &self.kind_system {
                return kind_system.answer_alone(alloc);
            }
        }
        answer_of_kind(alloc, which, facts, wanted)
    }

    // The certificate that all facts of its kind contradict each other, where it is there.
    fn contradiction(&self, alloc: Global, facts: &Facts) -> Result<Option<MetricCert>, AllocError>
        ensures { IfOk result (λ o. (which : Kind) → IsFrontSystem which facts.now self.now
            → IfSome o (IsMetricCertificate facts.now None)) }
    {
        if self.is_whole(facts) {
            if let Some(kind_system) = &self.kind_system {
                return kind_system.contradiction(alloc);
            }
        }
        Ok(None)
    }

    // A copy, which is right for the same facts.
    fn copy(&self, alloc: Global) -> Result<Slot, AllocError>
        ensures { IfOk result (IsFrontAs self.now) }
    {
        match &self.kind_system {
            Some(kind_system) => {
                let kind_system = kind_system.copy(alloc)?;
                Ok(Slot {
                    kind_system: Some(kind_system),
                    upto: self.upto,
                })
            }
            None => Ok(Slot {
                kind_system: None,
                upto: self.upto,
            }),
        }
    }

    // Whether what is solved is that of no more than the first `count` facts.
    fn is_within(&self, count: usize) -> bool
        ensures { result ≡ true → self.now.upto ≤ count }
    {
        self.upto <= count
    }

    // Forgets what is solved of more than the first facts.
    fn back_to(&mut self, count: usize)
        ensures { (which : Kind) (facts : List Lit) → count ≤ length facts
            → IsFrontSystem which facts self.old → IsFrontSystem which (take count facts) self.new }
    {
        if self.is_within(count) {
            return;
        }
        mem::drop(mem::replace(&mut self.kind_system, None));
        self.upto = 0;
    }
}

// The kind of a metric literal.
fn kind_of_goal(goal: &Lit) -> Kind
    requires { IsTrue (is_well_formed_metric (Some goal.now)) }
    ensures { kind_of_atom goal.now.atom ≡ Some result }
{
    kind(goal).unwrap()
}

/// What is solved of the facts of a step. Each kind is solved where it is first asked, and brought
/// up to the facts that have come since where it is asked again. What is there after a call that
/// fails is right for the same facts, and it stays right where more facts come.
#[derive(Drop)]
pub struct MetricFacts {
    systems: ByKind<Slot>,
}

impl MetricFacts {
    /// Nothing is asked yet. It takes no memory.
    pub fn new() -> MetricFacts
        ensures { (facts : List Lit) → AreFronts facts result }
    {
        MetricFacts {
            systems: ByKind {
                segments: Slot::new(),
                angles: Slot::new(),
                areas: Slot::new(),
            },
        }
    }

    /// What is solved of the facts of each kind.
    pub fn of(alloc: Global, facts: &Facts) -> Result<MetricFacts, AllocError>
        requires facts { IsTrue (list_all is_well_formed facts.now) }
        requires few { length (terms_of_lits facts.now) ≤ most_terms_of_step }
        ensures { IfOk result (AreFronts facts.now) }
    {
        let mut metric_facts = MetricFacts::new();
        match metric_facts.catch_up_all(alloc, facts) {
            Ok(()) => Ok(metric_facts),
            Err(error) => {
                mem::drop(metric_facts);
                Err(error)
            }
        }
    }

    /// Brings what is solved of one kind up to all facts. It fails only out of memory.
    pub fn catch_up(&mut self, alloc: Global, which: Kind, facts: &Facts) -> Result<(), AllocError>
        requires fronts { AreFronts facts.now self.old }
        requires facts { IsTrue (list_all is_well_formed facts.now) }
        requires few { length (terms_of_lits facts.now) ≤ most_terms_of_step }
        ensures { AreFronts facts.now self.new }
    {
        match which {
            Kind::Segment => self.systems.segments.catch_up(alloc, Kind::Segment, facts),
            Kind::Angle => self.systems.angles.catch_up(alloc, Kind::Angle, facts),
            Kind::Area => self.systems.areas.catch_up(alloc, Kind::Area, facts),
        }
    }

    /// Brings what is solved of each kind up to all facts.
    pub fn catch_up_all(&mut self, alloc: Global, facts: &Facts) -> Result<(), AllocError>
        requires fronts { AreFronts facts.now self.old }
        requires facts { IsTrue (list_all is_well_formed facts.now) }
        requires few { length (terms_of_lits facts.now) ≤ most_terms_of_step }
        ensures { AreFronts facts.now self.new }
    {
        self.catch_up(alloc, Kind::Segment, facts)?;
        self.catch_up(alloc, Kind::Angle, facts)?;
        self.catch_up(alloc, Kind::Area, facts)
    }

    /// Forgets what is solved of more than the first `count` facts, where the others are taken
    /// away.
    pub fn back_to(&mut self, count: usize)
        ensures { (facts : List Lit) → count ≤ length facts → AreFronts facts self.old
            → AreFronts (take count facts) self.new }
    {
        self.systems.segments.back_to(count);
        self.systems.angles.back_to(count);
        self.systems.areas.back_to(count);
    }

    /// A copy. It is made where a block of a proof begins, so that what is solved of the facts
    /// before it is there again after it.
    pub fn copy(&self, alloc: Global) -> Result<MetricFacts, AllocError>
        ensures { IfOk result (λ m. (facts : List Lit) → AreFronts facts self.now
            → AreFronts facts m) }
    {
        let segments = self.systems.segments.copy(alloc)?;
        let angles = match self.systems.angles.copy(alloc) {
            Ok(angles) => angles,
            Err(error) => {
                mem::drop(segments);
                return Err(error);
            }
        };
        match self.systems.areas.copy(alloc) {
            Ok(areas) => Ok(MetricFacts {
                systems: ByKind {
                    segments,
                    angles,
                    areas,
                },
            }),
            Err(error) => {
                mem::drop(segments);
                mem::drop(angles);
                Err(error)
            }
        }
    }

    // The answer of the system of the goal's kind.
    fn answer_for_kind(
        &self,
        alloc: Global,
        which: Kind,
        facts: &Facts,
        goal: &Lit,
    ) -> Result<Metric, AllocError>
        requires fronts { AreFronts facts.now self.now }
        requires facts { IsTrue (list_all is_well_formed facts.now) }
        requires few { length (terms_of_lits facts.now) ≤ most_terms_of_step }
        requires goal { IsTrue (is_well_formed_metric (Some goal.now)) }
        ensures { IfOk result (IsKindAnswer which facts.now (Some goal.now)) }
    {
        self.systems.get(which).ask(alloc, which, facts, goal)
    }

    // The answer of the facts of a kind of which no literal is wanted.
    fn answer_alone(
        &self,
        alloc: Global,
        which: Kind,
        facts: &Facts,
        wanted: Option<&Lit>,
    ) -> Result<Metric, AllocError>
        requires fronts { AreFronts facts.now self.now }
        requires facts { IsTrue (list_all is_well_formed facts.now) }
        requires few { length (terms_of_lits facts.now) ≤ most_terms_of_step }
        requires wanted { IsTrue (is_well_formed_metric (option_copied wanted)) }
        requires other { of_kind which (against_goal (option_copied wanted)) ≡ [] }
        ensures { IfOk result (IsKindAnswer which facts.now (option_copied wanted.entry)) }
    {
        self.systems
            .get(which)
            .answer_alone(alloc, which, facts, wanted)
    }

    // The answers of the facts of two kinds of which no literal is wanted.
    fn both_alone(
        &self,
        alloc: Global,
        one: Kind,
        other: Kind,
        facts: &Facts,
        wanted: Option<&Lit>,
    ) -> Result<(Metric, Metric), AllocError>
        requires fronts { AreFronts facts.now self.now }
        requires facts { IsTrue (list_all is_well_formed facts.now) }
        requires few { length (terms_of_lits facts.now) ≤ most_terms_of_step }
        requires wanted { IsTrue (is_well_formed_metric (option_copied wanted)) }
        requires one { of_kind one (against_goal (option_copied wanted)) ≡ [] }
        requires other { of_kind other (against_goal (option_copied wanted)) ≡ [] }
        ensures one { IfOk result
            (λ p. IsKindAnswer one facts.now (option_copied wanted.entry) p.0) }
        ensures other { IfOk result
            (λ p. IsKindAnswer other facts.now (option_copied wanted.entry) p.1) }
    {
        let first = self.answer_alone(alloc, one, facts, wanted)?;
        match self.answer_alone(alloc, other, facts, wanted) {
            Ok(second) => Ok((first, second)),
            Err(error) => {
                mem::drop(first);
                Err(error)
            }
        }
    }

    // The answer of the systems of all kinds, where that of the goal's kind is there.
    fn answers_by_kind(
        &self,
        alloc: Global,
        which: Kind,
        own_answer: Metric,
        facts: &Facts,
        goal: &Lit,
    ) -> Result<ByKind<Metric>, AllocError>
        requires fronts { AreFronts facts.now self.now }
        requires facts { IsTrue (list_all is_well_formed facts.now) }
        requires few { length (terms_of_lits facts.now) ≤ most_terms_of_step }
        requires goal { IsTrue (is_well_formed_metric (Some goal.now)) }
        requires kind { kind_of_atom goal.now.atom ≡ Some which }
        requires own_answer { IsKindAnswer which facts.now (Some goal.now) own_answer }
        ensures segments { IfOk result
            (λ b. IsKindAnswer Kind.Segment facts.now (Some goal.now) b.segments) }
        ensures angles { IfOk result
            (λ b. IsKindAnswer Kind.Angle facts.now (Some goal.now) b.angles) }
        ensures areas { IfOk result
            (λ b. IsKindAnswer Kind.Area facts.now (Some goal.now) b.areas) }
    {
        let wanted = Some(goal);
        let (first, second) = other_kinds(which);
        match self.both_alone(alloc, first, second, facts, wanted) {
            Ok((first, second)) => Ok(ByKind::arrange(which, own_answer, first, second)),
            Err(error) => {
                mem::drop(own_answer);
                Err(error)
            }
        }
    }

    // The answer of the systems together, where that of the goal's kind is there.
    fn answer(
        &self,
        alloc: Global,
        which: Kind,
        own_answer: Metric,
        facts: &Facts,
        goal: &Lit,
    ) -> Result<Metric, AllocError>
        requires fronts { AreFronts facts.now self.now }
        requires facts { IsTrue (list_all is_well_formed facts.now) }
        requires few { length (terms_of_lits facts.now) ≤ most_terms_of_step }
        requires goal { IsTrue (is_well_formed_metric (Some goal.now)) }
        requires kind { kind_of_atom goal.now.atom ≡ Some which }
        requires own_answer { IsKindAnswer which facts.now (Some goal.now) own_answer }
        ensures { IfOk result (IsMetricAnswer facts.now (Some goal.now)) }
    {
        let answer = self.answers_by_kind(alloc, which, own_answer, facts, goal)?;
        joined_answer(alloc, facts, Some(goal), answer)
    }

    // The answer of `follows`, where the goal is of this kind.
    fn follows_of(
        &self,
        alloc: Global,
        which: Kind,
        facts: &Facts,
        goal: &Lit,
    ) -> Result<Metric, AllocError>
        requires fronts { AreFronts facts.now self.now }
        requires facts { IsTrue (list_all is_well_formed facts.now) }
        requires few { length (terms_of_lits facts.now) ≤ most_terms_of_step }
        requires goal { IsTrue (is_well_formed_metric (Some goal.now)) }
        requires kind { kind_of_atom goal.now.atom ≡ Some which }
        ensures { IfOk result (IsMetricAnswer facts.now (Some goal.now)) }
    {
        match self.answer_for_kind(alloc, which, facts, goal)? {
            Metric::Yes(cert) => Ok(Metric::Yes(cert)),
            own_answer => self.answer(alloc, which, own_answer, facts, goal),
        }
    }

    /// Whether the metric literal follows from the facts: the answers are those of [`follows`]. The
    /// answers of the kinds other than the goal's are known, where these were brought up to the
    /// facts. The goal's own system is asked only where the goal is true with the values that the
    /// facts have already, and from there.
    ///
    /// [`follows`]: crate::consequence::follows
    pub fn follows(&self, alloc: Global, facts: &Facts, goal: &Lit) -> Result<Metric, AllocError>
        requires fronts { AreFronts facts.now self.now }
        requires facts { IsTrue (list_all is_well_formed facts.now) }
        requires few { length (terms_of_lits facts.now) ≤ most_terms_of_step }
        requires goal { IsTrue (is_well_formed_metric (Some goal.now)) }
        ensures answer { IfOk result (IsMetricAnswer facts.now (Some goal.now)) }
        ensures yes { IfOk result (λ m. IfYes m (MetricConsequence facts.now goal.now)) }
        ensures no { IfOk result (λ m. IfNo m (¬ MetricConsequence facts.now goal.now)) }
    {
        self.follows_of(alloc, kind_of_goal(goal), facts, goal)
    }

    /// Whether the metric literal follows from the facts: the answers are those of [`follows`], but
    /// no values are made where it does not.
    ///
    /// [`follows`]: MetricFacts::follows
    pub fn consequence(
        &self,
        alloc: Global,
        facts: &Facts,
        goal: &Lit,
    ) -> Result<Consequence, AllocError>
        requires fronts { AreFronts facts.now self.now }
        requires facts { IsTrue (list_all is_well_formed facts.now) }
        requires few { length (terms_of_lits facts.now) ≤ most_terms_of_step }
        requires goal { IsTrue (is_well_formed_metric (Some goal.now)) }
        ensures { IfOk result (IsConsequence facts.now goal.now) }
    {
        let which = kind_of_goal(goal);
        match self.answer_for_kind(alloc, which, facts, goal)? {
            Metric::Yes(cert) => Ok(Consequence::Yes(cert)),
            own_answer => {
                let answer = self.answers_by_kind(alloc, which, own_answer, facts, goal)?;
                Ok(joined_consequence(answer))
            }
        }
    }

    /// A certificate of the goal by the facts of its own kind, where they give it. That kind is
    /// brought up to the facts, and no other is asked.
    pub fn certificate_by_kind(
        &mut self,
        alloc: Global,
        facts: &Facts,
        goal: &Lit,
    ) -> Result<Option<MetricCert>, AllocError>
        requires fronts { AreFronts facts.now self.old }
        requires facts { IsTrue (list_all is_well_formed facts.now) }
        requires few { length (terms_of_lits facts.now) ≤ most_terms_of_step }
        requires goal { IsTrue (is_well_formed_metric (Some goal.now)) }
        ensures cert { IfOk result (λ o. IfSome o (IsMetricCertificate facts.now (Some goal.now))) }
        ensures fronts { AreFronts facts.now self.new }
    {
        let which = kind_of_goal(goal);
        self.catch_up(alloc, which, facts)?;
        match self.answer_for_kind(alloc, which, facts, goal)? {
            Metric::Yes(cert) => Ok(Some(cert)),
            Metric::No(_) | Metric::TooWide(_) => Ok(None),
        }
    }

    // The answer of the systems of the facts alone.
    fn answer_of_facts(&self, alloc: Global, facts: &Facts) -> Result<Metric, AllocError>
        requires fronts { AreFronts facts.now self.now }
        requires facts { IsTrue (list_all is_well_formed facts.now) }
        requires few { length (terms_of_lits facts.now) ≤ most_terms_of_step }
        ensures { IfOk result (IsMetricAnswer facts.now None) }
    {
        let (segments, angles) = self.both_alone(alloc, Kind::Segment, Kind::Angle, facts, None)?;
        match self.answer_alone(alloc, Kind::Area, facts, None) {
            Ok(areas) => {
                let answer = ByKind {
                    segments,
                    angles,
                    areas,
                };
                joined_answer(alloc, facts, None, answer)
            }
            Err(error) => {
                mem::drop(segments);
                mem::drop(angles);
                Err(error)
            }
        }
    }

    /// Whether the metric facts contradict each other, which is known of the kinds that were
    /// brought up to the facts.
    pub fn absurd(&self, alloc: Global, facts: &Facts) -> Result<Metric, AllocError>
        requires fronts { AreFronts facts.now self.now }
        requires facts { IsTrue (list_all is_well_formed facts.now) }
        requires few { length (terms_of_lits facts.now) ≤ most_terms_of_step }
        ensures answer { IfOk result (IsMetricAnswer facts.now None) }
        ensures yes { IfOk result (λ m. IfYes m (Unsatisfiable facts.now)) }
        ensures no { IfOk result (λ m. IfNo m (¬ Unsatisfiable facts.now)) }
    {
        self.answer_of_facts(alloc, facts)
    }

    // Brings a kind up to the facts: the certificate that its facts contradict each other, if there
    // is one.
    fn contradiction_of(
        &mut self,
        alloc: Global,
        which: Kind,
        facts: &Facts,
    ) -> Result<Option<MetricCert>, AllocError>
        requires fronts { AreFronts facts.now self.old }
        requires facts { IsTrue (list_all is_well_formed facts.now) }
        requires few { length (terms_of_lits facts.now) ≤ most_terms_of_step }
        ensures cert { IfOk result (λ o. IfSome o (IsMetricCertificate facts.now None)) }
        ensures fronts { AreFronts facts.now self.new }
    {
        self.catch_up(alloc, which, facts)?;
        self.systems.get(which).contradiction(alloc, facts)
    }

    // The certificate that the facts of a kind contradict each other, of the first kind that has
    // one.
    fn first_contradiction(
        &mut self,
        alloc: Global,
        facts: &Facts,
    ) -> Result<Option<MetricCert>, AllocError>
        requires fronts { AreFronts facts.now self.old }
        requires facts { IsTrue (list_all is_well_formed facts.now) }
        requires few { length (terms_of_lits facts.now) ≤ most_terms_of_step }
        ensures cert { IfOk result (λ o. IfSome o (IsMetricCertificate facts.now None)) }
        ensures fronts { AreFronts facts.now self.new }
    {
        if let Some(cert) = self.contradiction_of(alloc, Kind::Segment, facts)? {
            return Ok(Some(cert));
        }
        if let Some(cert) = self.contradiction_of(alloc, Kind::Angle, facts)? {
            return Ok(Some(cert));
        }
        self.contradiction_of(alloc, Kind::Area, facts)
    }

    // The answer of `absurd_in_turn`.
    fn answer_of_facts_in_turn(
        &mut self,
        alloc: Global,
        facts: &Facts,
    ) -> Result<Metric, AllocError>
        requires fronts { AreFronts facts.now self.old }
        requires facts { IsTrue (list_all is_well_formed facts.now) }
        requires few { length (terms_of_lits facts.now) ≤ most_terms_of_step }
        ensures answer { IfOk result (IsMetricAnswer facts.now None) }
        ensures fronts { AreFronts facts.now self.new }
    {
        match self.first_contradiction(alloc, facts)? {
            Some(cert) => Ok(Metric::Yes(cert)),
            None => self.answer_of_facts(alloc, facts),
        }
    }

    /// Whether the metric facts contradict each other. Each kind is first brought up to the facts,
    /// but only until one contradicts itself.
    pub fn absurd_in_turn(&mut self, alloc: Global, facts: &Facts) -> Result<Metric, AllocError>
        requires fronts { AreFronts facts.now self.old }
        requires facts { IsTrue (list_all is_well_formed facts.now) }
        requires few { length (terms_of_lits facts.now) ≤ most_terms_of_step }
        ensures answer { IfOk result (IsMetricAnswer facts.now None) }
        ensures yes { IfOk result (λ m. IfYes m (Unsatisfiable facts.now)) }
        ensures no { IfOk result (λ m. IfNo m (¬ Unsatisfiable facts.now)) }
        ensures fronts { AreFronts facts.now self.new }
    {
        self.answer_of_facts_in_turn(alloc, facts)
    }
}
