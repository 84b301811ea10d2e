//! The good choices for the blanks of an application, in order.

ghost use Rattle.std.specs.Prelude.{◌≡◌, ◌<◌, ◌^◌, IsTrue, IfOk, OnOk, length, map};
ghost use Rattle.e_literal.specs.Use.{is_statement};
ghost use Rattle.e_metric.specs.Fronts.{AreFronts};
ghost use Rattle.e_theorem.specs.Pattern.{is_pattern};
ghost use Rattle.e_theorem.specs.Statements.{as_view};
ghost use Rattle.e_transfer.specs.Prepared.{IsPrepared};
ghost use Rattle.e_licence.specs.ChoicesInOrder.{FirstAre};
ghost use Rattle.e_licence.specs.declared.choices.FirstChoices.TheVariants.{Found};
ghost use Rattle.e_licence.specs.Verdicts.{AreRight};
ghost use Rattle.e_licence.specs.inner.BlankChoices.{filled_arguments};

use crate::blanks::{Blanks, arguments, has_empty, spans};
use crate::context::Context;
use crate::ready::{completed_places, ready_places};
use crate::restricted::BlankSearch;
use crate::sweep::{Swept, sweep};
use crate::verdicts::Verdicts;
use e_literal::{Items, NOTHING, Obj, Scope, next_objects};
use e_metric::{MetricFacts, StepFacts};
use e_theorem::Statement;
use e_transfer::{Prepared, prepare};
use std::alloc::{AllocError, Global};
use std::mem;

/// What is answered on the good choices for the blanks of an application.
#[derive(Drop)]
pub enum FirstChoices {
    /// The first of them in order, and whether there are more.
    Found {
        choices: Items<Items<Obj>>,
        more: bool,
    },
    /// Under some choice a given literal is wide, and this is the width of one of its systems.
    TooWide(u128),
}

/// The first of the good choices for the blanks of an application of the statement, in order, at
/// most `most`, and whether there are more. The blanks are filled as [`crate::match_blanks`] fills
/// them. It fails only out of memory.
///
/// It begins from what the context has solved of its facts: a [`Context::solve`] before it is worth
/// its time. What it asks is kept in `memory`, for other statements at the context.
#[tactic(auto, using(crate::proofs::LimitsOfFacts::well_formed))]
pub fn first_choices(
    alloc: Global,
    context: &Context,
    memory: &mut Verdicts,
    statement: &Statement,
    pattern: &[Option<Obj>],
    most: usize,
) -> Result<FirstChoices, AllocError>
    requires memory { AreRight context.now memory.old }
    requires states { IsTrue (is_statement (as_view statement.now)) }
    requires fits { IsTrue (is_pattern (as_view statement.now) context.now.scope pattern.now) }
    requires few { length statement.now.declared < 2 ^ 16 }
    ensures choices { IfOk result (FirstAre (as_view statement.now) context.now pattern.now most) }
    ensures memory { OnOk result (AreRight context.now memory.new) }
{
    if let Some(metric_facts) = context.metric_facts() {
        return choices_of_solved(
            alloc,
            context,
            metric_facts,
            memory,
            statement,
            pattern,
            most,
        );
    }
    let facts = context.facts();
    let metric_facts = MetricFacts::of(alloc, facts)?;
    let answer = choices_of_solved(
        alloc,
        context,
        &metric_facts,
        memory,
        statement,
        pattern,
        most,
    );
    mem::drop(metric_facts);
    answer
}

/// The first of the good choices, by what is solved of the facts.
#[tactic(auto, using(crate::proofs::LimitsOfFacts::well_formed))]
fn choices_of_solved(
    alloc: Global,
    context: &Context,
    metric_facts: &MetricFacts,
    memory: &mut Verdicts,
    statement: &Statement,
    pattern: &[Option<Obj>],
    most: usize,
) -> Result<FirstChoices, AllocError>
    requires metric_facts { AreFronts context.now.facts metric_facts.now }
    requires memory { AreRight context.now memory.old }
    requires states { IsTrue (is_statement (as_view statement.now)) }
    requires fits { IsTrue (is_pattern (as_view statement.now) context.now.scope pattern.now) }
    requires few { length statement.now.declared < 2 ^ 16 }
    ensures choices { IfOk result (FirstAre (as_view statement.now) context.now pattern.now most) }
    ensures memory { OnOk result (AreRight context.now memory.new) }
{
    let facts = context.facts();
    let prepared = prepare(alloc, facts, metric_facts)?;
    let answer = choices_of_prepared(
        alloc,
        context,
        metric_facts,
        &prepared,
        memory,
        statement,
        pattern,
        most,
    );
    mem::drop(prepared);
    answer
}

/// The first of the good choices, by what is made of the facts once for all of them.
fn choices_of_prepared(
    alloc: Global,
    context: &Context,
    metric_facts: &MetricFacts,
    prepared: &Prepared,
    memory: &mut Verdicts,
    statement: &Statement,
    pattern: &[Option<Obj>],
    most: usize,
) -> Result<FirstChoices, AllocError>
    requires metric_facts { AreFronts context.now.facts metric_facts.now }
    requires memory { AreRight context.now memory.old }
    requires prepared { IsPrepared context.now.facts prepared.now }
    requires states { IsTrue (is_statement (as_view statement.now)) }
    requires fits { IsTrue (is_pattern (as_view statement.now) context.now.scope pattern.now) }
    requires few { length statement.now.declared < 2 ^ 16 }
    ensures choices { IfOk result (FirstAre (as_view statement.now) context.now pattern.now most) }
    ensures memory { OnOk result (AreRight context.now memory.new) }
{
    let declared = next_objects(alloc, NOTHING, statement.declared.items())?;
    let spans = spans(alloc, context.scope(), &declared, pattern)?;
    if has_empty(&spans) {
        return Ok(FirstChoices::Found {
            choices: Items::empty(alloc),
            more: false,
        });
    }
    let scope = context.scope();
    let whole = spans.len();
    let ready = ready_places(alloc, scope, statement, &declared, pattern, &spans)?;
    let completed = completed_places(alloc, statement.given.items(), &ready, whole)?;
    let step_facts = StepFacts::new(context.facts(), metric_facts);
    let blanks = Blanks {
        context,
        step_facts: &step_facts,
        prepared,
        statement,
        pattern,
        declared,
        ready,
        completed,
        whole,
    };
    let task = BlankSearch {
        blanks: &blanks,
        excluded: blanks.excluded_numbers(alloc, memory, &spans)?,
    };
    let mut chosen = Vec::new(alloc);
    let mut found = Items::empty(alloc);
    match sweep(alloc, &task, memory, &spans, &mut chosen, &mut found, most)? {
        Swept::Done => as_found(alloc, &blanks, &found, false),
        Swept::Full => as_found(alloc, &blanks, &found, true),
        Swept::TooWide(width) => Ok(FirstChoices::TooWide(width)),
    }
}

/// The choices that were found, as arguments.
fn as_found(
    alloc: Global,
    blanks: &Blanks,
    found: &Items<Items<u16>>,
    more: bool,
) -> Result<FirstChoices, AllocError>
    ensures { IfOk result (λ f. f ≡ Found (map (filled_arguments blanks.now.context.now.scope
        blanks.now.declared.items blanks.now.pattern.now) found.now) more) }
{
    let scope = blanks.context.scope();
    let declared = &blanks.declared;
    let choices = all_arguments(alloc, scope, declared, blanks.pattern, found.items())?;
    Ok(FirstChoices::Found { choices, more })
}

/// The arguments of each choice.
fn all_arguments(
    alloc: Global,
    scope: Scope,
    declared: &[Obj],
    pattern: &[Option<Obj>],
    found: &[Items<u16>],
) -> Result<Items<Items<Obj>>, AllocError>
    ensures { IfOk result
        (λ choices. choices ≡ map (filled_arguments scope declared.now pattern.now) found.now) }
{
    let mut choices = Items::empty(alloc);
    for part in found {
        let args = arguments(alloc, scope, declared, pattern, part.items())?;
        choices.push(Items::new(args))?;
    }
    Ok(choices)
}
