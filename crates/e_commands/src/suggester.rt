//! `suggest`: which earlier theorems may be applied at a step of a theorem.
ghost use Rattle.std.specs.Prelude.{◌≡◌, ◌≤◌, ◌<◌, ◌^◌, ◌++◌, length, IfOk, IsTrue};
ghost use Rattle.std.specs.List.{list_all};
ghost use Rattle.std.specs.Str.{bytes_eq};
ghost use Rattle.e_io.specs.Bytes.{Rose};
ghost use Rattle.e_theorem.specs.Statements.{as_view};
ghost use Rattle.e_deriv.specs.Script.{script_of};
ghost use Rattle.e_deriv.specs.Fitting.{IsFitting, is_small_statement};
ghost use Rattle.e_book.specs.Definitions.{OfTheorem, view_of, IsWellFormedItem, HasWellFormedView};
ghost use Rattle.e_book.specs.Definitions.{IsFittingItem};
ghost use Rattle.e_book.specs.TheoremViews.{entry_of};
ghost use Rattle.e_names.specs.TitledStatements.{stated_by};
ghost use Rattle.e_names.specs.Taken.{nothing_known};
ghost use Rattle.e_commands.specs.Answers.{IsReadFault, IsWriteFault, WroteOfText};
ghost use Rattle.e_commands.specs.declared.status.Status.TheVariants.{Suggested};
ghost use Rattle.e_commands.specs.LastLines.{suggested_line};
ghost use Rattle.e_commands.specs.Outcome.{lines_of_book};
ghost use Rattle.e_commands.specs.SuggesterAnswers.{SuggestAnswer};
ghost use Rattle.e_commands.specs.inner.Finished.{HasDueOfText, HasReadFault};
ghost use Rattle.e_commands.specs.inner.Suggesting.{AnswersAt, AnswersNext, PassesNext};
ghost use Rattle.e_commands.specs.inner.Suggesting.{IsBookAnswer, IsStopAnswer, is_out_of_memory};

use crate::checker::stop_answer;
use crate::input::{LONGEST_LINE, MOST_BYTES, read_text};
use crate::output::{
    Answer, Failure, answer_of_fault, answer_with, finish, or_no_memory, suggested_line,
};
use crate::status::Status;
use crate::suggestions::{Listed, list_theorems};
use e_book::{Item, Theorem, next_item};
use e_deriv::{Stop, Wanted, size};
use e_io::{Sink, Source};
use e_judgement::keep;
use e_names::{Known, Theorems};
use e_prove::{StateBefore, prove, state_before_step};
use e_spell::spell_stop;
use e_text::{Lines, Title};
use std::alloc::{AllocError, Global};
use std::mem;

/// Whether the stop is out of memory, which says nothing of the book.
fn is_out_of_memory(stop: &Stop) -> bool
    ensures { result ≡ is_out_of_memory stop.now }
{
    matches!(stop, Stop::NoMemory)
}

/// The answer to a theorem with this stop, unless memory ran out.
fn answer_of_stop(alloc: Global, title: Title, stop: Stop) -> Result<Answer, AllocError>
    ensures { IfOk result (λ a. IsStopAnswer title stop a.status a.line.items) }
{
    if is_out_of_memory(&stop) {
        mem::drop(stop);
        return Err(AllocError);
    }
    match spell_stop(alloc, title, &stop) {
        Ok(line) => Ok(Answer {
            status: stop_answer(title, stop),
            line,
        }),
        Err(error) => {
            mem::drop(stop);
            Err(error)
        }
    }
}

/// What is suggested, with the last line.
fn with_last_line(
    alloc: Global,
    text: Vec<u8>,
    lines: u32,
    more: bool,
) -> Result<Answer, AllocError>
    ensures { IfOk result (λ a. (a.status ≡ Suggested lines more)
        × (a.line.items ≡ text.items ++ suggested_line lines more)) }
{
    let mut text = text;
    let last = suggested_line(alloc, lines, more)?;
    text.extend_from_slice(&last)?;
    Ok(Answer {
        status: Status::Suggested { lines, more },
        line: text,
    })
}

/// What may be applied at this step of the theorem with this title, before which this is the state.
/// All is found before anything is written.
fn answer_at(
    alloc: Global,
    known: &Theorems,
    state: &mut StateBefore,
    title: Title,
    step: u32,
) -> Result<Answer, AllocError>
    requires { IsTrue (list_all is_small_statement (stated_by known.now)) }
    ensures { IfOk result (λ a. AnswersAt state.old.names state.old.context.scope
        state.old.context.facts known.now title step a.status a.line.items) }
{
    state.context.solve(alloc)?;
    let mut text = Vec::new(alloc);
    match list_theorems(alloc, known, state, &mut text)? {
        Listed::Found { lines, more } => with_last_line(alloc, text, lines as u32, more),
        Listed::TooWide(width) => {
            let names = state.names.copy(alloc)?;
            let stop = Stop::TooWide {
                step,
                wanted: Wanted::Match,
                width,
                names,
            };
            answer_of_stop(alloc, title, stop)
        }
    }
}

/// The answer on the theorem that has the title. Whether it has the step is asked before any step
/// is licensed.
fn answer_on(
    alloc: Global,
    known: &Theorems,
    theorem: &Theorem,
    step: u32,
) -> Result<Answer, AllocError>
    requires small { IsTrue (list_all is_small_statement (stated_by known.now)) }
    requires fitting { IsFitting (stated_by known.now) (as_view theorem.now.statement)
        (script_of theorem.now.block) }
    requires first { 1 ≤ step }
    ensures { IfOk result (λ a. AnswersNext known.now
        (entry_of theorem.now) theorem.now.title step a.status a.line.items) }
{
    let steps = size(&theorem.block);
    if steps < step {
        return answer_with(alloc, Status::NoStep, b"no step\n");
    }
    let mut state = match state_before_step(alloc, known.statements(), theorem, step) {
        Ok(state) => state,
        Err(stop) => return answer_of_stop(alloc, theorem.title, stop),
    };
    let answer = answer_at(alloc, known, &mut state, theorem.title, step);
    mem::drop(state);
    answer
}

/// Whether the theorem has this title.
fn has_title(theorem: &Theorem, title: Title) -> bool
    ensures { result ≡ bytes_eq theorem.now.title title }
{
    theorem.title.bytes() == title.bytes()
}

/// Licenses a theorem with another title, which then is known, and gives no answer. It gives one
/// where the theorem has the title, or stops.
fn pass_theorem(
    alloc: Global,
    known: &mut Known,
    theorem: Theorem,
    title: Title,
    step: u32,
) -> Result<Option<Answer>, AllocError>
    requires small { IsTrue (list_all is_small_statement (stated_by known.old.theorems)) }
    requires good { IsWellFormedItem known.old (OfTheorem (entry_of theorem)) }
    requires fitting { IsFitting (stated_by known.old.theorems) (as_view theorem.statement)
        (script_of theorem.block) }
    requires states { IsTrue (is_small_statement (as_view theorem.statement)) }
    requires first { 1 ≤ step }
    ensures { IfOk result
        (PassesNext known.old (OfTheorem (entry_of theorem)) title step known.new) }
{
    if has_title(&theorem, title) {
        let answer = answer_on(alloc, &known.theorems, &theorem, step);
        mem::drop(theorem);
        return Ok(Some(answer?));
    }
    match prove(alloc, known.theorems.statements(), &theorem) {
        Ok(derivation) => mem::drop(derivation),
        Err(stop) => {
            let answer = answer_of_stop(alloc, theorem.title, stop);
            mem::drop(theorem);
            return Ok(Some(answer?));
        }
    }
    keep(&mut known.theorems, theorem)?;
    Ok(None)
}

/// A definition is known from its last line on; a theorem is passed, or answered.
fn pass_item(
    alloc: Global,
    known: &mut Known,
    item: Item,
    title: Title,
    step: u32,
) -> Result<Option<Answer>, AllocError>
    requires small { IsTrue (list_all is_small_statement (stated_by known.old.theorems)) }
    requires good { HasWellFormedView known.old item }
    requires fitting { IsFittingItem known.old item }
    requires first { 1 ≤ step }
    ensures { IfOk result (PassesNext known.old (view_of item) title step known.new) }
{
    match item {
        Item::Theorem(theorem) => pass_theorem(alloc, known, theorem, title, step),
        Item::Notion(name, notion) => {
            known.add_notion(name, notion)?;
            Ok(None)
        }
    }
}

/// The answer to a book whose lines are all there: its theorems are read and licensed up to the one
/// with the title.
fn answer_to(
    alloc: Global,
    lines: &mut Lines,
    known: &mut Known,
    title: Title,
    step: u32,
) -> Result<Answer, AllocError>
    requires first { lines.old.line ≡ 1 }
    requires few { length lines.old.lines < 2 ^ 31 }
    requires none { known.old ≡ nothing_known }
    requires step { 1 ≤ step }
    ensures { IfOk result (λ a. IsBookAnswer lines.old.lines title step a.status a.line.items) }
{
    loop {
        let item = match next_item(alloc, lines, known) {
            Ok(Some(item)) => item,
            Ok(None) => return answer_with(alloc, Status::NoStep, b"no step\n"),
            Err(at) => return answer_of_fault(alloc, at),
        };
        match pass_item(alloc, known, item, title, step)? {
            None => {}
            Some(answer) => return Ok(answer),
        }
    }
}

/// The answer to a book.
fn answer_for(alloc: Global, text: &[u8], title: Title, step: u32) -> Result<Answer, AllocError>
    requires few { length text.now < 2 ^ 31 }
    requires step { 1 ≤ step }
    ensures { IfOk result
        (λ a. IsBookAnswer (lines_of_book text.now) title step a.status a.line.items) }
{
    let mut lines = Lines::new(text, LONGEST_LINE, MOST_BYTES as u64);
    let mut known = Known::new(alloc);
    let answer = answer_to(alloc, &mut lines, &mut known, title, step);
    mem::drop(known);
    answer
}

/// The answer to the book of a source.
fn answer_to_source<S: Source>(
    alloc: Global,
    title: Title,
    step: u32,
    source: &mut S,
) -> Result<Answer, Failure>
    requires { 1 ≤ step }
    ensures due { HasDueOfText (λ text. SuggestAnswer (lines_of_book text) title step)
        (S.left source.old) result }
    ensures rises { S.faults source.old ≤ S.faults source.new }
    ensures cause { HasReadFault result → Rose (S.faults source.old) (S.faults source.new) }
{
    let text = match read_text(alloc, source, MOST_BYTES) {
        Ok(text) => text,
        Err(failure) => return Err(failure),
    };
    or_no_memory(answer_for(alloc, &text, title, step))
}

/// Reads a book from a source, and writes to a sink what may be applied before this step of the
/// theorem with this title. Nothing is written before all of it was read and all was found.
pub fn suggest<S: Source, K: Sink>(
    alloc: Global,
    title: Title,
    step: u32,
    source: &mut S,
    sink: &mut K,
) -> Status
    requires { 1 ≤ step }
    ensures suggests { WroteOfText (λ text. SuggestAnswer (lines_of_book text) title step)
        (S.left source.old) (K.written sink.old) (K.written sink.new) result }
    ensures read_rises { S.faults source.old ≤ S.faults source.new }
    ensures read_cause { IsReadFault result → Rose (S.faults source.old) (S.faults source.new) }
    ensures write_rises { K.faults sink.old ≤ K.faults sink.new }
    ensures write_cause { IsWriteFault result → Rose (K.faults sink.old) (K.faults sink.new) }
{
    finish(sink, answer_to_source(alloc, title, step, source))
}
