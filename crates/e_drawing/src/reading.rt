//! A figure text, line by line.
ghost use Rattle.std.specs.Prelude.{◌≡◌, ◌<◌, ◌^◌, OnOk};
ghost use Rattle.e_text.specs.Lines.{view_of_line};
ghost use Rattle.e_text.specs.Tokens.{tokens_of};
ghost use Rattle.e_book.specs.Grammar.{last_line};
ghost use Rattle.e_line.specs.Reading.{texts, Moves};
ghost use Rattle.e_drawing.specs.Plans.{FitsPlan};
ghost use Rattle.e_drawing.specs.Texts.{plan_at_end, words_step, plan_from, PlanIs, TakesPlanLine};

use crate::plan::Plan;
use crate::raw::line_of;
use e_book::is_skipped;
use e_line::{BookFault, LineError, book_fault_of, words_of_line};
use e_text::{Line, Lines};
use std::alloc::Global;
use std::mem;

/// Takes the words of a line that is not skipped. After a fault the plan is not used again.
#[tactic(auto, unfolding(crate::specs::Texts::words_step))]
fn take_words(alloc: Global, plan: &mut Plan, words: &[&[u8]]) -> Result<(), LineError>
    requires { FitsPlan plan.old }
    ensures value { Moves result plan.new (words_step plan.old (texts words.now)) }
    ensures fits { OnOk result (FitsPlan plan.new) }
{
    let line = line_of(alloc, words)?;
    let taken = plan.take(alloc, &line);
    mem::drop(line);
    taken
}

/// Takes a line by its words, unless it is skipped.
fn take_tokens(
    alloc: Global,
    plan: &mut Plan,
    line: &Line,
    words: &[&[u8]],
) -> Result<(), BookFault>
    requires words { texts words.now ≡ tokens_of line.now.bytes.now }
    requires number { line.now.number < 2 ^ 32 }
    requires fits { FitsPlan plan.old }
    ensures takes { TakesPlanLine plan.old (view_of_line line.now) result plan.new }
    ensures fits { OnOk result (FitsPlan plan.new) }
{
    if is_skipped(words) {
        return Ok(());
    }
    match take_words(alloc, plan, words) {
        Ok(()) => Ok(()),
        Err(error) => Err(error.at(line.number as u32)),
    }
}

/// Takes a line.
fn take_line(alloc: Global, plan: &mut Plan, line: &Line) -> Result<(), BookFault>
    requires number { line.now.number < 2 ^ 32 }
    requires fits { FitsPlan plan.old }
    ensures takes { TakesPlanLine plan.old (view_of_line line.now) result plan.new }
    ensures fits { OnOk result (FitsPlan plan.new) }
{
    let words = words_of_line(alloc, line.bytes)?;
    take_tokens(alloc, plan, line, &words)
}

/// No lines come any more, and the next would have this number: a fault before the last line of the
/// figure.
fn end(plan: &Plan, line: u64) -> Result<(), BookFault>
    requires { line < 2 ^ 32 }
    ensures { PlanIs result plan.now (plan_at_end line plan.now) }
{
    if !plan.is_done() {
        return Err(BookFault::Unended { line: line as u32 });
    }
    Ok(())
}

/// Takes all lines that are there. After a fault the plan is not used again.
pub fn read_plan(alloc: Global, lines: &mut Lines, plan: &mut Plan) -> Result<(), BookFault>
    requires lines { last_line lines.old < 2 ^ 32 }
    requires fits { FitsPlan plan.old }
    ensures { PlanIs result plan.new (plan_from (last_line lines.old) plan.old lines.old.lines) }
{
    while let Some(line) = lines.next() {
        let line = match line {
            Ok(line) => line,
            Err(fault) => return Err(book_fault_of(fault)),
        };
        take_line(alloc, plan, &line)?;
    }
    end(plan, lines.line())
}
