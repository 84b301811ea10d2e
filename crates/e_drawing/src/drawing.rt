//! What the program writes of a figure text.
ghost use Rattle.std.specs.Prelude.{◌≡◌, ◌<◌, ◌≤◌, ◌^◌, length, take, IfOk};
ghost use Rattle.e_drawing.specs.Plans.{no_plan, FitsPlan};
ghost use Rattle.e_drawing.specs.Answers.{answer_text, Draws};
ghost use Rattle.e_drawing.specs.Texts.{plan_of, PlanIs};

use crate::answers::put_answers;
use crate::plan::Plan;
use crate::reading::read_plan;
use e_line::BookFault;
use e_text::Lines;
use std::alloc::{AllocError, Global};
use std::mem;

/// What is written of a figure text, with the number of its shown literals.
#[derive(Drop)]
pub struct Drawing {
    pub shown: u64,
    pub bytes: Vec<u8>,
}

/// The most bytes of a figure text.
const MOST_BYTES: usize = 4_194_304;

/// The most bytes of one of its lines.
const LONGEST_LINE: usize = 1600;

/// Reads the figure of a text.
fn read_text(alloc: Global, text: &[u8], plan: &mut Plan) -> Result<(), BookFault>
    requires few { length text.now < 2 ^ 31 }
    requires begins { plan.old ≡ no_plan }
    requires fits { FitsPlan plan.old }
    ensures { PlanIs result plan.new (plan_of text.now) }
{
    let mut lines = Lines::new(text, LONGEST_LINE, MOST_BYTES as u64);
    read_plan(alloc, &mut lines, plan)
}

/// The answer to the figure of a plan.
fn drawing_of(alloc: Global, plan: &Plan) -> Result<Drawing, AllocError>
    ensures shown { IfOk result (λ d. d.shown ≡ length plan.now.shown) }
    ensures bytes { IfOk result (λ d. d.bytes.items ≡ answer_text plan.now) }
{
    let shown = plan.shown.len() as u64;
    let mut bytes = Vec::new(alloc);
    put_answers(alloc, &mut bytes, plan, shown)?;
    Ok(Drawing { shown, bytes })
}

/// What is written of the text that a plan is read from.
fn read_and_draw(alloc: Global, text: &[u8], plan: &mut Plan) -> Result<Drawing, BookFault>
    requires few { length text.now < 2 ^ 31 }
    requires begins { plan.old ≡ no_plan }
    requires fits { FitsPlan plan.old }
    ensures { Draws text.now result }
{
    read_text(alloc, text, plan)?;
    let drawing = drawing_of(alloc, plan)?;
    Ok(drawing)
}

/// The bytes that a text may have, and one more, where it has more.
fn bytes_to_read(text: &[u8]) -> &[u8]
    ensures value { result.now ≡ take 4194305 text.now }
    ensures few { length result.now ≤ 4194305 }
{
    &text[..(MOST_BYTES + 1).min(text.len())]
}

/// What is written of a figure text, with the number of its shown literals; or the first fault of
/// the text.
pub fn draw(alloc: Global, text: &[u8]) -> Result<Drawing, BookFault>
    ensures { Draws text.now result }
{
    let mut plan = Plan::new(alloc);
    let answer = read_and_draw(alloc, bytes_to_read(text), &mut plan);
    mem::drop(plan);
    answer
}
