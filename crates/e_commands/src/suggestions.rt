//! What is suggested at a step: a line for each choice of arguments for each theorem.
ghost use Rattle.std.specs.Prelude.{◌≡◌, ◌++◌, ◌∷◌, [], map, IfOk, IsTrue, OnOk};
ghost use Rattle.std.specs.List.{list_all};
ghost use Rattle.e_literal.specs.Use.{is_statement};
ghost use Rattle.e_theorem.specs.Statements.{as_view};
ghost use Rattle.e_licence.specs.Verdicts.{AreRight};
ghost use Rattle.e_deriv.specs.Fitting.{is_small_statement};
ghost use Rattle.e_names.specs.TitledStatements.{stated_by};
ghost use Rattle.e_line.specs.Canonical.{argument_word};
ghost use Rattle.e_names.specs.Canonical.{name_of_object};
ghost use Rattle.e_book.specs.Canonical.{text_of};
ghost use Rattle.e_commands.specs.SuggesterAnswers.{apply_line};
ghost use Rattle.e_commands.specs.inner.Suggesting.{IsListed, IsListedOne, apply_lines};

use e_deriv::Names;
use e_licence::{FirstChoices, Verdicts};
use e_line::put_apply;
use e_literal::{Items, Obj};
use e_names::{Theorems, name_of_object};
use e_prove::StateBefore;
use e_suggest::all;
use e_text::{Name, Title, end_line};
use e_theorem::Statement;
use std::alloc::{AllocError, Global};
use std::mem;

/// The most lines that are suggested.
const MOST_LINES: usize = 1000;

/// The most declared objects of a theorem whose choices are looked for.
const MOST_DECLARED: usize = 6;

/// How many lines were written, for one theorem or for all.
#[derive(Clone, Copy)]
pub enum Listed {
    /// This many lines, and whether others are left out.
    Found { lines: usize, more: bool },
    /// It is too wide to say whether some choice is good, and this is the width.
    TooWide(u128),
}

/// The names of arguments, none of them a blank.
fn names_of_choice(
    alloc: Global,
    names: &Names,
    args: &[Obj],
) -> Result<Items<Option<Name>>, AllocError>
    ensures { IfOk result (λ n. map argument_word n ≡ map (name_of_object names.now) args.now) }
{
    let mut found = Vec::new(alloc);
    for object in args {
        found.push(Some(name_of_object(names, *object)))?;
    }
    Ok(Items::new(found))
}

/// A line that applies a theorem.
fn put_application(
    alloc: Global,
    out: &mut Vec<u8>,
    title: Title,
    names: &Names,
    args: &[Obj],
) -> Result<(), AllocError>
    ensures { OnOk result
        (out.new.items ≡ out.old.items ++ (apply_line title names.now args.now ++ 10 ∷ [])) }
{
    let args = names_of_choice(alloc, names, args)?;
    let put = put_apply(out, title.bytes(), args.items(), &[]);
    mem::drop(args);
    put?;
    end_line(out)
}

/// A line for each choice of arguments.
fn put_applications(
    alloc: Global,
    out: &mut Vec<u8>,
    title: Title,
    names: &Names,
    choices: &[Items<Obj>],
) -> Result<(), AllocError>
    ensures { OnOk result
        (out.new.items ≡ out.old.items ++ text_of (apply_lines title names.now choices.now)) }
{
    for choice in choices {
        put_application(alloc, out, title, names, choice.items())?;
    }
    Ok(())
}

/// The lines of one theorem, at most as many as are left. One of more than six declared objects is
/// passed over.
fn list_theorem(
    alloc: Global,
    title: Title,
    statement: &Statement,
    state: &StateBefore,
    memory: &mut Verdicts,
    left: usize,
    out: &mut Vec<u8>,
) -> Result<Listed, AllocError>
    requires memory { AreRight state.now.context memory.old }
    requires states { IsTrue (is_statement (as_view statement.now)) }
    ensures listed { IfOk result (IsListedOne state.now.names state.now.context.scope
        state.now.context.facts title (as_view statement.now) left out.old.items out.new.items) }
    ensures memory { OnOk result (AreRight state.now.context memory.new) }
{
    let declared = statement.declared.len();
    if declared > MOST_DECLARED {
        return Ok(Listed::Found {
            lines: 0,
            more: false,
        });
    }
    match all(alloc, &state.context, memory, statement, left)? {
        FirstChoices::Found { choices, more } => {
            put_applications(alloc, out, title, &state.names, choices.items())?;
            let lines = choices.len();
            Ok(Listed::Found { lines, more })
        }
        FirstChoices::TooWide(width) => Ok(Listed::TooWide(width)),
    }
}

/// The lines of all theorems in order, at most 1,000.
pub fn list_theorems(
    alloc: Global,
    known: &Theorems,
    state: &StateBefore,
    out: &mut Vec<u8>,
) -> Result<Listed, AllocError>
    requires small { IsTrue (list_all is_small_statement (stated_by known.now)) }
    requires empty { out.old.items ≡ [] }
    ensures { IfOk result (IsListed state.now.names state.now.context.scope state.now.context.facts
        known.now out.new.items) }
{
    let mut memory = Verdicts::new(alloc);
    let mut count = 0;
    for at in 0..known.len() {
        let title = known.title(at);
        let statement = known.statement(at);
        match list_theorem(
            alloc,
            title,
            statement,
            state,
            &mut memory,
            MOST_LINES - count,
            out,
        )? {
            Listed::Found { lines, more } => {
                count += lines;
                if more {
                    return Ok(Listed::Found { lines: count, more });
                }
            }
            Listed::TooWide(width) => return Ok(Listed::TooWide(width)),
        }
    }
    Ok(Listed::Found {
        lines: count,
        more: false,
    })
}
