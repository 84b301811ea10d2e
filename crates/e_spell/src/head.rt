//! The lines of a theorem before its proof.
ghost use Rattle.std.specs.Prelude.{◌≡◌, ◌++◌, ◌∷◌, [], codes, IfOk, OnOk};
ghost use Rattle.e_literal.specs.Use.{scope_of};
ghost use Rattle.e_theorem.specs.Statements.{as_view};
ghost use Rattle.e_spell.specs.inner.Counts.{scope_of_counts};
ghost use Rattle.e_spell.specs.inner.Parts.{title_text, statement_text, head_text};

use crate::declarations::{Counts, Role, put_objects_of};
use crate::literals::put_literal_lines;
use e_deriv::Names;
use e_text::{Title, end_line, put, put_line};
use e_theorem::Statement;
use std::alloc::{AllocError, Global};

fn put_title(out: &mut Vec<u8>, title: Title) -> Result<(), AllocError>
    ensures { OnOk result (out.new.items ≡ out.old.items ++ title_text title) }
{
    out.extend_from_slice(b"theorem")?;
    put(out, title.bytes())?;
    end_line(out)
}

/// What is given and what is shown, with the lines of the objects before it. It answers how many
/// objects are declared.
fn put_statement(
    alloc: Global,
    out: &mut Vec<u8>,
    names: &Names,
    statement: &Statement,
) -> Result<Counts, AllocError>
    ensures text { OnOk result
        (out.new.items ≡ out.old.items ++ statement_text names.now statement.now) }
    ensures declared { IfOk result (λ c. scope_of_counts c ≡ scope_of (as_view statement.now)) }
{
    let none = Counts {
        points: 0,
        lines: 0,
        circles: 0,
    };
    let sorts = statement.declared.items();
    let declared = put_objects_of(out, Role::Declared, names, none, sorts)?;
    put_literal_lines(alloc, out, b"given", names, statement.given.items())?;
    put_objects_of(out, Role::Made, names, declared, statement.made.items())?;
    put_literal_lines(alloc, out, b"show", names, statement.shown.items())?;
    Ok(declared)
}

/// The lines from the title to the word proof. It answers how many objects are declared.
pub(crate) fn put_head(
    alloc: Global,
    out: &mut Vec<u8>,
    title: Title,
    names: &Names,
    statement: &Statement,
) -> Result<Counts, AllocError>
    ensures text { OnOk result
        (out.new.items ≡ out.old.items ++ head_text title names.now statement.now) }
    ensures declared { IfOk result (λ c. scope_of_counts c ≡ scope_of (as_view statement.now)) }
{
    put_title(out, title)?;
    let declared = put_statement(alloc, out, names, statement)?;
    put_line(out, b"proof")?;
    Ok(declared)
}
