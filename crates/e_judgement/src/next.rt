//! The next theorem of a derivation text, checked.
ghost use Rattle.std.specs.Prelude.{◌≡◌, ◌≤◌, ◌<◌, length, IfOk, IfErr, OnOk, IsTrue};
ghost use Rattle.std.specs.List.{list_all};
ghost use Rattle.e_theorem.specs.Statements.{as_view};
ghost use Rattle.e_deriv.specs.Script.{script_of};
ghost use Rattle.e_deriv.specs.Certified.{Certified, verdict};
ghost use Rattle.e_deriv.specs.Fitting.{is_small_statement};
ghost use Rattle.e_book.specs.Grammar.{last_line};
ghost use Rattle.e_names.specs.TitledStatements.{stated_by};
ghost use Rattle.e_line.specs.Limits.{most_theorems};
ghost use Rattle.e_verify.specs.Checking.{RejectIs};
ghost use Rattle.e_verify.specs.Verdicts.{IsVerifiable};
ghost use Rattle.e_judgement.specs.Judged.{JudgedAfter};
ghost use Rattle.e_judgement.specs.Steps.{NextCertified, GoesOn};

use crate::judgement::Judgement;
use e_book::Theorem;
use e_clause::Version;
use e_names::Theorems;
use e_read::{Piece, TextFault, read};
use e_text::{Lines, faulty_line};
use e_verify::{Reject, verify};
use std::alloc::{AllocError, Global};
use std::mem;

/// What comes next in a derivation text.
#[derive(Drop)]
pub enum NextItem {
    /// A theorem with its derivation, which is certified.
    Theorem(Theorem),
    /// The end: the text is judged so.
    End(Judgement),
}

/// After the last line of a text nothing comes.
fn after_last_line(lines: &mut Lines, theorems: u32) -> Judgement
    ensures { result ≡ JudgedAfter theorems lines.old.lines }
{
    match lines.next() {
        None => Judgement::Verified { theorems },
        Some(Ok(line)) => Judgement::Garbled { line: line.number },
        Some(Err(fault)) => Judgement::Garbled {
            line: faulty_line(fault),
        },
    }
}

/// Checks a theorem that is read by those that are known.
fn check(alloc: Global, known: &Theorems, theorem: &Theorem) -> Result<(), Reject>
    requires { IsVerifiable (stated_by known.now) (as_view theorem.now.statement)
        (script_of theorem.now.block) }
    ensures certified { OnOk result (Certified (stated_by known.now) (as_view theorem.now.statement)
        (script_of theorem.now.block)) }
    ensures bad { IfErr result (RejectIs (verdict (stated_by known.now)
        (as_view theorem.now.statement) (script_of theorem.now.block))) }
{
    verify(
        alloc,
        known.statements(),
        &theorem.statement,
        &theorem.block,
    )
}

/// The next theorem of a text of this version, if it is certified by those that are known; else how
/// the text is judged. It fails only out of memory.
pub fn next_item(
    alloc: Global,
    version: Version,
    known: &Theorems,
    lines: &mut Lines,
) -> Result<NextItem, AllocError>
    requires few { length known.now ≤ most_theorems }
    requires known { IsTrue (list_all is_small_statement (stated_by known.now)) }
    ensures next { IfOk result (λ n. NextCertified version known.now
        (last_line lines.old) lines.old.lines lines.new.lines n) }
    ensures on { IfOk result (λ n. GoesOn n lines.old lines.new) }
{
    let theorem = match read(alloc, lines, known, version) {
        Ok(Piece::Theorem(theorem)) => theorem,
        Ok(Piece::Last { theorems }) => return Ok(NextItem::End(after_last_line(lines, theorems))),
        Err(TextFault::Garbled { line }) => return Ok(NextItem::End(Judgement::Garbled { line })),
        Err(TextFault::NoMemory) => return Err(AllocError),
    };
    match check(alloc, known, &theorem) {
        Ok(()) => Ok(NextItem::Theorem(theorem)),
        Err(Reject::Bad { step }) => {
            let title = theorem.title;
            mem::drop(theorem);
            Ok(NextItem::End(Judgement::Bad { title, step }))
        }
        Err(Reject::NoMemory) => {
            mem::drop(theorem);
            Err(AllocError)
        }
    }
}
