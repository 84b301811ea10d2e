//! What `upgrade`, `trim` and `uses` write of each verified theorem of a derivation text, and last.
ghost use Rattle.std.specs.Prelude.{◌≡◌, ◌++◌, IfOk, OnOk, flat_map, IsTrue};
ghost use Rattle.e_clause.specs.declared.cert.Version.TheVariants.{Two};
ghost use Rattle.e_theorem.specs.Statements.{as_view};
ghost use Rattle.e_deriv.specs.Certified.{Certified};
ghost use Rattle.e_deriv.specs.Script.{script_of};
ghost use Rattle.e_deriv.specs.Versions.{has_certs_of};
ghost use Rattle.e_book.specs.TheoremViews.{entry_of};
ghost use Rattle.e_names.specs.TitledStatements.{stated_by};
ghost use Rattle.e_trim.specs.Trimmable.{IsTrimmable};
ghost use Rattle.e_places.specs.Numbered.{derivation_with_places};
ghost use Rattle.e_verify.specs.Verdicts.{IsVerifiable};
ghost use Rattle.e_commands.specs.Rewrites;
ghost use Rattle.e_commands.specs.inner.Rewriting.{HasVersionFor, IsOfSecond};

use crate::output::{accepted_line, bad_line, garbled_line, listed_line};
use crate::status::Status;
use e_book::Theorem;
use e_clause::Version;
use e_judgement::Judgement;
use e_names::Theorems;
use e_places::numbered;
use e_spell::spell;
use e_trim::{applied_theorems, trim};
use std::alloc::{AllocError, Global};
use std::mem;

/// Which command it is, of the three that write something of each verified theorem.
#[derive(Clone, Copy)]
pub enum Job {
    /// `upgrade`: the block of the theorem with its derivation in the second version.
    Upgrade,
    /// `trim`: the block of the theorem with its derivation without the steps that nothing needs.
    Trim,
    /// `uses`: the line of the theorem, with the titles of those that it applies.
    Uses,
}

/// What is written before anything is read.
pub fn head_of(job: Job) -> &'static [u8]
    ensures { result.now ≡ Rewrites.head_of_job job }
{
    match job {
        Job::Upgrade => b"derivation 2\n",
        Job::Trim => b"derivation 1\n",
        Job::Uses => b"",
    }
}

/// The version in which the command reads a text whose head says this. `trim` takes texts of the
/// first version alone.
pub fn read_as(job: Job, head: Option<Version>) -> Option<Version>
    ensures { result ≡ Rewrites.read_as job head }
{
    match job {
        Job::Upgrade => head,
        Job::Trim => match head {
            Some(Version::One) => Some(Version::One),
            Some(Version::Two) => None,
            None => None,
        },
        Job::Uses => head,
    }
}

/// The block of the theorem with its derivation, which cites facts by their places.
fn upgraded_block(alloc: Global, known: &Theorems, theorem: &Theorem) -> Result<Vec<u8>, AllocError>
    requires verifiable { IsVerifiable (stated_by known.now) (as_view theorem.now.statement)
        (script_of theorem.now.block) }
    requires certified { Certified (stated_by known.now) (as_view theorem.now.statement)
        (script_of theorem.now.block) }
    ensures block { IfOk result
        (λ v. v.items ≡ Rewrites.upgraded_block known.now (entry_of theorem.now)) }
    ensures version { OnOk result (IsTrue (has_certs_of Two (derivation_with_places
        (stated_by known.now) (as_view theorem.now.statement) (script_of theorem.now.block)))) }
{
    let derivation = numbered(
        alloc,
        known.statements(),
        &theorem.statement,
        &theorem.block,
    )?;
    let text = spell(alloc, known, theorem, &derivation);
    mem::drop(derivation);
    text
}

/// The block of the theorem with its derivation without the steps that nothing needs.
fn trimmed_block(alloc: Global, known: &Theorems, theorem: &Theorem) -> Result<Vec<u8>, AllocError>
    requires { IsTrimmable (stated_by known.now) (as_view theorem.now.statement)
        (script_of theorem.now.block) }
    ensures { IfOk result (λ v. v.items ≡ Rewrites.trimmed_block known.now (entry_of theorem.now)) }
{
    let trimmed = trim(
        alloc,
        known.statements(),
        &theorem.statement,
        &theorem.block,
    )?;
    let block = spell(alloc, known, theorem, &trimmed);
    mem::drop(trimmed);
    block
}

/// A space, and after it the title at a place; past the end the space alone.
#[tactic(auto, using(crate::proofs::title_counts::UsedTitles::titles_at))]
fn put_title_at(out: &mut Vec<u8>, known: &Theorems, place: usize) -> Result<(), AllocError>
    ensures { OnOk result (out.new.items ≡ out.old.items ++ Rewrites.title_word known.now place) }
{
    out.push(b' ')?;
    if place < known.len() {
        out.extend_from_slice(known.title(place).bytes())
    } else {
        Ok(())
    }
}

/// The titles at the places, each after a space.
fn put_titles(out: &mut Vec<u8>, known: &Theorems, places: &[u32]) -> Result<(), AllocError>
    ensures { OnOk result
        (out.new.items ≡ out.old.items ++ flat_map (Rewrites.title_word known.now) places.now) }
{
    for place in places {
        put_title_at(out, known, *place as usize)?;
    }
    Ok(())
}

/// The line of the theorem, with the titles of those that it applies.
fn uses_line(alloc: Global, known: &Theorems, theorem: &Theorem) -> Result<Vec<u8>, AllocError>
    ensures { IfOk result (λ v. v.items ≡ Rewrites.uses_line known.now (entry_of theorem.now)) }
{
    let places = applied_theorems(alloc, &theorem.block)?;
    let mut line = Vec::from_slice(alloc, b"uses ")?;
    line.extend_from_slice(theorem.title.bytes())?;
    put_titles(&mut line, known, &places)?;
    line.push(b'\n')?;
    Ok(line)
}

/// What is written of the theorem.
pub fn block_of(
    alloc: Global,
    job: Job,
    known: &Theorems,
    theorem: &Theorem,
) -> Result<Vec<u8>, AllocError>
    requires verifiable { IsVerifiable (stated_by known.now) (as_view theorem.now.statement)
        (script_of theorem.now.block) }
    requires certified { Certified (stated_by known.now) (as_view theorem.now.statement)
        (script_of theorem.now.block) }
    requires version { HasVersionFor job (script_of theorem.now.block) }
    ensures block { IfOk result
        (λ v. v.items ≡ Rewrites.block_of job known.now (entry_of theorem.now)) }
    ensures version { OnOk result (IsOfSecond job known.now (entry_of theorem.now)) }
{
    match job {
        Job::Upgrade => upgraded_block(alloc, known, theorem),
        Job::Trim => trimmed_block(alloc, known, theorem),
        Job::Uses => uses_line(alloc, known, theorem),
    }
}

/// The last line of a text that is judged so.
pub fn line_of(alloc: Global, job: Job, judgement: &Judgement) -> Result<Vec<u8>, AllocError>
    ensures { IfOk result (λ v. v.items ≡ Rewrites.end_line_of_job job judgement.now) }
{
    match judgement {
        Judgement::Verified { theorems } => match job {
            Job::Upgrade => accepted_line(alloc, *theorems),
            Job::Trim => accepted_line(alloc, *theorems),
            Job::Uses => listed_line(alloc, *theorems),
        },
        Judgement::Bad { title, step } => bad_line(alloc, *title, *step),
        Judgement::Garbled { line } => garbled_line(alloc, *line),
    }
}

/// The answer to a text that is judged so.
pub fn answer_of(job: Job, judgement: Judgement) -> Status
    ensures { result ≡ Rewrites.answer_of job judgement }
{
    match judgement {
        Judgement::Verified { theorems } => match job {
            Job::Upgrade => Status::Upgraded { theorems },
            Job::Trim => Status::Trimmed { theorems },
            Job::Uses => Status::Listed { theorems },
        },
        Judgement::Bad { title, step } => Status::Bad { title, step },
        Judgement::Garbled { line } => Status::Garbled { line },
    }
}
