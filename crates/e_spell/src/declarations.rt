//! The lines that declare objects, and those of made objects.
ghost use Rattle.std.specs.Prelude.{◌≡◌, ◌++◌, ◌∷◌, [], ◌≤◌, ◌+◌, ◌-◌};
ghost use Rattle.std.specs.Prelude.{◌^◌, Some, None, length, OnOk, IfOk};
ghost use Rattle.e_literal.specs.Literal.{count_of};
ghost use Rattle.e_literal.specs.Scopes.{with_one, with_sorts, next_objects};
ghost use Rattle.e_spell.specs.inner.Counts.{Below, AtMostMore, scope_of_counts};
ghost use Rattle.e_spell.specs.inner.Parts.{role_words, before_name, last_line_end, objects_text};

use crate::literals::name_of;
use e_deriv::Names;
use e_line::sort_word;
use e_literal::{Sort, is_same_sort};
use e_text::{end_line, put};
use std::alloc::AllocError;

/// What a line says of its objects.
#[derive(Clone, Copy)]
pub(crate) enum Role {
    Declared,
    Made,
}

/// How many objects of each sort come before.
#[derive(Clone, Copy)]
pub(crate) struct Counts {
    pub(crate) points: usize,
    pub(crate) lines: usize,
    pub(crate) circles: usize,
}

fn count_of(counts: Counts, sort: Sort) -> usize
    ensures { result ≡ count_of (scope_of_counts counts) sort }
{
    match sort {
        Sort::Point => counts.points,
        Sort::Line => counts.lines,
        Sort::Circle => counts.circles,
    }
}

fn with_one(counts: Counts, sort: Sort) -> Counts
    requires { Below counts (2 ^ 64 - 1) }
    ensures scope { scope_of_counts result ≡ with_one (scope_of_counts counts) sort }
    ensures more { AtMostMore counts result 1 }
{
    match sort {
        Sort::Point => Counts {
            points: counts.points + 1,
            ..counts
        },
        Sort::Line => Counts {
            lines: counts.lines + 1,
            ..counts
        },
        Sort::Circle => Counts {
            circles: counts.circles + 1,
            ..counts
        },
    }
}

/// The first words of a line.
fn put_role(out: &mut Vec<u8>, role: Role, sort: Sort) -> Result<(), AllocError>
    ensures { OnOk result (out.new.items ≡ out.old.items ++ role_words role sort) }
{
    match role {
        Role::Declared => out.extend_from_slice(sort_word(sort)),
        Role::Made => {
            out.extend_from_slice(b"made")?;
            put(out, sort_word(sort))
        }
    }
}

/// What comes before a name: a new line's words, or nothing after an object of the same sort.
fn put_opening(
    out: &mut Vec<u8>,
    role: Role,
    last: Option<Sort>,
    sort: Sort,
) -> Result<(), AllocError>
    ensures { OnOk result (out.new.items ≡ out.old.items ++ before_name role last sort) }
{
    match last {
        None => put_role(out, role, sort),
        Some(before) => {
            if is_same_sort(before, sort) {
                return Ok(());
            }
            end_line(out)?;
            put_role(out, role, sort)
        }
    }
}

fn put_closing(out: &mut Vec<u8>, last: Option<Sort>) -> Result<(), AllocError>
    ensures { OnOk result (out.new.items ≡ out.old.items ++ last_line_end last) }
{
    match last {
        None => Ok(()),
        Some(_) => end_line(out),
    }
}

/// An object on its line.
fn put_object(
    out: &mut Vec<u8>,
    role: Role,
    last: Option<Sort>,
    sort: Sort,
    name: &[u8],
) -> Result<(), AllocError>
    ensures { OnOk result
        (out.new.items ≡ out.old.items ++ (before_name role last sort ++ 32 ∷ name.now)) }
{
    put_opening(out, role, last, sort)?;
    put(out, name)
}

/// The lines of the next objects, which are of these sorts: neighbours of one sort are on one line.
/// It answers how many objects come before the ones that come then.
pub(crate) fn put_objects_of(
    out: &mut Vec<u8>,
    role: Role,
    names: &Names,
    before: Counts,
    sorts: &[Sort],
) -> Result<Counts, AllocError>
    requires { Below before (2 ^ 63) }
    ensures text { OnOk result (out.new.items ≡ out.old.items
        ++ objects_text role names.now (next_objects (scope_of_counts before) sorts.now)) }
    ensures scope { IfOk result
        (λ after. scope_of_counts after ≡ with_sorts (scope_of_counts before) sorts.now) }
    ensures more { IfOk result (λ after. AtMostMore before after (length sorts.now)) }
{
    let mut counts = before;
    let mut last = None;
    for sort in sorts {
        let name = name_of(names, *sort, count_of(counts, *sort));
        put_object(out, role, last, *sort, name.bytes())?;
        counts = with_one(counts, *sort);
        last = Some(*sort);
    }
    put_closing(out, last)?;
    Ok(counts)
}
