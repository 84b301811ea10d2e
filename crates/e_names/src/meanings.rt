//! What items mean: with the objects of their names, and written out.
ghost use Rattle.std.specs.Prelude.{◌≤◌, ◌+◌, ◌-◌, length, IfOk, IsTrue};
ghost use Rattle.std.specs.List.{list_all};
ghost use Rattle.e_literal.specs.Literal.{all_in_scope};
ghost use Rattle.e_line.specs.Reading.{Gives};
ghost use Rattle.e_line.specs.Limits.{most_expanded};
ghost use Rattle.e_names.specs.Scope.{FewNames, scope_of_names};
ghost use Rattle.e_names.specs.Titled.{notion_of, are_notions};
ghost use Rattle.e_names.specs.Meanings.{known_notion, meant_in, item_in, items_in};
ghost use Rattle.e_names.specs.inner.Written.{Writes};

use crate::naming::put_named;
use crate::notions::Notions;
use crate::scope::{lit_in, objects_of_sorts, scope_of_names};
use e_deriv::Names;
use e_line::{FaultKind, LineError, RawAs, RawItem, RawLit};
use e_literal::{Items, Lit};
use e_text::Title;
use e_theorem::{Notion, UseFault, expand_first};
use std::alloc::Global;
use std::slice;

/// How many literals items may mean, in one theorem or one definition.
pub const MAX_EXPANDED: usize = 4_096;

fn known_notion(notions: &Notions, title: Title) -> Result<&Notion, LineError>
    ensures { Gives (λ n. n.now) result (known_notion (notion_of notions.now title)) }
{
    match notions.get(title) {
        Some(notion) => Ok(notion),
        None => Err(LineError::Fault(FaultKind::UnknownName)),
    }
}

/// The first n literals that an item means: the title, then how many names there are, then the
/// names.
#[tactic(auto, unfolding(crate::specs::Meanings::meant_in))]
fn meant_in(
    alloc: Global,
    notions: &Notions,
    names: &Names,
    raw: &RawAs,
    most: usize,
) -> Result<Items<Lit>, LineError>
    requires names { FewNames names.now }
    requires notions { IsTrue (are_notions notions.now) }
    ensures value { Gives (λ l. l) result (meant_in notions.now names.now most raw.now) }
    ensures within { IfOk result
        (λ l. IsTrue (list_all (all_in_scope (scope_of_names names.now)) l)) }
    ensures count { IfOk result (λ l. length l ≤ most) }
{
    let notion = known_notion(notions, raw.title)?;
    if raw.args.len() != notion.declared.len() {
        return Err(LineError::Fault(FaultKind::Malformed));
    }
    let args = objects_of_sorts(alloc, names, notion.declared.items(), raw.args.items())?;
    match expand_first(alloc, notion, args.items(), scope_of_names(names), most) {
        Ok(lits) => Ok(lits),
        Err(UseFault::BadArgs) => unreachable!(),
        Err(UseFault::NoMemory) => Err(LineError::NoMemory),
    }
}

/// Puts last what an item means, with names, and counts on: how many literals of the line are
/// of notions.
fn put_item(
    alloc: Global,
    notions: &Notions,
    names: &Names,
    item: &RawItem,
    count: usize,
    raws: &mut Items<RawLit>,
) -> Result<usize, LineError>
    requires names { FewNames names.now }
    requires notions { IsTrue (are_notions notions.now) }
    requires count { count ≤ most_expanded + 1 }
    ensures value { Writes names.now result raws.old raws.new
        (item_in notions.now names.now count item.now) }
    ensures count { IfOk result (λ n. n ≤ most_expanded + 1) }
{
    match item {
        RawItem::Literal(raw) => {
            let lit = lit_in(alloc, names, raw)?;
            put_named(alloc, names, slice::from_ref(&lit), raws)?;
            Ok(count)
        }
        RawItem::As(raw) => {
            let lits = meant_in(alloc, notions, names, raw, MAX_EXPANDED + 1 - count)?;
            put_named(alloc, names, lits.items(), raws)?;
            Ok(count + lits.len())
        }
    }
}

/// Puts last what the items mean, with names: the leftmost fault, or how many literals of the
/// line are of notions.
pub fn put_items(
    alloc: Global,
    notions: &Notions,
    names: &Names,
    items: &[RawItem],
    count: usize,
    raws: &mut Items<RawLit>,
) -> Result<usize, LineError>
    requires names { FewNames names.now }
    requires notions { IsTrue (are_notions notions.now) }
    requires count { count ≤ most_expanded + 1 }
    ensures value { Writes names.now result raws.old raws.new
        (items_in notions.now names.now count items.now) }
    ensures count { IfOk result (λ n. n ≤ most_expanded + 1) }
{
    match items {
        [] => Ok(count),
        [item, items @ ..] => {
            let count = put_item(alloc, notions, names, item, count, raws)?;
            put_items(alloc, notions, names, items, count, raws)
        }
    }
}
