//! What certificates a line owes.
ghost use Rattle.std.specs.Prelude.{◌≡◌, ◌≤◌, ◌<◌, ◌+◌, ◌^◌, ◌∷◌, [], IfOk, IsTrue};
ghost use Rattle.std.specs.Prelude.{length, map, Option, Some, None, reverse};
ghost use Rattle.std.specs.Option.{option_map};
ghost use Rattle.std.specs.List.{list_all};
ghost use Rattle.e_literal.specs.Rename;
ghost use Rattle.e_literal.specs.Rename.{image_in, pairs_of};
ghost use Rattle.e_theorem.specs.Statements.{as_view};
ghost use Rattle.e_deriv.specs.Fitting.{is_small_statement};
ghost use Rattle.e_deriv.specs.Goal;
ghost use Rattle.e_deriv.specs.Goal.{goal_of_statement};
ghost use Rattle.e_book.specs.ParserViews.{statement_of_parser};
ghost use Rattle.e_line.specs.Limits.{most_theorems};
ghost use Rattle.e_names.specs.TitledStatements.{stated_by};
ghost use Rattle.e_line.specs.Reading.{Gives, each, or_malformed};
ghost use Rattle.e_book.specs.Blocks.{made_in};
ghost use Rattle.e_book.specs.Steps.{FitsScope};
ghost use Rattle.e_read.specs.inner.Needs;
ghost use Rattle.e_read.specs.inner.Machine.{FitsParser};
ghost use Rattle.e_read.specs.Owing.{needs_in};
ghost use Rattle.e_read.specs.inner.Needs.{open_goal, one_each, due_of};

use e_book::{BlockKind, OpenBlock, TheoremParser};
use e_cert::{Certs, Obligation};
use e_line::{LineError, RawApply, RawLine};
use e_literal::{Items, Lit, Map, NOTHING, Obj, Scope, Sort, next_objects, with_sorts};
use e_names::{Theorems, apply_in, let_in, lit_in, qed_in, scope_of_names, superpose_in};
use e_text::Name;
use e_theorem::{Statement, UseFault, all_renamed, use_of};
use std::alloc::{AllocError, Global};
use std::mem;

/// The literal alone.
fn one_lit(alloc: Global, lit: Lit) -> Result<Items<Lit>, AllocError>
    ensures { IfOk result (λ ls. ls ≡ lit ∷ []) }
{
    Ok(Items::new(vec![in alloc; lit]?))
}

/// One certificate for each of these literals.
fn one_each(alloc: Global, wanted: Items<Lit>) -> Obligation
    ensures { result ≡ one_each wanted }
{
    Obligation::Literals {
        wanted,
        certs: Certs::new(alloc),
        transfer: None,
    }
}

/// The arguments, none of which is a blank.
fn args_without_blank(alloc: Global, pattern: &[Option<Obj>]) -> Result<Items<Obj>, LineError>
    ensures { Gives (λ a. a) result (each or_malformed pattern.now) }
{
    let mut args = Items::empty(alloc);
    for entry in pattern {
        match *entry {
            Some(object) => args.push(object)?,
            None => return Err(LineError::MALFORMED),
        }
    }
    Ok(args)
}

/// The given literals of an earlier theorem at its arguments.
fn needs_in(
    alloc: Global,
    scope: Scope,
    statement: &Statement,
    pattern: &[Option<Obj>],
) -> Result<Items<Lit>, LineError>
    requires few { length statement.now.declared + length statement.now.made < 2 ^ 15 }
    requires points { scope.points < 2 ^ 15 }
    requires lines { scope.lines < 2 ^ 15 }
    requires circles { scope.circles < 2 ^ 15 }
    ensures { Gives (λ l. l) result (needs_in scope (as_view statement.now) pattern.now) }
{
    let args = args_without_blank(alloc, pattern)?;
    match use_of(alloc, statement, args.items(), scope) {
        Ok(used) => Ok(used.needs),
        Err(UseFault::BadArgs) => Err(LineError::MALFORMED),
        Err(UseFault::NoMemory) => Err(LineError::NoMemory),
    }
}

/// What an application owes.
#[tactic(auto, unfolding(crate::specs::inner::Needs::needs_of_raw_apply))]
fn needs_of_use(
    alloc: Global,
    known: &Theorems,
    parser: &TheoremParser,
    raw: &RawApply,
) -> Result<Items<Lit>, LineError>
    requires parser { FitsScope parser.now }
    requires few { length known.now ≤ most_theorems }
    requires known { IsTrue (list_all is_small_statement (stated_by known.now)) }
    ensures { Gives (λ l. l) result (Needs.needs_of_raw_apply known.now parser.now raw.now) }
{
    let used = apply_in(alloc, known, &parser.in_scope, raw)?;
    let statement = known.statement(used.theorem as usize);
    needs_in(
        alloc,
        scope_of_names(&parser.in_scope),
        statement,
        used.args.items(),
    )
}

/// What the innermost claim or superposition of these blocks shows, if there is one.
fn shown_around(blocks: &[OpenBlock]) -> Option<&[Lit]>
    ensures { option_map (λ l. l.now) result ≡ Needs.shown_around (reverse blocks.now) }
{
    let [blocks @ .., outer] = blocks else {
        return None;
    };
    match &outer.kind {
        BlockKind::Claim { shown } => Some(shown.items()),
        BlockKind::Superpose { shown, .. } => Some(shown.items()),
        BlockKind::First { .. } | BlockKind::Second { .. } => shown_around(blocks),
    }
}

/// The literals with objects for the made ones in them.
fn with_objects(
    alloc: Global,
    made: &[Obj],
    shown: &[Lit],
    objects: &[Obj],
) -> Result<Items<Lit>, AllocError>
    requires one_sort { map (λ o. o.sort) made.now ≡ map (λ o. o.sort) objects.now }
    ensures { IfOk result
        (λ ls. ls ≡ map (Rename.with_images (image_in (pairs_of made.now objects.now))) shown.now) }
{
    let images = Map::of_pairs(alloc, made, objects)?;
    let with = all_renamed(alloc, shown, &images)?;
    Ok(Items::new(with))
}

/// The literals of the goal of the whole proof with these objects for its made ones.
#[tactic(auto, using(crate::proofs::Rooms::made_fits, e_literal::proofs::GrownScopes::sorts_next))]
fn whole_goal_with(
    alloc: Global,
    parser: &TheoremParser,
    objects: &[Obj],
) -> Result<Items<Lit>, AllocError>
    requires parser { FitsParser parser.now }
    requires sorts { map (λ o. o.sort) objects.now ≡ parser.now.made }
    ensures { IfOk result (λ ls. ls ≡ Goal.goal_with
        (goal_of_statement (as_view (statement_of_parser parser.now))) objects.now) }
{
    let declared = with_sorts(NOTHING, parser.declared.items());
    let made = next_objects(alloc, declared, parser.made.items())?;
    with_objects(alloc, &made, parser.shown.items(), objects)
}

/// The literals of the goal of the open block with these objects for its made ones.
#[tactic(auto, using(crate::proofs::GoalSorts::none_made, crate::proofs::GoalSorts::all_made))]
fn goal_with(
    alloc: Global,
    parser: &TheoremParser,
    objects: &[Obj],
) -> Result<Items<Lit>, AllocError>
    requires parser { FitsParser parser.now }
    requires sorts { map (λ o. o.sort) objects.now ≡ made_in parser.now.blocks parser.now.made }
    ensures { IfOk result (λ ls. ls ≡ Goal.goal_with (open_goal parser.now) objects.now) }
{
    match shown_around(parser.blocks.items()) {
        Some(shown) => with_objects(alloc, &[], shown, objects),
        None => whole_goal_with(alloc, parser, objects),
    }
}

/// The made objects of the goal of the open block.
fn goal_made(parser: &TheoremParser) -> &[Sort]
    ensures { result.now ≡ made_in parser.now.blocks parser.now.made }
{
    if parser.blocks.has_claim() {
        return &[];
    }
    parser.made.items()
}

/// What a close by `qed` owes.
#[tactic(auto, unfolding(crate::specs::inner::Needs::needs_at_qed))]
fn needs_at_qed(
    alloc: Global,
    parser: &TheoremParser,
    names: &[Name],
) -> Result<Items<Lit>, LineError>
    requires { FitsParser parser.now }
    ensures { Gives (λ l. l) result (Needs.needs_at_qed parser.now names.now) }
{
    let objects = qed_in(alloc, &parser.in_scope, goal_made(parser), names)?;
    let needs = goal_with(alloc, parser, objects.items())?;
    Ok(needs)
}

/// What a line owes.
#[tactic(auto, unfolding(crate::specs::inner::Needs::due_of))]
pub(crate) fn due_of(
    alloc: Global,
    known: &Theorems,
    parser: &TheoremParser,
    raw_line: &RawLine,
) -> Result<Obligation, LineError>
    requires parser { FitsParser parser.now }
    requires few { length known.now ≤ most_theorems }
    requires known { IsTrue (list_all is_small_statement (stated_by known.now)) }
    ensures { Gives (λ d. d) result (due_of known.now parser.now raw_line.now) }
{
    match raw_line {
        RawLine::Hence(raw) => {
            let lit = lit_in(alloc, &parser.in_scope, raw)?;
            let wanted = one_lit(alloc, lit)?;
            Ok(one_each(alloc, wanted))
        }
        RawLine::Let(raw) => {
            let construction = let_in(alloc, &parser.in_scope, raw)?;
            let needs = construction.needs(alloc);
            mem::drop(construction);
            Ok(one_each(alloc, Items::new(needs?)))
        }
        RawLine::Apply(raw) => {
            let needs = needs_of_use(alloc, known, parser, raw)?;
            Ok(one_each(alloc, needs))
        }
        RawLine::Superpose(raw) => {
            let placement = superpose_in(alloc, &parser.in_scope, raw)?;
            let needs = placement.superposition.needs(alloc);
            mem::drop(placement);
            Ok(one_each(alloc, Items::new(needs?)))
        }
        RawLine::Qed(names) => {
            let needs = needs_at_qed(alloc, parser, names.items())?;
            Ok(one_each(alloc, needs))
        }
        RawLine::Contradiction => Ok(Obligation::Contradiction { against: None }),
        _ => Ok(Obligation::Nothing),
    }
}
