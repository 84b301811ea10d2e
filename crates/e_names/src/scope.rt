//! Names looked up among the objects in scope.
ghost use Rattle.std.specs.Prelude.{◌≡◌, ◌≤◌, ◌<◌, ◌^◌, ◌+◌, List, [], length, OnOk};
ghost use Rattle.e_deriv.specs.Naming.{with_new_names};
ghost use Rattle.e_clause.specs.Instance;
ghost use Rattle.e_clause.specs.Sigs.{sig_of};
ghost use Rattle.std.specs.List.{list_any};
ghost use Rattle.e_construct.specs.Lines;
ghost use Rattle.e_line.specs.Reading.{Gives, Moves, each, with_front};
ghost use Rattle.e_names.specs.Scope.{object_in, object_of, used_object, number_of_sort, number_of_name};
ghost use Rattle.e_names.specs.Scope.{on_sort, line_meets, meets_from, equal_at};
ghost use Rattle.e_names.specs.Scope.{atom_in, negated_in, lit_in, lits_in, object_as};
ghost use Rattle.e_names.specs.Scope.{objects_as, is_taken, fresh, args_in, by_in};
ghost use Rattle.e_names.specs.Scope.{known_rule, FewNames, scope_of_names, arguments_in};
ghost use Rattle.e_names.specs.Scope.{first_fitting, let_in, objects_of_sorts, qed_in};

use crate::terms::{Sides, sums_in};
use e_clause::{By, Rule, Sig};
use e_construct::{Construction, Shape, takes};
use e_deriv::Names;
use e_line::{FaultKind, LineError, RawAtom, RawLet, RawLit};
use e_literal::{Atom, Items, Lit, Obj, Scope, Sort, is_same_sort};
use e_text::{Name, Title, contains, place_of};
use std::alloc::{AllocError, Global};

/// How many objects of each sort have names.
pub fn scope_of_names(names: &Names) -> Scope
    requires { FewNames names.now }
    ensures { result ≡ scope_of_names names.now }
{
    Scope {
        points: names.points.len() as u16,
        lines: names.lines.len() as u16,
        circles: names.circles.len() as u16,
    }
}

/// New names, each after those of its sort.
pub fn put_names(names: &mut Names, sorts: &[Sort], new: &[Name]) -> Result<(), AllocError>
    ensures { OnOk result (names.new ≡ with_new_names names.old sorts.now new.now) }
{
    for (sort, name) in sorts.iter().zip(new) {
        names.push(*sort, *name)?;
    }
    Ok(())
}

fn object_in(names: &Names, sort: Sort, name: Name) -> Option<Obj>
    requires { FewNames names.now }
    ensures { result ≡ object_in names.now sort name }
{
    match place_of(names.of_sort(sort), name) {
        Some(i) => Some(Obj {
            sort,
            num: i as u16,
        }),
        None => None,
    }
}

fn object_of(names: &Names, name: Name) -> Option<Obj>
    requires { FewNames names.now }
    ensures { result ≡ object_of names.now name }
{
    if let Some(point) = object_in(names, Sort::Point, name) {
        return Some(point);
    }
    if let Some(line) = object_in(names, Sort::Line, name) {
        return Some(line);
    }
    object_in(names, Sort::Circle, name)
}

fn object_named(names: &Names, name: Name) -> Result<Obj, LineError>
    requires { FewNames names.now }
    ensures { Gives (λ o. o) result (used_object names.now name) }
{
    match object_of(names, name) {
        Some(object) => Ok(object),
        None => Err(LineError::Fault(FaultKind::UnknownName)),
    }
}

/// The number of the object of this sort. A point is looked for among the points before all else.
#[tactic(auto, unfolding(crate::specs::Scope::number_of_name))]
pub(crate) fn number_of(names: &Names, sort: Sort, name: Name) -> Result<u16, LineError>
    requires { FewNames names.now }
    ensures { Gives (λ n. n) result (number_of_name names.now sort name) }
{
    if matches!(sort, Sort::Point) {
        if let Some(place) = place_of(names.points.items(), name) {
            return Ok(place as u16);
        }
    }
    let object = object_named(names, name)?;
    if is_same_sort(object.sort, sort) {
        Ok(object.num)
    } else {
        Err(LineError::Fault(FaultKind::WrongSort))
    }
}

fn on_object(point: u16, object: Obj) -> Result<Atom, LineError>
    ensures { Gives (λ a. a) result (on_sort point object.sort object.num) }
{
    match object.sort {
        Sort::Point => Err(LineError::Fault(FaultKind::WrongSort)),
        Sort::Line => Ok(Atom::On(point, object.num)),
        Sort::Circle => Ok(Atom::OnC(point, object.num)),
    }
}

fn line_meets(line: u16, object: Obj) -> Result<Atom, LineError>
    ensures { Gives (λ a. a) result (line_meets line object.sort object.num) }
{
    match object.sort {
        Sort::Point => Err(LineError::Fault(FaultKind::WrongSort)),
        Sort::Line => Ok(Atom::MeetLL(line, object.num)),
        Sort::Circle => Ok(Atom::MeetLC(line, object.num)),
    }
}

/// What meets the first object: after a line a line or a circle, after a circle a circle.
fn meets_from(names: &Names, first: Obj, second: Name) -> Result<Atom, LineError>
    requires { FewNames names.now }
    ensures { Gives (λ a. a) result (meets_from names.now first.sort first.num second) }
{
    match first.sort {
        Sort::Point => Err(LineError::Fault(FaultKind::WrongSort)),
        Sort::Line => {
            let object = object_named(names, second)?;
            line_meets(first.num, object)
        }
        Sort::Circle => {
            let circle = number_of(names, Sort::Circle, second)?;
            Ok(Atom::MeetCC(first.num, circle))
        }
    }
}

fn equal_at(sort: Sort, first: u16, second: u16) -> Atom
    ensures { result ≡ equal_at sort first second }
{
    match sort {
        Sort::Point => Atom::EqP(first, second),
        Sort::Line => Atom::EqL(first, second),
        Sort::Circle => Atom::EqC(first, second),
    }
}

#[tactic(auto, unfolding(crate::specs::Scope::atom_in))]
fn atom_in(alloc: Global, names: &Names, atom: &RawAtom) -> Result<Atom, LineError>
    requires { FewNames names.now }
    ensures { Gives (λ a. a) result (atom_in names.now atom.now) }
{
    match atom {
        RawAtom::On(x, y) => {
            let point = number_of(names, Sort::Point, *x)?;
            let object = object_named(names, *y)?;
            on_object(point, object)
        }
        RawAtom::Inside(x, y) => {
            let point = number_of(names, Sort::Point, *x)?;
            let circle = number_of(names, Sort::Circle, *y)?;
            Ok(Atom::Inside(point, circle))
        }
        RawAtom::Center(x, y) => {
            let point = number_of(names, Sort::Point, *x)?;
            let circle = number_of(names, Sort::Circle, *y)?;
            Ok(Atom::Center(point, circle))
        }
        RawAtom::Between(x, y, z) => {
            let first = number_of(names, Sort::Point, *x)?;
            let middle = number_of(names, Sort::Point, *y)?;
            let last = number_of(names, Sort::Point, *z)?;
            Ok(Atom::Between(first, middle, last))
        }
        RawAtom::Same(x, y, z) => {
            let first = number_of(names, Sort::Point, *x)?;
            let second = number_of(names, Sort::Point, *y)?;
            let line = number_of(names, Sort::Line, *z)?;
            Ok(Atom::Same(first, second, line))
        }
        RawAtom::Meets(x, y) => {
            let first = object_named(names, *x)?;
            meets_from(names, first, *y)
        }
        RawAtom::Equal(x, y) => {
            let first = object_named(names, *x)?;
            let second = number_of(names, first.sort, *y)?;
            Ok(equal_at(first.sort, first.num, second))
        }
        RawAtom::SumsEqual(x, y) => {
            let Sides { left, right } = sums_in(alloc, names, x.items(), y.items())?;
            Ok(Atom::MagEq(left, right))
        }
        RawAtom::SumsLess(x, y) => {
            let Sides { left, right } = sums_in(alloc, names, x.items(), y.items())?;
            Ok(Atom::MagLt(left, right))
        }
        RawAtom::SumsAtMost(x, y) => {
            let Sides { left, right } = sums_in(alloc, names, x.items(), y.items())?;
            Ok(Atom::MagLt(right, left))
        }
    }
}

/// Whether it is a negation: a sum at most another is the negation of the other being less.
fn negated_in(atom: &RawAtom, neg: bool) -> bool
    ensures { result ≡ negated_in atom.now neg }
{
    match atom {
        RawAtom::SumsAtMost(_, _) => !neg,
        _ => neg,
    }
}

/// The literal with the objects of its names; the leftmost fault.
#[tactic(auto, unfolding(crate::specs::Scope::lit_in))]
pub fn lit_in(alloc: Global, names: &Names, lit: &RawLit) -> Result<Lit, LineError>
    requires { FewNames names.now }
    ensures { Gives (λ l. l) result (lit_in names.now lit.now) }
{
    let atom = atom_in(alloc, names, &lit.atom)?;
    let neg = negated_in(&lit.atom, lit.neg);
    Ok(Lit { neg, atom })
}

/// Puts the literals with their objects last; the leftmost fault.
pub fn put_lits(
    alloc: Global,
    names: &Names,
    raw: &[RawLit],
    lits: &mut Items<Lit>,
) -> Result<(), LineError>
    requires { FewNames names.now }
    ensures value { Moves result lits.new (with_front lits.old (lits_in names.now raw.now)) }
    ensures count { OnOk result (length lits.new ≡ length lits.old + length raw.now) }
{
    for lit in raw {
        let lit = lit_in(alloc, names, lit)?;
        lits.push(lit)?;
    }
    Ok(())
}

/// The object of this sort with the name.
#[tactic(auto, unfolding(crate::specs::Scope::object_as))]
pub(crate) fn object_as(names: &Names, sort: Sort, name: Name) -> Result<Obj, LineError>
    requires { FewNames names.now }
    ensures { Gives (λ o. o) result (object_as names.now sort name) }
{
    let num = number_of(names, sort, name)?;
    Ok(Obj { sort, num })
}

/// Puts the objects of this sort with these names last.
fn put_objects_as(
    names: &Names,
    sort: Sort,
    of: &[Name],
    found: &mut Items<Obj>,
) -> Result<(), LineError>
    requires { FewNames names.now }
    ensures { Moves result found.new (with_front found.old (objects_as names.now sort of.now)) }
{
    for name in of {
        let object = object_as(names, sort, *name)?;
        found.push(object)?;
    }
    Ok(())
}

fn is_taken(names: &Names, earlier: &[Name], name: Name) -> bool
    ensures { result ≡ is_taken names.now earlier.now name }
{
    contains(names.points.items(), name)
        || contains(names.lines.items(), name)
        || contains(names.circles.items(), name)
        || contains(earlier, name)
}

/// No name is taken, and none is new twice.
pub fn fresh(names: &Names, new: &[Name]) -> Result<(), LineError>
    ensures { Gives (λ u. u) result (fresh names.now [] new.now) }
{
    for (i, name) in new.iter().enumerate() {
        if is_taken(names, &new[..i], *name) {
            return Err(LineError::Fault(FaultKind::NameTaken));
        }
    }
    Ok(())
}

/// The rule of diagrams and equality with this name.
fn known_rule(name: Title) -> Result<Rule, LineError>
    ensures { Gives (λ r. r) result (known_rule (Instance.number_of_rule name)) }
{
    let Some(rule) = Rule::named(name.bytes()) else {
        return Err(LineError::Fault(FaultKind::UnknownName));
    };
    if rule.is_transfer() {
        return Err(LineError::Fault(FaultKind::UnknownName));
    }
    Ok(rule)
}

/// An object for each variable of a rule: points, then lines, then circles.
#[tactic(auto, unfolding(crate::specs::Scope::args_in))]
pub fn args_in(
    alloc: Global,
    names: &Names,
    sig: Sig,
    args: &[Name],
) -> Result<Items<Obj>, LineError>
    requires names { FewNames names.now }
    requires count { length args.now ≡ sig.points + sig.lines + sig.circles }
    ensures { Gives (λ l. l) result (args_in names.now sig args.now) }
{
    let (points, rest) = args.split_at(usize::from(sig.points));
    let (lines, circles) = rest.split_at(usize::from(sig.lines));
    let mut objects = Items::new(Vec::with_capacity(alloc, args.len())?);
    put_objects_as(names, Sort::Point, points, &mut objects)?;
    put_objects_as(names, Sort::Line, lines, &mut objects)?;
    put_objects_as(names, Sort::Circle, circles, &mut objects)?;
    Ok(objects)
}

/// A citation: the rule, then how many names it has, then the names, then the literal.
#[tactic(auto, unfolding(crate::specs::Scope::by_in))]
pub fn by_in(
    alloc: Global,
    names: &Names,
    rule: Title,
    args: &[Name],
    lit: &RawLit,
) -> Result<By, LineError>
    requires { FewNames names.now }
    ensures { Gives (λ b. b) result (by_in names.now rule args.now lit.now) }
{
    let rule = known_rule(rule)?;
    let sig = rule.sig();
    let count = usize::from(sig.points) + usize::from(sig.lines) + usize::from(sig.circles);
    if args.len() != count {
        return Err(LineError::Fault(FaultKind::Malformed));
    }
    let args = args_in(alloc, names, sig, args)?;
    let lit = lit_in(alloc, names, lit)?;
    Ok(By { rule, args, lit })
}

/// The arguments of a construction: each has a sort that one of the shapes takes after the earlier
/// arguments.
fn arguments_in(
    alloc: Global,
    names: &Names,
    shapes: &[Shape],
    of: &[Name],
) -> Result<Items<Obj>, LineError>
    requires { FewNames names.now }
    ensures { Gives (λ l. l) result (arguments_in names.now shapes.now [] of.now) }
{
    let mut found = Items::new(Vec::with_capacity(alloc, of.len())?);
    for name in of {
        let object = object_named(names, *name)?;
        found.push(object)?;
        if !is_taken_by(shapes, found.items()) {
            return Err(LineError::Fault(FaultKind::WrongSort));
        }
    }
    Ok(found)
}

/// Whether one of the shapes takes the objects as its first arguments.
fn is_taken_by(shapes: &[Shape], objects: &[Obj]) -> bool
    ensures { result ≡ list_any (λ s. Lines.takes s objects.now) shapes.now }
{
    shapes.iter().any(|shape| takes(*shape, objects))
}

fn objects_used(alloc: Global, names: &Names, of: &[Name]) -> Result<Items<Obj>, LineError>
    requires { FewNames names.now }
    ensures { Gives (λ l. l) result (each (used_object names.now) of.now) }
{
    let mut found = Items::new(Vec::with_capacity(alloc, of.len())?);
    for name in of {
        let object = object_named(names, *name)?;
        found.push(object)?;
    }
    Ok(found)
}

/// The construction of the first of the shapes that fits.
fn first_fitting(
    scope: Scope,
    args: Items<Obj>,
    avoid: Items<Obj>,
    shapes: &[Shape],
) -> Result<Construction, LineError>
    ensures { Gives (λ f. f) result (first_fitting scope args avoid shapes.now) }
{
    let mut construction = Construction {
        shape: Shape::Free,
        args,
        avoid,
    };
    for shape in shapes {
        construction.shape = *shape;
        if construction.fits(scope) {
            return Ok(construction);
        }
    }
    Err(LineError::Fault(FaultKind::Malformed))
}

/// A construction: its new names, then its arguments, then what it avoids.
#[tactic(auto, unfolding(crate::specs::Scope::let_in))]
pub fn let_in(alloc: Global, names: &Names, raw: &RawLet) -> Result<Construction, LineError>
    requires { FewNames names.now }
    ensures { Gives (λ f. f) result (let_in names.now raw.now) }
{
    fresh(names, raw.new.items())?;
    let args = arguments_in(alloc, names, raw.shapes.items(), raw.args.items())?;
    let avoid = objects_used(alloc, names, raw.avoid.items())?;
    let construction = first_fitting(scope_of_names(names), args, avoid, raw.shapes.items())?;
    if raw.new.len() != construction.made().len() {
        return Err(LineError::Fault(FaultKind::Malformed));
    }
    Ok(construction)
}

/// An object for each sort.
pub(crate) fn objects_of_sorts(
    alloc: Global,
    names: &Names,
    sorts: &[Sort],
    of: &[Name],
) -> Result<Items<Obj>, LineError>
    requires { FewNames names.now }
    ensures { Gives (λ l. l) result (objects_of_sorts names.now sorts.now of.now) }
{
    let mut found = Items::empty(alloc);
    for (sort, name) in sorts.iter().zip(of) {
        let object = object_as(names, *sort, *name)?;
        found.push(object)?;
    }
    Ok(found)
}

/// The objects after `qed`: as many as there are made ones, and then each of its sort.
#[tactic(auto, unfolding(crate::specs::Scope::qed_in))]
pub fn qed_in(
    alloc: Global,
    names: &Names,
    made: &[Sort],
    of: &[Name],
) -> Result<Items<Obj>, LineError>
    requires { FewNames names.now }
    ensures { Gives (λ l. l) result (qed_in names.now made.now of.now) }
{
    if of.len() != made.len() {
        return Err(LineError::Fault(FaultKind::Malformed));
    }
    objects_of_sorts(alloc, names, made, of)
}
