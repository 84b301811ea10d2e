//! Literals as they are spelled, known from their words alone.
ghost use Rattle.std.specs.Prelude.{◌≡◌, ◌∷◌, ◌≤◌, List, length};
ghost use Rattle.std.specs.List.{list_all, position_or_len};
ghost use Rattle.e_line.specs.Reading.{texts, Gives, Moves, with_front};
ghost use Rattle.e_line.specs.Literals.{relation_of, is_relation, single_name, sums_of, sides_of};
ghost use Rattle.e_line.specs.Literals.{equal_sides, negation_of, relation_first, lit_of_sides};
ghost use Rattle.e_line.specs.Literals.{lit_by_first_word, lit_after_not, lit_of, is_diagram_raw};
ghost use Rattle.e_line.specs.Literals.{diagram_lit_of, diagram_lits_of, lits_of};

use crate::fault::LineError;
use crate::sum::{RawMono, sum_of};
use crate::words::{first_index_of, three_names, two_names};
use e_literal::Items;
use e_text::{Name, is};
use std::alloc::Global;
use std::mem;

/// An atom with its names as they are spelled.
#[derive(Drop)]
pub enum RawAtom {
    /// A point on a line or a circle.
    On(Name, Name),
    /// A point inside a circle.
    Inside(Name, Name),
    /// The center of a circle.
    Center(Name, Name),
    /// Three points, the second between the others.
    Between(Name, Name, Name),
    /// Two points on one side of a line.
    Same(Name, Name, Name),
    /// Two lines, a line and a circle, or two circles.
    Meets(Name, Name),
    /// Two objects of one sort.
    Equal(Name, Name),
    /// Two equal sums.
    SumsEqual(Items<RawMono>, Items<RawMono>),
    /// A sum less than another.
    SumsLess(Items<RawMono>, Items<RawMono>),
    /// A sum at most another: the negation of the other being less.
    SumsAtMost(Items<RawMono>, Items<RawMono>),
}

/// An atom with or without negation. `x != y` and `not x = y` are read alike.
#[derive(Drop)]
pub struct RawLit {
    pub neg: bool,
    pub atom: RawAtom,
}

/// How a comparison relates its sides.
#[derive(Clone, Copy)]
pub(crate) enum Relation {
    /// `=`
    Equal,
    /// `!=`
    Differ,
    /// `<`
    Less,
    /// `<=`
    AtMost,
}

/// The relation that a word is.
fn relation_of(word: &[u8]) -> Option<Relation>
    ensures { result ≡ relation_of word.now }
{
    if is(word, b"=") {
        return Some(Relation::Equal);
    }
    if is(word, b"!=") {
        return Some(Relation::Differ);
    }
    if is(word, b"<") {
        return Some(Relation::Less);
    }
    if is(word, b"<=") {
        return Some(Relation::AtMost);
    }
    None
}

fn is_relation(word: &[u8]) -> bool
    ensures { result ≡ is_relation word.now }
{
    relation_of(word).is_some()
}

/// Where a relation comes first, or the number of words.
fn index_of_relation(words: &[&[u8]]) -> usize
    ensures place { result ≡ position_or_len is_relation (texts words.now) }
    ensures within { result ≤ length words.now }
{
    for (i, word) in words.iter().enumerate() {
        if is_relation(word) {
            return i;
        }
    }
    words.len()
}

/// A side that is one name.
fn object_of(words: &[&[u8]]) -> Option<Name>
    ensures { result ≡ single_name (texts words.now) }
{
    match words {
        [word] => Name::read(word),
        _ => None,
    }
}

/// The sums on both sides.
struct Sums {
    left: Items<RawMono>,
    right: Items<RawMono>,
}

/// A sum on each side, and a term in one of them.
#[tactic(auto, unfolding(crate::specs::Literals::sums_of))]
fn sums_of(alloc: Global, left: &[&[u8]], right: &[&[u8]]) -> Result<Sums, LineError>
    ensures { Gives (λ s. (s.left, s.right)) result (sums_of (texts left.now) (texts right.now)) }
{
    let left = sum_of(alloc, left)?;
    let right = sum_of(alloc, right)?;
    if left.is_empty() && right.is_empty() {
        return Err(LineError::MALFORMED);
    }
    Ok(Sums { left, right })
}

/// Two names are of equal objects, and else the sides are sums.
fn equal_sides(alloc: Global, left: &[&[u8]], right: &[&[u8]]) -> Result<RawAtom, LineError>
    ensures { Gives (λ a. a) result (equal_sides (single_name (texts left.now))
        (single_name (texts right.now)) (sums_of (texts left.now) (texts right.now))) }
{
    if let (Some(x), Some(y)) = (object_of(left), object_of(right)) {
        return Ok(RawAtom::Equal(x, y));
    }
    let Sums { left, right } = sums_of(alloc, left, right)?;
    Ok(RawAtom::SumsEqual(left, right))
}

#[tactic(auto, unfolding(crate::specs::Literals::sides_of))]
fn sides_of(
    alloc: Global,
    relation: Relation,
    left: &[&[u8]],
    right: &[&[u8]],
) -> Result<RawAtom, LineError>
    ensures { Gives (λ a. a) result (sides_of relation (texts left.now) (texts right.now)) }
{
    match relation {
        Relation::Equal => equal_sides(alloc, left, right),
        Relation::Differ => equal_sides(alloc, left, right),
        Relation::Less => {
            let Sums { left, right } = sums_of(alloc, left, right)?;
            Ok(RawAtom::SumsLess(left, right))
        }
        Relation::AtMost => {
            let Sums { left, right } = sums_of(alloc, left, right)?;
            Ok(RawAtom::SumsAtMost(left, right))
        }
    }
}

/// Whether it is a negation: `!=` is one, and `not` may come before neither it nor `<=`.
fn negation_of(negated: bool, relation: Relation) -> Result<bool, LineError>
    ensures { Gives (λ n. n) result (negation_of negated relation) }
{
    match relation {
        Relation::Equal => Ok(negated),
        Relation::Less => Ok(negated),
        Relation::Differ => {
            if negated {
                return Err(LineError::MALFORMED);
            }
            Ok(true)
        }
        Relation::AtMost => {
            if negated {
                return Err(LineError::MALFORMED);
            }
            Ok(false)
        }
    }
}

/// Two sides with a relation between them.
#[tactic(auto, unfolding(crate::specs::Literals::lit_of_sides))]
fn lit_of_sides(alloc: Global, negated: bool, words: &[&[u8]]) -> Result<RawLit, LineError>
    ensures { Gives (λ l. l) result (lit_of_sides negated (texts words.now)) }
{
    let (left, rest) = words.split_at(index_of_relation(words));
    let [word, right @ ..] = rest else {
        return Err(LineError::MALFORMED);
    };
    let Some(relation) = relation_of(word) else {
        return Err(LineError::MALFORMED);
    };
    let neg = negation_of(negated, relation)?;
    let atom = sides_of(alloc, relation, left, right)?;
    Ok(RawLit { neg, atom })
}

/// A literal: a relation by its first word, or a comparison.
#[tactic(auto, unfolding(crate::specs::Literals::lit_by_first_word))]
fn lit_by_first_word(
    alloc: Global,
    neg: bool,
    word: &[u8],
    rest: &[&[u8]],
    words: &[&[u8]],
) -> Result<RawLit, LineError>
    requires { texts words.now ≡ word.now ∷ texts rest.now }
    ensures { Gives (λ l. l) result (lit_by_first_word neg word.now (texts rest.now)) }
{
    if is(word, b"on") {
        let (x, y) = two_names(rest)?;
        let atom = RawAtom::On(x, y);
        return Ok(RawLit { neg, atom });
    }
    if is(word, b"inside") {
        let (x, y) = two_names(rest)?;
        let atom = RawAtom::Inside(x, y);
        return Ok(RawLit { neg, atom });
    }
    if is(word, b"center") {
        let (x, y) = two_names(rest)?;
        let atom = RawAtom::Center(x, y);
        return Ok(RawLit { neg, atom });
    }
    if is(word, b"between") {
        let (x, y, z) = three_names(rest)?;
        let atom = RawAtom::Between(x, y, z);
        return Ok(RawLit { neg, atom });
    }
    if is(word, b"same-side") {
        let (x, y, z) = three_names(rest)?;
        let atom = RawAtom::Same(x, y, z);
        return Ok(RawLit { neg, atom });
    }
    if is(word, b"meets") {
        let (x, y) = two_names(rest)?;
        let atom = RawAtom::Meets(x, y);
        return Ok(RawLit { neg, atom });
    }
    lit_of_sides(alloc, neg, words)
}

#[tactic(auto, unfolding(crate::specs::Literals::lit_after_not))]
fn lit_after_not(alloc: Global, words: &[&[u8]]) -> Result<RawLit, LineError>
    ensures { Gives (λ l. l) result (lit_after_not (texts words.now)) }
{
    match words {
        [] => Err(LineError::MALFORMED),
        [word, rest @ ..] => lit_by_first_word(alloc, true, word, rest, words),
    }
}

/// A literal; `not` comes once before any form but those with `!=` and `<=`.
#[tactic(auto, unfolding(crate::specs::Literals::lit_of))]
pub fn lit_of(alloc: Global, words: &[&[u8]]) -> Result<RawLit, LineError>
    ensures { Gives (λ l. l) result (lit_of (texts words.now)) }
{
    match words {
        [] => Err(LineError::MALFORMED),
        [word, rest @ ..] => {
            if is(word, b"not") {
                return lit_after_not(alloc, rest);
            }
            lit_by_first_word(alloc, false, word, rest, words)
        }
    }
}

fn is_diagram_raw(atom: &RawAtom) -> bool
    ensures { result ≡ is_diagram_raw atom.now }
{
    match atom {
        RawAtom::On(_, _) | RawAtom::Inside(_, _) | RawAtom::Center(_, _) => true,
        RawAtom::Between(..) | RawAtom::Same(..) => true,
        RawAtom::Meets(_, _) | RawAtom::Equal(_, _) => true,
        RawAtom::SumsEqual(_, _) | RawAtom::SumsLess(_, _) | RawAtom::SumsAtMost(_, _) => false,
    }
}

/// A literal of diagrams or of equal objects.
#[tactic(auto, unfolding(crate::specs::Literals::diagram_lit_of))]
pub fn diagram_lit_of(alloc: Global, words: &[&[u8]]) -> Result<RawLit, LineError>
    ensures { Gives (λ l. l) result (diagram_lit_of (texts words.now)) }
{
    let lit = lit_of(alloc, words)?;
    if !is_diagram_raw(&lit.atom) {
        mem::drop(lit);
        return Err(LineError::MALFORMED);
    }
    Ok(lit)
}

/// One or more literals with semicolons between them, put last.
fn read_lits_into(alloc: Global, words: &[&[u8]], lits: &mut Items<RawLit>) -> Result<(), LineError>
    ensures { Moves result lits.new (with_front lits.old (lits_of (texts words.now))) }
{
    let mut at = 0;
    while at <= words.len() {
        let end = at + first_index_of(&words[at..], b";");
        let lit = lit_of(alloc, &words[at..end])?;
        lits.push(lit)?;
        at = end + 1;
    }
    Ok(())
}

/// Whether the literals are of diagrams or of equal objects.
fn are_diagrams_raw(lits: &[RawLit]) -> bool
    ensures { result ≡ list_all (λ l. is_diagram_raw l.atom) lits.now }
{
    lits.iter().all(|lit| is_diagram_raw(&lit.atom))
}

/// One or more literals with semicolons between them, each of diagrams or of equal objects.
#[tactic(auto, unfolding(crate::specs::Literals::diagram_lits_of))]
pub fn diagram_lits_of(alloc: Global, words: &[&[u8]]) -> Result<Items<RawLit>, LineError>
    ensures { Gives (λ l. l) result (diagram_lits_of (texts words.now)) }
{
    let lits = lits_of(alloc, words)?;
    if !are_diagrams_raw(lits.items()) {
        mem::drop(lits);
        return Err(LineError::MALFORMED);
    }
    Ok(lits)
}

/// One or more literals with semicolons between them.
#[tactic(auto, using(crate::proofs::base::Loops::from_none))]
pub(crate) fn lits_of(alloc: Global, words: &[&[u8]]) -> Result<Items<RawLit>, LineError>
    ensures { Gives (λ l. l) result (lits_of (texts words.now)) }
{
    let mut lits = Items::new(Vec::with_capacity(alloc, words.len() / 4 + 1)?);
    read_lits_into(alloc, words, &mut lits)?;
    Ok(lits)
}
