//! Worked steps, whose answers were found by hand.

ghost use Rattle.std.specs.Prelude.{◌≡◌, ◌<◌, [], length, IsTrue, IfOk, OnOk};
ghost use Rattle.e_clause.specs.LimitedFacts;
ghost use Rattle.judging_tests.specs.Points;

use crate::literals::{facts_of, lit};
use e_clause::{Against, Cert, Part};
use e_facts::{Added, Facts};
use e_licence::{
    Context, Filled, Licensed, Refuted, are_limited_facts, is_statement, is_well_formed_in,
    licence, match_blanks, refute,
};
use e_literal::{Atom, Items, Lit, Obj, Scope, Sort};
use e_theorem::{Statement, is_pattern};
use std::alloc::{AllocError, Global};
use std::mem;
use std::process::Abort;
use std::test::Fail;

const SCOPE: Scope = Scope {
    points: 4,
    lines: 0,
    circles: 0,
};

fn context_of_facts(alloc: Global, scope: Scope, facts: Facts) -> Result<Context, AllocError>
    requires { IsTrue (LimitedFacts.are_limited_facts scope facts) }
    ensures { IfOk result (λ c. c ≡ record { scope = scope; facts = facts; held = [] }) }
{
    match Context::new(alloc, scope, facts) {
        Ok(context) => Ok(context),
        Err((facts, error)) => {
            mem::drop(facts);
            Err(error)
        }
    }
}

fn context(
    rt: &impl Abort,
    alloc: Global,
    scope: Scope,
    text: &str,
) -> Result<Context, AllocError> {
    let facts = facts_of(alloc, text)?;
    assert!(rt; are_limited_facts(scope, &facts));
    context_of_facts(alloc, scope, facts)
}

fn word(licensed: &Licensed) -> &'static str {
    match licensed {
        Licensed::Yes(Cert::Plain(Part::Fact)) => "fact",
        Licensed::Yes(Cert::Plain(Part::Metric(_))) => "sums",
        Licensed::Yes(Cert::Plain(Part::FactAt(_))) => "place",
        Licensed::Yes(Cert::Transfer(_)) => "transfer",
        Licensed::No(None) => "no",
        Licensed::No(Some(_)) => "values",
        Licensed::TooWide(_) => "too wide",
    }
}

fn word_in_context(
    rt: &impl Abort,
    alloc: Global,
    context: &Context,
    wanted: &str,
) -> Result<&'static str, AllocError> {
    let wanted = lit(alloc, wanted)?;
    assert!(rt; is_well_formed_in(context.scope(), &wanted));
    let licensed = licence(alloc, context, &wanted);
    mem::drop(wanted);
    let licensed = licensed?;
    let word = word(&licensed);
    mem::drop(licensed);
    Ok(word)
}

fn word_from_facts(
    rt: &impl Abort,
    alloc: Global,
    facts: &str,
    wanted: &str,
) -> Result<&'static str, AllocError> {
    let context = context(rt, alloc, SCOPE, facts)?;
    let word = word_in_context(rt, alloc, &context, wanted);
    mem::drop(context);
    word
}

fn part(row: &'static str, number: usize) -> &'static str {
    row.split(':').nth(number).unwrap_or("")
}

// Facts, a literal, and what is answered.
fn steps() -> &'static str {
    "\
abc:abc:fact
ab<cd:ba<dc:fact
ab<cd cd<ab:ab<cd:fact
ab<bc bc<cd:ab<cd:sums
ab<cd cd<ab:bc=ac:sums
ab<cd cd<ab:abc:no
abc:ab+bc=ac:transfer
ab=0:a=b:transfer
abc:bac:no
:abc:no
:ab<cd:values
ab<cd:cd<ab:values"
}

#[test]
fn what_is_allowed(rt: HostRuntime) -> Result<(), Fail> {
    for step in steps().split('\n') {
        let licensed = word_from_facts(&rt, rt.alloc(), part(step, 0), part(step, 1))?;
        assert_eq!(rt; licensed, part(step, 2), "{step}");
    }
    Ok(())
}

// Facts, and what is answered on whether they contradict each other.
fn contradictions() -> &'static str {
    "\
abc !abc:clash
!abc bac abc:clash
ab<cd !ab<cd:sums
ab<cd cd<ab:sums
abc bac:values
ab<cd:values
:values"
}

fn word_against(refuted: &Refuted) -> &'static str {
    match refuted {
        Refuted::Yes(Against::Clash { .. }) => "clash",
        Refuted::Yes(Against::Metric(_)) => "sums",
        Refuted::No(_) => "values",
        Refuted::TooWide(_) => "too wide",
    }
}

fn word_against_facts(
    rt: &impl Abort,
    alloc: Global,
    facts: &str,
) -> Result<&'static str, AllocError> {
    let context = context(rt, alloc, SCOPE, facts)?;
    let refuted = refute(alloc, &context);
    mem::drop(context);
    let refuted = refuted?;
    let word = word_against(&refuted);
    mem::drop(refuted);
    Ok(word)
}

#[test]
fn what_contradicts(rt: HostRuntime) -> Result<(), Fail> {
    for step in contradictions().split('\n') {
        let refuted = word_against_facts(&rt, rt.alloc(), part(step, 0))?;
        assert_eq!(rt; refuted, part(step, 1), "{step}");
    }
    Ok(())
}

const ONE_POINT: Scope = Scope {
    points: 1,
    lines: 0,
    circles: 0,
};

const TWO_POINTS: Scope = Scope {
    points: 2,
    lines: 0,
    circles: 0,
};

fn equal_points() -> Lit
    ensures { result ≡ Points.equal_points }
{
    Lit {
        neg: false,
        atom: Atom::EqP(0, 1),
    }
}

// A state is held, a point comes into scope, and a literal is added twice: what is said of it each
// time.
fn grow(context: &mut Context) -> Result<(Added, Added), AllocError>
    requires scope { context.old.scope ≡ Points.one_point }
    requires facts { context.old.facts ≡ [] }
    ensures { OnOk result (0 < length context.new.held) }
{
    context.hold()?;
    context.widen(TWO_POINTS);
    let first = context.add(equal_points())?;
    let second = context.add(equal_points())?;
    Ok((first, second))
}

#[test]
fn a_context_grows(rt: HostRuntime) -> Result<(), Fail> {
    let mut context = context_of_facts(rt.alloc(), ONE_POINT, Facts::new(rt.alloc()))?;
    match grow(&mut context) {
        Ok((first, second)) => {
            assert_eq!(rt; first, Added::Added);
            assert_eq!(rt; second, Added::Present);
            context.release();
            assert_eq!(rt; context.scope().points, 1);
            assert_eq!(rt; context.facts().len(), 0);
            mem::drop(context);
            Ok(())
        }
        Err(error) => {
            mem::drop(context);
            Err(error.into())
        }
    }
}

// The number of the points and of the lines in scope, the facts, the sorts of the declared objects,
// the given literals, the arguments with `_` for blanks, and what is answered.
fn blanks() -> &'static str {
    "\
1 2:aL aM:pl:aL:a_:aL
1 2:aL aM:pl:aL:_M:aM
1 2:!aL:pl:aL:a_:none
1 2:aL:pl:aL:aL:aL
1 2:aL:pl:aL:aM:none
2 0::pl:aL:a_:none
3 2:bM cL:pl:aL:__:bM
3 2:bM cL:lp:aL:__:Lc
3 1:aL bL cL !a=c:ppl:aL bL !a=b:__L:acL
3 1:aL bL cL !c=b:ppl:aL bL !a=b:__L:bcL
2 0::pp::__:aa
4 0:ab<cd:pppp:ab<cd:____:aacd
4 0:ab<cd:pppp:ab<cd:dc__:none
6 0:1000000*ab=bc 1000000*bc=cd 1000000*cd=de 1000000*de=ef:pppp:ab=cd:abef:too wide
6 0:1000000*ab=bc 1000000*bc=cd 1000000*cd=de 1000000*de=ef:pppp:ab=cd:dc_c:too wide
6 0:1000000*ab=bc 1000000*bc=cd 1000000*cd=de 1000000*de=ef:pppp:1000000*ab=cd:_bbc:abbc"
}

// The sort of an object: that of a letter, or `p` and `l`.
fn sort(letter: u8) -> Sort {
    match letter {
        b'l' | b'L'..=b'Z' => Sort::Line,
        _ => Sort::Point,
    }
}

fn entries(alloc: Global, letters: &str) -> Result<Vec<Option<Obj>>, AllocError> {
    let mut entries = Vec::new(alloc);
    for letter in letters.bytes() {
        let first = if sort(letter) == Sort::Line {
            b'L'
        } else {
            b'a'
        };
        let object = Obj {
            sort: sort(letter),
            num: u16::from(letter.saturating_sub(first)),
        };
        entries.push(if letter == b'_' { None } else { Some(object) })?;
    }
    Ok(entries)
}

fn letters(alloc: Global, objects: &[Obj]) -> Result<String, AllocError> {
    let mut letters = String::new(alloc);
    for object in objects {
        let all = if object.sort == Sort::Line {
            "LMN"
        } else {
            "abcdef"
        };
        letters.push(all.chars().nth(object.num as usize).unwrap_or('?'))?;
    }
    Ok(letters)
}

fn statement(alloc: Global, row: &'static str) -> Result<Statement, AllocError> {
    let mut declared = Items::empty(alloc);
    for letter in part(row, 2).bytes() {
        declared.push(sort(letter))?;
    }
    let mut given = Items::empty(alloc);
    for word in part(row, 3).split(' ') {
        if !word.is_empty() {
            given.push(lit(alloc, word)?)?;
        }
    }
    Ok(Statement {
        declared,
        given,
        made: Items::empty(alloc),
        shown: Items::empty(alloc),
    })
}

fn letters_of_match(
    rt: &impl Abort,
    alloc: Global,
    context: &Context,
    statement: &Statement,
    pattern: &[Option<Obj>],
) -> Result<String, AllocError> {
    assert!(rt; statement.declared.len() < 9 && statement.made.len() < 9);
    assert!(rt; is_statement(statement));
    assert!(rt; is_pattern(statement, pattern, context.scope()));
    match match_blanks(alloc, context, statement, pattern)? {
        Filled::Found(args) => letters(alloc, args.items()),
        Filled::None => String::from_str(alloc, "none"),
        Filled::TooWide(_) => String::from_str(alloc, "too wide"),
    }
}

fn letters_in_context(
    rt: &impl Abort,
    alloc: Global,
    context: &Context,
    row: &'static str,
) -> Result<String, AllocError> {
    let pattern = entries(alloc, part(row, 4))?;
    let statement = match statement(alloc, row) {
        Ok(statement) => statement,
        Err(error) => {
            mem::drop(pattern);
            return Err(error);
        }
    };
    let filled = letters_of_match(rt, alloc, context, &statement, &pattern);
    mem::drop(statement);
    mem::drop(pattern);
    filled
}

fn letters_of_row(rt: &impl Abort, alloc: Global, row: &'static str) -> Result<String, AllocError> {
    let (points, lines) = part(row, 0).split_once(' ').unwrap_or(("", ""));
    let scope = Scope {
        points: points.parse::<u16>().unwrap_or(0),
        lines: lines.parse::<u16>().unwrap_or(0),
        circles: 0,
    };
    let context = context(rt, alloc, scope, part(row, 1))?;
    let filled = letters_in_context(rt, alloc, &context, row);
    mem::drop(context);
    filled
}

#[test]
fn blanks_are_filled(rt: HostRuntime) -> Result<(), Fail> {
    for row in blanks().split('\n') {
        let filled = letters_of_row(&rt, rt.alloc(), row)?;
        assert_eq!(rt; filled.as_str(), part(row, 5), "{row}");
    }
    Ok(())
}
