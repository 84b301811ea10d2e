//! What no clause can say: that calls succeed, and which instances are found.

use crate::literals::{facts_of, lit};
use e_clause::{Rule, instance};
use e_facts::Facts;
use e_literal::{Lit, Obj, Scope, Sort, copy, negate};
use e_metric::are_few_facts;
use e_transfer::{Found, are_limited_facts, find, is_well_formed_in};
use std::alloc::{AllocError, Global};
use std::mem;
use std::process::Abort;
use std::test::Fail;

const SCOPE: Scope = Scope {
    points: 7,
    lines: 3,
    circles: 2,
};

fn word(found: &Found) -> &'static str {
    match found {
        Found::Yes(_) => "yes",
        Found::No => "no",
        Found::TooWide(_) => "too wide",
    }
}

fn word_of_search(
    rt: &impl Abort,
    alloc: Global,
    facts: &Facts,
    goal: &Lit,
) -> Result<&'static str, AllocError> {
    assert!(rt; are_limited_facts(SCOPE, facts));
    assert!(rt; are_few_facts(facts));
    assert!(rt; is_well_formed_in(SCOPE, goal));
    assert!(rt; !facts.has(goal));
    let found = find(alloc, SCOPE, facts, goal)?;
    let word = word(&found);
    mem::drop(found);
    Ok(word)
}

// Objects for a rule's variables, each another one of its sort.
fn distinct(alloc: Global, rule: Rule) -> Result<Vec<Obj>, AllocError> {
    let sig = rule.sig();
    let mut args = Vec::new(alloc);
    for num in 0..sig.points {
        args.push(Obj {
            sort: Sort::Point,
            num: u16::from(num),
        })?;
    }
    for num in 0..sig.lines {
        args.push(Obj {
            sort: Sort::Line,
            num: u16::from(num),
        })?;
    }
    for num in 0..sig.circles {
        args.push(Obj {
            sort: Sort::Circle,
            num: u16::from(num),
        })?;
    }
    Ok(args)
}

// The negations of the literals but for those at two places.
fn others(alloc: Global, lits: &[Lit], place: usize, left_out: usize) -> Result<Facts, AllocError> {
    let mut facts = Facts::new(alloc);
    for i in 0..lits.len() {
        if i != place && i != left_out {
            facts.add(negate(copy(alloc, &lits[i])?))?;
        }
    }
    Ok(facts)
}

// Whether the literal at one place is found from the negations of all others but the one at
// `left_out`.
fn found_from_others(
    rt: &impl Abort,
    alloc: Global,
    lits: &[Lit],
    place: usize,
    left_out: usize,
) -> Result<&'static str, AllocError> {
    assert!(rt; place < lits.len());
    let facts = others(alloc, lits, place, left_out)?;
    let found = word_of_search(rt, alloc, &facts, &lits[place]);
    mem::drop(facts);
    found
}

#[test]
fn each_literal_of_a_clause_is_found_from_all_others(rt: HostRuntime) -> Result<(), Fail> {
    for name in "ms1 ms3 ds3a da1c".split(' ') {
        let Some(rule) = Rule::named(name.as_bytes()) else {
            panic!(&rt; "no rule {name}");
        };
        let args = distinct(rt.alloc(), rule)?;
        let Ok(lits) = instance(rt.alloc(), rule, &args) else {
            panic!(&rt; "no instance of {name}");
        };
        for place in 0..lits.len() {
            for left_out in 0..lits.len() {
                let wanted = if place == left_out { "yes" } else { "no" };
                let found = found_from_others(&rt, rt.alloc(), &lits, place, left_out)?;
                assert_eq!(rt; found, wanted, "{name} {place} {left_out}");
            }
        }
    }
    Ok(())
}

// The points `a` and `b` on a line, and angles at `a` in a proportion that needs wide numbers.
const WIDE: &str = "aL bL !a=b !a=c \
    1000000*bac=999983*bad 1000000*bad=999983*bae 1000000*bae=999983*baf 1000000*baf=999983*bag";

// Whether the goal is found, and whether it is found from two more facts.
fn found_twice(
    rt: &impl Abort,
    alloc: Global,
    facts: &mut Facts,
    goal: &Lit,
) -> Result<(&'static str, &'static str), AllocError> {
    let before = word_of_search(rt, alloc, facts, goal)?;
    facts.add(lit(alloc, "^abc=^abd")?)?;
    facts.add(lit(alloc, "^abd=0")?)?;
    let after = word_of_search(rt, alloc, facts, goal)?;
    Ok((before, after))
}

fn found_beside_wide(
    rt: &impl Abort,
    alloc: Global,
    goal: &Lit,
) -> Result<(&'static str, &'static str), AllocError> {
    let mut facts = facts_of(alloc, WIDE)?;
    let found = found_twice(rt, alloc, &mut facts, goal);
    mem::drop(facts);
    found
}

#[test]
fn what_is_too_wide_does_not_hide_what_is_found(rt: HostRuntime) -> Result<(), Fail> {
    let goal = lit(rt.alloc(), "cL")?;
    let found = found_beside_wide(&rt, rt.alloc(), &goal);
    mem::drop(goal);
    let (before, after) = found?;
    assert_eq!(rt; before, "too wide");
    assert_eq!(rt; after, "yes");
    Ok(())
}
