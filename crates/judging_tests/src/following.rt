//! Worked steps of arithmetic, whose answers were found by hand.

ghost use Rattle.e_metric.specs.Fronts.{AreFronts};

use crate::literals::{facts_of, lit};
use e_facts::Facts;
use e_literal::copy;
use e_metric::{Metric, MetricFacts, absurd, are_few_facts, follows, is_metric_goal};
use std::alloc::{AllocError, Global};
use std::mem;
use std::process::Abort;
use std::test::Fail;

fn word(answered: &Metric) -> &'static str {
    match answered {
        Metric::Yes(_) => "yes",
        Metric::No(_) => "no",
        Metric::TooWide(_) => "too wide",
    }
}

fn word_of(answered: Metric) -> &'static str {
    let word = word(&answered);
    mem::drop(answered);
    word
}

fn word_for_goal(
    rt: &impl Abort,
    alloc: Global,
    facts: &Facts,
    goal: &str,
) -> Result<&'static str, AllocError> {
    assert!(rt; are_few_facts(facts));
    if goal.is_empty() {
        return Ok(word_of(absurd(alloc, facts)?));
    }
    let goal = lit(alloc, goal)?;
    assert!(rt; is_metric_goal(&goal));
    let answered = follows(alloc, facts, &goal);
    mem::drop(goal);
    Ok(word_of(answered?))
}

// The same as `word_for_goal`, from what is known of the facts already.
fn answered_by(
    rt: &impl Abort,
    alloc: Global,
    known: &mut MetricFacts,
    facts: &Facts,
    goal: &str,
) -> Result<&'static str, AllocError>
    requires { AreFronts facts.now known.old }
    ensures { AreFronts facts.now known.new }
{
    assert!(rt; are_few_facts(facts));
    if goal.is_empty() {
        return Ok(word_of(known.absurd_in_turn(alloc, facts)?));
    }
    known.catch_up_all(alloc, facts)?;
    let goal = lit(alloc, goal)?;
    assert!(rt; is_metric_goal(&goal));
    let answered = known.follows(alloc, facts, &goal);
    mem::drop(goal);
    Ok(word_of(answered?))
}

// The same as `word_for_goal`, from all facts at once.
fn answered_by_known(
    rt: &impl Abort,
    alloc: Global,
    facts: &Facts,
    goal: &str,
) -> Result<&'static str, AllocError> {
    assert!(rt; are_few_facts(facts));
    let mut known = MetricFacts::of(alloc, facts)?;
    let answered = answered_by(rt, alloc, &mut known, facts, goal);
    mem::drop(known);
    answered
}

// The same as `word_for_goal`, where these facts come after the others, and the question is asked
// before each too.
fn answered_after(
    rt: &impl Abort,
    alloc: Global,
    known: &mut MetricFacts,
    some: &mut Facts,
    facts: &Facts,
    goal: &str,
) -> Result<&'static str, AllocError>
    requires { AreFronts some.old known.old }
{
    for fact in facts.items() {
        answered_by(rt, alloc, known, some, goal)?;
        some.add(copy(alloc, fact)?)?;
    }
    answered_by(rt, alloc, known, some, goal)
}

// The same as `word_for_goal`, where the question is asked before each fact too.
fn answered_in_turn(
    rt: &impl Abort,
    alloc: Global,
    facts: &Facts,
    goal: &str,
) -> Result<&'static str, AllocError> {
    let mut some = Facts::new(alloc);
    let mut known = MetricFacts::new();
    let answered = answered_after(rt, alloc, &mut known, &mut some, facts, goal);
    mem::drop(known);
    mem::drop(some);
    answered
}

// Facts, a goal or none, and whether it follows, or whether the facts contradict each other.
fn steps() -> &'static str {
    "\
ab<cd cd<ef:ef<ab:no
ab<cd cd<ef:ab<fe:yes
ab<cd cd<ab:abc=r:yes
ab<cd cd<ab::yes
!ab=cd !cd=ef:ab=ef:no
!b=a:0<ab:yes
!b=a:aa<ab:yes
!a=b:0<ac:no
1000000*ab=1000000*bc 1000000*bc=1000000*cd 1000000*cd=1000000*de:ab=de:yes
ab=cd cd=ef:!2*ab=fe:no
ab=cd cd=ef !b=a:!2*ab=fe:yes
abc+cbd=2*r:2*r<cba+dbc+r:yes
abc+cbd=2*r:abc=r:no
2*r<abc::yes
:0<r:yes
::no
:0<^abc:no
:^aab=0:yes
^abc=^def ^def=^ghi:^cab=^hig:yes
1000000*ab=999983*cd 1000000*cd=999983*ef 1000000*ef=999983*gh 1000000*gh=999983*ij:ab=ij:too wide"
}

#[test]
fn what_follows(rt: HostRuntime) -> Result<(), Fail> {
    for line in steps().split('\n') {
        let mut parts = line.split(':');
        let facts = facts_of(rt.alloc(), parts.next().unwrap_or(""))?;
        let goal = parts.next().unwrap_or("");
        let wanted = parts.next().unwrap_or("");
        assert_eq!(rt;
            word_for_goal(&rt, rt.alloc(), &facts, goal)?,
            wanted,
            "{line}"
        );
        assert_eq!(rt;
            answered_by_known(&rt, rt.alloc(), &facts, goal)?,
            wanted,
            "known: {line}"
        );
        assert_eq!(rt;
            answered_in_turn(&rt, rt.alloc(), &facts, goal)?,
            wanted,
            "fact by fact: {line}"
        );
    }
    Ok(())
}
