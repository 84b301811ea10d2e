//! Literals and facts, written as short words.

use e_facts::Facts;
use e_literal::{Atom, Form, Lit, Mono, Term};
use std::alloc::{AllocError, Global};

// Points are the letters from `a` on.
fn point(text: &str, at: usize) -> u16 {
    match text.as_bytes().get(at) {
        Some(letter) => u16::from(letter.saturating_sub(b'a')),
        None => 0,
    }
}

// Lines are the letters from `L` on.
fn line(text: &str, at: usize) -> u16 {
    match text.as_bytes().get(at) {
        Some(letter) => u16::from(letter.saturating_sub(b'L')),
        None => 0,
    }
}

/// `ab` is a segment, `abc` an angle, `^abc` an area, and `r` is right.
pub fn term(word: &str) -> Term {
    match word.len() {
        2 => Term::Seg(point(word, 0), point(word, 1)),
        3 => Term::Ang(point(word, 0), point(word, 1), point(word, 2)),
        4 => Term::Area(point(word, 1), point(word, 2), point(word, 3)),
        _ => Term::Right,
    }
}

// `ab`, and `3*ab` three times.
fn mono(text: &str) -> Mono {
    match text.split_once('*') {
        Some((number, word)) => Mono {
            coeff: number.parse::<u32>().unwrap_or(0),
            term: term(word),
        },
        None => Mono {
            coeff: 1,
            term: term(text),
        },
    }
}

// The sum of what is between `+`; `0` is the empty sum.
fn form(alloc: Global, text: &str) -> Result<Form, AllocError> {
    let mut monos = Vec::new(alloc);
    if text != "0" {
        for part in text.split('+') {
            monos.push(mono(part))?;
        }
    }
    Ok(Form::new(monos))
}

// `x<y` and `x=y` of sums, `a=b` of points, `aL` where the point is on the line, `abc` where the
// second lies between.
fn atom(alloc: Global, text: &str) -> Result<Atom, AllocError> {
    if let Some((x, y)) = text.split_once('<') {
        return Ok(Atom::MagLt(form(alloc, x)?, form(alloc, y)?));
    }
    match text.split_once('=') {
        Some((x, y)) if x.len() == 1 => Ok(Atom::EqP(point(x, 0), point(y, 0))),
        Some((x, y)) => Ok(Atom::MagEq(form(alloc, x)?, form(alloc, y)?)),
        None if text.len() == 2 => Ok(Atom::On(point(text, 0), line(text, 1))),
        None => Ok(Atom::Between(point(text, 0), point(text, 1), point(text, 2))),
    }
}

/// A literal: an atom, with `!` before it for not.
pub fn lit(alloc: Global, text: &str) -> Result<Lit, AllocError> {
    let (neg, text) = match text.strip_prefix('!') {
        Some(rest) => (true, rest),
        None => (false, text),
    };
    let atom = atom(alloc, text)?;
    Ok(Lit { neg, atom })
}

/// The facts of literals with a space between two.
pub fn facts_of(alloc: Global, text: &str) -> Result<Facts, AllocError> {
    let mut facts = Facts::new(alloc);
    for word in text.split(' ') {
        if !word.is_empty() {
            facts.add(lit(alloc, word)?)?;
        }
    }
    Ok(facts)
}
