//! Literals as rows write them, and what the crate of literals answers.
//!
//! A literal is `On ab`, with the name of its atom and a letter for each number, `a` for 0; or two
//! sums with `=` or `<` between, as `1 ab + 2 angle-abc = 1 right`; the sum `0` is empty. Before
//! each, `not` may come.

use crate::answer::Answer;
use crate::rows::{three, two};
use e_literal::{
    Atom, Form, Items, Lit, Map, Mono, Obj, Scope, Sort, Term, Values, in_scope, kind, negate,
    rename,
};
use std::alloc::{AllocError, Global};

/// Puts what is answered on literals: read, negated or renamed, or of lists and values.
pub fn put(alloc: Global, out: &mut Answer, call: &str, on: &str) -> Result<(), AllocError> {
    match call {
        "read" => put_read(alloc, out, on),
        "negate" => put_negated(alloc, out, on),
        "rename" => put_renamed(alloc, out, on),
        "list" => {
            put_list(alloc, out);
            Ok(())
        }
        _ => put_values(alloc, out),
    }
}

fn term(word: &str) -> Term {
    let (kind, letters) = word.split_once('-').unwrap_or((word, word));
    let (a, b, c) = three(letters);
    match kind {
        "angle" => Term::Ang(a, b, c),
        "area" => Term::Area(a, b, c),
        "right" => Term::Right,
        _ => Term::Seg(a, b),
    }
}

fn sum(alloc: Global, text: &str) -> Result<Form, AllocError> {
    let mut monos = Vec::new(alloc);
    for mono in text.split(" + ") {
        if let Some((coeff, word)) = mono.split_once(' ') {
            monos.push(Mono {
                coeff: coeff.parse::<u32>().unwrap_or(0),
                term: term(word),
            })?;
        }
    }
    Ok(Form::new(monos))
}

fn diagram(text: &str) -> Atom {
    let (name, letters) = two(text, " ");
    let (a, b, c) = three(letters);
    match name {
        "On" => Atom::On(a, b),
        "OnC" => Atom::OnC(a, b),
        "Inside" => Atom::Inside(a, b),
        "Center" => Atom::Center(a, b),
        "Between" => Atom::Between(a, b, c),
        "Same" => Atom::Same(a, b, c),
        "MeetLL" => Atom::MeetLL(a, b),
        "MeetLC" => Atom::MeetLC(a, b),
        "MeetCC" => Atom::MeetCC(a, b),
        "EqP" => Atom::EqP(a, b),
        "EqL" => Atom::EqL(a, b),
        _ => Atom::EqC(a, b),
    }
}

fn sums(alloc: Global, left: &str, right: &str) -> Result<(Form, Form), AllocError> {
    let left = sum(alloc, left)?;
    let right = sum(alloc, right)?;
    Ok((left, right))
}

fn atom(alloc: Global, text: &str) -> Result<Atom, AllocError> {
    if let Some((left, right)) = text.split_once(" = ") {
        let (left, right) = sums(alloc, left, right)?;
        return Ok(Atom::MagEq(left, right));
    }
    if let Some((left, right)) = text.split_once(" < ") {
        let (left, right) = sums(alloc, left, right)?;
        return Ok(Atom::MagLt(left, right));
    }
    Ok(diagram(text))
}

/// The literal of a text.
pub fn literal(alloc: Global, text: &str) -> Result<Lit, AllocError> {
    let plain = text.strip_prefix("not ");
    let atom = atom(alloc, plain.unwrap_or(text))?;
    Ok(Lit {
        neg: plain.is_some(),
        atom,
    })
}

/// The literals of a text, with `; ` between two.
pub fn literals(alloc: Global, text: &str) -> Result<Vec<Lit>, AllocError> {
    let mut lits = Vec::new(alloc);
    for part in text.split("; ") {
        lits.push(literal(alloc, part)?)?;
    }
    Ok(lits)
}

// The kind of a literal, and whether it is in scope where the letters say how many points, lines
// and circles are.
fn put_read(alloc: Global, out: &mut Answer, on: &str) -> Result<(), AllocError> {
    let (lits, counts) = two(on, " : ");
    let (points, lines, circles) = three(counts);
    let scope = Scope {
        points,
        lines,
        circles,
    };
    let lits = literals(alloc, lits)?;
    for lit in &lits {
        out.show(&kind(lit));
        out.show(&in_scope(lit, scope));
    }
    Ok(())
}

fn put_negated(alloc: Global, out: &mut Answer, on: &str) -> Result<(), AllocError> {
    let negation = negate(literal(alloc, on)?);
    out.show(&negation);
    Ok(())
}

// The map in which the points with the first letters of the words have those with the second
// letters as images.
fn images(alloc: Global, words: &str) -> Result<Map, AllocError> {
    let mut images = Map::new(alloc);
    for word in words.split_terminator(' ') {
        let (from, to, _) = three(word);
        images.set(
            Obj {
                sort: Sort::Point,
                num: from,
            },
            Obj {
                sort: Sort::Point,
                num: to,
            },
        )?;
    }
    Ok(images)
}

// The image of the point a, and the literals with the images of their points.
fn put_renamed(alloc: Global, out: &mut Answer, on: &str) -> Result<(), AllocError> {
    let (lits, words) = two(on, " : ");
    let images = images(alloc, words)?;
    let lits = literals(alloc, lits)?;
    put_images(alloc, out, &lits, &images);
    Ok(())
}

fn put_images(alloc: Global, out: &mut Answer, lits: &[Lit], images: &Map) {
    let point = Obj {
        sort: Sort::Point,
        num: 0,
    };
    out.show(&images.image(point));
    for lit in lits {
        out.show(&rename(alloc, lit, images));
    }
}

fn put_list(alloc: Global, out: &mut Answer) {
    let mut list = Items::<u16>::empty(alloc);
    out.show(&list.is_empty());
    out.show(&list.push(3));
    out.show(&list.append(&[4, 5]));
    out.show(&list.items());
    out.show(&list.len());
}

fn put_values(alloc: Global, out: &mut Answer) -> Result<(), AllocError> {
    let values = Values::new(vec![in alloc; (Term::Right, 2)]?);
    out.show(&values.items());
    Ok(())
}
