//! Superposition: a triangle is put onto a point, along a line.

ghost use Rattle.std.specs.Prelude.{◌≡◌, ◌∷◌, [], ◌<◌, ◌+◌, ◌^◌, ◌++◌};
ghost use Rattle.std.specs.Prelude.{map, IfOk, OnOk, false, true, nat_lt};
ghost use Rattle.std.specs.List.{list_all};
ghost use Rattle.e_construct.specs.Shapes;
ghost use Rattle.e_construct.specs.Superposing;

use e_literal::{Atom, Form, Lit, Mono, Scope, Sort, Term};
use std::alloc::{AllocError, Global};
use std::mem;

/// A superposition: the points `a b c d g h`, and the lines `K L`. The triangle `a b c`, whose side
/// `a b` is on `K`, is put onto `d`, along `L` towards `g`, and on the side of `L` on which `h` is.
#[derive(Clone, Copy)]
pub struct Superpose {
    pub points: [u16; 6],
    pub lines: [u16; 2],
}

static COPIES: [Sort; 2] = [Sort::Point, Sort::Point];

impl Superpose {
    /// Whether its points and lines are in scope.
    pub fn fits(&self, scope: Scope) -> bool
        ensures { result ≡ Superposing.fits_superposition self.now scope }
    {
        let points = are_below(scope.points, &self.points);
        let lines = are_below(scope.lines, &self.lines);
        points && lines
    }

    /// The literals that have to be licensed before it, in order.
    pub fn needs(&self, alloc: Global) -> Result<Vec<Lit>, AllocError>
        ensures { IfOk result (λ lits. lits.items ≡ Superposing.needs_of_superposition self.now) }
    {
        let [a, b, c, d, g, h] = self.points;
        let [k, l] = self.lines;
        let lits = vec![in alloc;
            isnt(Atom::EqP(a, b)),
            is(Atom::On(a, k)),
            is(Atom::On(b, k)),
            isnt(Atom::On(c, k)),
            isnt(Atom::EqP(d, g)),
            is(Atom::On(d, l)),
            is(Atom::On(g, l)),
            isnt(Atom::On(h, l)),
        ]?;
        Ok(lits)
    }

    /// The sorts of the objects that it makes, the copies of `b` and `c`. The copy of `a` is `d`.
    pub fn made(&self) -> &'static [Sort]
        ensures { result.now ≡ Superposing.sorts_copied }
    {
        &COPIES
    }

    /// What holds in its block, in order, where the copies are the next points of the scope.
    pub fn gives(&self, alloc: Global, scope: Scope) -> Result<Vec<Lit>, AllocError>
        requires { scope.points + 2 < 2 ^ 16 }
        ensures { IfOk result
            (λ lits. lits.items ≡ Superposing.gives_of_superposition self.now scope) }
    {
        let mut lits = Vec::new(alloc);
        match self.put_gives(alloc, scope, &mut lits) {
            Ok(()) => Ok(lits),
            Err(error) => {
                mem::drop(lits);
                Err(error)
            }
        }
    }

    /// Puts what holds in its block, in order, where nothing is there.
    fn put_gives(&self, alloc: Global, scope: Scope, lits: &mut Vec<Lit>) -> Result<(), AllocError>
        requires room { scope.points + 2 < 2 ^ 16 }
        requires none { lits.old.items ≡ [] }
        ensures { OnOk result
            (lits.new.items ≡ Superposing.gives_of_superposition self.now scope) }
    {
        let [a, b, c, d, g, h] = self.points;
        let [_, l] = self.lines;
        let p = scope.points;
        let q = p + 1;
        let equals = [
            (Term::Seg(a, b), Term::Seg(d, p)),
            (Term::Seg(b, c), Term::Seg(p, q)),
            (Term::Seg(c, a), Term::Seg(q, d)),
            (Term::Ang(a, b, c), Term::Ang(d, p, q)),
            (Term::Ang(b, c, a), Term::Ang(p, q, d)),
            (Term::Ang(c, a, b), Term::Ang(q, d, p)),
        ];
        extend(alloc, lits, &equals)?;
        lits.push(is(Atom::On(p, l)))?;
        lits.push(isnt(Atom::Between(p, d, g)))?;
        lits.push(is(Atom::Same(q, h, l)))?;
        Ok(())
    }
}

fn are_below(limit: u16, numbers: &[u16]) -> bool
    ensures { result ≡ list_all (λ n. nat_lt n limit) numbers.now }
{
    numbers.iter().all(|n| *n < limit)
}

fn is(atom: Atom) -> Lit
    ensures { result ≡ Shapes.is atom }
{
    Lit { neg: false, atom }
}

fn isnt(atom: Atom) -> Lit
    ensures { result ≡ Shapes.isnt (Shapes.is atom) }
{
    Lit { neg: true, atom }
}

/// Adds that the magnitudes of each pair are equal.
fn extend(alloc: Global, lits: &mut Vec<Lit>, equals: &[(Term, Term)]) -> Result<(), AllocError>
    ensures { OnOk result
        (lits.new.items ≡ lits.old.items ++ map (λ x. Superposing.equal x.0 x.1) equals.now) }
{
    for pair in equals {
        lits.push(equal(alloc, pair.0, pair.1)?)?;
    }
    Ok(())
}

/// That two magnitudes are equal.
fn equal(alloc: Global, x: Term, y: Term) -> Result<Lit, AllocError>
    ensures { IfOk result (λ lit. lit ≡ Superposing.equal x y) }
{
    let left = one(alloc, x)?;
    let right = one(alloc, y)?;
    Ok(is(Atom::MagEq(left, right)))
}

/// The sum of one term.
fn one(alloc: Global, term: Term) -> Result<Form, AllocError>
    ensures { IfOk result (λ sum. sum ≡ Superposing.one term) }
{
    Ok(Form::new(vec![in alloc; Mono { coeff: 1, term }]?))
}
