//! Literals that are written alike: most that are the same are found so at once.

ghost use Rattle.std.specs.Prelude.{◌≡◌, IsTrue};
ghost use Rattle.e_literal.specs.Same.{same_lit};
ghost use Rattle.e_verify.specs.inner.Alike.{monos_alike, sums_alike, atoms_alike, lits_alike};

use e_literal::{Atom, Lit, Mono, same};

fn are_alike_monos(m: &Mono, n: &Mono) -> bool
    ensures { result ≡ monos_alike m.now n.now }
{
    m.coeff == n.coeff && m.term == n.term
}

fn are_alike_sums(x: &[Mono], y: &[Mono]) -> bool
    ensures { result ≡ sums_alike x.now y.now }
{
    match x {
        [] => y.is_empty(),
        [m, x @ ..] => match y {
            [] => false,
            [n, y @ ..] => are_alike_monos(m, n) && are_alike_sums(x, y),
        },
    }
}

fn are_alike_atoms(a: &Atom, b: &Atom) -> bool
    ensures { result ≡ atoms_alike a.now b.now }
{
    match (a, b) {
        (Atom::MagEq(x, y), Atom::MagEq(z, w)) | (Atom::MagLt(x, y), Atom::MagLt(z, w)) => {
            are_alike_sums(x.items(), z.items()) && are_alike_sums(y.items(), w.items())
        }
        _ => false,
    }
}

/// Whether both compare magnitudes and are written alike, term by term; then they are the same.
#[tactic(auto, using(crate::proofs::comparing::WrittenAlike::alike_is_same))]
fn are_alike(a: &Lit, b: &Lit) -> bool
    ensures value { result ≡ lits_alike a.now b.now }
    ensures same { IsTrue result → IsTrue (same_lit a.now b.now) }
{
    a.neg == b.neg && are_alike_atoms(&a.atom, &b.atom)
}

/// Whether two literals are the same.
pub(crate) fn are_same(a: &Lit, b: &Lit) -> bool
    ensures { result ≡ same_lit a.now b.now }
{
    are_alike(a, b) || same(a, b)
}
