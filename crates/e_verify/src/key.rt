//! Terms as numbers, which are compared at once.

ghost use Rattle.std.specs.Prelude.{◌≡◌, IsTrue};
ghost use Rattle.e_verify.specs.inner.Fingerprint.{packed_number};
ghost use Rattle.e_verify.specs.inner.Totals.{term_key, is_narrow};

use e_literal::Term;

/// The kind and the points of the term as one number, which no other term has.
pub fn key_of(term: Term) -> u64
    ensures value { result ≡ term_key term }
    ensures narrow { IsTrue (is_narrow term) }
{
    match term {
        Term::Seg(a, b) => pack(0, a, b, 0),
        Term::Ang(a, b, c) => pack(1, a, b, c),
        Term::Area(a, b, c) => pack(2, a, b, c),
        Term::Right => pack(3, 0, 0, 0),
    }
}

/// Four numbers as one.
pub fn pack(kind: u16, a: u16, b: u16, c: u16) -> u64
    ensures { result ≡ packed_number kind a b c }
{
    let front = (u64::from(kind) * 0x1_0000 + u64::from(a)) * 0x1_0000 + u64::from(b);
    front * 0x1_0000 + u64::from(c)
}
