//! A short spelling, kept in place, so that names and titles take no memory.
ghost use Rattle.std.specs.Prelude.{◌≡◌, ◌≤◌, length, nat_eq, IsTrue};
ghost use Rattle.std.specs.Hash as fed;
ghost use Rattle.std.specs.Cmp.Lexicographic.{pointwise, nat_list_eq_equiv};
ghost use Rattle.std.specs.Cmp.{partial_equiv_from_equiv};
ghost use Rattle.std.specs.Cmp.Rules.{hashing};
ghost use Rattle.std.proofs.Common.{rules};

use crate::words::is;
use std::fmt;
use std::hash::{Hash, Hasher};
use std::marker::Model;

/// At most 24 bytes, seen as these bytes. The rest of the array is 0, so that equal spellings are
/// equal arrays.
#[derive(Clone, Copy)]
pub struct Spelling {
    bytes: [u8; 24],
    len: u8,
}

impl Model for Spelling {
    ghost use Rattle.std.specs.Prelude.{◌≡◌, ◌≤◌, ◌-◌, ◌++◌, List, ℕ};
    ghost use Rattle.std.specs.Prelude.{length, take, drop, replicate};
    ghost use Rattle.std.proofs.Common.{arith, length-take-le};
    ghost use Rattle.e_text.specs.inner.Fixed.{undone};

    ghost Value = { List ℕ };

    ghost view = { λ s. take s.len s.bytes };

    ghost invariant = { λ s. (s.len ≤ 24) × (length s.bytes ≡ 24)
        × (drop s.len s.bytes ≡ replicate (24 - s.len) 0) };

    ghost inverse = { λ bs. record {
      bytes = bs ++ replicate (24 - length bs) 0;
      len = length bs;
    } };

    ghost inverse_ok = { λ s h i. record {
      bytes = undone 24 s.len s.bytes h.0 h.1 h.2 i;
      len = length-take-le s.len s.bytes (omega (arith, h.0, h.1)) i;
    } };
}

impl Spelling {
    /// The spelling of this token. Most names have one letter, two or three, for which no call of
    /// a copy is needed.
    pub fn new(token: &[u8]) -> Self
        requires { length token.now ≤ 24 }
        ensures { result ≡ token.now }
    {
        match token {
            [a] => Spelling {
                bytes: [
                    *a, 0, 0, 0, 0, 0, 0, 0, 0, 0, 0, 0, 0, 0, 0, 0, 0, 0, 0, 0, 0, 0, 0, 0,
                ],
                len: 1,
            },
            [a, b] => Spelling {
                bytes: [
                    *a, *b, 0, 0, 0, 0, 0, 0, 0, 0, 0, 0, 0, 0, 0, 0, 0, 0, 0, 0, 0, 0, 0, 0,
                ],
                len: 2,
            },
            [a, b, c] => Spelling {
                bytes: [
                    *a, *b, *c, 0, 0, 0, 0, 0, 0, 0, 0, 0, 0, 0, 0, 0, 0, 0, 0, 0, 0, 0, 0, 0,
                ],
                len: 3,
            },
            _ => Spelling::copy_of(token),
        }
    }

    /// The spelling of any token.
    fn copy_of(token: &[u8]) -> Self
        requires { length token.now ≤ 24 }
        ensures { result ≡ token.now }
    {
        let mut bytes = [0; 24];
        bytes[..token.len()].copy_from_slice(token);
        Spelling {
            bytes,
            len: token.len() as u8,
        }
    }

    /// The bytes, without those that fill the array up.
    pub fn bytes(&self) -> &[u8]
        ensures { result.now ≡ self.now }
    {
        &self.bytes[..self.len as usize]
    }
}

/// Whether the first bytes are the same: most names of a text differ there.
fn begin_alike(a: &Spelling, b: &Spelling) -> bool
    ensures { a.now ≡ b.now → IsTrue result }
{
    a.bytes[0] == b.bytes[0]
}

impl PartialEq for Spelling {
    ghost eq = { pointwise nat_eq };

    ghost laws = { partial_equiv_from_equiv nat_list_eq_equiv };

    fn eq(&self, other: &Self) -> bool {
        begin_alike(self, other) && is(self.bytes(), other.bytes())
    }
}

impl Eq for Spelling {
    ghost laws = { nat_list_eq_equiv };
}

impl Hash for Spelling {
    ghost hash_input = { fed.slice fed.u8 };

    ghost respects_eq = { Prim.search (hashing, rules) };

    fn hash<H: Hasher>(&self, state: &mut H) {
        self.bytes().hash(state);
    }
}

impl fmt::Debug for Spelling {
    fn fmt<W: fmt::Write>(&self, f: &mut fmt::Formatter<W>) -> fmt::Result {
        for b in self.bytes() {
            fmt::Write::write_char(f, char::from(*b))?;
        }
        Ok(())
    }
}
