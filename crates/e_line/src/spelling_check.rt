//! Compares a text with the words that it has to be, one by one, without writing these words down.
//! It takes no memory.
ghost use Rattle.std.specs.Prelude.{◌≡◌, ◌∷◌, [], Some};
ghost use Rattle.e_line.specs.Canonical.{term_words, coefficient_words, mono_words, more_monos};
ghost use Rattle.e_line.specs.Canonical.{sum_words, sums_words, atom_words, not_words, lit_words};
ghost use Rattle.e_line.specs.SpellingCheck.{past_bytes, past_word, past, is_spelled, IsAfter};

use crate::literal::{RawAtom, RawLit};
use crate::sum::{RawMono, RawTerm};
use e_text::Name;
use itoa::{Buffer, Integer};
use std::marker::Model;

/// What comes after these bytes.
#[tactic(auto, using(crate::proofs::base::Past::past_stripped))]
fn past_bytes<'a>(text: &'a [u8], bytes: &[u8]) -> Option<&'a [u8]>
    ensures { IsAfter result (past_bytes bytes.now text.now) }
{
    text.strip_prefix(bytes)
}

/// What comes after a space and a word.
fn past_word<'a>(text: &'a [u8], word: &[u8]) -> Option<&'a [u8]>
    ensures { IsAfter result (past_bytes (32 ∷ word.now) text.now) }
{
    let [first, rest @ ..] = text else {
        return None;
    };
    if *first != b' ' {
        return None;
    }
    past_bytes(rest, word)
}

/// A text that is compared, seen as what is left of it, or none where it was not as it should be.
#[derive(Drop)]
pub struct SpellingCheck<'a> {
    rest: &'a [u8],
    alike: bool,
}

impl<'a> Model for SpellingCheck<'a> {
    ghost use Rattle.std.specs.Prelude.{List, ℕ, Option, Some, None, if◌then◌else◌};

    ghost Value = { Option (List ℕ) };

    ghost view = { λ c. if c.alike then Some c.rest.now else None };
}

impl<'a> SpellingCheck<'a> {
    /// The whole text is to be compared.
    pub fn new(text: &'a [u8]) -> Self
        ensures { result ≡ Some text.now }
    {
        SpellingCheck {
            rest: text,
            alike: true,
        }
    }

    /// A space and this word are to come next.
    pub fn word(&mut self, word: &[u8])
        ensures { self.new ≡ past_word self.old word.now }
    {
        if self.alike {
            match past_word(self.rest, word) {
                Some(rest) => self.rest = rest,
                None => self.alike = false,
            }
        }
    }

    /// A space and the decimal digits of this number are to come next.
    pub fn number<I: Integer>(&mut self, number: I)
        ensures { self.new ≡ past_word self.old (I.text number) }
    {
        let mut digits = Buffer::new();
        self.word(digits.format(number).as_bytes());
    }

    /// These names are to come next, each after a space.
    pub fn names(&mut self, names: &[Name])
        ensures { self.new ≡ past self.old names.now }
    {
        for name in names {
            self.word(name.bytes());
        }
    }

    /// Whether the text was as it should be, and nothing more comes.
    pub fn is_spelled(&self) -> bool
        ensures { result ≡ is_spelled self.now }
    {
        self.alike && self.rest.is_empty()
    }

    fn three(&mut self, x: &[u8], y: &[u8], z: &[u8])
        ensures { self.new ≡ past self.old (x.now ∷ y.now ∷ z.now ∷ []) }
    {
        self.word(x);
        self.word(y);
        self.word(z);
    }

    fn word_and_three(&mut self, word: &[u8], x: Name, y: Name, z: Name)
        ensures { self.new ≡ past self.old (word.now ∷ x ∷ y ∷ z ∷ []) }
    {
        self.word(word);
        self.three(x.bytes(), y.bytes(), z.bytes());
    }

    /// The words of this term are to come next.
    pub fn term(&mut self, term: &RawTerm)
        ensures { self.new ≡ past self.old (term_words term.now) }
    {
        match term {
            RawTerm::Seg(x, y) => self.three(b"seg", x.bytes(), y.bytes()),
            RawTerm::Ang(x, y, z) => self.word_and_three(b"ang", *x, *y, *z),
            RawTerm::Area(x, y, z) => self.word_and_three(b"area", *x, *y, *z),
            RawTerm::Right => self.word(b"right"),
        }
    }

    /// The coefficient 1 is not written.
    fn coefficient(&mut self, coeff: u32)
        ensures { self.new ≡ past self.old (coefficient_words coeff) }
    {
        if coeff != 1 {
            self.number(coeff);
        }
    }

    #[tactic(auto, using(crate::proofs::base::Past::past_append))]
    fn mono(&mut self, mono: &RawMono)
        ensures { self.new ≡ past self.old (mono_words mono.now) }
    {
        self.coefficient(mono.coeff);
        self.term(&mono.term);
    }

    /// More monomials, each after a plus.
    #[tactic(auto, using(crate::proofs::base::Past::past_append))]
    fn more(&mut self, monos: &[RawMono])
        ensures { self.new ≡ past self.old (more_monos monos.now) }
    {
        for mono in monos {
            self.word(b"+");
            self.mono(mono);
        }
    }

    /// Monomials with a plus between two, and 0 for none.
    #[tactic(auto, using(crate::proofs::base::Past::past_append))]
    fn sum(&mut self, sum: &[RawMono])
        ensures { self.new ≡ past self.old (sum_words sum.now) }
    {
        match sum {
            [] => self.word(b"0"),
            [first, monos @ ..] => {
                self.mono(first);
                self.more(monos);
            }
        }
    }

    /// Two sums with a sign between them.
    #[tactic(auto, using(crate::proofs::base::Past::past_append))]
    fn sums(&mut self, left: &[RawMono], sign: &[u8], right: &[RawMono])
        ensures { self.new ≡ past self.old (sums_words left.now sign.now right.now) }
    {
        self.sum(left);
        self.word(sign);
        self.sum(right);
    }

    fn atom(&mut self, atom: &RawAtom)
        ensures { self.new ≡ past self.old (atom_words atom.now) }
    {
        match atom {
            RawAtom::On(x, y) => self.three(b"on", x.bytes(), y.bytes()),
            RawAtom::Inside(x, y) => self.three(b"inside", x.bytes(), y.bytes()),
            RawAtom::Center(x, y) => self.three(b"center", x.bytes(), y.bytes()),
            RawAtom::Between(x, y, z) => self.word_and_three(b"between", *x, *y, *z),
            RawAtom::Same(x, y, z) => self.word_and_three(b"same-side", *x, *y, *z),
            RawAtom::Meets(x, y) => self.three(b"meets", x.bytes(), y.bytes()),
            RawAtom::Equal(x, y) => self.three(x.bytes(), b"=", y.bytes()),
            RawAtom::SumsEqual(x, y) => self.sums(x.items(), b"=", y.items()),
            RawAtom::SumsLess(x, y) => self.sums(x.items(), b"<", y.items()),
            RawAtom::SumsAtMost(x, y) => self.sums(x.items(), b"<=", y.items()),
        }
    }

    /// A negated atom.
    fn negation(&mut self, atom: &RawAtom)
        ensures { self.new ≡ past self.old (not_words atom.now) }
    {
        match atom {
            RawAtom::Equal(x, y) => self.three(x.bytes(), b"!=", y.bytes()),
            RawAtom::SumsEqual(x, y) => self.sums(x.items(), b"!=", y.items()),
            _ => {
                self.word(b"not");
                self.atom(atom);
            }
        }
    }

    /// The words of this literal are to come next.
    pub fn literal(&mut self, lit: &RawLit)
        ensures { self.new ≡ past self.old (lit_words lit.now) }
    {
        if lit.neg {
            self.negation(&lit.atom);
        } else {
            self.atom(&lit.atom);
        }
    }
}
