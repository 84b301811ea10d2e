//! Whether a line is the one that is spelled for what it says of a certificate. It takes no memory.
ghost use Rattle.std.specs.Prelude.{◌≡◌, ◌∷◌, [], codes, decimal};
ghost use Rattle.std.specs.Str.{bytes_eq};
ghost use Rattle.e_line.specs.Canonical.{term_words};
ghost use Rattle.e_line.specs.SpellingCheck.{past};
ghost use Rattle.e_cert.specs.CertLines.{raw_row_words, cert_line_words, cert_line_text};

use crate::cert_line::{CertLine, RawRow};
use e_line::{RawTerm, SpellingCheck};

/// A row that is said of a term.
fn compare_term_row(text: &mut SpellingCheck, word: &[u8], term: &RawTerm)
    ensures { text.new ≡ past text.old (word.now ∷ term_words term.now) }
{
    text.word(word);
    text.term(term);
}

/// A fact by its place.
fn compare_place(text: &mut SpellingCheck, place: u32)
    ensures { text.new ≡ past text.old (codes "fact" ∷ decimal place ∷ []) }
{
    text.word(b"fact");
    text.number(place);
}

fn compare_row(text: &mut SpellingCheck, row: &RawRow)
    ensures { text.new ≡ past text.old (raw_row_words row.now) }
{
    match row {
        RawRow::Fact(lit) => {
            text.word(b"fact");
            text.literal(lit);
        }
        RawRow::Goal => text.word(b"goal"),
        RawRow::Pos(term) => compare_term_row(text, b"pos", term),
        RawRow::Top(term) => compare_term_row(text, b"top", term),
        RawRow::Right => text.word(b"right"),
        RawRow::Least(term) => compare_term_row(text, b"least", term),
        RawRow::Above => text.word(b"above"),
        RawRow::Below => text.word(b"below"),
        RawRow::FactAt(place) => compare_place(text, *place),
    }
}

/// A line of a certificate after its bar.
fn compare_words(text: &mut SpellingCheck, cert_line: &CertLine)
    ensures { text.new ≡ past text.old (cert_line_words cert_line.now) }
{
    match cert_line {
        CertLine::Fact => text.word(b"fact"),
        CertLine::Metric => text.word(b"metric"),
        CertLine::Transfer(rule, names) => {
            text.word(b"transfer");
            text.word(rule.bytes());
            text.names(names.items());
        }
        CertLine::Clash(lit) => {
            text.word(b"clash");
            text.literal(lit);
        }
        CertLine::Sum => text.word(b"sum"),
        CertLine::Differs(row) => {
            text.word(b"differs");
            compare_row(text, row);
        }
        CertLine::Row(multiplier, row) => {
            text.number(*multiplier);
            compare_row(text, row);
        }
        CertLine::FactAt(place) => compare_place(text, *place),
    }
}

/// Whether the line is the one of what it says.
pub(crate) fn is_cert_line_text(line: &[u8], cert_line: &CertLine) -> bool
    ensures { result ≡ bytes_eq line.now (cert_line_text cert_line.now) }
{
    let [sign, words @ ..] = line else {
        return false;
    };
    if *sign != b'|' {
        return false;
    }
    let mut text = SpellingCheck::new(words);
    compare_words(&mut text, cert_line);
    text.is_spelled()
}
