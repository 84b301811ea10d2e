//! Lines of certificates that have the one spelling of what they say.
ghost use Rattle.std.specs.Prelude.{◌≡◌};
ghost use Rattle.e_line.specs.Reading.{texts, Gives};
ghost use Rattle.e_line.specs.CanonicalLines.{is_canonical_lit};
ghost use Rattle.e_cert.specs.CanonicalCertLines.{is_canonical_row, is_canonical_cert_line, canonical_cert_line};

use crate::cert_line::{CertLine, RawRow, cert_line_of};
use crate::spelled::is_cert_line_text;
use e_line::{LineError, is_canonical_lit};
use std::alloc::Global;
use std::mem;

fn is_canonical_row(row: &RawRow) -> bool
    ensures { result ≡ is_canonical_row row.now }
{
    match row {
        RawRow::Fact(lit) => is_canonical_lit(lit),
        _ => true,
    }
}

fn is_canonical_cert_line(cert_line: &CertLine) -> bool
    ensures { result ≡ is_canonical_cert_line cert_line.now }
{
    match cert_line {
        CertLine::Differs(row) => is_canonical_row(row),
        CertLine::Row(_, row) => is_canonical_row(row),
        _ => true,
    }
}

/// What a line of a certificate says that has the one spelling of it, where these are the words
/// after its bar.
#[tactic(auto, unfolding(crate::specs::CanonicalCertLines::canonical_cert_line))]
pub fn canonical_cert_line(
    alloc: Global,
    line: &[u8],
    words: &[&[u8]],
) -> Result<CertLine, LineError>
    ensures { Gives (λ m. m) result (canonical_cert_line line.now (texts words.now)) }
{
    let cert_line = cert_line_of(alloc, words)?;
    if is_canonical_cert_line(&cert_line) && is_cert_line_text(line, &cert_line) {
        Ok(cert_line)
    } else {
        mem::drop(cert_line);
        Err(LineError::MALFORMED)
    }
}
