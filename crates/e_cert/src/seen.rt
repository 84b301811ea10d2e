//! Lines of certificates that came before, so that one that comes again is not read again.
ghost use Rattle.std.specs.Prelude.{◌≡◌, IfSome, Ok};
ghost use Rattle.e_cert.specs.CanonicalCertLines.{cert_line_of_bytes};

use crate::cert_line::CertLine;
use std::alloc::{AllocError, Global};
use std::mem;

/// How many lines are kept at most, and how many places there are.
const MAX_LINES: usize = 1_024;

/// How many bytes a line has at most that is kept.
const MAX_BYTES: usize = 256;

/// A line, and what it says.
#[derive(Drop)]
struct SeenLine {
    line: Vec<u8>,
    cert_line: CertLine,
    ghost says: { cert_line_of_bytes line.items ≡ Ok cert_line },
}

/// Lines that came, with what they say.
#[derive(Drop)]
pub struct SeenLines {
    lines: Vec<SeenLine>,
    /// For each hash, where the last line that has it may be.
    places: Vec<u16>,
}

/// A number below `MAX_LINES`, by which most lines differ. Eight bytes are taken at once, the last
/// ones again where some are left.
fn hash_of(line: &[u8]) -> usize {
    let mut hash = 0;
    let mut rest = line;
    while let [a, b, c, d, e, f, g, h, after @ ..] = rest {
        hash = hash_with(hash, number_of([*a, *b, *c, *d, *e, *f, *g, *h]));
        rest = after;
    }
    if let [.., a, b, c, d, e, f, g, h] = line {
        hash = hash_with(hash, number_of([*a, *b, *c, *d, *e, *f, *g, *h]));
    } else {
        for byte in rest {
            hash = hash_with(hash, u64::from(*byte));
        }
    }
    (hash >> 54) as usize
}

/// These bytes as one number.
fn number_of(bytes: [u8; 8]) -> u64 {
    let [a, b, c, d, e, f, g, h] = bytes;
    u64::from(a)
        | u64::from(b) << 8
        | u64::from(c) << 16
        | u64::from(d) << 24
        | u64::from(e) << 32
        | u64::from(f) << 40
        | u64::from(g) << 48
        | u64::from(h) << 56
}

/// The hash with one more part of the line.
fn hash_with(hash: u64, part: u64) -> u64 {
    (hash.rotate_left(5) ^ part).wrapping_mul(0x9e37_79b9_7f4a_7c15)
}

impl SeenLines {
    /// No line came.
    pub fn new(alloc: Global) -> SeenLines {
        SeenLines {
            lines: Vec::new(alloc),
            places: Vec::new(alloc),
        }
    }

    /// What the line says, where that is known.
    pub fn find(&self, line: &[u8]) -> Option<&CertLine>
        ensures { IfSome result (λ m. cert_line_of_bytes line.now ≡ Ok m.now) }
    {
        let place = self.places.get(hash_of(line))?;
        let seen = self.lines.get(usize::from(*place))?;
        if seen.line.as_slice() == line {
            Some(&seen.cert_line)
        } else {
            None
        }
    }

    /// Keeps what the line says, unless it is long.
    pub fn put(&mut self, alloc: Global, line: &[u8], cert_line: CertLine) -> Result<(), AllocError>
        requires { cert_line_of_bytes line.now ≡ Ok cert_line }
    {
        if line.len() > MAX_BYTES {
            mem::drop(cert_line);
            return Ok(());
        }
        match Vec::from_slice(alloc, line) {
            Ok(copy) => {
                let line_seen = SeenLine {
                    line: copy,
                    cert_line,
                };
                self.put_last(alloc, hash_of(line), line_seen)
            }
            Err(error) => {
                mem::drop(cert_line);
                Err(error)
            }
        }
    }

    /// Puts a line with this hash last. Where there is no room, the others are forgotten.
    fn put_last(&mut self, alloc: Global, hash: usize, seen: SeenLine) -> Result<(), AllocError> {
        if self.lines.len() >= MAX_LINES {
            self.lines.clear();
        }
        let place = self.lines.len() as u16;
        self.lines.push(seen)?;
        if self.places.is_empty() {
            self.places.resize(MAX_LINES, 0)?;
        }
        if let Some(at) = self.places.get_mut(hash) {
            *at = place;
        }
        Ok(())
    }
}
