//! What was read below the lines of a block.
ghost use Rattle.std.specs.Prelude.{◌≡◌, ◌++◌, [], OnOk, IfSome, Ok};
ghost use Rattle.std.specs.Option.{option_to_list};
ghost use Rattle.e_cert.specs.CanonicalCertLines.{cert_line_of_bytes};
ghost use Rattle.e_read.specs.Filled.{NextCerts};

use e_cert::{CertLine, SeenLines, StepCerts};
use std::alloc::{AllocError, Global};
use std::marker::Model;
use std::mem;
use std::vec::IntoIter;

/// What was read below the lines of a block, in their order, seen as its list. The lines of
/// certificates are kept too, so that one that comes again is not read again.
#[derive(Drop)]
pub struct AllCerts {
    lines: Vec<StepCerts>,
    seen: SeenLines,
}

impl Model for AllCerts {
    ghost use Rattle.std.specs.Prelude.{List};
    ghost use Rattle.e_cert.specs.declared.kept.StepCerts.{StepCerts};

    ghost Value = { List StepCerts };

    ghost view = { λ k. k.lines.items };
}

impl AllCerts {
    /// Nothing was read.
    pub(crate) fn new(alloc: Global) -> AllCerts
        ensures { result ≡ [] }
    {
        AllCerts {
            lines: Vec::new(alloc),
            seen: SeenLines::new(alloc),
        }
    }

    /// What a line of a certificate says, where an equal one is kept.
    pub(crate) fn find(&self, line: &[u8]) -> Option<&CertLine>
        ensures { IfSome result (λ m. cert_line_of_bytes line.now ≡ Ok m.now) }
    {
        self.seen.find(line)
    }

    /// Keeps what a line of a certificate says.
    pub(crate) fn put(
        &mut self,
        alloc: Global,
        line: &[u8],
        cert_line: CertLine,
    ) -> Result<(), AllocError>
        requires { cert_line_of_bytes line.now ≡ Ok cert_line }
        ensures { self.new ≡ self.old }
    {
        self.seen.put(alloc, line, cert_line)
    }

    /// What was read below the next line, if that has certificates.
    pub(crate) fn push(&mut self, kept: Option<StepCerts>) -> Result<(), AllocError>
        ensures { OnOk result (self.new ≡ self.old ++ option_to_list kept) }
    {
        if let Some(kept) = kept {
            self.lines.push(kept)?;
        }
        Ok(())
    }

    /// What was read, to be taken out one after the other.
    pub(crate) fn into_queue(self) -> CertQueue
        ensures { result ≡ self }
    {
        let AllCerts { lines, seen } = self;
        mem::drop(seen);
        CertQueue {
            rest: lines.into_iter(),
        }
    }
}

/// What is left of it, seen as its list.
#[derive(Drop)]
pub struct CertQueue {
    rest: IntoIter<StepCerts>,
}

impl Model for CertQueue {
    ghost use Rattle.std.specs.Prelude.{List};
    ghost use Rattle.std.specs.Vec.Iter.{into_iter_items};
    ghost use Rattle.e_cert.specs.declared.kept.StepCerts.{StepCerts};

    ghost Value = { List StepCerts };

    ghost view = { λ q. into_iter_items q.rest };
}

impl CertQueue {
    /// Takes the next out.
    pub(crate) fn pop(&mut self) -> Option<StepCerts>
        ensures { NextCerts self.old result self.new }
    {
        self.rest.next()
    }
}
