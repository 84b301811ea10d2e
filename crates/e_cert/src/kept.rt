//! The certificates of a line that were read.
ghost use Rattle.std.specs.Prelude.{◌≡◌, ◌++◌, ◌∷◌, [], ℤ, OnOk, length};
ghost use Rattle.e_cert.specs.Certificates.{first_cert};

use e_clause::{Against, Cert, RowName, Sum};
use e_literal::Items;
use std::alloc::{AllocError, Global};
use std::marker::Model;

/// The rows of a sum, seen as their list.
#[derive(Drop)]
pub struct Rows {
    rows: Vec<(i128, RowName)>,
}

impl Model for Rows {
    ghost use Rattle.std.specs.Prelude.{List, ℤ};
    ghost use Rattle.e_clause.specs.declared.cert.RowName.{RowName};

    ghost Value = { List (ℤ × RowName) };

    ghost view = { λ r. r.rows.items };
}

impl Rows {
    /// No rows.
    pub(crate) fn new(alloc: Global) -> Rows
        ensures { result ≡ [] }
    {
        Rows {
            rows: Vec::new(alloc),
        }
    }

    /// How many there are.
    pub(crate) fn len(&self) -> usize
        ensures { result ≡ length self.now }
    {
        self.rows.len()
    }

    /// One more row.
    pub(crate) fn push(&mut self, multiplier: i128, row: RowName) -> Result<(), AllocError>
        ensures { OnOk result (self.new ≡ self.old ++ (multiplier, row) ∷ []) }
    {
        self.rows.push((multiplier, row))?;
        Ok(())
    }

    /// Their sum.
    pub(crate) fn into_sum(self) -> Sum
        ensures { result ≡ self }
    {
        let Rows { rows } = self;
        Sum::new(rows)
    }
}

/// The certificates of a line, seen as their list.
#[derive(Drop)]
pub struct Certs {
    certs: Vec<Cert>,
}

impl Model for Certs {
    ghost use Rattle.std.specs.Prelude.{List};
    ghost use Rattle.e_clause.specs.declared.cert.Cert.{Cert};

    ghost Value = { List Cert };

    ghost view = { λ c. c.certs.items };
}

impl Certs {
    /// No certificates.
    pub fn new(alloc: Global) -> Certs
        ensures { result ≡ [] }
    {
        Certs {
            certs: Vec::new(alloc),
        }
    }

    /// How many there are.
    pub(crate) fn len(&self) -> usize
        ensures { result ≡ length self.now }
    {
        self.certs.len()
    }

    /// One more certificate.
    pub(crate) fn push(&mut self, cert: Cert) -> Result<(), AllocError>
        ensures { OnOk result (self.new ≡ self.old ++ cert ∷ []) }
    {
        self.certs.push(cert)?;
        Ok(())
    }

    /// All of them.
    pub fn into_items(self) -> Items<Cert>
        ensures { result ≡ self }
    {
        let Certs { certs } = self;
        Items::new(certs)
    }

    /// The first of them.
    pub fn into_first(self) -> Option<Cert>
        ensures { result ≡ first_cert self }
    {
        let Certs { certs } = self;
        certs.into_iter().next()
    }
}

/// What was read below a step or a close line that has certificates.
#[derive(Drop)]
pub enum StepCerts {
    Certs(Certs),
    Against(Against),
}
