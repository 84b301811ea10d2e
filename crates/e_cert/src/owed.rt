//! The certificates that a line owes, while their lines come.
ghost use Rattle.std.specs.Prelude.{◌≡◌, ◌+◌, ◌++◌, ◌∷◌, [], length, OnOk, Some, None};
ghost use Rattle.e_clause.specs.Instance.{number_of_rule};
ghost use Rattle.e_clause.specs.declared.cert.Part.TheVariants as parts;
ghost use Rattle.e_line.specs.Reading.{Gives, Moves};
ghost use Rattle.e_names.specs.Scope.{FewNames};
ghost use Rattle.e_cert.specs.Owed.{with_row, row_put, sum_begun};
ghost use Rattle.e_cert.specs.Rows.{fact_in, row_in};
ghost use Rattle.e_cert.specs.Owed.{differs_put, sums_ended, certificate};
ghost use Rattle.e_cert.specs.Owed.{part_put, metric_put, takes_metric, clash_put};
ghost use Rattle.e_cert.specs.Rows.{transfer_rule};
ghost use Rattle.e_cert.specs.Owed.{count_others, transfer_at, open_transfer_in, transfer_begun};
ghost use Rattle.e_cert.specs.Owed.{with_sums_ended, after_cert_line, kept_of, finish_certs};

use crate::cert_line::{CertLine, RawRow};
use crate::kept::{Certs, Rows, StepCerts};
use e_clause::{
    Against, Cert, InstanceFault, MetricCert, Part, RowName, Rule, Sums, TransferCert, instance,
};
use e_deriv::Names;
use e_line::{LineError, RawLit, check_literal_limits};
use e_literal::{Items, Lit, Obj, same};
use e_names::{args_in, lit_in, term_in};
use e_text::{Name, Title};
use std::alloc::Global;
use std::{mem, slice};

/// How many rows a sum may have.
const MAX_ROWS: usize = 4_096;

/// The sums of a metric certificate while they come.
#[derive(Drop)]
pub enum OpenSums {
    /// After the head.
    Begun,
    /// The rows of the one sum so far.
    One(Rows),
    /// After the row that differs.
    Differs(RowName),
    /// The rows of the first of two sums so far, after the row that differs.
    Above(RowName, Rows),
    /// The rows of the second, after those of the first.
    Below(RowName, Rows, Rows),
}

/// A transfer while its parts come.
#[derive(Drop)]
pub struct OpenTransfer {
    pub rule: Rule,
    pub args: Items<Obj>,
    pub parts: Items<Part>,
    /// How many parts it has in all.
    pub owed: usize,
}

/// What certificates a line owes, with those that were read.
#[derive(Drop)]
pub enum Obligation {
    /// None.
    Nothing,
    /// One for each of these literals.
    Literals {
        wanted: Items<Lit>,
        certs: Certs,
        transfer: Option<OpenTransfer>,
    },
    /// One of a contradiction.
    Contradiction {
        against: Option<Against>,
    },
}

/// What a line owes, and what of it was read.
#[derive(Drop)]
pub struct Pending {
    /// The names in scope before the line.
    pub names: Names,
    pub due: Obligation,
    /// A metric certificate that is begun.
    pub sums: Option<OpenSums>,
}

/// A literal of a certificate: its names, and then its limits.
fn fact_in(alloc: Global, names: &Names, raw: &RawLit) -> Result<Lit, LineError>
    requires { FewNames names.now }
    ensures { Gives (λ l. l) result (fact_in names.now raw.now) }
{
    let lit = lit_in(alloc, names, raw)?;
    match check_literal_limits(slice::from_ref(raw)) {
        Ok(()) => Ok(lit),
        Err(error) => {
            mem::drop(lit);
            Err(error)
        }
    }
}

#[tactic(auto, unfolding(crate::specs::Rows::row_in))]
fn row_in(alloc: Global, names: &Names, row: &RawRow) -> Result<RowName, LineError>
    requires { FewNames names.now }
    ensures { Gives (λ r. r) result (row_in names.now row.now) }
{
    match row {
        RawRow::Fact(raw) => Ok(RowName::Fact(fact_in(alloc, names, raw)?)),
        RawRow::Goal => Ok(RowName::Goal),
        RawRow::Pos(raw) => Ok(RowName::Pos(term_in(names, raw)?)),
        RawRow::Top(raw) => Ok(RowName::Top(term_in(names, raw)?)),
        RawRow::Right => Ok(RowName::Right),
        RawRow::Least(raw) => Ok(RowName::Least(term_in(names, raw)?)),
        RawRow::Above => Ok(RowName::Above),
        RawRow::Below => Ok(RowName::Below),
        RawRow::FactAt(place) => Ok(RowName::FactAt(*place)),
    }
}

/// One more row of a sum.
fn add_row(sum: &mut Rows, multiplier: i128, row: RowName) -> Result<(), LineError>
    ensures { Moves result sum.new (with_row sum.old multiplier row) }
{
    if sum.len() >= MAX_ROWS {
        mem::drop(row);
        return Err(LineError::MALFORMED);
    }
    sum.push(multiplier, row)?;
    Ok(())
}

/// A sum is begun.
fn sum_begun(alloc: Global, sums: Option<OpenSums>) -> Result<OpenSums, LineError>
    ensures { Gives (λ s. s) result (sum_begun sums) }
{
    match sums {
        Some(sums) => sum_after(alloc, sums),
        None => Err(LineError::MALFORMED),
    }
}

/// A sum is begun after what has come of the sums.
fn sum_after(alloc: Global, sums: OpenSums) -> Result<OpenSums, LineError>
    ensures { Gives (λ s. s) result (sum_begun (Some sums)) }
{
    match sums {
        OpenSums::Begun => Ok(OpenSums::One(Rows::new(alloc))),
        OpenSums::Differs(differs) => Ok(OpenSums::Above(differs, Rows::new(alloc))),
        OpenSums::Above(differs, sum) => {
            if sum.len() == 0 {
                mem::drop(differs);
                mem::drop(sum);
                return Err(LineError::MALFORMED);
            }
            Ok(OpenSums::Below(differs, sum, Rows::new(alloc)))
        }
        other => {
            mem::drop(other);
            Err(LineError::MALFORMED)
        }
    }
}

/// The sums of a metric certificate that ends here.
fn sums_ended(sums: OpenSums) -> Result<Sums, LineError>
    ensures { Gives (λ s. s) result (sums_ended sums) }
{
    match sums {
        OpenSums::One(sum) => {
            if sum.len() == 0 {
                mem::drop(sum);
                return Err(LineError::MALFORMED);
            }
            Ok(Sums::One(sum.into_sum()))
        }
        OpenSums::Below(differs, above, sum) => {
            if sum.len() == 0 {
                mem::drop(differs);
                mem::drop(above);
                mem::drop(sum);
                return Err(LineError::MALFORMED);
            }
            Ok(Sums::Two {
                differs,
                above: above.into_sum(),
                below: sum.into_sum(),
            })
        }
        other => {
            mem::drop(other);
            Err(LineError::MALFORMED)
        }
    }
}

fn takes_metric(due: &Obligation) -> bool
    ensures { result ≡ takes_metric due.now }
{
    match due {
        Obligation::Nothing => false,
        Obligation::Literals {
            transfer: Some(_),
            ..
        } => true,
        Obligation::Literals { wanted, certs, .. } => certs.len() < wanted.len(),
        Obligation::Contradiction { against } => against.is_none(),
    }
}

/// The transfer rule with this name.
fn transfer_rule(name: Title) -> Result<Rule, LineError>
    ensures { Gives (λ r. r) result (transfer_rule (number_of_rule name)) }
{
    let Some(rule) = Rule::named(name.bytes()) else {
        return Err(LineError::MALFORMED);
    };
    if !rule.is_transfer() {
        return Err(LineError::MALFORMED);
    }
    Ok(rule)
}

/// How many places have another literal than the wanted one.
fn count_others(wanted: &Lit, lits: &[Lit]) -> usize
    ensures { result ≡ count_others wanted.now lits.now }
{
    let mut count = 0;
    for lit in lits {
        if !same(lit, wanted) {
            count += 1;
        }
    }
    count
}

/// A transfer of which no part has come.
#[tactic(auto, unfolding(crate::specs::Owed::transfer_at))]
fn transfer_at(
    alloc: Global,
    wanted: &Lit,
    rule: Rule,
    args: Items<Obj>,
) -> Result<OpenTransfer, LineError>
    ensures { Gives (λ t. t) result (transfer_at wanted.now rule args) }
{
    match instance(alloc, rule, args.items()) {
        Ok(lits) => Ok(OpenTransfer {
            rule,
            args,
            parts: Items::empty(alloc),
            owed: count_others(wanted, &lits),
        }),
        Err(InstanceFault::BadArgs) => Err(LineError::MALFORMED),
        Err(InstanceFault::NoMemory) => Err(LineError::NoMemory),
    }
}

/// A rule with an object for each of its variables.
#[tactic(auto, unfolding(crate::specs::Owed::open_transfer_in))]
fn transfer_in(
    alloc: Global,
    names: &Names,
    wanted: &Lit,
    title: Title,
    raws: &[Name],
) -> Result<OpenTransfer, LineError>
    requires { FewNames names.now }
    ensures { Gives (λ t. t) result (open_transfer_in names.now wanted.now title raws.now) }
{
    let rule = transfer_rule(title)?;
    let sig = rule.sig();
    let count = usize::from(sig.points) + usize::from(sig.lines) + usize::from(sig.circles);
    if raws.len() != count {
        return Err(LineError::MALFORMED);
    }
    let args = args_in(alloc, names, sig, raws)?;
    transfer_at(alloc, wanted, rule, args)
}

impl OpenTransfer {
    /// The certificate of a transfer that has all its parts.
    fn into_cert(self) -> Cert
        ensures { result ≡ certificate self }
    {
        let OpenTransfer {
            rule,
            args,
            parts,
            ..
        } = self;
        Cert::Transfer(TransferCert { rule, args, parts })
    }
}

impl Obligation {
    /// What needs no rule certifies a part of the transfer that is begun, and else the next
    /// literal. After an error no clause says what is owed, here and in what follows.
    fn put_part(&mut self, part: Part) -> Result<(), LineError>
        ensures { Moves result self.new (part_put self.old part) }
    {
        let Obligation::Literals {
            wanted,
            certs,
            transfer,
        } = self
        else {
            mem::drop(part);
            return Err(LineError::MALFORMED);
        };
        let Some(begun) = transfer else {
            if certs.len() >= wanted.len() {
                mem::drop(part);
                return Err(LineError::MALFORMED);
            }
            certs.push(Cert::Plain(part))?;
            return Ok(());
        };
        begun.parts.push(part)?;
        if begun.parts.len() != begun.owed {
            return Ok(());
        }
        if let Some(complete) = transfer.take() {
            certs.push(complete.into_cert())?;
        }
        Ok(())
    }

    /// A metric certificate may be of a contradiction too.
    fn put_metric(&mut self, cert: MetricCert) -> Result<(), LineError>
        ensures { Moves result self.new (metric_put self.old cert) }
    {
        if !matches!(self, Obligation::Contradiction { against: None }) {
            return self.put_part(Part::Metric(cert));
        }
        let against = Some(Against::Metric(cert));
        mem::drop(mem::replace(self, Obligation::Contradiction { against }));
        Ok(())
    }

    /// The literal of a clash certifies a contradiction.
    fn put_clash(&mut self, lit: Lit) -> Result<(), LineError>
        ensures { Moves result self.new (clash_put self.old lit) }
    {
        if !matches!(self, Obligation::Contradiction { against: None }) {
            mem::drop(lit);
            return Err(LineError::MALFORMED);
        }
        let against = Some(Against::Clash { lit });
        mem::drop(mem::replace(self, Obligation::Contradiction { against }));
        Ok(())
    }

    /// A transfer is begun for the next literal.
    fn begin_transfer(
        &mut self,
        alloc: Global,
        names: &Names,
        title: Title,
        raws: &[Name],
    ) -> Result<(), LineError>
        requires { FewNames names.now }
        ensures { Moves result self.new (transfer_begun names.now self.old title raws.now) }
    {
        let Obligation::Literals {
            wanted,
            certs,
            transfer,
        } = self
        else {
            return Err(LineError::MALFORMED);
        };
        if transfer.is_some() {
            return Err(LineError::MALFORMED);
        }
        let Some(next) = wanted.items().get(certs.len()) else {
            return Err(LineError::MALFORMED);
        };
        let begun = transfer_in(alloc, names, next, title, raws)?;
        if begun.parts.len() != begun.owed {
            mem::drop(mem::replace(transfer, Some(begun)));
            return Ok(());
        }
        let OpenTransfer {
            rule,
            args,
            parts,
            ..
        } = begun;
        certs.push(Cert::Transfer(TransferCert { rule, args, parts }))?;
        Ok(())
    }
}

impl Pending {
    /// A line that is no row and no sum ends the sums before it.
    fn end_sums(&mut self) -> Result<(), LineError>
        ensures value { Moves result self.new (with_sums_ended self.old self.old.sums) }
        ensures names { OnOk result (self.new.names ≡ self.old.names) }
    {
        let Some(sums) = self.sums.take() else {
            return Ok(());
        };
        let sums = sums_ended(sums)?;
        self.due.put_metric(MetricCert { sums })
    }

    /// A sum is begun.
    #[tactic(auto, unfolding(crate::specs::Owed::after_cert_line))]
    fn begin_sum(&mut self, alloc: Global) -> Result<(), LineError>
        ensures value { Moves result self.new (after_cert_line self.old CertLine.Sum) }
        ensures names { OnOk result (self.new.names ≡ self.old.names) }
    {
        let sums = sum_begun(alloc, self.sums.take())?;
        mem::drop(mem::replace(&mut self.sums, Some(sums)));
        Ok(())
    }

    /// A row that differs comes right after the head.
    #[tactic(auto, unfolding(crate::specs::Owed::after_cert_line))]
    fn put_differs(&mut self, alloc: Global, raw: &RawRow) -> Result<(), LineError>
        requires { FewNames self.old.names }
        ensures value { Moves result self.new
            (after_cert_line self.old (CertLine.Differs raw.now)) }
        ensures names { OnOk result (self.new.names ≡ self.old.names) }
    {
        let differs = row_in(alloc, &self.names, raw)?;
        if !matches!(self.sums, Some(OpenSums::Begun)) {
            mem::drop(differs);
            return Err(LineError::MALFORMED);
        }
        mem::drop(mem::replace(&mut self.sums, Some(OpenSums::Differs(differs))));
        Ok(())
    }

    /// A row comes where a sum is begun.
    #[tactic(auto, unfolding(crate::specs::Owed::after_cert_line))]
    fn put_row(&mut self, alloc: Global, multiplier: i128, raw: &RawRow) -> Result<(), LineError>
        requires { FewNames self.old.names }
        ensures value { Moves result self.new
            (after_cert_line self.old (CertLine.Row multiplier raw.now)) }
        ensures names { OnOk result (self.new.names ≡ self.old.names) }
    {
        let row = row_in(alloc, &self.names, raw)?;
        match &mut self.sums {
            Some(OpenSums::One(sum)) => add_row(sum, multiplier, row),
            Some(OpenSums::Above(_, sum)) => add_row(sum, multiplier, row),
            Some(OpenSums::Below(_, _, sum)) => add_row(sum, multiplier, row),
            _ => {
                mem::drop(row);
                Err(LineError::MALFORMED)
            }
        }
    }

    /// Takes a line of a certificate. After an error no clause says what is owed.
    #[tactic(auto, unfolding(crate::specs::Owed::after_cert_line))]
    pub fn after_cert_line(&mut self, alloc: Global, cert_line: &CertLine) -> Result<(), LineError>
        requires { FewNames self.old.names }
        ensures value { Moves result self.new (after_cert_line self.old cert_line.now) }
        ensures names { OnOk result (self.new.names ≡ self.old.names) }
    {
        match cert_line {
            CertLine::Fact => {
                self.end_sums()?;
                self.due.put_part(Part::Fact)
            }
            CertLine::FactAt(place) => {
                self.end_sums()?;
                self.due.put_part(Part::FactAt(*place))
            }
            CertLine::Metric => {
                self.end_sums()?;
                if !takes_metric(&self.due) {
                    return Err(LineError::MALFORMED);
                }
                mem::drop(mem::replace(&mut self.sums, Some(OpenSums::Begun)));
                Ok(())
            }
            CertLine::Transfer(title, raws) => {
                self.end_sums()?;
                self.due
                    .begin_transfer(alloc, &self.names, *title, raws.items())
            }
            CertLine::Clash(raw) => {
                self.end_sums()?;
                self.due.put_clash(lit_in(alloc, &self.names, raw)?)
            }
            CertLine::Sum => self.begin_sum(alloc),
            CertLine::Differs(raw) => self.put_differs(alloc, raw),
            CertLine::Row(multiplier, raw) => self.put_row(alloc, *multiplier, raw),
        }
    }

    /// What was read for the line, where nothing is owed any more.
    #[tactic(auto, unfolding(crate::specs::Owed::finish_certs))]
    pub fn finish_certs(self) -> Result<Option<StepCerts>, LineError>
        requires { FewNames self.names }
        ensures { Gives (λ k. k) result (finish_certs self) }
    {
        let mut owed = self;
        if let Err(error) = owed.end_sums() {
            mem::drop(owed);
            return Err(error);
        }
        let Pending { names, due, sums } = owed;
        mem::drop(names);
        mem::drop(sums);
        kept_of(due)
    }
}

fn kept_of(due: Obligation) -> Result<Option<StepCerts>, LineError>
    ensures { Gives (λ k. k) result (kept_of due) }
{
    match due {
        Obligation::Nothing => Ok(None),
        Obligation::Literals {
            wanted,
            certs,
            transfer: None,
        } => {
            let is_short = certs.len() < wanted.len();
            mem::drop(wanted);
            if is_short {
                mem::drop(certs);
                return Err(LineError::MALFORMED);
            }
            Ok(Some(StepCerts::Certs(certs)))
        }
        Obligation::Contradiction {
            against: Some(against),
        } => Ok(Some(StepCerts::Against(against))),
        other => {
            mem::drop(other);
            Err(LineError::MALFORMED)
        }
    }
}
