//! Whether the objects that a certificate names are in scope.

ghost use Rattle.std.specs.Prelude.{◌≡◌};
ghost use Rattle.std.specs.List.{list_all};
ghost use Rattle.e_literal.specs.Literal;
ghost use Rattle.e_literal.specs.Literal.{is_in_scope};
ghost use Rattle.e_clause.specs.Certify;
ghost use Rattle.e_clause.specs.MetricCertificate;
ghost use Rattle.e_clause.specs.PartCertificate;
ghost use Rattle.e_clause.specs.TransferCertificate;
ghost use Rattle.e_deriv.specs.Steps;

use e_clause::{Cert, Part, RowName, Sum, Sums, TransferCert};
use e_literal::{Lit, Obj, Scope, count, in_scope, term_in_scope};

/// Whether the objects that the certificate names are in scope.
pub fn cert_in(scope: Scope, cert: &Cert) -> bool
    ensures { result ≡ Certify.cert_in scope cert.now }
{
    match cert {
        Cert::Plain(part) => part_in(scope, part),
        Cert::Transfer(transfer) => transfer_in(scope, transfer),
    }
}

fn transfer_in(scope: Scope, cert: &TransferCert) -> bool
    ensures { result ≡ TransferCertificate.transfer_in scope cert.now }
{
    objects_in(scope, cert.args.items()) && parts_in(scope, cert.parts.items())
}

/// Whether the objects are in scope.
pub fn objects_in(scope: Scope, objects: &[Obj]) -> bool
    ensures { result ≡ list_all (is_in_scope scope) objects.now }
{
    objects.iter().all(|o| o.num < count(scope, o.sort))
}

fn parts_in(scope: Scope, parts: &[Part]) -> bool
    ensures { result ≡ list_all (PartCertificate.part_in scope) parts.now }
{
    parts.iter().all(|part| part_in(scope, part))
}

fn part_in(scope: Scope, part: &Part) -> bool
    ensures { result ≡ PartCertificate.part_in scope part.now }
{
    match part {
        Part::Fact | Part::FactAt(_) => true,
        Part::Metric(cert) => sums_in(scope, &cert.sums),
    }
}

/// Whether the objects that the sums name are in scope.
pub fn sums_in(scope: Scope, sums: &Sums) -> bool
    ensures { result ≡ MetricCertificate.are_sums_in scope sums.now }
{
    match sums {
        Sums::One(sum) => sum_in(scope, sum.rows()),
        Sums::Two {
            differs,
            above,
            below,
        } => {
            name_in(scope, differs) && sum_in(scope, above.rows()) && sum_in(scope, below.rows())
        }
    }
}

fn sum_in(scope: Scope, sum: &[(i128, RowName)]) -> bool
    ensures { result ≡ MetricCertificate.sum_in scope sum.now }
{
    sum.iter().all(|(_, name)| name_in(scope, name))
}

fn name_in(scope: Scope, name: &RowName) -> bool
    ensures { result ≡ MetricCertificate.row_name_in scope name.now }
{
    match name {
        RowName::Fact(lit) => in_scope(lit, scope),
        RowName::Pos(term) | RowName::Top(term) | RowName::Least(term) => term_in_scope(
            *term, scope,
        ),
        RowName::Goal | RowName::Right | RowName::Above | RowName::Below | RowName::FactAt(_) =>
            true,
    }
}

/// Whether all objects of the literals are in scope.
pub fn are_over(scope: Scope, lits: &[Lit]) -> bool
    ensures { result ≡ Steps.are_over scope lits.now }
{
    lits.iter().all(|lit| in_scope(lit, scope))
}
