//! Laws of metric and transfer consequence, of systems and of certificates, each as a function that
//! does nothing and whose contract is the law.
ghost use Rattle.e_clause.specs.Laws.{CertificateIsSound, ContradictionCertificateIsSound};
ghost use Rattle.e_clause.specs.Laws.{MetricCertificateIsSound, MetricContradictionIsSound};
ghost use Rattle.e_clause.specs.Laws.{TransferCertificateIsSound, MetricFactFollows};
ghost use Rattle.e_clause.specs.Laws.{SolutionsRefute, CounterexampleSolves};
ghost use Rattle.e_clause.specs.Laws.{UnsolvedFollows, UnsolvedContradicts};
ghost use Rattle.e_clause.specs.Laws.{CounterexampleRefutes, CounterexampleSatisfies};

/// What a certificate certifies is allowed.
pub fn certificate_is_sound()
    ensures { CertificateIsSound }
{}

/// What certifies a contradiction shows that the facts contradict each other.
pub fn contradiction_certificate_is_sound()
    ensures { ContradictionCertificateIsSound }
{}

/// What a metric certificate certifies is a metric consequence.
pub fn metric_certificate_is_sound()
    ensures { MetricCertificateIsSound }
{}

/// Where a metric certificate shows a contradiction, the facts are unsatisfiable.
pub fn metric_contradiction_is_sound()
    ensures { MetricContradictionIsSound }
{}

/// What a transfer certificate certifies is a transfer consequence.
pub fn transfer_certificate_is_sound()
    ensures { TransferCertificateIsSound }
{}

/// A metric literal among the facts is a metric consequence.
pub fn metric_fact_follows()
    ensures { MetricFactFollows }
{}

/// Solutions of the three metric systems are a counterexample.
pub fn solutions_refute()
    ensures { SolutionsRefute }
{}

/// Where there is a counterexample each metric system has a solution.
pub fn counterexample_solves()
    ensures { CounterexampleSolves }
{}

/// A metric literal follows where one of its metric systems has no solution.
pub fn unsolved_follows()
    ensures { UnsolvedFollows }
{}

/// The facts are unsatisfiable where one of their metric systems has no solution.
pub fn unsolved_contradicts()
    ensures { UnsolvedContradicts }
{}

/// A counterexample shows that the literal does not follow.
pub fn counterexample_refutes()
    ensures { CounterexampleRefutes }
{}

/// A counterexample shows that the facts are satisfiable.
pub fn counterexample_satisfies()
    ensures { CounterexampleSatisfies }
{}
