//! Laws of scripts and derivations, each as a function that does nothing and whose contract is the
//! law.
ghost use Rattle.e_deriv.specs.Laws.{CertifiedProves, LicensedProves, ProofIsLicensed};
ghost use Rattle.e_deriv.specs.Laws.{ContextIsOne, LicensedHasNoStop, StopIsOne};

/// What is certified is a proof.
pub fn certified_proves()
    ensures { CertifiedProves }
{}

/// A script of which each step is licensed is a proof, with its blanks filled.
pub fn licensed_proves()
    ensures { LicensedProves }
{}

/// Each step of a proof is licensed.
pub fn proof_is_licensed()
    ensures { ProofIsLicensed }
{}

/// The scope, the facts and the goal at the step of a number are determined by the script.
pub fn context_is_one()
    ensures { ContextIsOne }
{}

/// Where each step is licensed none is the first that is not.
pub fn licensed_has_no_stop()
    ensures { LicensedHasNoStop }
{}

/// The first step that is not licensed, and what it lacks, are determined by the script.
pub fn stop_is_one()
    ensures { StopIsOne }
{}
