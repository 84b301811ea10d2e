//! Laws of trimming, each as a function that does nothing and whose contract is the law.
ghost use Rattle.e_trim.specs.Laws.{TrimmedIsCertified, TrimmedIsShorter, TrimmedKeepsVersion};

/// What is trimmed of a certified derivation is certified.
pub fn trimmed_is_certified()
    ensures { TrimmedIsCertified }
{}

/// What is trimmed of a derivation has no more steps, and no more blocks one inside the other.
pub fn trimmed_is_shorter()
    ensures { TrimmedIsShorter }
{}

/// What is trimmed of a derivation is of its version.
pub fn trimmed_keeps_version()
    ensures { TrimmedKeepsVersion }
{}
