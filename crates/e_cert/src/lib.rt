//! The lines of certificates: read from their words, compared with their spelling, and what a line
//! owes while they come.
#![tactic(auto)]

mod canonical;
mod cert_line;
mod kept;
mod owed;
mod seen;
mod spelled;

pub use canonical::canonical_cert_line;
pub use cert_line::{CertLine, RawRow, cert_line_is_of};
pub use kept::{Certs, Rows, StepCerts};
pub use owed::{Obligation, OpenSums, OpenTransfer, Pending};
pub use seen::SeenLines;
