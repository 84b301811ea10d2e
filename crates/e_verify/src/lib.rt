//! Checks a derivation, certificate by certificate. Nothing is searched for.
#![tactic(auto)]

mod adding;
mod alike;
mod block;
mod certificate;
mod closes;
mod facts;
mod fingerprint;
mod instances;
mod key;
mod metric;
mod reject;
mod rows;
mod scope;
mod step_state;
mod steps;
mod sums;
mod totals;
mod transfer;
mod verifier;

pub use reject::Reject;
pub use verifier::verify;

// What holds before a step, and its parts: `e_places` goes through a derivation likewise.
pub use facts::Facts;
pub use instances::negated_others;
pub use step_state::{Checkpoint, StepState};
pub use verifier::state_at_start;
