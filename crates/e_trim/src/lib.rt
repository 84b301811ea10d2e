//! Trimming: a derivation without the steps that nothing needs, and the earlier theorems that a
//! derivation applies. Nothing is searched for, and nothing is certified anew: what is left keeps
//! its certificates.
#![tactic(auto)]

mod building;
mod instances;
mod laws;
mod looked;
mod looking;
mod new_steps;
mod noting;
mod numbering;
mod step_state;
mod steps;
mod trimming;
mod wanted;

pub use laws::{trimmed_is_certified, trimmed_is_shorter, trimmed_keeps_version};
pub use noting::applied_theorems;
pub use trimming::trim;
