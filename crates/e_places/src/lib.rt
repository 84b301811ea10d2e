//! Derivations with the places of the facts that their certificates cite, in place of the literals.
//! Nothing is searched for, and nothing is certified anew.
#![tactic(auto)]

mod ending;
mod numbering;
mod places;

pub use numbering::numbered;
