//! The one spelling of a derivation: each line of a theorem with the certificates that it needs.
#![tactic(auto)]

mod certificates;
mod declarations;
mod head;
mod laws;
mod literals;
mod proof;
mod rules;
mod scope;
mod steps;
mod stops;
mod writer;

pub use e_clause::Version;
pub use laws::lines_are_the_theorem;
pub use stops::spell_stop;
pub use writer::spell;
