//! What may be applied at a step: all choices of arguments at which an earlier theorem may be
//! applied, in order.
#![tactic(auto)]

mod laws;
mod suggestions;

pub use laws::first_of_choices;
pub use suggestions::all;
