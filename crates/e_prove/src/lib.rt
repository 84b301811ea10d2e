//! The derivation of a theorem: each step of its script licensed in order.
#![tactic(auto)]

mod application;
mod before_step;
mod block;
mod close;
mod inner;
mod laws;
mod licence;
mod prover;
mod reach;
mod state_before;
mod step;
mod stop_reason;

pub use before_step::state_before_step;
pub use laws::{
    derived_stops_for_memory, licensed_is_not_refused, licensed_stops_for_memory,
    refused_stops_there,
};
pub use prover::prove;
pub use state_before::StateBefore;
