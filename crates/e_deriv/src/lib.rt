//! Scripts and derivations: blocks of steps, without and with their certificates, and what it means
//! that one proves, is licensed or is certified.
#![tactic(auto)]

mod block;
mod erasing;
mod inner;
mod laws;
mod names;
mod parts;
mod sizes;
mod stop;

pub use block::{Block, Close, Goal, Step, box_blocks};
pub use e_clause::Against;
pub use erasing::{copy_by, copy_construction, copy_lits, copy_names, erase};
pub use inner::{cases_close, claim_step, superposed_step};
pub use laws::{
    certified_proves, context_is_one, licensed_has_no_stop, licensed_proves, proof_is_licensed,
    stop_is_one,
};
pub use names::Names;
pub use parts::{goal_with, written_args};
pub use sizes::{depth, size};
pub use stop::{Stop, Wanted};
