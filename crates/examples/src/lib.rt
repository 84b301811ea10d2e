//! One proved caller each of four calls that are of use alone: `decide`, `next_item`, `licence` and
//! `verify`. docs/crates.md goes through them.
#![tactic(auto)]

mod certified;
mod items;
mod licensed;
mod systems;

pub use certified::first_uncertified;
pub use items::first_item;
pub use licensed::is_allowed;
pub use systems::has_solution;
