//! Names to the objects in scope, from left to right, and objects to their names; theorems and
//! definitions that are known.
#![tactic(auto)]

mod applies;
mod known;
mod meanings;
mod naming;
mod notions;
mod scope;
mod superposes;
mod terms;
mod theorems;

pub use applies::{Application, apply_in, count_blanks};
pub use known::Known;
pub use meanings::{MAX_EXPANDED, put_items};
pub use naming::{name_at, name_of_object, raw_lits, raw_of, raw_term};
pub use notions::Notions;
pub use scope::{
    args_in, by_in, fresh, let_in, lit_in, put_lits, put_names, qed_in, scope_of_names,
};
pub use superposes::{Placement, placed_in, superpose_in};
pub use terms::term_in;
pub use theorems::Theorems;
