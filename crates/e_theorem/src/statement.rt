//! What a theorem states.

use e_literal::{Items, Lit, Sort};

/// For all declared objects with the given literals there are made objects such that the shown
/// literals hold.
///
/// The objects are numbered by sort, from 0, the declared ones first. A given literal names
/// declared objects alone, a shown one declared and made ones.
#[derive(Drop)]
pub struct Statement {
    pub declared: Items<Sort>,
    pub given: Items<Lit>,
    pub made: Items<Sort>,
    pub shown: Items<Lit>,
}
