//! What a definition says.

use e_literal::{Items, Lit, Sort};

/// For all declared objects the title of the definition says these literals of them.
///
/// The objects are numbered by sort, from 0. A literal names declared objects alone.
#[derive(Drop)]
pub struct Notion {
    pub declared: Items<Sort>,
    pub means: Items<Lit>,
}
