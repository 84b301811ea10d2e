//! Figure texts: a figure, literals that are given and literals that are shown, and which of them
//! are true in it.
#![tactic(auto)]

mod answers;
mod drawing;
mod laws;
mod number;
mod plan;
mod raw;
mod reading;

pub use drawing::{Drawing, draw};
pub use laws::{canonical_figure_is_read, figure_fault_is_first, refuted_is_not_shown};
