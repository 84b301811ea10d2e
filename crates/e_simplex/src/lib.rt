//! Decides systems of linear rows over whole numbers of at least 0: values that satisfy them, or
//! multipliers that show that there are none, or the proved excuse that some minor of the rows is
//! large.
#![tactic(auto)]

mod choose;
mod constraints;
mod decision;
mod disequalities;
mod exchange;
mod freeing;
mod further;
mod greedy;
mod multiple;
mod multipliers;
mod naming;
mod number;
mod pivot;
mod readings;
mod refutation;
mod solve;
mod solved;
mod solved_rows;
mod table;
mod unequal;

pub use decision::{Absurdity, Verdict, decide};
pub use e_fraction::{Row, RowSense, Signed, have_small_coefficients, width};
pub use e_literal::{Term, Values};
pub use solved_rows::{Prepared, SolvedRows, prepare};
