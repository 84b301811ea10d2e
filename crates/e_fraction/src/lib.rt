//! Exact arithmetic on rows of whole numbers: the quotients of pivots, sums of rows that refute
//! them, and a bound of their minors.
#![tactic(auto)]

mod entry;
mod row;
mod signed;
mod sum;
mod widths;

pub use entry::{Wide, cross};
pub use row::{Row, RowSense, have_small_coefficients};
pub use signed::{Signed, are_distinct, has_summand};
pub use sum::{are_small_multipliers, check_sum, total};
pub use widths::width;
