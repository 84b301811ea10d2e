//! The book that `make` writes: theorems on points in order, each of which but every sixth uses the
//! one before it.
#![tactic(auto)]

mod generating;

pub use generating::generated;
