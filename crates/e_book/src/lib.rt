//! Books: their grammar, and the theorems and definitions that they are read as.
//!
//! A line is known from its words by their spelling alone; then its names are looked up from left
//! to right; then the limits are asked. So the first thing that is wrong with a book is one thing
//! at one line.
#![tactic(auto)]

mod blocks;
mod book;
mod inner;
mod item;
mod laws;
mod limits;
mod parser;
mod partial_item;
mod reading;
mod steps;
mod theorem;

pub use blocks::{BlockKind, BlockStack, Closed, OpenBlock};
pub use book::next_item;
pub use e_line::{BookFault, What};
pub use e_names::Known;
pub use item::Item;
pub use laws::{
    canonical_lines_are_read, fault_is_first, fault_is_of_the_front, literals_are_read_as_named,
    read_definitions_are_notions, read_theorems_have_a_spelling,
};
pub use limits::{LONGEST_LINE, MOST_BYTES};
pub use parser::{Section, TheoremParser, declare, no_names};
pub use partial_item::PartialItem;
pub use reading::{Reading, is_skipped};
pub use steps::{CloseLine, Steps};
pub use theorem::Theorem;
