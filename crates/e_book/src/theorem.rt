//! A theorem of a book.

use e_deriv::{Block, Names};
use e_text::Title;
use e_theorem::Statement;

/// A theorem with its script.
#[derive(Drop)]
pub struct Theorem {
    pub title: Title,
    /// The names of the declared objects and, after them, of the made ones.
    pub names: Names,
    pub statement: Statement,
    pub block: Block,
}
