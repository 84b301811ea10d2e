//! What a book consists of: theorems and definitions. (The items of a line are its literals, and
//! its words `as` with a title and names: `RawItem` of `e_line`.)

use crate::theorem::Theorem;
use e_text::Title;
use e_theorem::Notion;

/// A theorem with its script, or a definition.
#[derive(Drop)]
pub enum Item {
    Theorem(Theorem),
    Notion(Title, Notion),
}
