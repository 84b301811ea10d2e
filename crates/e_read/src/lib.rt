//! Derivation texts read back: each theorem with a certificate at each place that needs one, or the
//! first line that is malformed at its place.
#![tactic(auto)]

mod filling;
mod kept;
mod laws;
mod needs;
mod reader;
mod reading;
mod strict;

pub use kept::AllCerts;
pub use laws::{derivations_are_of_books, garbled_line_is_first};
pub use reader::{Piece, TextFault, read};
pub use reading::BlockParser;
