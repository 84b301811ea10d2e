//! A line by its spelling alone: its words to a raw line, and a raw line to its bytes.
//!
//! What a line says is read from its words; no name is looked up here.
#![tactic(auto)]

mod applies;
mod canonical;
mod fault;
mod items;
mod lets;
mod limits;
mod literal;
mod put_line;
mod put_lit;
mod raw_line;
mod spelling_check;
mod sum;
mod superposes;
mod words;

pub use applies::RawApply;
pub use canonical::{canonical_line_of, is_canonical_lit};
pub use fault::{BookFault, FaultKind, LineError, What, book_fault_of};
pub use items::{BookLine, ListHead, RawAs, RawItem, book_line_of};
pub use lets::RawLet;
pub use limits::{check_literal_limits, monomial_count, within};
pub use literal::{RawAtom, RawLit, diagram_lit_of, diagram_lits_of, lit_of};
pub use put_line::{
    put_apply, put_by, put_let, put_named, put_raw_line, put_stated, put_superpose,
    put_word_and_lit,
};
pub use put_lit::{put_literal, put_term};
pub use raw_line::{RawLine, raw_line_of};
pub use spelling_check::SpellingCheck;
pub use sum::{RawMono, RawTerm, term_of};
pub use superposes::{RawSuperpose, superposition_pieces};
pub use words::{Words, names_of, sort_word, words_in_room, words_of_line};
