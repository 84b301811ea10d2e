//! The judgement of a derivation text: verified, bad at the first step that is not certified, or
//! garbled at the first line that is malformed at its place. Its theorems are judged one after
//! another, each whole, by those before it.
#![tactic(auto)]

mod judgement;
mod judging;
mod laws;
mod next;

pub use judgement::Judgement;
pub use judging::{LONGEST_LINE, begins, judge, keep};
pub use laws::{each_text_is_judged, texts_have_one_judgement};
pub use next::{NextItem, next_item};
