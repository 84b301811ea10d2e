//! The laws between reading, spelling and verifying.
#![tactic(auto)]

mod laws;

pub use laws::{
    certified_is_formed, filled_has_spelling, garbled_spells_nothing, items_add_what_they_mean,
    one_text_for_one_tree, one_tree_for_one_text, spelled_is_read, trimmed_has_spelling,
    verified_is_written, what_is_read_can_be_spelled, what_is_read_is_spelled_so,
    written_is_judged, written_is_verified,
};
