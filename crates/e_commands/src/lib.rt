//! The commands of `elements`: what each of them takes of its source, what it writes, and what it
//! answers.
#![tactic(auto)]

mod blocks;
mod book;
mod checker;
mod drawer;
mod input;
mod laws;
mod maker;
mod output;
mod pieces;
mod rewriter;
mod rewriting;
mod status;
mod store;
mod suggester;
mod suggestions;
mod trier;
mod verifier;

pub use checker::check;
pub use drawer::figure;
pub use laws::{
    books_have_one_outcome, refusal_is_outcome, suggestions_are_one, too_wide_is_wide, ways_are_one,
};
pub use maker::make;
pub use output::close;
pub use rewriter::rewrite;
pub use rewriting::Job;
pub use status::{Status, exit_code};
pub use suggester::suggest;
pub use trier::trial;
pub use verifier::verify;
