//! The answer to a row.

use e_literal::Lit;
use std::alloc::{AllocError, Global};
use std::fmt::{Debug, Write};

/// Words, each after a space. Where there is no memory for one, the answer goes on without it, and
/// is not whole.
#[derive(Drop)]
pub struct Answer {
    text: String,
    whole: bool,
}

impl Answer {
    /// No words.
    pub fn new(alloc: Global) -> Self {
        Answer {
            text: String::new(alloc),
            whole: true,
        }
    }

    /// Puts a word last.
    pub fn word(&mut self, word: &str) {
        if write!(self.text, " {word}").is_err() {
            self.whole = false;
        }
    }

    /// Puts a mark after the last word.
    pub fn mark(&mut self, mark: &str) {
        if self.text.push_str(mark).is_err() {
            self.whole = false;
        }
    }

    /// Puts a value last.
    pub fn show<T: Debug>(&mut self, value: &T) {
        if write!(self.text, " {value:?}").is_err() {
            self.whole = false;
        }
    }

    /// Puts a text last, in quotation marks.
    pub fn text(&mut self, bytes: &[u8]) {
        self.show(&str::from_utf8(bytes).unwrap_or("no text"));
    }

    /// Puts literals last.
    pub fn literals(&mut self, lits: &[Lit]) {
        for lit in lits {
            if lit.neg {
                self.word("not");
            }
            self.show(&lit.atom);
        }
    }

    /// The text, if it is whole.
    pub fn into_text(self) -> Result<String, AllocError> {
        if self.whole {
            Ok(self.text)
        } else {
            Err(AllocError)
        }
    }
}
