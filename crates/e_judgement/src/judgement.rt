//! What a derivation text is judged to be.

use e_text::Title;

/// How a derivation text is judged.
#[derive(Clone, Copy, Debug, PartialEq)]
pub enum Judgement {
    /// No line is malformed at its place, and each certificate certifies at its own step.
    Verified { theorems: u32 },
    /// The first step that is not certified: the theorem, and the number of the line among its
    /// steps and closes.
    Bad { title: Title, step: u32 },
    /// The first line that is malformed at its place.
    Garbled { line: u64 },
}
