//! The generated book.

use crate::answer::Answer;
use e_generate::generated;
use std::alloc::{AllocError, Global};

/// Puts the generated book of this many theorems, at most 500.
pub fn put(alloc: Global, out: &mut Answer, theorems: &str) -> Result<(), AllocError> {
    let theorems = theorems.parse::<u32>().unwrap_or(0).min(500);
    out.text(&generated(alloc, theorems)?);
    Ok(())
}
