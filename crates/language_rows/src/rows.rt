//! The words, texts and objects of a row.

use e_literal::{Obj, Sort};
use std::alloc::{AllocError, Global};

/// What comes before the first mark, and what comes after it.
pub fn two<'a>(text: &'a str, mark: &str) -> (&'a str, &'a str) {
    text.split_once(mark).unwrap_or((text, ""))
}

/// The number of a word, 0 where it is none.
pub fn number(word: &str) -> usize {
    word.parse::<usize>().unwrap_or(0)
}

/// The text between the first two quotation marks.
pub fn text_in_quotes(row: &str) -> &str {
    row.split('"').nth(1).unwrap_or("")
}

/// The bytes of a text, in which a slash is a line feed, a per cent sign a carriage return, a
/// circumflex a tab, and a tilde a byte that no text may hold.
pub fn bytes_of(alloc: Global, text: &str) -> Result<Vec<u8>, AllocError> {
    let mut bytes = Vec::new(alloc);
    for byte in text.bytes() {
        bytes.push(match byte {
            b'/' => b'\n',
            b'%' => b'\r',
            b'^' => b'\t',
            b'~' => 0x80,
            other => other,
        })?;
    }
    Ok(bytes)
}

/// The number of a letter, from `a` for 0.
fn letter(letters: &str, place: usize) -> u16 {
    match letters.as_bytes().get(place) {
        Some(letter) => u16::from(letter.saturating_sub(b'a')),
        None => 0,
    }
}

/// The numbers of the first three letters.
pub fn three(letters: &str) -> (u16, u16, u16) {
    (letter(letters, 0), letter(letters, 1), letter(letters, 2))
}

/// The object of a letter: a point from `a`, a circle from `A`, or a line from `L` for 0.
pub fn object(letter: u8) -> Option<Obj> {
    let (sort, first) = match letter {
        b'a'..=b'z' => (Sort::Point, b'a'),
        b'A'..=b'K' => (Sort::Circle, b'A'),
        b'L'..=b'Z' => (Sort::Line, b'L'),
        _ => return None,
    };
    let num = u16::from(letter.saturating_sub(first));
    Some(Obj { sort, num })
}

/// The objects of letters.
pub fn objects(alloc: Global, letters: &str) -> Result<Vec<Obj>, AllocError> {
    let mut objects = Vec::new(alloc);
    for letter in letters.bytes() {
        if let Some(object) = object(letter) {
            objects.push(object)?;
        }
    }
    Ok(objects)
}
