//! Lines, words, names, titles and numerals.

use crate::answer::Answer;
use crate::rows::{bytes_of, number, text_in_quotes, two};
use e_text::{Lines, Name, Title, Tokens, name_read_again, numeral, reserved, title_read_again};
use std::alloc::{AllocError, Global};

/// Puts what a text is read as: lines, tokens, a numeral, or a word.
pub fn put(alloc: Global, out: &mut Answer, call: &str, on: &str) -> Result<(), AllocError> {
    match call {
        "lines" => put_lines_of(alloc, out, on),
        "tokens" => put_tokens(alloc, out, text_in_quotes(on)),
        "part" => {
            put_part(out);
            Ok(())
        }
        "numeral" => {
            put_numeral(out, text_in_quotes(on).as_bytes());
            Ok(())
        }
        _ => {
            put_word(out, text_in_quotes(on).as_bytes());
            Ok(())
        }
    }
}

// A part of a text that begins with line 7, after 9 bytes, where 12 bytes count.
fn put_part(out: &mut Answer) {
    put_lines(out, &mut Lines::at(b"a\nb\n", 1_600, 12, 7, 9));
}

// What each call answers, and the number of the next line.
fn put_lines(out: &mut Answer, lines: &mut Lines<'_>) {
    for _ in 0..5 {
        match lines.next() {
            None => out.word("end"),
            Some(Err(fault)) => out.show(&fault),
            Some(Ok(line)) => {
                out.show(&line.number);
                out.text(line.bytes);
                out.show(&line.end);
            }
        }
    }
    out.show(&lines.line());
}

fn put_lines_of(alloc: Global, out: &mut Answer, on: &str) -> Result<(), AllocError> {
    let (longest, rest) = two(on, " ");
    let (most, rest) = two(rest, " ");
    let text = bytes_of(alloc, text_in_quotes(rest))?;
    put_lines(
        out,
        &mut Lines::new(&text, number(longest), number(most) as u64),
    );
    Ok(())
}

fn put_tokens(alloc: Global, out: &mut Answer, text: &str) -> Result<(), AllocError> {
    let text = bytes_of(alloc, text)?;
    for token in Tokens::new(&text) {
        out.text(token);
    }
    Ok(())
}

fn put_numeral(out: &mut Answer, token: &[u8]) {
    out.show(&numeral(token));
    out.show(&e_text::number(token));
}

// Whether a word is reserved, and what it is as a name and as a title: whether that is spelled so
// and read again.
fn put_word(out: &mut Answer, token: &[u8]) {
    out.show(&reserved(token));
    put_name(out, token);
    put_title(out, token);
}

fn put_name(out: &mut Answer, token: &[u8]) {
    match Name::read(token) {
        None => out.word("none"),
        Some(name) => out.show(&(name.bytes() == token && name_read_again(&name) == Some(name))),
    }
}

fn put_title(out: &mut Answer, token: &[u8]) {
    match Title::read(token) {
        None => out.word("none"),
        Some(title) => {
            out.show(&(title.bytes() == token && title_read_again(&title) == Some(title)))
        }
    }
}
