//! The numbers of a figure text, by their words.
ghost use Rattle.std.specs.Prelude.{◌≡◌, ◌≤◌, true};
ghost use Rattle.e_text.specs.Numerals.{is_numeral};
ghost use Rattle.e_line.specs.Reading.{Gives, Reads};
ghost use Rattle.e_drawing.specs.Numbers.{most_size, most_square, value_to};
ghost use Rattle.e_drawing.specs.Numbers.{unsigned_of, negative_of, coordinate_of};
ghost use Rattle.e_drawing.specs.Numbers.{square_of, coordinate_at, square_at};

use e_line::{FaultKind, LineError, Words};
use e_text::{number, numeral};

/// The largest size of a coordinate, and of a number of a direction.
const MAX_SIZE: u32 = 1_000_000;

/// The largest square.
const MAX_SQUARE: u64 = 1_000_000_000_000;

/// The value of a numeral, or one more than a size may be.
fn size_of(word: &[u8]) -> u32
    requires { is_numeral word.now ≡ true }
    ensures value { result ≡ value_to most_size word.now }
    ensures small { result ≤ 1000001 }
{
    match number(word) {
        Some(value) => value.min(u128::from(MAX_SIZE + 1)) as u32,
        None => MAX_SIZE + 1,
    }
}

/// The value of a numeral, or one more than a square may be.
fn square_size_of(word: &[u8]) -> u64
    requires { is_numeral word.now ≡ true }
    ensures { result ≡ value_to most_square word.now }
{
    match number(word) {
        Some(value) => value.min(u128::from(MAX_SQUARE + 1)) as u64,
        None => MAX_SQUARE + 1,
    }
}

fn unsigned_of(word: &[u8]) -> Result<i32, LineError>
    ensures { Gives (λ z. z) result (unsigned_of word.now) }
{
    if !numeral(word) {
        return Err(LineError::Fault(FaultKind::Malformed));
    }
    let size = size_of(word);
    Ok(size as i32)
}

fn negative_of(word: &[u8]) -> Result<i32, LineError>
    ensures { Gives (λ z. z) result (negative_of word.now) }
{
    if !numeral(word) {
        return Err(LineError::Fault(FaultKind::Malformed));
    }
    let size = size_of(word);
    if size == 0 {
        return Err(LineError::Fault(FaultKind::Malformed));
    }
    let number = size as i32;
    Ok(-number)
}

/// A coordinate: a numeral, or a minus sign and a numeral other than 0.
fn coordinate_of(word: &[u8]) -> Result<i32, LineError>
    ensures { Gives (λ z. z) result (coordinate_of word.now) }
{
    match word {
        [] => Err(LineError::Fault(FaultKind::Malformed)),
        [b'-', digits @ ..] => negative_of(digits),
        digits => unsigned_of(digits),
    }
}

/// A square: a numeral.
fn square_of(word: &[u8]) -> Result<u64, LineError>
    ensures { Gives (λ n. n) result (square_of word.now) }
{
    if !numeral(word) {
        return Err(LineError::Fault(FaultKind::Malformed));
    }
    let size = square_size_of(word);
    Ok(size)
}

/// The next word, a coordinate.
#[tactic(auto, unfolding(crate::specs::Numbers::coordinate_at))]
pub fn coordinate(words: &mut Words) -> Result<i32, LineError>
    ensures { Reads (λ z. z) result words.new (coordinate_at words.old) }
{
    let word = words.word()?;
    coordinate_of(word)
}

/// The next word, a square.
#[tactic(auto, unfolding(crate::specs::Numbers::square_at))]
pub fn square(words: &mut Words) -> Result<u64, LineError>
    ensures { Reads (λ n. n) result words.new (square_at words.old) }
{
    let word = words.word()?;
    square_of(word)
}
