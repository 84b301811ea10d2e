//! What holds of lines, tokens, names and numerals: each law is the contract of a function.
ghost use Rattle.std.specs.Prelude.{◌≡◌, Some};
ghost use Rattle.e_text.specs.Laws.{LinesMakeTheText, WrittenLinesAreRead, OneByteMoreIsEnough};
ghost use Rattle.e_text.specs.Laws.{FrontsAreRead, NoMoreLinesThanBytes, TokensHoldNoBlank};
ghost use Rattle.e_text.specs.Laws.{JoinedWordsAreRead, PrintedNumbersAreRead};

use crate::name::{Name, Title};

/// Where no line has a fault, the lines with their ends, put together, are the text.
pub fn lines_make_the_text()
    ensures { LinesMakeTheText }
{}

/// Lines of allowed bytes, within the bounds, that are written with a line feed after each are read
/// as these lines.
pub fn written_lines_are_read()
    ensures { WrittenLinesAreRead }
{}

/// The lines of a text, with their faults, are known from its bytes up to one after the last that
/// counts.
pub fn one_byte_more_is_enough()
    ensures { OneByteMoreIsEnough }
{}

/// The lines of a text whose front ends with a line feed are those of the front and then, where
/// none of these has a fault, those of the rest.
pub fn fronts_are_read()
    ensures { FrontsAreRead }
{}

/// A text has no more lines than bytes.
pub fn no_more_lines_than_bytes()
    ensures { NoMoreLinesThanBytes }
{}

/// The tokens of a line hold no blank, and each has bytes.
pub fn tokens_hold_no_blank()
    ensures { TokensHoldNoBlank }
{}

/// Words with one space between two are read as these words.
pub fn joined_words_are_read()
    ensures { JoinedWordsAreRead }
{}

/// A number below 2^128 that is printed is read as itself.
pub fn printed_numbers_are_read()
    ensures { PrintedNumbersAreRead }
{}

/// The spelling of a name, read again, is the name.
pub fn name_read_again(name: &Name) -> Option<Name>
    ensures { result ≡ Some name.now }
{
    Name::read(name.bytes())
}

/// The spelling of a title, read again, is the title.
pub fn title_read_again(title: &Title) -> Option<Title>
    ensures { result ≡ Some title.now }
{
    Title::read(title.bytes())
}
