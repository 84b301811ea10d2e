//! What is wrong with a book as a text.
ghost use Rattle.std.specs.Prelude.{◌≡◌, ◌<◌, ◌^◌};
ghost use Rattle.e_line.specs.declared.fault.LineError.TheVariants.{NoMemory};
ghost use Rattle.e_line.specs.Faults.{book_fault_of};
ghost use Rattle.e_text.specs.Lines.{line_of_fault};

use e_text::LineFault;
use std::alloc::{AllocError, AllocFailed};
use thiserror::Error;

/// What is wrong with a line.
#[derive(Clone, Copy, PartialEq, Eq)]
pub enum FaultKind {
    Malformed,
    UnknownName,
    NameTaken,
    WrongSort,
    Limit(What),
    Unended,
}

/// What a limit counts.
#[derive(Clone, Copy, Debug, PartialEq, Eq)]
pub enum What {
    /// Bytes of the book, at most 4,194,304.
    Bytes,
    /// Bytes of a line without its end, at most 1,600.
    LineBytes,
    /// Theorems of a book, at most 500.
    Theorems,
    /// Points in scope, at most 40.
    Points,
    /// Lines in scope, at most 24.
    Lines,
    /// Circles in scope, at most 16.
    Circles,
    /// Step and close lines of a theorem, at most 1,024.
    Steps,
    /// Blocks one inside the other, at most 32.
    Depth,
    /// Literals that are facts, repeats counted, at most 2,048.
    Facts,
    /// Monomials of a literal, at most 32.
    Monomials,
    /// A coefficient, at most 1,000,000.
    Coefficient,
    /// Monomials of the facts, at most 1,024.
    Terms,
    /// Blanks of a line, at most 6.
    Blanks,
    /// Definitions of a book, at most 200.
    Notions,
    /// Literals that items mean, in one theorem or one definition, at most 4,096.
    Expanded,
    /// A number of a figure: at most 1,000,000 in size, and a square at most 10^12.
    Number,
}

/// What is wrong with a line, or out of memory.
#[derive(Drop)]
pub enum LineError {
    NoMemory,
    Fault(FaultKind),
}

impl From<AllocError> for LineError {
    ghost from_gives = { λ _ e. e ≡ NoMemory };

    fn from(_e: AllocError) -> LineError {
        LineError::NoMemory
    }
}

impl<T: Drop> From<AllocFailed<T>> for LineError {
    ghost from_gives = { λ _ e. e ≡ NoMemory };

    fn from(_e: AllocFailed<T>) -> LineError {
        LineError::NoMemory
    }
}

/// What is wrong with a book, and at which line; or out of memory.
#[derive(Clone, Copy, Debug, PartialEq, Eq, Error)]
pub enum BookFault {
    /// The line is malformed at its place, or has a wrong number of names.
    #[error("line {line} is malformed here")]
    Malformed { line: u32 },
    /// A name that is not in scope, or a rule, a theorem or a definition that there is not.
    #[error("line {line} uses an unknown name")]
    UnknownName { line: u32 },
    /// A new name that is in scope, or new twice on its line; a title that an earlier theorem or
    /// definition has.
    #[error("line {line} gives a name that is taken")]
    NameTaken { line: u32 },
    /// An object of another sort than its place wants.
    #[error("line {line} has an object of a wrong sort")]
    WrongSort { line: u32 },
    #[error("line {line} passes the limit on {what:?}")]
    Limit { line: u32, what: What },
    /// The text ends inside a theorem or a definition; the line is the one after the last.
    #[error("the text ends inside a theorem or a definition, at line {line}")]
    Unended { line: u32 },
    #[error("out of memory")]
    NoMemory,
}

impl From<AllocError> for BookFault {
    ghost use Rattle.std.specs.Prelude.{◌≡◌};
    ghost use Rattle.e_line.specs.declared.fault.BookFault.TheVariants as book;

    ghost from_gives = { λ _ e. e ≡ book.NoMemory };

    fn from(_e: AllocError) -> BookFault {
        BookFault::NoMemory
    }
}

impl FaultKind {
    ghost use Rattle.e_line.specs.Faults.{at_line};

    /// The fault, at a line.
    pub fn at(self, line: u32) -> BookFault
        ensures { result ≡ at_line line self }
    {
        match self {
            FaultKind::Malformed => BookFault::Malformed { line },
            FaultKind::UnknownName => BookFault::UnknownName { line },
            FaultKind::NameTaken => BookFault::NameTaken { line },
            FaultKind::WrongSort => BookFault::WrongSort { line },
            FaultKind::Limit(what) => BookFault::Limit { line, what },
            FaultKind::Unended => BookFault::Unended { line },
        }
    }
}

impl LineError {
    ghost use Rattle.e_line.specs.Faults.{error_at};

    /// The line has none of the forms that its place takes.
    pub const MALFORMED: LineError = LineError::Fault(FaultKind::Malformed);

    /// The fault, at a line; or out of memory.
    pub fn at(self, line: u32) -> BookFault
        ensures { result ≡ error_at line self }
    {
        match self {
            LineError::NoMemory => BookFault::NoMemory,
            LineError::Fault(kind) => kind.at(line),
        }
    }
}

/// What a fault of a line's bytes is for a book.
pub fn book_fault_of(fault: LineFault) -> BookFault
    requires { line_of_fault fault < 2 ^ 32 }
    ensures { result ≡ book_fault_of fault }
{
    match fault {
        LineFault::Bytes { line } => FaultKind::Limit(What::Bytes).at(line as u32),
        LineFault::LineBytes { line } => FaultKind::Limit(What::LineBytes).at(line as u32),
        LineFault::NotAscii { line } => FaultKind::Malformed.at(line as u32),
    }
}
