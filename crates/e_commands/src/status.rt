//! How a run ends.
ghost use Rattle.std.specs.Prelude.{◌≡◌};
ghost use Rattle.e_commands.specs.Answers.{exit_of};

use e_deriv::Wanted;
use e_line::BookFault;
use e_literal::Values;
use e_text::Title;

/// What a run answers.
#[derive(Drop)]
pub enum Status {
    /// Each theorem of the book has a derivation, and the derivations are written.
    Accepted {
        theorems: u32,
    },
    /// No line of the derivation text is malformed at its place, and each certificate certifies at
    /// its own step.
    Verified {
        theorems: u32,
    },
    /// The generated book is written.
    Made {
        theorems: u32,
    },
    /// The generated book is accepted, and what `check` writes of it is verified.
    Tried {
        theorems: u32,
        steps: u32,
    },
    /// No line of the derivation text is malformed at its place, and each certificate certifies at
    /// its own step; its theorems are written in the second version.
    Upgraded {
        theorems: u32,
    },
    /// What the figure says of each shown literal is written, and so many they are.
    Drawn {
        shown: u64,
    },
    /// This many lines are suggested, and `more` says whether some are left out.
    Suggested {
        lines: u32,
        more: bool,
    },
    /// `suggest`: the theorem has fewer steps, or no theorem of the book has this title.
    NoStep,
    /// The derivation text is verified, and written again without the steps that nothing needs.
    Trimmed {
        theorems: u32,
    },
    /// The derivation text is verified, and the theorems that each of its theorems applies are
    /// written.
    Listed {
        theorems: u32,
    },
    /// The first step that is not licensed, and what it lacks.
    Unlicensed {
        title: Title,
        step: u32,
        wanted: Wanted,
        /// Where a metric literal or a contradiction is wanted: values of the terms of the step
        /// that show that it does not follow.
        values: Option<Values>,
    },
    /// Each step before is licensed, and a minor of a system of this one has size at least 2^63.
    TooWide {
        title: Title,
        step: u32,
        wanted: Wanted,
        /// The width of the system.
        width: u128,
    },
    /// The first step of the derivation text that is not certified.
    Bad {
        title: Title,
        step: u32,
    },
    /// The first fault of the book, or of the figure text.
    Fault(BookFault),
    /// The first line of the derivation text that is malformed at its place.
    Garbled {
        line: u64,
    },
    /// The derivation text has more than 2^60 bytes.
    TextLimit,
    /// The words are no command.
    Usage,
    /// The source failed.
    ReadFault,
    /// The sink failed.
    WriteFault,
    /// Memory ran out.
    NoMemory,
}

/// The status with which the program exits. 7 is `main`'s own: the system did not give the words.
pub fn exit_code(status: &Status) -> u8
    ensures { result ≡ exit_of status.now }
{
    match status {
        Status::Accepted { .. }
        | Status::Verified { .. }
        | Status::Made { .. }
        | Status::Upgraded { .. }
        | Status::Tried { .. }
        | Status::Drawn { .. }
        | Status::Trimmed { .. }
        | Status::Listed { .. }
        | Status::Suggested { .. } => 0,
        Status::Unlicensed { .. } | Status::Bad { .. } => 1,
        Status::Fault(_) | Status::Garbled { .. } | Status::TextLimit => 2,
        Status::Usage => 3,
        Status::ReadFault => 4,
        Status::WriteFault => 5,
        Status::NoMemory => 6,
        Status::TooWide { .. } => 8,
        Status::NoStep => 10,
    }
}
