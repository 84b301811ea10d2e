//! Why a script has no derivation.
ghost use Rattle.std.specs.Prelude.{◌≡◌};
ghost use Rattle.e_deriv.specs.declared.stop.Stop.TheVariants.{NoMemory};

use crate::names::Names;
use e_literal::{Lit, Values};
use std::alloc::{AllocError, AllocFailed};

/// What an unlicensed step lacks.
#[derive(Drop)]
pub enum Wanted {
    /// The first literal that is not allowed; the cited one of a citation.
    Literal(Lit),
    /// A good choice for the blanks of an application.
    Match,
    /// That the facts contradict each other.
    Contradiction,
}

/// The first step that is not licensed, or one that is too wide to be licensed, or out of memory.
#[derive(Drop)]
pub enum Stop {
    Unlicensed {
        /// The step's number, from 1; closes are steps too.
        step: u32,
        wanted: Wanted,
        /// Where a metric literal or a contradiction is wanted: values of the terms of the step
        /// with which the facts are true and the wanted literal is false.
        values: Option<Values>,
        /// The names of the objects in scope before the step.
        names: Names,
    },
    /// Each step before is licensed, and a minor of a system of this one has size at least 2^63.
    TooWide {
        /// The step's number, from 1; closes are steps too.
        step: u32,
        wanted: Wanted,
        /// The width of the system.
        width: u128,
        /// The names of the objects in scope before the step.
        names: Names,
    },
    NoMemory,
}

impl From<AllocError> for Stop {
    ghost from_gives = { λ _ e. e ≡ NoMemory };

    fn from(_e: AllocError) -> Stop {
        Stop::NoMemory
    }
}

impl<T: Drop> From<AllocFailed<T>> for Stop {
    ghost from_gives = { λ _ e. e ≡ NoMemory };

    fn from(_e: AllocFailed<T>) -> Stop {
        Stop::NoMemory
    }
}
