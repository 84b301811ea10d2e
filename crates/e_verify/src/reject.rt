//! Why a derivation is not verified: a bad step, or no memory.

ghost use Rattle.std.specs.Prelude.{◌≡◌};
ghost use Rattle.e_verify.specs.declared.reject.Reject.TheVariants.{NoMemory};

use std::alloc::AllocError;
use thiserror::Error;

/// Why a derivation is not verified.
#[derive(Debug, Drop, Error)]
pub enum Reject {
    /// The step with this number, counted from 1, where closes are steps too, is the first that
    /// is not certified.
    #[error("step {step} is not certified")]
    Bad { step: u32 },
    /// Out of memory.
    #[error("out of memory")]
    NoMemory,
}

impl From<AllocError> for Reject {
    ghost from_gives = { λ _ e. e ≡ NoMemory };

    fn from(_e: AllocError) -> Reject {
        Reject::NoMemory
    }
}
