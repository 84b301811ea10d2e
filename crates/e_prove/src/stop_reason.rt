//! Why licensing stops at a step.
ghost use Rattle.std.specs.Prelude.{◌≡◌, ◌+◌, ◌<◌, ◌^◌, IfOk, IfErr, OnOk, Ok};
ghost use Rattle.e_prove.specs.declared.stop_reason.StopReason.TheVariants.{NoMemory};
ghost use Rattle.e_prove.specs.inner.StopsOfSteps.{stop_of, IsStopOrNoMemory, IsStopOfAnswer};

use crate::state_before::StateBefore;
use e_deriv::{Names, Stop, Wanted};
use e_literal::Values;
use std::alloc::{AllocError, AllocFailed, Global};
use std::mem;

/// What the step lacks, with the values that show it; or what is too wide there, with its width; or
/// out of memory.
#[derive(Drop)]
pub enum StopReason {
    Lacks {
        wanted: Wanted,
        values: Option<Values>,
    },
    TooWide {
        wanted: Wanted,
        width: u128,
    },
    NoMemory,
}

impl From<AllocError> for StopReason {
    ghost from_gives = { λ _ e. e ≡ NoMemory };

    fn from(_e: AllocError) -> StopReason {
        StopReason::NoMemory
    }
}

impl<T: Drop> From<AllocFailed<T>> for StopReason {
    ghost from_gives = { λ _ e. e ≡ NoMemory };

    fn from(_e: AllocFailed<T>) -> StopReason {
        StopReason::NoMemory
    }
}

/// The stop at the step with this number, where these names are in scope.
pub fn stop_with_names(step: u32, stop_reason: StopReason, names: Names) -> Stop
    ensures { result ≡ stop_of stop_reason step names }
{
    match stop_reason {
        StopReason::Lacks { wanted, values } => Stop::Unlicensed {
            step,
            wanted,
            values,
            names,
        },
        StopReason::TooWide { wanted, width } => Stop::TooWide {
            step,
            wanted,
            width,
            names,
        },
        StopReason::NoMemory => Stop::NoMemory,
    }
}

/// The stop at the step with this number, where this is the state before it.
pub fn stop_at(alloc: Global, stop_reason: StopReason, state: &StateBefore, number: u32) -> Stop
    ensures { IsStopOrNoMemory stop_reason number state.now.names result }
{
    match state.names.copy(alloc) {
        Ok(names) => stop_with_names(number, stop_reason, names),
        Err(_) => {
            mem::drop(stop_reason);
            Stop::NoMemory
        }
    }
}

/// Where a step or close without a block inside was licensed, counts it and hands it out; else
/// gives the stop, with the step's number and names.
pub fn count_or_stop<T>(
    alloc: Global,
    answered: Result<T, StopReason>,
    state: &StateBefore,
    number: &mut u32,
) -> Result<T, Stop>
    requires { number.old + 1 < 2 ^ 32 }
    ensures ok { IfOk result (λ x. answered ≡ Ok x) }
    ensures next { OnOk result (number.new ≡ number.old + 1) }
    ensures err { IfErr result (IsStopOfAnswer answered number.old state.now.names) }
{
    match answered {
        Ok(licensed) => {
            *number += 1;
            Ok(licensed)
        }
        Err(stop_reason) => Err(stop_at(alloc, stop_reason, state, *number)),
    }
}
