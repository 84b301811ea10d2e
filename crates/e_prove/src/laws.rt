//! Laws of the stops that `prove` may give, each the contract of a function without a body.
ghost use Rattle.e_prove.specs.Laws.{LicensedIsNotRefused, LicensedStopsForMemory};
ghost use Rattle.e_prove.specs.Laws.{DerivedStopsForMemory, RefusedStopsThere};

/// Where each step is licensed, `prove` can stop only out of memory, or at a step that is too wide.
pub fn licensed_is_not_refused()
    ensures { LicensedIsNotRefused }
{}

/// Where each step is licensed and none is wide, `prove` can stop only out of memory.
pub fn licensed_stops_for_memory()
    ensures { LicensedStopsForMemory }
{}

/// Where the script is a certified derivation and no step is wide, `prove` can stop only out of
/// memory.
pub fn derived_stops_for_memory()
    ensures { DerivedStopsForMemory }
{}

/// Where a step is the first that is not licensed and none up to it is wide, `prove` can stop only
/// there, or out of memory.
pub fn refused_stops_there()
    ensures { RefusedStopsThere }
{}
