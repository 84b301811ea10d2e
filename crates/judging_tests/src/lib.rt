//! The tests of the crates that license literals, and of what erases a derivation, over their public
//! calls, in one crate above them so that none of them is proved twice.
#![tactic(auto)]

#[cfg(test)]
mod deciding;
#[cfg(test)]
mod erasing;
#[cfg(test)]
mod following;
#[cfg(test)]
mod licensing;
#[cfg(test)]
mod literals;
#[cfg(test)]
mod preparing;
#[cfg(test)]
mod rows;
#[cfg(test)]
mod transferring;
