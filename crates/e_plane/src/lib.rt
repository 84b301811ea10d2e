//! Signs of polynomials in the coordinates of points, lines and circles, by certificates that are
//! checked by computation. It has proofs alone: what they show is stated by the crates that cite
//! them.
#![tactic(auto)]
