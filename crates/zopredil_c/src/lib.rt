// The exports to C of include/zopredil.h: each calls the function of its name in crates/zopredil, and promises what that
// promises. A number passes as itself, a slice as pointer and length.
// Kept: numbers for replies, modes and kinds, slices with their lengths and counts in slices of one are the C interface, in every function.
#![tactic(auto)]

pub mod distances;
pub mod filter;
pub mod macroblocks;
pub mod neighbours;
pub mod partitions;
pub mod predictions;
pub mod stills;
pub mod transforms;
