// The calls of the C interface, include/zopredil.h, which crates/zopredil_c exports. Every function answers with a reply, and
// its promise is one equation to a definition of specs/: what it answers, beside what it leaves in the slices that it writes.
// Kept: numbers for replies, modes and kinds, slices with their lengths and counts in slices of one are the C interface, in every function.
#![tactic(auto)]

mod answers;
pub mod distances;
pub mod filter;
pub mod macroblocks;
pub mod neighbours;
pub mod partitions;
pub mod predictions;
pub mod stills;
pub mod transforms;
