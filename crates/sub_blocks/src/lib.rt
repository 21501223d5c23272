// The luma of a macroblock in mode B (RFC 6386, 12.3): its sixteen sub-blocks in raster order over the work buffer, each
// predicted from the pixels finished before it.
//     corner    where a sub-block stands in the buffer
//     window    what a sub-block reads of the buffer
//     put       what it writes into the buffer
//     walk      the sixteen sub-blocks
#![tactic(auto)]

mod corner;
mod put;
mod walk;
mod window;

pub use walk::luma_parts;
