// The buffer that the luma of a macroblock in mode B is drawn in (RFC 6386, 12.3): the pixels of the macroblock beside those
// of its neighbours that its sub-blocks are predicted from. `sub_blocks` draws in it.
//     border    the buffer as the neighbours leave it
//     luma      the macroblock read out of it
#![tactic(auto)]

mod border;
mod luma;

pub use border::{LENGTH, start};
pub use luma::luma_of;
