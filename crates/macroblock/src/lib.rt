// Plain data of a key-frame macroblock: the prediction modes of RFC 6386 sections 8 and 11 with their numbers and what a byte
// says of them, the mode record, the neighbour record, the loop filter's data and the numbers of the replies.
#![tactic(auto)]

mod bytes;
pub mod filter;
mod modes;
mod neighbors;
pub mod reply;

pub use bytes::{all_within, b_mode, b_modes_known, b_reply, uv_mode, uv_reply, y_mode, y_reply};
pub use modes::{IntraBmode, IntraUvMode, IntraYMode, MbModes};
pub use neighbors::{ChromaEdges, LumaEdges, MbNeighbors};
pub use reply::Refusal;
