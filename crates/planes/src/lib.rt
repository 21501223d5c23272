// The planes of a macroblock that are predicted whole: luma in the four 16x16 modes, and chroma (RFC 6386, 14.2). Predict;
// unless the coefficients are skipped, add the residues of the plane's 4x4 blocks, transformed four side by side.
#![tactic(auto)]

mod chroma;
mod luma;
mod run;

pub use chroma::uv_plane;
pub use luma::y_whole;
