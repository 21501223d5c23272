// intra_predict.rs: the predictors of RFC 6386, section 12, by the mode. The blocks themselves are drawn in `intra_edges`
// (12.2: 16x16 and 8x8) and `intra_subblock` (12.3: 4x4), whose functions and constants stand here too.
#![tactic(auto)]

ghost use Rattle.std.specs.Prelude.{◌≡◌};
ghost use Rattle.rfc6386.specs.Edges.{predict_uv};
ghost use Rattle.intra_predict.specs.Luma.{predicted_y, told};

pub use intra_edges::{
    DEFAULT_ABOVE_PIXEL, DEFAULT_LEFT_PIXEL, DEFAULT_TOPLEFT_DC, predict_uv8x8_dc, predict_uv8x8_h,
    predict_uv8x8_tm, predict_uv8x8_v, predict_y16x16_dc, predict_y16x16_h, predict_y16x16_tm,
    predict_y16x16_v,
};
pub use intra_subblock::{predict_b4x4, predict_b4x4_into};
use macroblock::{IntraUvMode, IntraYMode, Refusal};

// Kept: pixels beside a mark, in both functions, are the project's form for an edge.
// 16x16 luma. Mode B predicts its sub-blocks one by one and is refused (reply 3).
pub fn predict_y16x16(
    mode: IntraYMode,
    above: [u8; 16],
    above_there: bool,
    left: [u8; 16],
    left_there: bool,
    p: u8,
) -> Result<[u8; 256], Refusal>
    ensures { told result ≡ predicted_y mode above above_there left left_there p }
{
    match mode {
        IntraYMode::Dc => Ok(predict_y16x16_dc(above, above_there, left, left_there)),
        IntraYMode::V => Ok(predict_y16x16_v(above, above_there)),
        IntraYMode::H => Ok(predict_y16x16_h(left, left_there)),
        IntraYMode::Tm => Ok(predict_y16x16_tm(above, above_there, left, left_there, p)),
        IntraYMode::B => Err(Refusal::BPred),
    }
}

// 8x8 chroma.
pub fn predict_uv8x8(
    mode: IntraUvMode,
    above: [u8; 8],
    above_there: bool,
    left: [u8; 8],
    left_there: bool,
    p: u8,
) -> [u8; 64]
    ensures { result ≡ predict_uv mode above above_there left left_there p }
{
    match mode {
        IntraUvMode::Dc => predict_uv8x8_dc(above, above_there, left, left_there),
        IntraUvMode::V => predict_uv8x8_v(above, above_there),
        IntraUvMode::H => predict_uv8x8_h(left, left_there),
        IntraUvMode::Tm => predict_uv8x8_tm(above, above_there, left, left_there, p),
    }
}
