// The predictors of RFC 6386, section 12, by a mode's number. Reply 1, and nothing written, for a slice of another length than
// it must have; 8, and zeros written, for a number that is no mode's.
ghost use Rattle.std.specs.Prelude.{◌≡◌, length};
ghost use Rattle.lists.specs.Lists.{◌beside◌};
ghost use Rattle.zopredil.specs.Predictions.{edge_fits, lengths_fit, chroma_drawn, sub_block_drawn, luma_answer, chroma_answer, sub_block_answer};
ghost use Rattle.zopredil.specs.Told.{told};

use crate::answers::answer;
use macroblock::{IntraBmode, IntraUvMode, IntraYMode, Refusal};

// An edge of n pixels, or an absent one.
fn edge_fits(edge: usize, n: usize) -> bool
    ensures { result ≡ edge_fits n edge }
{
    edge == n || edge == 0
}

fn lengths_fit(n: usize, block: usize, above: usize, left: usize, out: usize) -> bool
    ensures { result ≡ lengths_fit n block above left out }
{
    edge_fits(above, n) && edge_fits(left, n) && out == block
}

// 16x16 luma: edges of 16, or empty where they are absent; 256 pixels out. Mode B is refused (reply 3, zeros written).
pub fn zopredil_predict_y16x16(mode: u8, above: &[u8], left: &[u8], p: u8, out: &mut [u8]) -> u32
    ensures { (result beside out.new) ≡ luma_answer mode above.now left.now p out.old }
{
    if !lengths_fit(16, 256, above.len(), left.len(), out.len()) {
        return Refusal::WrongLength.number();
    }
    // Kept: here, and not in a function of its own as U's and V's, where its 256 pixels would be moved once more: 39 instructions a call.
    match IntraYMode::try_from(mode) {
        Ok(mode) => {
            let made = intra_predict::predict_y16x16(
                mode,
                slices::array(above, 0),
                above.len() == 16,
                slices::array(left, 0),
                left.len() == 16,
                p,
            );
            answer(out, &made, 0)
        }
        Err(refusal) => answer::<u8, 256>(out, &Err(refusal), 0),
    }
}

// 8x8 chroma: edges of 8, or empty where they are absent; 64 pixels out.
pub fn zopredil_predict_uv8x8(mode: u8, above: &[u8], left: &[u8], p: u8, out: &mut [u8]) -> u32
    ensures { (result beside out.new) ≡ chroma_answer mode above.now left.now p out.old }
{
    if !lengths_fit(8, 64, above.len(), left.len(), out.len()) {
        return Refusal::WrongLength.number();
    }
    answer(out, &chroma(mode, above, left, p), 0)
}

fn chroma(mode: u8, above: &[u8], left: &[u8], p: u8) -> Result<[u8; 64], Refusal>
    ensures { told 0 64 result ≡ chroma_drawn mode above.now left.now p }
{
    let mode = IntraUvMode::try_from(mode)?;
    Ok(intra_predict::predict_uv8x8(
        mode,
        slices::array(above, 0),
        above.len() == 8,
        slices::array(left, 0),
        left.len() == 8,
        p,
    ))
}

// A 4x4 luma sub-block: eight pixels above, four on the left, 16 pixels out.
pub fn zopredil_predict_b4x4(mode: u8, above: &[u8], left: &[u8], p: u8, out: &mut [u8]) -> u32
    ensures { (result beside out.new) ≡ sub_block_answer mode above.now left.now p out.old }
{
    if above.len() != 8 {
        return Refusal::WrongLength.number();
    }
    if left.len() != 4 {
        return Refusal::WrongLength.number();
    }
    if out.len() != 16 {
        return Refusal::WrongLength.number();
    }
    answer(out, &sub_block(mode, above, left, p), 0)
}

fn sub_block(mode: u8, above: &[u8], left: &[u8], p: u8) -> Result<[u8; 16], Refusal>
    requires { (length above.now ≡ 8) × (length left.now ≡ 4) }
    ensures { told 0 16 result ≡ sub_block_drawn mode above.now left.now p }
{
    let mode = IntraBmode::try_from(mode)?;
    Ok(intra_predict::predict_b4x4(mode, slices::array(above, 0), slices::array(left, 0), p))
}
