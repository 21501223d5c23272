// The predictors of RFC 6386, section 12, by a mode's number. Reply 1, and nothing written, for a slice of another length than
// it must have; 8, and zeros written, for a number that is no mode's.
ghost use Rattle.std.specs.Prelude.{◌≡◌};
ghost use Rattle.lists.specs.Lists.{◌beside◌};
ghost use Rattle.zopredil.specs.Predictions.{luma_answer, chroma_answer, sub_block_answer};

#[unsafe(no_mangle)]
pub extern "C" fn zopredil_predict_y16x16(
    mode: u8,
    above: &[u8],
    left: &[u8],
    p: u8,
    out: &mut [u8],
) -> u32
    ensures { (result beside out.new) ≡ luma_answer mode above.now left.now p out.old }
{
    zopredil::predictions::zopredil_predict_y16x16(mode, above, left, p, out)
}

#[unsafe(no_mangle)]
pub extern "C" fn zopredil_predict_uv8x8(
    mode: u8,
    above: &[u8],
    left: &[u8],
    p: u8,
    out: &mut [u8],
) -> u32
    ensures { (result beside out.new) ≡ chroma_answer mode above.now left.now p out.old }
{
    zopredil::predictions::zopredil_predict_uv8x8(mode, above, left, p, out)
}

#[unsafe(no_mangle)]
pub extern "C" fn zopredil_predict_b4x4(
    mode: u8,
    above: &[u8],
    left: &[u8],
    p: u8,
    out: &mut [u8],
) -> u32
    ensures { (result beside out.new) ≡ sub_block_answer mode above.now left.now p out.old }
{
    zopredil::predictions::zopredil_predict_b4x4(mode, above, left, p, out)
}
