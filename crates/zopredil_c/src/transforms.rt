// Dequantising, the transforms and the residue sum of RFC 6386, section 14. Reply 1, and nothing written, for a slice of
// another length than it must have.
ghost use Rattle.std.specs.Prelude.{◌≡◌};
ghost use Rattle.lists.specs.Lists.{◌beside◌};
ghost use Rattle.zopredil.specs.Transforms.{factors_answer, dequant_answer, six_answer, wht_answer, wht_dc_answer, dct_answer, add_into_answer, residue_answer};

#[unsafe(no_mangle)]
pub extern "C" fn zopredil_y1_factors(yac_qi: i32, ydc_delta: i32, out: &mut [i16]) -> u32
    ensures { (result beside out.new) ≡ factors_answer yac_qi ydc_delta out.old }
{
    zopredil::transforms::zopredil_y1_factors(yac_qi, ydc_delta, out)
}

#[unsafe(no_mangle)]
pub extern "C" fn zopredil_dequant_block(coeffs: &mut [i16], dc: i16, ac: i16) -> u32
    ensures { (result beside coeffs.new) ≡ dequant_answer coeffs.old dc ac }
{
    zopredil::transforms::zopredil_dequant_block(coeffs, dc, ac)
}

#[unsafe(no_mangle)]
pub extern "C" fn zopredil_dequantise(
    yac_qi: i32,
    ydc: i32,
    y2dc: i32,
    y2ac: i32,
    uvdc: i32,
    uvac: i32,
    coeffs: &mut [i16],
    factors: &mut [i16],
) -> u32
    ensures { (result beside coeffs.new beside factors.new)
        ≡ six_answer yac_qi ydc y2dc y2ac uvdc uvac coeffs.old factors.old }
{
    zopredil::transforms::zopredil_dequantise(yac_qi, ydc, y2dc, y2ac, uvdc, uvac, coeffs, factors)
}

#[unsafe(no_mangle)]
pub extern "C" fn zopredil_inverse_wht(input: &[i16], out: &mut [i16]) -> u32
    ensures { (result beside out.new) ≡ wht_answer input.now out.old }
{
    zopredil::transforms::zopredil_inverse_wht(input, out)
}

#[unsafe(no_mangle)]
pub extern "C" fn zopredil_inverse_wht_dc_only(dc: i16, out: &mut [i16]) -> u32
    ensures { (result beside out.new) ≡ wht_dc_answer dc out.old }
{
    zopredil::transforms::zopredil_inverse_wht_dc_only(dc, out)
}

#[unsafe(no_mangle)]
pub extern "C" fn zopredil_inverse_dct(input: &[i16], out: &mut [i16]) -> u32
    ensures { (result beside out.new) ≡ dct_answer input.now out.old }
{
    zopredil::transforms::zopredil_inverse_dct(input, out)
}

#[unsafe(no_mangle)]
pub extern "C" fn zopredil_inverse_dct_add_into(
    input: &[i16],
    plane: &mut [u8],
    stride: usize,
    sub_row: usize,
    sub_col: usize,
    clipped: &mut [u64],
) -> u32
    ensures { (result beside plane.new beside clipped.new)
        ≡ add_into_answer input.now plane.old stride sub_row sub_col clipped.old }
{
    zopredil::transforms::zopredil_inverse_dct_add_into(
        input, plane, stride, sub_row, sub_col, clipped,
    )
}

#[unsafe(no_mangle)]
pub extern "C" fn zopredil_add_residue(prediction: &[u8], residue: &[i16], out: &mut [u8]) -> u32
    ensures { (result beside out.new) ≡ residue_answer prediction.now residue.now out.old }
{
    zopredil::transforms::zopredil_add_residue(prediction, residue, out)
}
