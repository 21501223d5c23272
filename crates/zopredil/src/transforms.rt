// Dequantising, the transforms and the residue sum of RFC 6386, section 14. Reply 1, and nothing written, for a slice of
// another length than it must have.
ghost use Rattle.std.specs.Prelude.{◌≡◌, pos};
ghost use Rattle.lists.specs.Lists.{◌beside◌};
ghost use Rattle.quantiser.specs.Factors.{y1_factors};
ghost use Rattle.dequant.specs.Answers.{dequantise_answer};
ghost use Rattle.residue.specs.Answer.{added_reply, added_into};
ghost use Rattle.zopredil.specs.Told.{told};
ghost use Rattle.zopredil.specs.Transforms.{factor_pair, six_made, counted, factors_answer, dequant_answer, six_answer, wht_answer, wht_dc_answer, dct_answer, add_into_answer, residue_answer};

use crate::answers::{answer, number};
use macroblock::{Refusal, reply};
use quantiser::Y1DequantFactors;

// The luma factors of a quantiser index and its delta: dc, ac. Refused: an index sum outside 32 bits (reply 5; both 0).
pub fn zopredil_y1_factors(yac_qi: i32, ydc_delta: i32, out: &mut [i16]) -> u32
    ensures { (result beside out.new) ≡ factors_answer yac_qi ydc_delta out.old }
{
    if out.len() != 2 {
        return Refusal::WrongLength.number();
    }
    answer(out, &factors(yac_qi, ydc_delta), 0)
}

fn factors(yac_qi: i32, ydc_delta: i32) -> Result<[i16; 2], Refusal>
    ensures { told (pos 0) 2 result ≡ factor_pair (y1_factors yac_qi ydc_delta) }
{
    let f = Y1DequantFactors::from_indices(yac_qi, ydc_delta)?;
    Ok([f.dc, f.ac])
}

// A block of sixteen, dequantised where it stands.
pub fn zopredil_dequant_block(coeffs: &mut [i16], dc: i16, ac: i16) -> u32
    ensures { (result beside coeffs.new) ≡ dequant_answer coeffs.old dc ac }
{
    if coeffs.len() != 16 {
        return Refusal::WrongLength.number();
    }
    let block = slices::array(coeffs, 0);
    slices::put(coeffs, &quantiser::dequant_block(block, dc, ac));
    reply::DONE
}

// The six factors of a base index and five deltas, and a macroblock's 400 coefficients dequantised by them where they stand. The
// factors are y1_dc, y1_ac, y2_dc, y2_ac, uv_dc, uv_ac. Refused first: factors of another length than 6 (1, nothing
// written); then as `dequant::dequantise` refuses (5, 1), with all six factors 0.
pub fn zopredil_dequantise(
    yac_qi: i32,
    ydc: i32,
    y2dc: i32,
    y2ac: i32,
    uvdc: i32,
    uvac: i32,
    coeffs: &mut [i16],
    factors: &mut [i16],
) -> u32
    ensures { (result beside coeffs.new beside factors.new)
        ≡ six_answer yac_qi ydc y2dc y2ac uvdc uvac coeffs.old factors.old }
{
    if factors.len() != 6 {
        return Refusal::WrongLength.number();
    }
    let made = dequantised(yac_qi, ydc, y2dc, y2ac, uvdc, uvac, coeffs);
    answer(factors, &made, 0)
}

fn dequantised(
    yac_qi: i32,
    ydc: i32,
    y2dc: i32,
    y2ac: i32,
    uvdc: i32,
    uvac: i32,
    coeffs: &mut [i16],
) -> Result<[i16; 6], Refusal>
    ensures { (told (pos 0) 6 result beside coeffs.new)
        ≡ six_made (dequantise_answer yac_qi ydc y2dc y2ac uvdc uvac coeffs.old) }
{
    let f = dequant::dequantise(yac_qi, ydc, y2dc, y2ac, uvdc, uvac, coeffs)?;
    Ok([f.y1_dc, f.y1_ac, f.y2_dc, f.y2_ac, f.uv_dc, f.uv_ac])
}

// The inverse WHT of sixteen.
pub fn zopredil_inverse_wht(input: &[i16], out: &mut [i16]) -> u32
    ensures { (result beside out.new) ≡ wht_answer input.now out.old }
{
    if input.len() != 16 {
        return Refusal::WrongLength.number();
    }
    if out.len() != 16 {
        return Refusal::WrongLength.number();
    }
    slices::put(out, &wht::inverse_wht_4x4(slices::array(input, 0)));
    reply::DONE
}

// The inverse WHT of a DC alone.
pub fn zopredil_inverse_wht_dc_only(dc: i16, out: &mut [i16]) -> u32
    ensures { (result beside out.new) ≡ wht_dc_answer dc out.old }
{
    if out.len() != 16 {
        return Refusal::WrongLength.number();
    }
    slices::put(out, &wht::inverse_wht_4x4_dc_only(dc));
    reply::DONE
}

// The inverse DCT of sixteen.
pub fn zopredil_inverse_dct(input: &[i16], out: &mut [i16]) -> u32
    ensures { (result beside out.new) ≡ dct_answer input.now out.old }
{
    if input.len() != 16 {
        return Refusal::WrongLength.number();
    }
    if out.len() != 16 {
        return Refusal::WrongLength.number();
    }
    slices::put(out, &dct::inverse_dct_4x4(slices::array(input, 0)));
    reply::DONE
}

// The inverse DCT of sixteen, added to block (sub_row, sub_col) of a plane. Refused: a block that does not lie in the plane
// (reply 2). Into clipped, a slice of 1: how many of the sixteen sums were below 0 or above 255; 0 for a refused block.
pub fn zopredil_inverse_dct_add_into(
    input: &[i16],
    plane: &mut [u8],
    stride: usize,
    sub_row: usize,
    sub_col: usize,
    clipped: &mut [u64],
) -> u32
    ensures { (result beside plane.new beside clipped.new)
        ≡ add_into_answer input.now plane.old stride sub_row sub_col clipped.old }
{
    if input.len() != 16 {
        return Refusal::WrongLength.number();
    }
    if clipped.len() != 1 {
        return Refusal::WrongLength.number();
    }
    let count = added(slices::array(input, 0), plane, stride, sub_row, sub_col);
    answer(clipped, &count, 0)
}

fn added(
    input: [i16; 16],
    plane: &mut [u8],
    stride: usize,
    sub_row: usize,
    sub_col: usize,
) -> Result<[u64; 1], Refusal>
    ensures { (told 0 1 result ≡ counted (added_reply input stride sub_row sub_col plane.old))
        × (plane.new ≡ added_into input stride sub_row sub_col plane.old) }
{
    let count = residue::inverse_dct_4x4_add_into(input, plane, stride, sub_row, sub_col)?;
    Ok([u64::from(count)])
}

// Prediction plus residue, held within 0 and 255; the three lengths are equal.
pub fn zopredil_add_residue(prediction: &[u8], residue: &[i16], out: &mut [u8]) -> u32
    ensures { (result beside out.new) ≡ residue_answer prediction.now residue.now out.old }
{
    number(residue::add_residue(prediction, residue, out))
}
