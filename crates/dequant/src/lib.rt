// RFC 6386, 14.1: a macroblock's 400 coefficients dequantised where they stand, with the six factors as the answer.
//
//     block     0 | 1 .. 16 | 17 .. 20 | 21 .. 24         25 blocks of 16 coefficients
//     plane    Y2 | Y       | U        | V
//     factors  y2 | y1      | uv       | uv               the first of a block by DC, the other fifteen by AC
#![tactic(auto)]

ghost use Rattle.std.specs.Prelude.{◌≡◌, ◌+◌, ◌*◌, ◌≤◌, length};
ghost use Rattle.mb_factors.specs.Factors.{of_factors, told};
ghost use Rattle.dequant.specs.Answers.{mb_dequantised, dequantise_answer};
ghost use Rattle.dequant.specs.Turns.{block_scaled, blocks_scaled};

use macroblock::Refusal;
pub use mb_factors::MbDequantFactors;

// The factors of a base index and five deltas, and the coefficients by them. Refused first is a sum outside signed 32 bits
// (5), then a slice that is not 400 (1); then the slice stays as found.
pub fn dequantise(
    yac_qi: i32,
    ydc: i32,
    y2dc: i32,
    y2ac: i32,
    uvdc: i32,
    uvac: i32,
    coeffs: &mut [i16],
) -> Result<MbDequantFactors, Refusal>
    ensures { (told result, coeffs.new) ≡ dequantise_answer yac_qi ydc y2dc y2ac uvdc uvac coeffs.old }
{
    let f = MbDequantFactors::from_base_and_deltas(yac_qi, ydc, y2dc, y2ac, uvdc, uvac)?;
    if coeffs.len() != 400 {
        return Err(Refusal::WrongLength);
    }
    scale_all(coeffs, f);
    Ok(f)
}

// All 25 blocks.
fn scale_all(coeffs: &mut [i16], f: MbDequantFactors)
    requires { length coeffs.old ≡ 400 }
    ensures { coeffs.new ≡ mb_dequantised (of_factors f) coeffs.old }
{
    scale_blocks(coeffs, 0, 1, f.y2_dc, f.y2_ac);
    scale_blocks(coeffs, 1, 16, f.y1_dc, f.y1_ac);
    scale_blocks(coeffs, 17, 8, f.uv_dc, f.uv_ac);
}

// The `count` blocks from block `first` on.
fn scale_blocks(coeffs: &mut [i16], first: usize, count: usize, dc: i16, ac: i16)
    requires { (first + count) * 16 ≤ length coeffs.old }
    ensures { coeffs.new ≡ blocks_scaled dc ac first count coeffs.old }
{
    // Kept: no contract says what was written through `chunks_exact_mut`.
    for k in 0..count {
        scale_block(coeffs, first + k, dc, ac);
    }
}

// Block k: its first coefficient by the DC factor, the other fifteen by the AC factor.
fn scale_block(coeffs: &mut [i16], k: usize, dc: i16, ac: i16)
    requires { k * 16 + 16 ≤ length coeffs.old }
    ensures { coeffs.new ≡ block_scaled dc ac k coeffs.old }
{
    let at = k * 16;
    coeffs[at] = quantiser::dequant(coeffs[at], dc);
    // Kept: no plainer. As one part its proof is twice as long, and `later-turn` and `block-done`, which docs/PORT.md names, are of these turns.
    for i in 0..15 {
        coeffs[at + (1 + i)] = quantiser::dequant(coeffs[at + (1 + i)], ac);
    }
}
