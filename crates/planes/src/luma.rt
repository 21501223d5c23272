// Luma in the four 16x16 modes. The residues of a block row, four blocks side by side, are 64 pixels in a row of the plane.
ghost use Rattle.std.specs.Prelude.{◌≡◌, ◌<◌, length, take};
ghost use Rattle.rfc6386.specs.Wht.{iwht};
ghost use Rattle.rfc6386.specs.Dct.{idct_four};
ghost use Rattle.rfc6386.specs.Walk.{y_prediction};
ghost use Rattle.planes.specs.Steps.{seeded_four, group_added, group_clipped};
ghost use Rattle.planes.specs.Planes.{luma_coded, y_drawn};

use crate::run::{add_run, run_clipped};
use macroblock::{IntraYMode, LumaEdges, MbNeighbors};

// By the mode. Mode B predicts its sub-blocks one by one: zero pixels stand for its 16x16 prediction.
fn predicted(mode: IntraYMode, edges: LumaEdges) -> [u8; 256]
    ensures { result ≡ y_prediction mode edges }
{
    let p = intra_edges::pixel_or(MbNeighbors::ABOVE, edges.row[0], edges.topleft_there);
    intra_predict::predict_y16x16(
        mode,
        edges.above(),
        edges.above_there,
        edges.left,
        edges.left_there,
        p,
    )
    .unwrap_or([0; 256])
}

// The sixteen DCs: the inverse WHT of the Y2 block.
fn seeds(coeffs: &[i16]) -> [i16; 16]
    ensures { result ≡ iwht (take 16 coeffs.now) }
{
    wht::inverse_wht_4x4(blocks::first(coeffs))
}

// The four blocks of block row i, each with its DC in the place of its own first coefficient.
fn seeded_four(coeffs: &[i16], dcs: [i16; 16], i: usize) -> [i16; 64]
    // Kept: a block row below 4 is a counter's range, and a type for it would be opened at once: no plainer.
    requires { i < 4 }
    ensures { result ≡ seeded_four coeffs.now dcs i }
{
    let mut s = blocks::four(coeffs, 16 + 64 * i);
    // Kept: no contract says what was written through `chunks_exact_mut`.
    for j in 0..4 {
        s[16 * j] = dcs[4 * i + j];
    }
    s
}

// The residues of block row i.
fn residues_of(coeffs: &[i16], dcs: [i16; 16], i: usize) -> [i16; 64]
    requires { i < 4 }
    ensures { result ≡ idct_four (seeded_four coeffs.now dcs i) }
{
    dct::inverse_dct_four(seeded_four(coeffs, dcs, i))
}

fn coded(prediction: [u8; 256], coeffs: &[i16]) -> ([u8; 256], u32)
    requires { length prediction ≡ 256 }
    ensures { result ≡ luma_coded prediction coeffs.now }
{
    let dcs = seeds(coeffs);
    let mut px = prediction;
    let mut n = 0u32;
    // Kept: no plainer: i is the block row, whose coefficients and pixels lie at two places.
    for i in 0..4 {
        let o = residues_of(coeffs, dcs, i);
        n += run_clipped(&prediction, i * 64, &o, 0, 64);
        add_run(&mut px, i * 64, &o, 0, 64);
    }
    (px, n)
}

// The luma of a macroblock in a 16x16 mode, from 400 coefficients: the Y2 block, then the sixteen Y blocks. Beside it, how
// many sums were below 0 or above 255.
pub fn y_whole(mode: IntraYMode, skip: bool, edges: LumaEdges, coeffs: &[i16]) -> ([u8; 256], u32)
    ensures { result ≡ y_drawn mode skip edges coeffs.now }
{
    let px = predicted(mode, edges);
    if skip {
        return (px, 0);
    }
    coded(px, coeffs)
}
