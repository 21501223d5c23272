// RFC 6386, 12.2: prediction of a whole block from the pixels above it and to its left, as intra_predict.rs has it: 16x16
// luma, 8x8 chroma, and the two rules of 12.3 that are the same at 4x4. An edge is its pixels beside a mark whether it is
// there; the pixels of an absent edge are read nowhere.
//
//        P | above (n)
//        --+----------
//      left|
//      (n) |  n x n
//
// The work is done once for every n, in `block`, `dc` and `tm`.
#![tactic(auto)]

mod block;
mod dc;
mod tm;

ghost use Rattle.std.specs.Prelude.{◌≡◌, true};
ghost use Rattle.rfc6386.specs.Edges.{pixel_or, edge_or, dc_block, v_block, h_block, tm_block};

use macroblock::MbNeighbors;

// What stands for each pixel of an absent row above: 127.
pub const DEFAULT_ABOVE_PIXEL: u8 = MbNeighbors::ABOVE;

// What stands for each pixel of an absent left column: 129.
pub const DEFAULT_LEFT_PIXEL: u8 = MbNeighbors::LEFT;

// DC's pixel where both edges are absent. It stands for no absent pixel: an absent top-left is 127.
pub const DEFAULT_TOPLEFT_DC: u8 = 128;

// Kept: pixels beside a mark, from here to the end and in dc.rt and tm.rt, are the project's form for an edge, and what the definitions of `Edges` take.
// One pixel, or `other` where it is absent.
pub fn pixel_or(other: u8, pixel: u8, there: bool) -> u8
    ensures { result ≡ pixel_or other pixel there }
{
    if there { pixel } else { other }
}

// The pixels of an edge, or `other` for each where it is absent.
pub fn edge_or<const N: usize>(other: u8, pixels: [u8; N], there: bool) -> [u8; N]
    ensures { result ≡ edge_or N other pixels.entry there }
{
    if there { pixels } else { [other; N] }
}

// Kept: the families of 16, 8 and 4 have the names of intra_predict.rs, one call each.
// ---- 16x16 luma

// The mean of the edges that are there.
pub fn predict_y16x16_dc(
    above: [u8; 16],
    above_there: bool,
    left: [u8; 16],
    left_there: bool,
) -> [u8; 256]
    ensures { result ≡ dc_block 16 above above_there left left_there }
{
    dc::dc_block(above, above_there, left, left_there)
}

// Each row is the row above.
pub fn predict_y16x16_v(above: [u8; 16], above_there: bool) -> [u8; 256]
    ensures { result ≡ v_block 16 above above_there }
{
    block::v_block::<16, 256>(above, above_there)
}

// Each column is the left column.
pub fn predict_y16x16_h(left: [u8; 16], left_there: bool) -> [u8; 256]
    ensures { result ≡ h_block 16 left left_there }
{
    block::h_block::<16, 256>(left, left_there)
}

// Left + above - P, held within 0 and 255.
pub fn predict_y16x16_tm(
    above: [u8; 16],
    above_there: bool,
    left: [u8; 16],
    left_there: bool,
    p: u8,
) -> [u8; 256]
    ensures { result ≡ tm_block 16 above above_there left left_there p }
{
    tm::tm_block(above, above_there, left, left_there, p)
}

// ---- 8x8 chroma: the same

pub fn predict_uv8x8_dc(
    above: [u8; 8],
    above_there: bool,
    left: [u8; 8],
    left_there: bool,
) -> [u8; 64]
    ensures { result ≡ dc_block 8 above above_there left left_there }
{
    dc::dc_block(above, above_there, left, left_there)
}

pub fn predict_uv8x8_v(above: [u8; 8], above_there: bool) -> [u8; 64]
    ensures { result ≡ v_block 8 above above_there }
{
    block::v_block::<8, 64>(above, above_there)
}

pub fn predict_uv8x8_h(left: [u8; 8], left_there: bool) -> [u8; 64]
    ensures { result ≡ h_block 8 left left_there }
{
    block::h_block::<8, 64>(left, left_there)
}

pub fn predict_uv8x8_tm(
    above: [u8; 8],
    above_there: bool,
    left: [u8; 8],
    left_there: bool,
    p: u8,
) -> [u8; 64]
    ensures { result ≡ tm_block 8 above above_there left left_there p }
{
    tm::tm_block(above, above_there, left, left_there, p)
}

// ---- 4x4: DC and TM of a sub-block, whose edges are always there

pub fn predict_b4x4_dc(above: [u8; 4], left: [u8; 4]) -> [u8; 16]
    ensures { result ≡ dc_block 4 above true left true }
{
    dc::dc_block(above, true, left, true)
}

pub fn predict_b4x4_tm(above: [u8; 4], left: [u8; 4], p: u8) -> [u8; 16]
    ensures { result ≡ tm_block 4 above true left true p }
{
    tm::tm_block(above, true, left, true, p)
}
