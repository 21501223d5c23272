// Chroma. The residues of a plane's four blocks come side by side: a row of 16 of them is a row of 8 pixels in the upper half
// of the plane and a row of 8 in the lower.
//
//        residues          plane
//        0 0 1 1 2 2 3 3   0 0 1 1
//        0 0 1 1 2 2 3 3   0 0 1 1
//                          2 2 3 3
//                          2 2 3 3
ghost use Rattle.std.specs.Prelude.{◌≡◌, ◌<◌};
ghost use Rattle.lists.specs.Lists.{turns, total};
ghost use Rattle.planes.specs.Steps.{residues_at, row_added, row_clipped};
ghost use Rattle.planes.specs.Planes.{chroma_of, uv_drawn};

use crate::run::{add_run, run_clipped};
use macroblock::{ChromaEdges, IntraUvMode, MbNeighbors};

// Where the residues of row r begin.
fn residues_at(r: usize) -> usize
    requires { r < 8 }
    ensures { result ≡ residues_at r }
{
    16 * (r % 4) + 8 * (r / 4)
}

fn add_blocks(px: &mut [u8; 64], o: &[i16; 64])
    ensures { px.new ≡ turns 8 (row_added o.now) px.old }
{
    // Kept: no plainer: r is the row, whose pixels and residues lie at two places.
    for r in 0..8 {
        add_run(px, r * 8, o, residues_at(r), 8);
    }
}

fn clipped(px: &[u8; 64], o: &[i16; 64]) -> u32
    ensures { result ≡ total 8 (row_clipped px.now o.now) }
{
    (0..8)
        .map(
            |r: usize| -> u32
                requires { r < 8 }
                ensures { result ≡ row_clipped px.entry.now o.entry.now r }
            { run_clipped(px, r * 8, o, residues_at(r), 8) },
        )
        .sum()
}

fn plane(prediction: [u8; 64], skip: bool, coeffs: &[i16], base: usize) -> ([u8; 64], u32)
    ensures { result ≡ chroma_of prediction skip coeffs.now base }
{
    if skip {
        return (prediction, 0);
    }
    let o = blocks::residues(coeffs, base);
    let n = clipped(&prediction, &o);
    let mut px = prediction;
    add_blocks(&mut px, &o);
    (px, n)
}

// U or V, from its four blocks of coefficients from `base` on. Beside it, how many sums were below 0 or above 255.
pub fn uv_plane(
    mode: IntraUvMode,
    skip: bool,
    edges: ChromaEdges,
    coeffs: &[i16],
    base: usize,
) -> ([u8; 64], u32)
    ensures { result ≡ uv_drawn mode skip edges coeffs.now base }
{
    let p = intra_edges::pixel_or(MbNeighbors::ABOVE, edges.row[0], edges.topleft_there);
    let prediction = intra_predict::predict_uv8x8(
        mode,
        edges.above(),
        edges.above_there,
        edges.left,
        edges.left_there,
        p,
    );
    plane(prediction, skip, coeffs, base)
}
