// The sixteen sub-blocks in raster order. The residues of a block row are made first, four blocks side by side.
ghost use Rattle.std.specs.Prelude.{◌≡◌, ◌+◌, ◌*◌, ◌<◌, false};
ghost use Rattle.lists.specs.Lists.{turns};
ghost use Rattle.rfc6386.specs.Walk.{walked};
ghost use Rattle.clipping.specs.Clipped.{walked_clipped};
ghost use Rattle.blocks.specs.Taken.{residues_from};
ghost use Rattle.sub_blocks.specs.Steps.{prediction_at, coded_block, coded_at, clipped_with, row_clipped, skipped_block, skipped_at};
ghost use Rattle.sub_blocks.specs.Parts.{parts_drawn};

use crate::corner::Corner;
use crate::put::{clipped, put_block, sum_block};
use crate::window::predict;
use macroblock::{IntraBmode, LumaEdges};
use work_buffer::LENGTH;

// Sub-block j of block row i, its residue added. It answers how many sums were outside 0 and 255.
fn coded_block(b: &mut [u8; LENGTH], mode: IntraBmode, o: &[i16; 64], i: usize, j: usize) -> u32
    // Kept: rows and columns below 4 are counters' ranges, here and in `put`; types for them would be opened at once: no plainer.
    requires { (i < 4) × (j < 4) }
    ensures { (b.new ≡ coded_block mode o.now i j b.old)
        × (result ≡ clipped_with o.now j (prediction_at mode (4 * i + j) b.old)) }
{
    let corner = Corner::of(4 * i + j);
    let mut px = [0u8; 16];
    predict(&mut px, b, corner, mode);
    sum_block(b, corner, &px, o, j);
    clipped(&px, o, j)
}

fn coded_row(b: &mut [u8; LENGTH], modes: [IntraBmode; 16], o: &[i16; 64], i: usize) -> u32
    requires { i < 4 }
    ensures { (b.new ≡ turns 4 (coded_at modes o.now i) b.old)
        × (result ≡ row_clipped modes o.now i b.old) }
{
    let mut n = 0u32;
    // Kept: no plainer: j is the sub-block of row i, whose mode and residues lie at two places.
    for j in 0..4 {
        n += coded_block(b, modes[4 * i + j], o, i, j);
    }
    n
}

// The residues of block row i.
fn residues_of(coeffs: &[i16], i: usize) -> [i16; 64]
    requires { i < 4 }
    ensures { result ≡ residues_from coeffs.now (64 * i) }
{
    blocks::residues(coeffs, 64 * i)
}

fn walk_coded(b: &mut [u8; LENGTH], modes: [IntraBmode; 16], coeffs: &[i16]) -> u32
    ensures { (b.new ≡ walked 16 modes false coeffs.now b.old)
        × (result ≡ walked_clipped 16 modes false coeffs.now b.old) }
{
    let mut n = 0u32;
    // Kept: no plainer: i is the block row, and indexes nothing here.
    for i in 0..4 {
        let o = residues_of(coeffs, i);
        n += coded_row(b, modes, &o, i);
    }
    n
}

// Sub-block k, its prediction alone.
fn skipped_block(b: &mut [u8; LENGTH], mode: IntraBmode, k: usize)
    requires { k < 16 }
    ensures { b.new ≡ skipped_block mode k b.old }
{
    let corner = Corner::of(k);
    let mut px = [0u8; 16];
    predict(&mut px, b, corner, mode);
    put_block(b, corner, &px);
}

fn walk_skipped(b: &mut [u8; LENGTH], modes: [IntraBmode; 16])
    ensures { b.new ≡ turns 16 (skipped_at modes) b.old }
{
    for (k, mode) in modes.iter().enumerate() {
        skipped_block(b, *mode, k);
    }
}

fn walk(b: &mut [u8; LENGTH], modes: [IntraBmode; 16], skip: bool, coeffs: &[i16]) -> u32
    ensures { (b.new ≡ walked 16 modes skip coeffs.now b.old)
        × (result ≡ walked_clipped 16 modes skip coeffs.now b.old) }
{
    if skip {
        walk_skipped(b, modes);
        return 0;
    }
    walk_coded(b, modes, coeffs)
}

// The luma of a macroblock in mode B, from its neighbours, its sub-block modes and its coefficients, and how many sums were
// below 0 or above 255.
pub fn luma_parts(
    modes: [IntraBmode; 16],
    skip: bool,
    edges: LumaEdges,
    coeffs: &[i16],
) -> ([u8; 256], u32)
    ensures { result ≡ parts_drawn modes skip edges coeffs.now }
{
    let mut b = work_buffer::start(edges);
    let clipped = walk(&mut b, modes, skip, coeffs);
    (work_buffer::luma_of(&b), clipped)
}
