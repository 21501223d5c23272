// What a sub-block writes into the work buffer: four rows of four from its corner on, the prediction as it is or with the residues
// of one of four blocks added, which come side by side.
ghost use Rattle.std.specs.Prelude.{◌≡◌, ◌+◌, ◌*◌, ◌/◌, ◌%◌, ◌<◌, get_or, pos};
ghost use Rattle.clipping.specs.Clipped.{over};
ghost use Rattle.rfc6386.specs.Walk.{put_block};
ghost use Rattle.sub_blocks.specs.Steps.{put_row, sum_row, summed_with, clipped_with};

use crate::corner::Corner;
use macroblock::MbNeighbors;
use work_buffer::LENGTH;

fn put_row(b: &mut [u8; LENGTH], corner: Corner, px: &[u8; 16], r: usize)
    requires { r < 4 }
    ensures { b.new ≡ put_row corner.at px.now r b.old }
{
    // Kept: slower where the rows are put by copy_from_slice, 4,241 instructions a skipped macroblock of mode B for 3,967.
    for c in 0..4 {
        b[corner.at + MbNeighbors::STRIDE * r + c] = px[4 * r + c];
    }
}

// Sixteen pixels.
pub(crate) fn put_block(b: &mut [u8; LENGTH], corner: Corner, px: &[u8; 16])
    ensures { b.new ≡ put_block corner.at px.now b.old }
{
    // Kept: no plainer: r is the row, and indexes nothing here.
    for r in 0..4 {
        put_row(b, corner, px, r);
    }
}

fn sum_row(b: &mut [u8; LENGTH], corner: Corner, px: &[u8; 16], o: &[i16; 64], j: usize, r: usize)
    requires { (j < 4) × (r < 4) }
    ensures { b.new ≡ sum_row corner.at px.now o.now j r b.old }
{
    // Kept: slower where the sums are made first and then put, 14,041 instructions a macroblock of mode B for 13,066.
    for c in 0..4 {
        b[corner.at + MbNeighbors::STRIDE * r + c] = residue::sum(
            px[4 * r + c],
            o[16 * r + 4 * j + c],
        );
    }
}

// Sixteen pixels with the residues of block j of the four added.
pub(crate) fn sum_block(
    b: &mut [u8; LENGTH],
    corner: Corner,
    px: &[u8; 16],
    o: &[i16; 64],
    j: usize,
)
    requires { j < 4 }
    ensures { b.new ≡ put_block corner.at (summed_with o.now j px.now) b.old }
{
    // Kept: no plainer, as in `put_block`.
    for r in 0..4 {
        sum_row(b, corner, px, o, j, r);
    }
}

// How many of those sums are outside 0 and 255.
pub(crate) fn clipped(px: &[u8; 16], o: &[i16; 64], j: usize) -> u32
    requires { j < 4 }
    ensures { result ≡ clipped_with o.now j px.now }
{
    px.iter()
        .enumerate()
        .map(
            |(i, p)| -> u32
                requires { (i < 16) × (j < 4) }
                ensures { result ≡ over p.entry.now (get_or o.entry.now (16 * (i / 4) + 4 * j + i % 4) (pos 0)) }
            { clipping::over(*p, o[16 * (i / 4) + 4 * j + i % 4]) },
        )
        .sum()
}
