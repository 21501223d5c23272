// DC: the rounded mean of the pixels of the edges that are there.
ghost use Rattle.std.specs.Prelude.{◌≡◌, ◌+◌, ◌*◌, ◌/◌, ◌<◌, ◌≤◌, length};
ghost use Rattle.rfc6386.specs.Edges.{sum_of, dc_pixel, dc_block};

use crate::DEFAULT_TOPLEFT_DC;

// The sum of an edge, which is at most 255 for each pixel.
fn edge_sum(edge: &[u8]) -> u32
    requires { length edge.now ≤ 1024 }
    ensures { (result ≡ sum_of edge.now) × (result ≤ 255 * length edge.now) }
{
    edge.iter().map(|&pixel| u32::from(pixel)).sum()
}

// A sum of count pixels, divided by count and rounded.
fn mean(sum: u32, count: u32) -> u8
    requires { (0 < count) × (count ≤ 2048) × (sum ≤ 255 * count) }
    ensures { result ≡ (sum + count / 2) / count }
{
    ((sum + count / 2) / count) as u8
}

// Kept: pixels beside marks, as in lib.rt.
fn dc_pixel<const N: usize>(
    above: [u8; N],
    above_there: bool,
    left: [u8; N],
    left_there: bool,
) -> u8
    requires { (0 < N) × (N ≤ 1024) }
    ensures { result ≡ dc_pixel N above.entry above_there left.entry left_there }
{
    let n = N as u32;
    match (above_there, left_there) {
        (true, true) => mean(edge_sum(&above) + edge_sum(&left), 2 * n),
        (true, false) => mean(edge_sum(&above), n),
        (false, true) => mean(edge_sum(&left), n),
        (false, false) => DEFAULT_TOPLEFT_DC,
    }
}

// The block of N by N pixels. M is N * N.
// Kept: pixels beside marks, as in lib.rt.
pub(crate) fn dc_block<const N: usize, const M: usize>(
    above: [u8; N],
    above_there: bool,
    left: [u8; N],
    left_there: bool,
) -> [u8; M]
    requires { (0 < N) × (N ≤ 1024) × (M ≡ N * N) }
    ensures { result ≡ dc_block N above.entry above_there left.entry left_there }
{
    [dc_pixel(above, above_there, left, left_there); M]
}
