// TM: left + above - P, held within 0 and 255, in 16 bits and without a negative number. The H block holds the left pixel
// of each place and the V block the one above it, so that one flat pass over the two draws the block.
ghost use Rattle.std.specs.Prelude.{◌≡◌, ◌*◌, ◌<◌, get_or};
ghost use Rattle.rfc6386.specs.Edges.{tm, tm_block};

use crate::block::{h_block, v_block};

fn clamp_tm(l: u8, a: u8, p: u8) -> u8
    ensures { result ≡ tm l a p }
{
    let level = (u16::from(l) + u16::from(a)).saturating_sub(u16::from(p));
    level.min(255) as u8
}

// The block of N by N pixels. M is N * N.
// Kept: pixels beside marks, as in lib.rt.
pub(crate) fn tm_block<const N: usize, const M: usize>(
    above: [u8; N],
    above_there: bool,
    left: [u8; N],
    left_there: bool,
    p: u8,
) -> [u8; M]
    requires { M ≡ N * N }
    ensures { result ≡ tm_block N above.entry above_there left.entry left_there p }
{
    let across: [u8; M] = h_block(left, left_there);
    let down: [u8; M] = v_block(above, above_there);
    std::array::from_fn(
        |k| -> u8
            requires { k < M }
            ensures { result ≡ tm (get_or across k 0) (get_or down k 0) p }
        { clamp_tm(across[k], down[k], p) },
    )
}
