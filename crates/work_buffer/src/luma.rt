// The 256 pixels of the macroblock, sixteen rows of sixteen.
ghost use Rattle.std.specs.Prelude.{◌≡◌, ◌+◌, ◌*◌, ◌<◌, get_or};
ghost use Rattle.lists.specs.Lists.{turns, store};
ghost use Rattle.rfc6386.specs.Walk.{luma_of};

use crate::border::LENGTH;
use macroblock::MbNeighbors;

// The macroblock's pixels, row by row.
pub fn luma_of(b: &[u8; LENGTH]) -> [u8; 256]
    ensures { result ≡ luma_of b.now }
{
    let mut out = [0u8; 256];
    // Kept: of what is written through chunks_exact_mut a proof knows the length alone.
    for r in 0..16 {
        let at = MbNeighbors::STRIDE + 1 + MbNeighbors::STRIDE * r;
        out[r * 16..r * 16 + 16].copy_from_slice(&b[at..at + 16]);
    }
    out
}
