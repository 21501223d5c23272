// What a sub-block reads of the work buffer. `at` is where the sub-block's first pixel stands:
//
//        at - 22 | at - 21 .. at - 18 | at - 17 .. at - 14      top-left, above, above-right
//        at -  1 | at      .. at +  3
//        at + 20 | at + 21 .. at + 24
//        at + 41 | at + 42 .. at + 45
//        at + 62 | at + 63 .. at + 66
ghost use Rattle.std.specs.Prelude.{◌≡◌};
ghost use Rattle.rfc6386.specs.Walk.{above_in, left_in, top_left_in};
ghost use Rattle.rfc6386.specs.Subblock.{predict_b};

use crate::corner::Corner;
use macroblock::{IntraBmode, MbNeighbors};
use work_buffer::LENGTH;

fn above_in(b: &[u8; LENGTH], corner: Corner) -> [u8; 8]
    ensures { result ≡ above_in b.now corner.at }
{
    let row = corner.at - MbNeighbors::STRIDE;
    std::array::from_fn(|c| b[row + c])
}

fn left_in(b: &[u8; LENGTH], corner: Corner) -> [u8; 4]
    ensures { result ≡ left_in b.now corner.at }
{
    let column = corner.at - 1;
    std::array::from_fn(|r| b[column + MbNeighbors::STRIDE * r])
}

fn top_left_in(b: &[u8; LENGTH], corner: Corner) -> u8
    ensures { result ≡ top_left_in b.now corner.at }
{
    b[corner.at - MbNeighbors::STRIDE - 1]
}

// The prediction of the sub-block at the corner from the buffer as it stands.
pub(crate) fn predict(px: &mut [u8; 16], b: &[u8; LENGTH], corner: Corner, mode: IntraBmode)
    ensures { px.new ≡ predict_b mode (above_in b.now corner.at) (left_in b.now corner.at) (top_left_in b.now corner.at) }
{
    let above = above_in(b, corner);
    let left = left_in(b, corner);
    intra_predict::predict_b4x4_into(px, mode, above, left, top_left_in(b, corner));
}
