// RFC 6386, 12.2 and 12.3: the neighbours of a macroblock, gathered from the finished planes of its picture. A size outside
// its limits or a place outside the picture is refused first (7), then a plane of the wrong length (1).
//
//        top-left | the row above       | above-right
//        ---------+---------------------+------------
//        the left | the macroblock      |
//        column   |                     |
//
// In Y the row above is row 16 row - 1 of the plane and the left column is column 16 col - 1; in U and V 8 stands for 16.
// An edge outside the picture is absent and its bytes are 0; any other is the finished pixels beside the macroblock. But
// below the first row two edges outside are there: the top-left pixel of the first column is 129, in each plane, and the
// four above right of the last column are those that the caller gives.
#![tactic(auto)]

ghost use Rattle.std.specs.Prelude.{◌≡◌};
ghost use Rattle.gathering.specs.Answers.{gathered, told};

use crate::record::beside;
use macroblock::{MbNeighbors, Refusal};
use picture_limits::{place_ok, sizes_ok};

mod edges;
mod record;

// The neighbours of the macroblock in column `col` and row `row` of a picture of `cols` by `rows` macroblocks. `right` is
// read in the last column below the first row alone.
pub fn gather(
    y: &[u8],
    u: &[u8],
    v: &[u8],
    cols: usize,
    rows: usize,
    col: usize,
    row: usize,
    right: [u8; 4],
) -> Result<MbNeighbors, Refusal>
    ensures { told result ≡ gathered y.now u.now v.now cols rows col row right }
{
    if !place_ok(cols, rows, col, row) {
        return Err(Refusal::OutsidePicture);
    }
    if !sizes_ok(y.len(), u.len(), v.len(), cols, rows) {
        return Err(Refusal::WrongLength);
    }
    Ok(beside(y, u, v, cols, col, row, right))
}
