// The four pixels above right of the last column of a macroblock row, which gathering takes from its caller: they lie
// outside the picture, and every decoder reads there four copies of the last pixel of the row above, at the width of whole
// macroblocks and before the loop filter.
//
//        row 16 row - 1   ..  x  x  p | p  p  p  p
//        ---------------------------- +
//        the last macroblock of `row` |
#![tactic(auto)]

ghost use Rattle.std.specs.Prelude.{◌≡◌, ◌≤◌};
ghost use Rattle.picture_limits.specs.Place.{Placed};
ghost use Rattle.right_pixels.specs.Answers.{row_ok, last_above, told, right_pixels};

use macroblock::Refusal;
use picture_limits::{luma_ok, place_ok};

// The four pixels for macroblock row `row` of a picture of `cols` by `rows` macroblocks, from its luma plane, in which the
// rows above are finished. Refused: a size or a row outside its limits, the first row too (7), then a plane of the wrong
// length (1).
pub fn right_pixels(y: &[u8], cols: usize, rows: usize, row: usize) -> Result<[u8; 4], Refusal>
    ensures { told result ≡ right_pixels y.now cols rows row }
{
    if !row_ok(cols, rows, row) {
        return Err(Refusal::OutsidePicture);
    }
    if !luma_ok(y.len(), cols, rows) {
        return Err(Refusal::WrongLength);
    }
    Ok([last_above(y, cols, row); 4])
}

// A size of at most 1,024 macroblocks a side, and a row inside it that has one above.
#[tactic(auto, unfolding(crate::specs::Answers::row_ok))]
fn row_ok(cols: usize, rows: usize, row: usize) -> bool
    ensures { result ≡ row_ok cols rows row }
{
    row != 0 && place_ok(cols, rows, 0, row)
}

// The last pixel of row 16 row - 1.
#[tactic(auto, unfolding(crate::specs::Answers::last_above))]
fn last_above(plane: &[u8], cols: usize, row: usize) -> u8
    requires { Placed 16 plane.now cols 0 row × (1 ≤ row) }
    ensures { result ≡ last_above plane.now cols row }
{
    let stride = 16 * cols;
    plane[(16 * row - 1) * stride + (stride - 1)]
}
