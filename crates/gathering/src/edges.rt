// The edges of a macroblock that lies in its plane, over the side n: 16 pixels in Y, 8 in U and V. A row of the plane has
// n cols pixels. The bytes of an absent edge are 0.
ghost use Rattle.std.specs.Prelude.{◌≡◌, ◌+◌, ◌*◌, ◌-◌, ◌≤◌, ◌<◌, length, get_or};
ghost use Rattle.lists.specs.Lists.{table};
ghost use Rattle.rfc6386.specs.Picture.{row_above, left_of};
ghost use Rattle.picture_limits.specs.Place.{Placed};
ghost use Rattle.gathering.specs.Steps.{pixel_in};

use macroblock::MbNeighbors;
use row_part::row_part;
use std::array;

// Pixel x of a row of the picture, counted from the border on: the border's, the row's own, those right of it.
#[tactic(auto, unfolding(crate::specs::Steps::pixel_in))]
fn pixel_of(row: &[u8], right: &[u8; 4], x: usize) -> u8
    requires { x ≤ length row.now + 4 }
    ensures { result ≡ pixel_in row.now right.now x }
{
    if x == 0 {
        MbNeighbors::LEFT
    } else if x <= row.len() {
        row[x - 1]
    } else {
        right[x - row.len() - 1]
    }
}

// M pixels of a row of the picture, from its pixel x on.
fn border_row<const M: usize>(row: &[u8], right: &[u8; 4], x: usize) -> [u8; M]
    requires { (x + M ≤ length row.now + 5) × (length row.now ≤ 1048576) }
    ensures { result ≡ table M (λ i. pixel_in row.now right.now (x + i)) }
{
    array::from_fn(|i| pixel_of(row, right, x + i))
}

// Kept: the place goes beside its plane; a struct of both would be made anew for each of the three planes, and no clause gets shorter.
// The row above, M pixels of it: row n row - 1 from the pixel before column n col on. Inside the picture it is one part of the
// plane.
pub(crate) fn row_above<const M: usize>(
    plane: &[u8],
    n: usize,
    cols: usize,
    col: usize,
    row: usize,
    right: &[u8; 4],
) -> [u8; M]
    requires { Placed n plane.now cols col row × (1 ≤ M) × (M ≤ n + 5) × (n * cols ≤ 1048576) }
    ensures { result ≡ row_above n M plane.now cols col row right.now }
{
    if row == 0 {
        return [0; M];
    }
    let stride = n * cols;
    let x = n * col;
    if 0 < col && x - 1 + M <= stride {
        return slices::array(row_part(plane, stride, n * row - 1, x - 1, M), 0);
    }
    let pixels = row_part(plane, stride, n * row - 1, 0, stride);
    border_row(pixels, right, x)
}

// The N pixels of column N col - 1, from row N row on.
pub(crate) fn left_column<const N: usize>(
    plane: &[u8],
    cols: usize,
    col: usize,
    row: usize,
) -> [u8; N]
    requires { Placed N plane.now cols col row }
    ensures { result ≡ left_of N plane.now cols col row }
{
    if col == 0 {
        return [0; N];
    }
    let stride = N * cols;
    column(plane, N * row * stride + (N * col - 1), stride)
}

// The N pixels from `at` down, a stride apart.
fn column<const N: usize>(plane: &[u8], at: usize, stride: usize) -> [u8; N]
    requires { (1 ≤ stride) × (at + N * stride < length plane.now + stride) }
    ensures { result ≡ table N (λ i. get_or plane.now (at + i * stride) 0) }
{
    array::from_fn(|i| plane[at + i * stride])
}
