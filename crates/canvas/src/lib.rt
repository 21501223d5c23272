// One macroblock drawn at its place in the planes of its picture.
#![tactic(auto)]

ghost use Rattle.std.specs.Prelude.{◌≡◌, ◌+◌, ◌*◌, ◌≤◌, length, get_or};
ghost use Rattle.lists.specs.Lists.{turns, store};
ghost use Rattle.picture_limits.specs.Place.{Placed};
ghost use Rattle.canvas.specs.Placed.{placed};
ghost use Rattle.canvas.specs.Into.{told, told_into};

use macroblock::Refusal;
use reconstruct::ReconstructedMb;

// n pixels of the block from `from` on, put from `at` on.
fn place_row(plane: &mut [u8], at: usize, block: &[u8], from: usize, n: usize)
    requires { (at + n ≤ length plane.old) × (from + n ≤ length block.now) }
    ensures { plane.new ≡ turns n (store (λ x. at + x) (λ x. get_or block.now (from + x) 0)) plane.old }
{
    slices::copy(&mut plane[at..at + n], &block[from..from + n]);
}

// A block of n rows of n pixels in its place.
fn place(plane: &mut [u8], n: usize, cols: usize, col: usize, row: usize, block: &[u8])
    requires { Placed n plane.old cols col row × (length block.now ≡ n * n) }
    ensures { plane.new ≡ placed n cols col row block.now plane.old }
{
    let stride = n * cols;
    // Kept: row i of the block and row i of the plane, two strides in one loop; no plainer.
    for i in 0..n {
        place_row(
            plane,
            n * row * stride + i * stride + n * col,
            block,
            n * i,
            n,
        );
    }
}

// A macroblock's three blocks.
fn put(
    drawn: ReconstructedMb,
    cols: usize,
    col: usize,
    row: usize,
    y: &mut [u8],
    u: &mut [u8],
    v: &mut [u8],
)
    requires { Placed 16 y.old cols col row × Placed 8 u.old cols col row × Placed 8 v.old cols col row }
    ensures { (y.new ≡ placed 16 cols col row drawn.y y.old)
        × (u.new ≡ placed 8 cols col row drawn.u u.old)
        × (v.new ≡ placed 8 cols col row drawn.v v.old) }
{
    place(y, 16, cols, col, row, &drawn.y);
    place(u, 8, cols, col, row, &drawn.u);
    place(v, 8, cols, col, row, &drawn.v);
}

// The macroblock in column `col` and row `row` of a picture of `cols` by `rows` macroblocks, from its three mode bytes, its
// sixteen sub-block bytes and its 400 coefficients; `right` is read in the last column below the first row alone. Refused, and
// nothing written: what gathering refuses (7, then 1), then what drawing refuses (1, then 8). Answered is how many sums were
// below 0 or above 255.
pub fn draw_macroblock(
    cols: usize,
    rows: usize,
    col: usize,
    row: usize,
    luma: u8,
    chroma: u8,
    skip: u8,
    sub_modes: [u8; 16],
    right: [u8; 4],
    coeffs: &[i16],
    y: &mut [u8],
    u: &mut [u8],
    v: &mut [u8],
) -> Result<u32, Refusal>
    ensures { told result y.new u.new v.new
        ≡ told_into cols rows col row luma chroma skip sub_modes right coeffs.now y.old u.old v.old }
{
    let neighbors = gathering::gather(y, u, v, cols, rows, col, row, right)?;
    let drawn = drawing::draw(luma, chroma, skip, sub_modes, true, neighbors, coeffs)?;
    put(drawn, cols, col, row, y, u, v);
    Ok(drawn.clipped)
}
