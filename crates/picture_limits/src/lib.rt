// The limits of a picture: its size, the place of a macroblock in it, and the lengths of its planes.
#![tactic(auto)]

ghost use Rattle.std.specs.Prelude.{◌≡◌};
ghost use Rattle.rfc6386.specs.Picture.{place_ok, size_ok, luma_ok, sizes_ok};

// A size of at most 1,024 macroblocks a side, and a place inside it.
// Kept: four numbers, here and in the crates above, and three planes: C hands them over so and the definitions take them so, no plainer by a struct.
#[tactic(auto, unfolding(rfc6386::specs::Picture::place_ok))]
pub fn place_ok(cols: usize, rows: usize, col: usize, row: usize) -> bool
    ensures { result ≡ place_ok cols rows col row }
{
    cols <= 1024 && rows <= 1024 && col < cols && row < rows
}

// Each side 1 to 1,024 macroblocks.
pub fn size_ok(cols: usize, rows: usize) -> bool
    ensures { result ≡ size_ok cols rows }
{
    place_ok(cols, rows, 0, 0)
}

// Whether a luma plane of y bytes has exactly 256 bytes a macroblock. Exact for sides of any size: a product that passes the end
// of a machine word is none.
pub fn luma_ok(y: usize, cols: usize, rows: usize) -> bool
    ensures { result ≡ luma_ok y cols rows }
{
    y % 256 == 0 && cols.checked_mul(rows) == Some(y / 256)
}

// Whether planes of y, u and v bytes have exactly 256, 64 and 64 bytes a macroblock.
pub fn sizes_ok(y: usize, u: usize, v: usize, cols: usize, rows: usize) -> bool
    ensures { result ≡ sizes_ok y u v cols rows }
{
    let n = y / 256;
    luma_ok(y, cols, rows) && u == 64 * n && v == 64 * n
}
