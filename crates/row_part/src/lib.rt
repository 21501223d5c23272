// A row's part of a plane, handed back as a part of the lent plane itself.
#![tactic(auto)]

ghost use Rattle.std.specs.Prelude.{◌≡◌, length};
ghost use Rattle.rfc6386.specs.Picture.{given, row_part};
ghost use Rattle.row_part.specs.Start.{part_start};

// The `count` pixels from row `row` and column `col` on, a part of the lent plane itself; where the row or the plane
// does not have them, an empty part at the plane's start. The promise says both: the bytes, and where they lie.
pub fn row_part(plane: &[u8], stride: usize, row: usize, col: usize, count: usize) -> &[u8]
    ensures { (result.now ≡ row_part plane.now stride row col count)
        × (result.ref_ptr ≡ part_start (length plane.now) stride row col count plane.entry.ref_ptr) }
{
    if part_given(plane.len(), stride, row, col, count) {
        let at = row * stride + col;
        return &plane[at..at + count];
    }
    &plane[0..0]
}

// Whether a plane of `size` bytes has the part. Exact in whole numbers without bound: where a sum or a product passes the end
// of a machine word the plane does not have it.
#[tactic(auto, unfolding(rfc6386::specs::Picture::given))]
fn part_given(size: usize, stride: usize, row: usize, col: usize, count: usize) -> bool
    ensures { result ≡ given size stride row col count }
{
    count >= 1
        && col.checked_add(count).is_some_and(|end| end <= stride)
        && row
            .checked_mul(stride)
            .and_then(|at| at.checked_add(col))
            .and_then(|at| at.checked_add(count))
            .is_some_and(|end| end <= size)
}
