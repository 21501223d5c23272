// A macroblock's edges filtered on lines of sixteen bytes, which LLVM makes vectors of. An upright edge's columns are turned into lines and back:
//
//        16 rows of 8              8 lines of 16
//        p3 p2 p1 p0 q0 q1 q2 q3   p3 p3 p3 ..  a line for each place across the edge,
//        p3 p2 p1 p0 q0 q1 q2 q3   p2 p2 p2 ..  a lane for each row
//        ..                        ..
//
// A level edge's rows are lines as they stand. U and V go together, eight lanes each.
#![tactic(auto)]

mod chroma;
mod copy;
mod direction;
mod edge;
mod level;
mod luma;
mod pairs;
mod turn;
mod upright;

ghost use Rattle.std.specs.Prelude.{◌≡◌, ◌≤◌, ◌<◌};
ghost use Rattle.rfc6386.specs.LoopFilter.{corner};
ghost use Rattle.edge_lines.specs.Sides.{seated, side_at, side_pair};

pub use direction::Direction;
use macroblock::filter::Rule;

// Whether macroblock c of row r, of n pixels a side, lies in a plane of `size` bytes with `cols` macroblocks a row.
#[tactic(auto, unfolding(crate::specs::Sides::seated))]
fn seated(n: usize, size: usize, cols: usize, r: usize, c: usize) -> bool
    requires { n ≤ 16 }
    ensures { result ≡ seated n size cols r c }
{
    cols <= 1024 && r < 1024 && c < cols && (r + 1) * n * (n * cols) <= size
}

// Where it begins.
fn corner(n: usize, cols: usize, r: usize, c: usize) -> usize
    requires { (n ≤ 16) × (cols ≤ 1024) × (r < 1024) × (c < cols) }
    ensures { result ≡ corner n cols r c }
{
    r * n * (n * cols) + c * n
}

// The edges of macroblock c of row r in Y in one direction. A macroblock that does not lie in the plane is left alone, here and below.
pub fn filter_luma(
    y: &mut [u8],
    direction: Direction,
    cols: usize,
    r: usize,
    c: usize,
    inner: bool,
    rule: Rule,
)
    ensures { y.new ≡ side_at direction rule 16 cols r c inner y.old }
{
    if !seated(16, y.len(), cols, r, c) {
        return;
    }
    let stride = 16 * cols;
    let at = corner(16, cols, r, c);
    luma::side(
        y,
        direction,
        at,
        stride,
        direction.is_beyond(r, c),
        inner,
        rule,
    );
}

// The same in U and V.
pub fn filter_chroma(
    u: &mut [u8],
    v: &mut [u8],
    direction: Direction,
    cols: usize,
    r: usize,
    c: usize,
    inner: bool,
    rule: Rule,
)
    ensures { (u.new, v.new) ≡ side_pair direction rule cols r c inner u.old v.old }
{
    if !seated(8, u.len(), cols, r, c) {
        return;
    }
    if !seated(8, v.len(), cols, r, c) {
        return;
    }
    let stride = 8 * cols;
    let at = corner(8, cols, r, c);
    chroma::side(
        u,
        v,
        direction,
        at,
        stride,
        direction.is_beyond(r, c),
        inner,
        rule,
    );
}
