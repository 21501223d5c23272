// The work buffer as the neighbours leave it: 17 rows of 21.
//
//        row  0   P a a a a a a a a a a a a a a a a R R R R      P top-left, a above, R above-right
//        row  1   l . . . . . . . . . . . . . . . . - - - -      l left, . the macroblock
//             ..
//        row  4   l . . . . . . . . . . . . . . . . R R R R      above-right again, for the sub-blocks of the
//             ..                                                 right column in rows 1, 2 and 3
//        row  8   l . . . . . . . . . . . . . . . . R R R R
//             ..
//        row 12   l . . . . . . . . . . . . . . . . R R R R
//             ..
//        row 16   l . . . . . . . . . . . . . . . . - - - -      - is never read
ghost use Rattle.std.specs.Prelude.{◌≡◌, ◌+◌, ◌*◌, ◌<◌, ◌≤◌, length};
ghost use Rattle.lists.specs.Lists.{part};
ghost use Rattle.rfc6386.specs.Walk.{laid, copied_down, bordered, row_or, start_of};
ghost use Rattle.work_buffer.specs.Steps.{first_row};

use intra_edges::{edge_or, pixel_or};
use macroblock::{LumaEdges, MbNeighbors};

pub const LENGTH: usize = 17 * MbNeighbors::STRIDE;

// The first n pixels of s, stored from `at` on, `step` apart.
fn lay(b: &mut [u8; LENGTH], at: usize, step: usize, s: &[u8], n: usize)
    requires { (n ≤ length s.now) × (0 < step) × (at + n * step ≤ 357) }
    ensures { b.new ≡ laid n at step s.now b.old }
{
    // Kept: no plainer, since one loop with a step lays the row, the left column and what is copied down.
    for i in 0..n {
        b[at + i * step] = s[i];
    }
}

// Four rows on, and where above-right stands in row 4.
const FOUR_ROWS: usize = 4 * MbNeighbors::STRIDE;

const BELOW: usize = 17 + FOUR_ROWS;

// Above-right again, in rows 4, 8 and 12.
fn copy_down(b: &mut [u8; LENGTH], right: &[u8; 4])
    ensures { b.new ≡ copied_down right.now b.old }
{
    // Kept: no plainer: i is the row of four, and indexes nothing here.
    for i in 0..3 {
        lay(b, BELOW + FOUR_ROWS * i, 1, right, 4);
    }
}

// Row 0: the record's row, with 127 in the place of each part that is absent: the first pixel, the next sixteen, the last four.
fn first_row(
    given: [u8; MbNeighbors::STRIDE],
    // Kept: the marks of the neighbour record, as it has them.
    topleft_there: bool,
    above_there: bool,
    above_right_there: bool,
) -> [u8; MbNeighbors::STRIDE]
    ensures { result ≡ first_row given topleft_there above_there above_right_there }
{
    std::array::from_fn(|i| {
        let there = if i < 1 {
            topleft_there
        } else if i < 17 {
            above_there
        } else {
            above_right_there
        };
        pixel_or(MbNeighbors::ABOVE, given[i], there)
    })
}

// The last four of row 0.
fn right_of(row: [u8; MbNeighbors::STRIDE]) -> [u8; 4]
    ensures { result ≡ part 4 row 17 }
{
    [row[17], row[18], row[19], row[20]]
}

fn bordered(row: [u8; MbNeighbors::STRIDE], left: [u8; 16]) -> [u8; LENGTH]
    ensures { result ≡ bordered row left }
{
    let mut b = [0; LENGTH];
    lay(&mut b, 0, 1, &row, MbNeighbors::STRIDE);
    lay(&mut b, MbNeighbors::STRIDE, MbNeighbors::STRIDE, &left, 16);
    let right = right_of(row);
    copy_down(&mut b, &right);
    b
}

// The border pixels in their places; what stands for an absent one is 127 in the row above, 129 to the left.
pub fn start(edges: LumaEdges) -> [u8; LENGTH]
    ensures { result ≡ start_of edges }
{
    let row = first_row(
        edges.row,
        edges.topleft_there,
        edges.above_there,
        edges.above_right_there,
    );
    bordered(
        row,
        edge_or(MbNeighbors::LEFT, edges.left, edges.left_there),
    )
}
