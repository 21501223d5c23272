// The neighbour record of a macroblock that lies in each of the three planes: the edges of each plane, and the marks which of
// their parts are there.
ghost use Rattle.std.specs.Prelude.{◌≡◌, ◌≤◌};
ghost use Rattle.rfc6386.specs.Picture.{luma_beside, chroma_beside, neighbors_of};
ghost use Rattle.picture_limits.specs.Place.{Placed};

use crate::edges::{left_column, row_above};
use macroblock::{ChromaEdges, LumaEdges, MbNeighbors};

pub(crate) fn beside(
    y: &[u8],
    u: &[u8],
    v: &[u8],
    cols: usize,
    col: usize,
    row: usize,
    right: [u8; 4],
) -> MbNeighbors
    // Kept: `Placed` and the width, here and below, are of a lent plane; a type would hold it, and its clauses read `self.entry`: no plainer.
    requires { Placed 16 y.now cols col row × Placed 8 u.now cols col row × Placed 8 v.now cols col row × (cols ≤ 1024) }
    ensures { result ≡ neighbors_of y.now u.now v.now cols col row right }
{
    MbNeighbors {
        y: luma_edges(y, cols, col, row, right),
        u: chroma_edges(u, cols, col, row),
        v: chroma_edges(v, cols, col, row),
    }
}

fn luma_edges(plane: &[u8], cols: usize, col: usize, row: usize, right: [u8; 4]) -> LumaEdges
    requires { Placed 16 plane.now cols col row × (cols ≤ 1024) }
    ensures { result ≡ luma_beside plane.now cols col row right }
{
    let there = 0 < row;
    LumaEdges {
        row: row_above(plane, 16, cols, col, row, &right),
        topleft_there: there,
        above_there: there,
        above_right_there: there,
        left: left_column(plane, cols, col, row),
        left_there: 0 < col,
    }
}

// Nothing of a chroma row lies right of the picture.
fn chroma_edges(plane: &[u8], cols: usize, col: usize, row: usize) -> ChromaEdges
    requires { Placed 8 plane.now cols col row × (cols ≤ 1024) }
    ensures { result ≡ chroma_beside plane.now cols col row }
{
    let below = 0 < row;
    ChromaEdges {
        row: row_above(plane, 8, cols, col, row, &[0; 4]),
        topleft_there: below,
        above_there: below,
        left: left_column(plane, cols, col, row),
        left_there: 0 < col,
    }
}
