// The neighbour record of a macroblock, by value: for each plane one row above and one left column, and marks which parts of
// them are there.
//
//        row     P | a a a a .. a | R R R R        P top-left, a above, R above-right (luma alone)
//                --+--------------+--------
//        left    l |              |
//                l |  macroblock  |
//                ..
ghost use Rattle.std.specs.Prelude.{◌≡◌, ◌+◌, ◌≤◌, length};
ghost use Rattle.lists.specs.Lists.{part};
ghost use Rattle.macroblock.specs.Neighbors.{no_luma, no_chroma, absent};

// The edges of luma: the row is the top-left pixel, the sixteen above and the four above right.
// Kept: pixels beside marks, here and in U and V, are the project's form for an edge, ten of the 81 bytes to C, and the subject of `Absent.antt`.
#[derive(Clone, Copy)]
pub struct LumaEdges {
    pub row: [u8; 21],
    pub topleft_there: bool,
    pub above_there: bool,
    pub above_right_there: bool,
    pub left: [u8; 16],
    pub left_there: bool,
}

// The edges of U or V: the row is the top-left pixel and the eight above.
#[derive(Clone, Copy)]
pub struct ChromaEdges {
    pub row: [u8; 9],
    pub topleft_there: bool,
    pub above_there: bool,
    pub left: [u8; 8],
    pub left_there: bool,
}

#[derive(Clone, Copy)]
pub struct MbNeighbors {
    pub y: LumaEdges,
    pub u: ChromaEdges,
    pub v: ChromaEdges,
}

// N pixels of a row, after its first.
fn after_first<const N: usize>(row: &[u8]) -> [u8; N]
    requires { 1 + N ≤ length row.now }
    ensures { result ≡ part N row.now 1 }
{
    let mut pixels = [0; N];
    pixels.copy_from_slice(&row[1..1 + N]);
    pixels
}

impl LumaEdges {
    // Every part absent, its bytes 0.
    pub fn absent() -> Self
        ensures { result ≡ no_luma }
    {
        Self {
            row: [0; 21],
            topleft_there: false,
            above_there: false,
            above_right_there: false,
            left: [0; 16],
            left_there: false,
        }
    }

    // Kept: `above` of luma and of chroma are one call each of `after_first`, on two types.
    // The sixteen pixels above.
    pub fn above(self) -> [u8; 16]
        ensures { result ≡ part 16 self.row 1 }
    {
        after_first(&self.row)
    }
}

impl ChromaEdges {
    // Every part absent, its bytes 0.
    pub fn absent() -> Self
        ensures { result ≡ no_chroma }
    {
        Self {
            row: [0; 9],
            topleft_there: false,
            above_there: false,
            left: [0; 8],
            left_there: false,
        }
    }

    // The eight pixels above.
    pub fn above(self) -> [u8; 8]
        ensures { result ≡ part 8 self.row 1 }
    {
        after_first(&self.row)
    }
}

impl MbNeighbors {
    // What stands for a pixel of an absent part of a row above.
    pub const ABOVE: u8 = 127;

    // What stands for a pixel of an absent left column.
    pub const LEFT: u8 = 129;

    // A row of luma: top-left, 16 above, 4 above-right. The B walker's work buffer has 17 of them.
    pub const STRIDE: usize = 21;

    // Every part of every edge absent, its bytes 0.
    pub fn absent() -> Self
        ensures { result ≡ absent }
    {
        Self {
            y: LumaEdges::absent(),
            u: ChromaEdges::absent(),
            v: ChromaEdges::absent(),
        }
    }
}
