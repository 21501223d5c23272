// The direction of an edge. Across an upright edge a pixel's neighbour is the next byte, along it a row away; at a level edge it is the other way round.
ghost use Rattle.std.specs.Prelude.{◌≡◌, ltb};
ghost use Rattle.edge_lines.specs.Sides.{across, beyond};

#[derive(Clone, Copy, Debug, PartialEq, Eq)]
pub enum Direction {
    Upright,
    Level,
}

impl Direction {
    // From a pixel to the next across the edge.
    pub(crate) fn across(self, stride: usize) -> usize
        ensures { result ≡ across self stride }
    {
        match self {
            Direction::Upright => 1,
            Direction::Level => stride,
        }
    }

    // Whether the picture goes on beyond the own edge of the macroblock in row r and column c.
    pub(crate) fn is_beyond(self, r: usize, c: usize) -> bool
        ensures { result ≡ beyond self r c }
    {
        match self {
            Direction::Upright => 0 < c,
            Direction::Level => 0 < r,
        }
    }
}
