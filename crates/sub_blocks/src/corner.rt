// Where the first pixel of a sub-block stands in the work buffer.
ghost use Rattle.std.specs.Prelude.{◌≡◌, ◌<◌, ◌≤◌};
ghost use Rattle.rfc6386.specs.Walk.{corner_of};

use macroblock::MbNeighbors;

#[derive(Clone, Copy)]
pub(crate) struct Corner {
    pub(crate) at: usize,
    // The pixels above and to the left of the sub-block lie in the buffer, and so do its own.
    ghost inside: { (22 ≤ at) × (at ≤ 286) },
}

impl Corner {
    // Of sub-block k.
    pub(crate) fn of(k: usize) -> Corner
        requires { k < 16 }
        ensures { result.at ≡ corner_of k }
    {
        Corner {
            at: MbNeighbors::STRIDE + 1 + 4 * MbNeighbors::STRIDE * (k / 4) + 4 * (k % 4),
        }
    }
}
