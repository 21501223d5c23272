// A level edge of sixteen columns: eight rows are eight lines already.
ghost use Rattle.std.specs.Prelude.{◌≡◌, ◌-◌, ◌*◌, ◌≤◌};
ghost use Rattle.rfc6386.specs.LoopFilter.{edge};
ghost use Rattle.edge_lines.specs.Lines.{Fits, rows_put, zeros};

use crate::copy::copy_rows;
use crate::edge::lines_edge;
use macroblock::filter::{Kind, Limits};

// Eight rows of sixteen.
#[tactic(auto, unfolding(crate::specs::Lines::zeros))]
// Kept: as `eights` of upright.rt with the two sides exchanged; as one function it would want its height computed from its width.
fn rows(y: &[u8], at: usize, stride: usize) -> [u8; 128]
    requires { Fits 16 8 at stride y.now }
    ensures { result ≡ rows_put 16 8 0 16 at stride y.now (zeros 128) }
{
    let mut b = [0u8; 128];
    copy_rows::<16>(&mut b, 0, 16, y, at, stride, 8);
    b
}

pub(crate) fn level_edge(y: &mut [u8], at: usize, stride: usize, kind: Kind, l: Limits)
    requires { (4 * stride ≤ at) × (16 ≤ stride) × (Fits 16 8 (at - 4 * stride) stride y.old) }
    ensures { y.new ≡ edge kind l 16 at stride 1 y.old }
{
    let mut b = rows(y, at - 4 * stride, stride);
    lines_edge(&mut b, 64, kind, l);
    copy_rows::<16>(y, at - 4 * stride, stride, &b, 0, 16, 8);
}
