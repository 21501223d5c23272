// An upright edge of sixteen rows: eight columns as eight lines.
ghost use Rattle.std.specs.Prelude.{◌≡◌, ◌-◌, ◌≤◌};
ghost use Rattle.rfc6386.specs.LoopFilter.{edge};
ghost use Rattle.edge_lines.specs.Lines.{Fits, rows_put, zeros};

use crate::copy::copy_rows;
use crate::edge::lines_edge;
use crate::turn::{flat, tall};
use macroblock::filter::{Kind, Limits};

// Sixteen rows of eight.
#[tactic(auto, unfolding(crate::specs::Lines::zeros))]
fn eights(y: &[u8], at: usize, stride: usize) -> [u8; 128]
    requires { Fits 8 16 at stride y.now }
    ensures { result ≡ rows_put 8 16 0 8 at stride y.now (zeros 128) }
{
    let mut e = [0u8; 128];
    copy_rows::<8>(&mut e, 0, 8, y, at, stride, 16);
    e
}

pub(crate) fn upright_edge(y: &mut [u8], at: usize, stride: usize, kind: Kind, l: Limits)
    requires { (4 ≤ at) × (8 ≤ stride) × (Fits 8 16 (at - 4) stride y.old) }
    ensures { y.new ≡ edge kind l 16 at 1 stride y.old }
{
    let mut b = flat(eights(y, at - 4, stride));
    lines_edge(&mut b, 64, kind, l);
    let o = tall(b);
    copy_rows::<8>(y, at - 4, stride, &o, 0, 8, 16);
}
