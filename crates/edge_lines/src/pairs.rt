// An edge of U and V together: U in lanes 0 to 7, V in lanes 8 to 15.
ghost use Rattle.std.specs.Prelude.{◌≡◌, ◌+◌, ◌-◌, ◌*◌, ◌≤◌};
ghost use Rattle.rfc6386.specs.LoopFilter.{edge};
ghost use Rattle.edge_lines.specs.Lines.{Fits, rows_put, zeros};

use crate::copy::copy_rows;
use crate::edge::lines_edge;
use crate::turn::{flat, tall};
use macroblock::filter::{Kind, Limits};

// Eight rows of eight of U, then of V, from byte `from` on and `step` apart.
fn pair(u: &[u8], v: &[u8], at: usize, stride: usize, from: usize, step: usize) -> [u8; 128]
    requires { (Fits 8 8 at stride u.now) × (Fits 8 8 at stride v.now) × (from + 7 * step + 8 ≤ 128) }
    ensures { result ≡ rows_put 8 8 from step at stride v.now (rows_put 8 8 0 step at stride u.now (zeros 128)) }
{
    let mut e = [0u8; 128];
    copy_rows::<8>(&mut e, 0, step, u, at, stride, 8);
    copy_rows::<8>(&mut e, from, step, v, at, stride, 8);
    e
}

pub(crate) fn upright_pair(
    u: &mut [u8],
    v: &mut [u8],
    at: usize,
    stride: usize,
    kind: Kind,
    l: Limits,
)
    // Kept: a stride of 8 or more, in three contracts: a type of one number would be opened at once, no plainer.
    requires { (4 ≤ at) × (8 ≤ stride) × (Fits 8 8 (at - 4) stride u.old) × (Fits 8 8 (at - 4) stride v.old) }
    ensures { (u.new ≡ edge kind l 8 at 1 stride u.old) × (v.new ≡ edge kind l 8 at 1 stride v.old) }
{
    let mut b = flat(pair(u, v, at - 4, stride, 64, 8));
    lines_edge(&mut b, 64, kind, l);
    let o = tall(b);
    copy_rows::<8>(u, at - 4, stride, &o, 0, 8, 8);
    copy_rows::<8>(v, at - 4, stride, &o, 64, 8, 8);
}

pub(crate) fn level_pair(
    u: &mut [u8],
    v: &mut [u8],
    at: usize,
    stride: usize,
    kind: Kind,
    l: Limits,
)
    requires { (4 * stride ≤ at) × (8 ≤ stride) × (Fits 8 8 (at - 4 * stride) stride u.old) × (Fits 8 8 (at - 4 * stride) stride v.old) }
    ensures { (u.new ≡ edge kind l 8 at stride 1 u.old) × (v.new ≡ edge kind l 8 at stride 1 v.old) }
{
    let mut b = pair(u, v, at - 4 * stride, stride, 8, 16);
    lines_edge(&mut b, 64, kind, l);
    copy_rows::<8>(u, at - 4 * stride, stride, &b, 0, 16, 8);
    copy_rows::<8>(v, at - 4 * stride, stride, &b, 8, 16, 8);
}
