// Blocks of n by n pixels, row after row, that repeat an edge.
ghost use Rattle.std.specs.Prelude.{◌≡◌, ◌*◌, length};
ghost use Rattle.lists.specs.Lists.{rows};
ghost use Rattle.rfc6386.specs.Edges.{v_pixel, h_pixel, v_block, h_block};

use crate::{DEFAULT_ABOVE_PIXEL, DEFAULT_LEFT_PIXEL, edge_or};

// Each row is the edge.
fn down(out: &mut [u8], edge: &[u8])
    requires { length out.old ≡ length edge.now * length edge.now }
    ensures { out.new ≡ rows (length edge.now) (length edge.now) (v_pixel edge.now) }
{
    let n = edge.len();
    // Kept: of what is written through chunks_exact_mut a proof knows the length alone.
    for r in 0..n {
        let at = r * n;
        out[at..at + n].copy_from_slice(edge);
    }
}

// Each column is the edge.
fn across(out: &mut [u8], edge: &[u8])
    requires { length out.old ≡ length edge.now * length edge.now }
    ensures { out.new ≡ rows (length edge.now) (length edge.now) (h_pixel edge.now) }
{
    let n = edge.len();
    // Kept: of what is written through chunks_exact_mut a proof knows the length alone.
    for r in 0..n {
        let at = r * n;
        out[at..at + n].fill(edge[r]);
    }
}

// V: the row above, or what stands for it, in each row. M is N * N.
// Kept: as `h_block`, each with its own default pixel and equation: as one function it would take both, no plainer.
pub(crate) fn v_block<const N: usize, const M: usize>(above: [u8; N], there: bool) -> [u8; M]
    // Kept: in four contracts here and beside, since Rattle has no computed const argument.
    requires { M ≡ N * N }
    ensures { result ≡ v_block N above.entry there }
{
    let edge = edge_or(DEFAULT_ABOVE_PIXEL, above, there);
    let mut out = [0u8; M];
    down(&mut out, &edge);
    out
}

// H: the left column, or what stands for it, in each column. M is N * N.
pub(crate) fn h_block<const N: usize, const M: usize>(left: [u8; N], there: bool) -> [u8; M]
    requires { M ≡ N * N }
    ensures { result ≡ h_block N left.entry there }
{
    let edge = edge_or(DEFAULT_LEFT_PIXEL, left, there);
    let mut out = [0u8; M];
    across(&mut out, &edge);
    out
}
