// The edges of a macroblock in Y in one direction: its own, where the picture goes on beyond it, then the inner ones.
ghost use Rattle.std.specs.Prelude.{◌≡◌, true, ◌*◌, ◌≤◌};
ghost use Rattle.rfc6386.specs.LoopFilter.{edge, own_edge, inner_edges, side};
ghost use Rattle.edge_lines.specs.Sides.{Square, across, along, Room};

use crate::direction::Direction;
use crate::level::level_edge;
use crate::upright::upright_edge;
use macroblock::filter::{Kind, Limits, Rule};

// Kept: the kind, here and in each file below, is handed down to the one `match` that makes it a filter, in edge.rt.
fn edge(y: &mut [u8], direction: Direction, at: usize, stride: usize, kind: Kind, l: Limits)
    requires { Room direction 16 at stride y.old }
    ensures { y.new ≡ edge kind l 16 at (across direction stride) (along direction stride) y.old }
{
    match direction {
        Direction::Upright => upright_edge(y, at, stride, kind, l),
        Direction::Level => level_edge(y, at, stride, kind, l),
    }
}

fn own_edge(y: &mut [u8], direction: Direction, at: usize, stride: usize, there: bool, rule: Rule)
    // Kept: `Square`, here and in U and V, is one word for a place of a plane; a type that lends the plane has two moments in a clause: no plainer.
    requires { (Square y.old 16 at stride) × (there ≡ true → 4 * across direction stride ≤ at) }
    ensures { y.new ≡ own_edge rule 16 at (across direction stride) (along direction stride) there y.old }
{
    if there {
        edge(y, direction, at, stride, rule.outer_kind(), rule.outer);
    }
}

fn inner_edges(
    y: &mut [u8],
    direction: Direction,
    at: usize,
    stride: usize,
    inner: bool,
    rule: Rule,
)
    requires { Square y.old 16 at stride }
    ensures { y.new ≡ inner_edges rule 16 at (across direction stride) (along direction stride) inner y.old }
{
    if inner {
        let step = 4 * direction.across(stride);
        // Kept: counted, since j is the edge's place and not an index.
        for j in 0..3 {
            let to = at + (j + 1) * step;
            edge(y, direction, to, stride, rule.inner_kind(), rule.inner);
        }
    }
}

#[tactic(auto, unfolding(rfc6386::specs::LoopFilter::side))]
pub(crate) fn side(
    y: &mut [u8],
    direction: Direction,
    at: usize,
    stride: usize,
    there: bool,
    inner: bool,
    rule: Rule,
)
    requires { (Square y.old 16 at stride) × (there ≡ true → 4 * across direction stride ≤ at) }
    ensures { y.new ≡ side rule 16 at (across direction stride) (along direction stride) there inner y.old }
{
    own_edge(y, direction, at, stride, there, rule);
    inner_edges(y, direction, at, stride, inner, rule);
}
