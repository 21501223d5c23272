// The edges of a macroblock in U and V in one direction: its own, where the picture goes on beyond it, then the inner one.
ghost use Rattle.std.specs.Prelude.{◌≡◌, true, ◌*◌, ◌≤◌};
ghost use Rattle.rfc6386.specs.LoopFilter.{edge, own_edge, inner_edges, side};
ghost use Rattle.edge_lines.specs.Sides.{Square, across, along, Room};

use crate::direction::Direction;
use crate::pairs::{level_pair, upright_pair};
use macroblock::filter::{Kind, Limits, Rule};

fn edge(
    u: &mut [u8],
    v: &mut [u8],
    direction: Direction,
    at: usize,
    stride: usize,
    kind: Kind,
    l: Limits,
)
    requires { (Room direction 8 at stride u.old) × (Room direction 8 at stride v.old) }
    ensures { (u.new ≡ edge kind l 8 at (across direction stride) (along direction stride) u.old)
        × (v.new ≡ edge kind l 8 at (across direction stride) (along direction stride) v.old) }
{
    match direction {
        Direction::Upright => upright_pair(u, v, at, stride, kind, l),
        Direction::Level => level_pair(u, v, at, stride, kind, l),
    }
}

fn own_edge(
    u: &mut [u8],
    v: &mut [u8],
    direction: Direction,
    at: usize,
    stride: usize,
    there: bool,
    rule: Rule,
)
    requires { (Square u.old 8 at stride) × (Square v.old 8 at stride) × (there ≡ true → 4 * across direction stride ≤ at) }
    ensures { (u.new ≡ own_edge rule 8 at (across direction stride) (along direction stride) there u.old)
        × (v.new ≡ own_edge rule 8 at (across direction stride) (along direction stride) there v.old) }
{
    if there {
        edge(u, v, direction, at, stride, rule.outer_kind(), rule.outer);
    }
}

fn inner_edge(
    u: &mut [u8],
    v: &mut [u8],
    direction: Direction,
    at: usize,
    stride: usize,
    inner: bool,
    rule: Rule,
)
    requires { (Square u.old 8 at stride) × (Square v.old 8 at stride) }
    ensures { (u.new ≡ inner_edges rule 8 at (across direction stride) (along direction stride) inner u.old)
        × (v.new ≡ inner_edges rule 8 at (across direction stride) (along direction stride) inner v.old) }
{
    if inner {
        let to = at + 4 * direction.across(stride);
        edge(u, v, direction, to, stride, rule.inner_kind(), rule.inner);
    }
}

#[tactic(auto, unfolding(rfc6386::specs::LoopFilter::side))]
pub(crate) fn side(
    u: &mut [u8],
    v: &mut [u8],
    direction: Direction,
    at: usize,
    stride: usize,
    there: bool,
    inner: bool,
    rule: Rule,
)
    requires { (Square u.old 8 at stride) × (Square v.old 8 at stride) × (there ≡ true → 4 * across direction stride ≤ at) }
    ensures { (u.new ≡ side rule 8 at (across direction stride) (along direction stride) there inner u.old)
        × (v.new ≡ side rule 8 at (across direction stride) (along direction stride) there inner v.old) }
{
    own_edge(u, v, direction, at, stride, there, rule);
    inner_edge(u, v, direction, at, stride, inner, rule);
}
