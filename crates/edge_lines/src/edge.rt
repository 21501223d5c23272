// An edge across lines of sixteen: one loop, of which each kind has its own, made of vectors.
ghost use Rattle.std.specs.Prelude.{◌≡◌, ℕ, ◌+◌, ◌*◌, ◌≤◌, ◌<◌, length};
ghost use Rattle.rfc6386.specs.LoopFilter.{taken, laid, edge};
ghost use Rattle.edge_lines.specs.Lines.{Reaches, Filters};

use macroblock::filter::{Across, Kind, Limits};

#[tactic(auto, unfolding(rfc6386::specs::LoopFilter::taken))]
fn take(plane: &[u8], i: usize, step: usize) -> Across
    requires { Reaches plane.now i step }
    ensures { result ≡ taken step i plane.now }
{
    Across {
        p3: plane[i - 4 * step],
        p2: plane[i - 3 * step],
        p1: plane[i - 2 * step],
        p0: plane[i - step],
        q0: plane[i],
        q1: plane[i + step],
        q2: plane[i + 2 * step],
        q3: plane[i + 3 * step],
    }
}

#[tactic(auto, unfolding(rfc6386::specs::LoopFilter::laid))]
fn lay(plane: &mut [u8], i: usize, step: usize, x: Across)
    requires { Reaches plane.old i step }
    ensures { plane.new ≡ laid step i x plane.old }
{
    plane[i - 3 * step] = x.p2;
    plane[i + 2 * step] = x.q2;
    plane[i - 2 * step] = x.p1;
    plane[i + step] = x.q1;
    plane[i - step] = x.p0;
    plane[i] = x.q0;
}

// A filter at each of sixteen places from `at` on.
fn cross<F: Fn(Limits, Across) -> Across>(b: &mut [u8], at: usize, l: Limits, filter: F)
    requires reach { (k : ℕ) → k < 16 → Reaches b.old (at + k) 16 }
    requires callable { F.IsAlwaysCallable filter }
    ensures { (kind : Kind) → Filters kind (F.post filter) → b.new ≡ edge kind l 16 at 16 1 b.old }
{
    // Kept: counted, since the eight pixels of a place lie in eight lines of one slice, at a distance of sixteen.
    for k in 0..16 {
        let x = take(b, at + k, 16);
        lay(b, at + k, 16, filter(l, x));
    }
}

pub(crate) fn lines_edge(b: &mut [u8], at: usize, kind: Kind, l: Limits)
    requires { (k : ℕ) → k < 16 → Reaches b.old (at + k) 16 }
    ensures { b.new ≡ edge kind l 16 at 16 1 b.old }
{
    // Kept: a kind of the RFC becomes a filter here and nowhere else, each with a loop of its own.
    match kind {
        Kind::Simple => cross(b, at, l, edge_filters::filter_simple),
        Kind::Outer => cross(b, at, l, edge_filters::filter_outer),
        Kind::Inner => cross(b, at, l, edge_filters::filter_inner),
    }
}
