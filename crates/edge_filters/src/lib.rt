// The loop filters of RFC 6386, section 15, on the eight pixels across an edge, in bytes and without a branch: a number of the RFC
// from -128 to 127 is kept with 128 for zero, and a pixel that is not to be filtered gets a pull of 128, which leaves it as it is.
#![tactic(auto)]

ghost use Rattle.std.specs.Prelude.{◌≡◌, true, ◌+◌, ◌*◌, ◌/◌, ◌-◌, ◌≤◌, min, max};
ghost use Rattle.lists.specs.Lists.{pick};
ghost use Rattle.rfc6386.specs.LoopFilter.{apart, near, smooth, steep, filtered};
ghost use Rattle.edge_filters.specs.Pixels.{held, pull, nudged, eased_if, spread, spread_if};

use macroblock::filter::{Across, Kind, Limits};

// |x - y|.
// Kept: `abs_diff` in its place is slower: by 39,932 instructions a macroblock in the normal filter, by 159 in the simple one.
fn gap(x: u8, y: u8) -> u8
    ensures { result ≡ apart x y }
{
    x.saturating_sub(y).max(y.saturating_sub(x))
}

// x + y - z, held within 0 and 255.
fn hold(x: u8, y: u8, z: u8) -> u8
    ensures { result ≡ held x y z }
{
    x.saturating_add(y.saturating_sub(z))
        .saturating_sub(z.saturating_sub(y))
}

#[tactic(auto, unfolding(rfc6386::specs::LoopFilter::near))]
fn is_near(l: Limits, x: Across) -> bool
    ensures { result ≡ near l x }
{
    u16::from(gap(x.p0, x.q0)) * 2 + u16::from(gap(x.p1, x.q1) / 2) <= u16::from(l.edge)
}

fn left_smooth(x: Across) -> u8
    ensures { result ≡ max (apart x.p3 x.p2) (max (apart x.p2 x.p1) (apart x.p1 x.p0)) }
{
    gap(x.p3, x.p2).max(gap(x.p2, x.p1).max(gap(x.p1, x.p0)))
}

fn right_smooth(x: Across) -> u8
    ensures { result ≡ max (apart x.q1 x.q0) (max (apart x.q2 x.q1) (apart x.q3 x.q2)) }
{
    gap(x.q1, x.q0).max(gap(x.q2, x.q1).max(gap(x.q3, x.q2)))
}

#[tactic(auto, unfolding(rfc6386::specs::LoopFilter::smooth))]
fn is_smooth(l: Limits, x: Across) -> bool
    ensures { result ≡ smooth l x }
{
    left_smooth(x).max(right_smooth(x)) <= l.interior
}

#[tactic(auto, unfolding(rfc6386::specs::LoopFilter::steep))]
fn is_steep(l: Limits, x: Across) -> bool
    ensures { result ≡ steep l x }
{
    l.hev < gap(x.p1, x.p0).max(gap(x.q1, x.q0))
}

fn taps(x: Across) -> u8
    ensures { result ≡ held x.p1 128 x.q1 }
{
    hold(128, x.p1, x.q1)
}

// Kept: a sum held above and a difference held below, no plainer as one.
// t + 3 d, and t - 3 d.
fn raised(t: u8, d: u8) -> u8
    ensures { result ≡ min 255 (t + 3 * d) }
{
    t.saturating_add(d).saturating_add(d).saturating_add(d)
}

fn lowered(t: u8, d: u8) -> u8
    ensures { result ≡ t - 3 * d }
{
    t.saturating_sub(d).saturating_sub(d).saturating_sub(d)
}

// t + 3 (q - p), held within 0 and 255.
fn steer(t: u8, p: u8, q: u8) -> u8
    ensures { result ≡ held t (3 * q) (3 * p) }
{
    lowered(raised(t, q.saturating_sub(p)), p.saturating_sub(q))
}

// 128 and the RFC's common adjustment, with or without the outer taps.
#[tactic(auto, unfolding(crate::specs::Pixels::pull))]
fn pull_of(outer: bool, x: Across) -> u8
    ensures { result ≡ pull outer x }
{
    steer(if outer { taps(x) } else { 128 }, x.p0, x.q0)
}

// The pull where the step across the edge is small, else 128: no pull.
fn near_pull(l: Limits, x: Across) -> u8
    ensures { result ≡ pick (near l x) (pull true x) 128 }
{
    if is_near(l, x) { pull_of(true, x) } else { 128 }
}

// The same where the pixels on either side are smooth too. `&` has no branch.
fn held_pull(l: Limits, outer: bool, x: Across) -> u8
    ensures { result ≡ pick (near l x) (pick (smooth l x) (pull outer x) 128) 128 }
{
    if is_near(l, x) & is_smooth(l, x) {
        pull_of(outer, x)
    } else {
        128
    }
}

fn eighth(a: u8, k: u8) -> u8
    ensures { result ≡ held a k 0 / 8 }
{
    a.saturating_add(k) / 8
}

// P0 up by an eighth of the pull, Q0 down by it.
#[tactic(auto, unfolding(crate::specs::Pixels::nudged))]
fn nudge(a: u8, x: Across) -> Across
    ensures { result ≡ nudged a x }
{
    Across {
        p0: hold(x.p0, eighth(a, 3), 16),
        q0: hold(x.q0, 16, eighth(a, 4)),
        ..x
    }
}

fn half(steep: bool, a: u8) -> u8
    ensures { result ≡ pick steep 8 ((held a 4 0 / 8 + 1) / 2) }
{
    if steep { 8 } else { (eighth(a, 4) + 1) / 2 }
}

// and P1 up by half of that, Q1 down by it, where the edge is not steep.
#[tactic(auto, unfolding(crate::specs::Pixels::eased_if, crate::specs::Pixels::nudged))]
fn ease(steep: bool, a: u8, x: Across) -> Across
    ensures { result ≡ eased_if steep a x }
{
    let h = half(steep, a);
    Across {
        p1: hold(x.p1, h, 8),
        q1: hold(x.q1, 8, h),
        ..nudge(a, x)
    }
}

// The k-th part of 128 of a, with k for zero: from 0 to 2 k.
fn part(k: u16, a: u8) -> u8
    requires { k ≤ 27 }
    ensures { result ≡ (k * a + 63) / 128 }
{
    ((k * u16::from(a) + 63) / 128) as u8
}

#[tactic(auto, unfolding(crate::specs::Pixels::spread))]
fn spread_out(a: u8, x: Across) -> Across
    ensures { result ≡ spread a x }
{
    let h = part(9, a);
    let g = part(18, a);
    let f = part(27, a);
    Across {
        p2: hold(x.p2, h, 9),
        p1: hold(x.p1, g, 18),
        p0: hold(x.p0, f, 27),
        q0: hold(x.q0, 27, f),
        q1: hold(x.q1, 18, g),
        q2: hold(x.q2, 9, h),
        ..x
    }
}

#[tactic(auto, unfolding(crate::specs::Pixels::spread_if))]
fn spread_or_nudge(steep: bool, a: u8, x: Across) -> Across
    ensures { result ≡ spread_if steep a x }
{
    spread_out(
        if steep { 128 } else { a },
        nudge(if steep { a } else { 128 }, x),
    )
}

pub fn filter_simple(l: Limits, x: Across) -> Across
    ensures { result ≡ filtered Kind.Simple l x }
{
    nudge(near_pull(l, x), x)
}

pub fn filter_outer(l: Limits, x: Across) -> Across
    ensures { result ≡ filtered Kind.Outer l x }
{
    spread_or_nudge(is_steep(l, x), held_pull(l, true, x), x)
}

pub fn filter_inner(l: Limits, x: Across) -> Across
    ensures { result ≡ filtered Kind.Inner l x }
{
    let steep = is_steep(l, x);
    ease(steep, held_pull(l, steep, x), x)
}
