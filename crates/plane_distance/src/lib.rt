// How far two luma planes are from each other: the sum of squared differences, the largest difference, and how many pixels
// are equal. One pass over both planes, 64 pixels a turn:
//
//      drawn      . . . . . . . .      64 differences, without their signs
//      measured   . . . . . . . .      lane k of a turn is pixel 64 * turn + k
//                 | | | | | | | |
//      largest    k k k k k k k k      the largest of each lane so far
//      equal      k k k k k k k k      how many of each lane were equal so far, in a byte: so 255 turns a stretch at most
#![tactic(auto)]

ghost use Rattle.std.specs.Prelude.{◌≡◌, true, ℕ, ◌+◌, ◌*◌, ◌<◌, ◌≤◌, ◌^◌, max, length, get_or, fold, sum};
ghost use Rattle.std.specs.List.{sum_by};
ghost use Rattle.lists.specs.Lists.{table};
ghost use Rattle.plane_distance.specs.Apart.{apart_at, raised, counted, distance_from, together_held, comparable, no_distance, plane_distance};

use std::array;

#[derive(Clone, Copy, Debug, PartialEq, Eq)]
pub struct Distance {
    pub squares: u64,
    pub largest: u64,
    pub equal: u64,
}

impl Distance {
    // Of no pixels.
    pub fn none() -> Distance
        ensures { result ≡ no_distance }
    {
        Distance {
            squares: 0,
            largest: 0,
            equal: 0,
        }
    }

    // Of two parts of a plane; a sum that passes 64 bits is held at the largest number.
    pub fn together(self, other: Distance) -> Distance
        ensures { result ≡ together_held self other }
    {
        Distance {
            squares: self.squares.saturating_add(other.squares),
            largest: self.largest.max(other.largest),
            equal: self.equal.saturating_add(other.equal),
        }
    }
}

// ---- a turn
fn gaps(a: &[u8], b: &[u8], at: usize) -> [u8; 64]
    requires { (at + 64 ≤ length a.now) × (at + 64 ≤ length b.now) }
    ensures { result ≡ table 64 (λ k. apart_at a.now b.now (at + k)) }
{
    array::from_fn(|k| a[at + k].abs_diff(b[at + k]))
}

fn square(g: u8) -> u32
    ensures { (result ≡ g * g) × (result ≤ 65025) }
{
    u32::from(g) * u32::from(g)
}

fn squares(d: &[u8; 64]) -> u32
    requires { sum_by (λ g. g * g) d.now < 2 ^ 32 }
    ensures { result ≡ sum_by (λ g. g * g) d.now }
{
    d.iter().map(|&g| square(g)).sum()
}

// The largest of each lane, and how many of each were equal, with a turn more.
fn raised(m: &[u8; 64], d: &[u8; 64]) -> [u8; 64]
    ensures { result ≡ raised d.now m.now }
{
    array::from_fn(|k| m[k].max(d[k]))
}

fn counted(n: &[u8; 64], d: &[u8; 64]) -> [u8; 64]
    requires { (k : ℕ) → k < 64 → get_or n.now k 0 < 255 }
    ensures { result ≡ counted d.now n.now }
{
    array::from_fn(|k| n[k] + u8::from(d[k] == 0))
}

// ---- the lanes together
fn highest(m: &[u8; 64]) -> u8
    ensures { result ≡ fold max 0 m.now }
{
    m.iter().fold(0, |h, &g| h.max(g))
}

fn all_of(n: &[u8; 64]) -> u32
    ensures { result ≡ sum n.now }
{
    n.iter().map(|&k| u32::from(k)).sum()
}

// ---- a stretch of both planes
fn stretch(a: &[u8], b: &[u8], at: usize, turns: usize) -> Distance
    requires { (turns ≤ 255) × (at + 64 * turns ≤ length a.now) × (at + 64 * turns ≤ length b.now) }
    ensures { result ≡ distance_from a.now b.now at (64 * turns) }
{
    let mut s = 0;
    let mut m = [0; 64];
    let mut n = [0; 64];
    // Kept: two planes at one moving place; chunks of both at once are no plainer.
    for t in 0..turns {
        let d = gaps(a, b, at + 64 * t);
        s += squares(&d);
        m = raised(&m, &d);
        n = counted(&n, &d);
    }
    Distance {
        squares: u64::from(s),
        largest: u64::from(highest(&m)),
        equal: u64::from(all_of(&n)),
    }
}

fn over_all(a: &[u8], b: &[u8]) -> Distance
    requires { comparable (length a.now) (length b.now) ≡ true }
    ensures { result ≡ distance_from a.now b.now 0 (length a.now) }
{
    let mut sum = Distance::none();
    // Kept: no plainer, since a part is two slices from one place on.
    for part in 0..a.len().div_ceil(16320) {
        let at = 16320 * part;
        let turns = ((a.len() - at) / 64).min(255);
        sum = sum.together(stretch(a, b, at, turns));
    }
    sum
}

fn comparable(m: usize, n: usize) -> bool
    ensures { result ≡ comparable m n }
{
    m == n && m % 256 == 0 && m <= 268435456
}

// The distance of two luma planes of equally many macroblocks of 256 pixels, at most 1,024 by 1,024; zeros for any others.
pub fn plane_distance(drawn: &[u8], measured: &[u8]) -> Distance
    ensures { result ≡ plane_distance drawn.now measured.now }
{
    if !comparable(drawn.len(), measured.len()) {
        return Distance::none();
    }
    over_all(drawn, measured)
}
