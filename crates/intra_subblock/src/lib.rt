// RFC 6386, 12.3: prediction of a 4x4 sub-block, as intra_predict.rs has it: the ten modes of `subblock_intra_predict`.
// A0 .. A7 stand above the sub-block, L0 .. L3 to its left and P above left; E is the edge from L3 up to P and along to A3:
//
//        P=E4  A0=E5  A1=E6  A2=E7  A3=E8  A4  A5  A6  A7
//        L0=E3
//        L1=E2
//        L2=E1
//        L3=E0
//
// Eight of the modes are lines of means: a mode takes a line of values along an edge, in the RFC's order, and each place of
// the sub-block has its number on the line. `line` draws them; the numbers stand drawn above each mode, and under a diagonal
// mode's drawing the mean that each number has and the pixel of the edge that it is taken at.
#![tactic(auto)]

mod line;

ghost use Rattle.std.specs.Prelude.{◌≡◌};
ghost use Rattle.lists.specs.Lists.{rows};
ghost use Rattle.rfc6386.specs.Edges.{tm_pixel};
ghost use Rattle.rfc6386.specs.Subblock.{edge_e, edge_a, sub_dc, sub_ve, sub_he, sub_ld, sub_rd, sub_vr, sub_vl, sub_hd, sub_hu, predict_b};

use intra_edges::{predict_b4x4_dc, predict_b4x4_tm};
use line::{avg2p, avg3, avg3p, drawn, slope, steps};
use macroblock::IntraBmode;

// The sixteen pixels, stored by each mode where they are wanted.
pub fn predict_b4x4_into(out: &mut [u8; 16], mode: IntraBmode, above: [u8; 8], left: [u8; 4], p: u8)
    ensures { out.new ≡ predict_b mode above left p }
{
    match mode {
        IntraBmode::Dc => *out = dc(above, left),
        IntraBmode::Tm => *out = tm(above, left, p),
        IntraBmode::Ve => *out = ve(above, p),
        IntraBmode::He => *out = he(left, p),
        IntraBmode::Ld => *out = ld(above),
        IntraBmode::Rd => *out = rd(edge_e(above, left, p)),
        IntraBmode::Vr => *out = vr(edge_e(above, left, p)),
        IntraBmode::Vl => *out = vl(above),
        IntraBmode::Hd => *out = hd(edge_e(above, left, p)),
        IntraBmode::Hu => *out = hu(left),
    }
}

pub fn predict_b4x4(mode: IntraBmode, above: [u8; 8], left: [u8; 4], p: u8) -> [u8; 16]
    ensures { result ≡ predict_b mode above left p }
{
    let mut out = [0u8; 16];
    predict_b4x4_into(&mut out, mode, above, left, p);
    out
}

// The edge E: L3 L2 L1 L0 P A0 A1 A2 A3.
fn edge_e(above: [u8; 8], left: [u8; 4], p: u8) -> [u8; 9]
    ensures { result ≡ edge_e above left p }
{
    [
        left[3], left[2], left[1], left[0], p, above[0], above[1], above[2], above[3],
    ]
}

// The edge A, with A7 repeated after itself.
fn edge_a(above: [u8; 8]) -> [u8; 9]
    ensures { result ≡ edge_a above }
{
    let again = above[7];
    [
        above[0], above[1], above[2], above[3], above[4], above[5], above[6], above[7], again,
    ]
}

fn dc(a: [u8; 8], l: [u8; 4]) -> [u8; 16]
    ensures { result ≡ rows 4 4 (sub_dc a l) }
{
    predict_b4x4_dc([a[0], a[1], a[2], a[3]], l)
}

fn tm(a: [u8; 8], l: [u8; 4], p: u8) -> [u8; 16]
    ensures { result ≡ rows 4 4 (tm_pixel a l p) }
{
    predict_b4x4_tm([a[0], a[1], a[2], a[3]], l, p)
}

// Each column has the mean at the pixel above it, P before A0:
//
//        P   A0 A1 A2 A3 A4
//            0  1  2  3
//            0  1  2  3
//            0  1  2  3
//            0  1  2  3
fn ve(a: [u8; 8], p: u8) -> [u8; 16]
    ensures { result ≡ rows 4 4 (sub_ve a p) }
{
    let line = slope([p, a[0], a[1], a[2], a[3], a[4], a[5], a[6], a[7]]);
    drawn(&line, [0, 0, 0, 0], 1)
}

// Each row has the mean at the pixel to its left, P before L0 and L3 repeated after itself:
//
//        P
//        L0  0  0  0  0
//        L1  1  1  1  1
//        L2  2  2  2  2
//        L3  3  3  3  3
//        L3
fn he(l: [u8; 4], p: u8) -> [u8; 16]
    ensures { result ≡ rows 4 4 (sub_he l p) }
{
    let again = l[3];
    let line = slope([p, l[0], l[1], l[2], l[3], again, again, again, again]);
    drawn(&line, [0, 1, 2, 3], 0)
}

// Left and down from A, number r + c:
//
//        A0 A1 A2 A3 A4 A5 A6 A7 A7
//        0  1  2  3
//        1  2  3  4
//        2  3  4  5
//        3  4  5  6
//
//        number  0   1   2   3   4   5   6
//        avg3    A1  A2  A3  A4  A5  A6  A7
fn ld(a: [u8; 8]) -> [u8; 16]
    ensures { result ≡ rows 4 4 (sub_ld a) }
{
    let line = slope(edge_a(a));
    drawn(&line, [0, 1, 2, 3], 1)
}

// Right and down from E, number 3 - r + c:
//
//        E4 E5 E6 E7 E8
//        E3  3  4  5  6
//        E2  2  3  4  5
//        E1  1  2  3  4
//        E0  0  1  2  3
//
//        number  0   1   2   3   4   5   6
//        avg3    E1  E2  E3  E4  E5  E6  E7
fn rd(e: [u8; 9]) -> [u8; 16]
    ensures { result ≡ rows 4 4 (sub_rd e) }
{
    let line = slope(e);
    drawn(&line, [3, 2, 1, 0], 1)
}

// Down from E, one to the right in two rows: number z + 3, z = 2c - r.
//
//        E4 E5 E6 E7 E8
//        E3  3  5  7  9
//        E2  2  4  6  8
//        E1  1  3  5  7
//        E0  0  2  4  6
//
//        number  0   1   2   3   4   5   6   7   8   9
//        avg2                E4      E5      E6      E7
//        avg3    E2  E3  E4      E5      E6      E7
fn vr(e: [u8; 9]) -> [u8; 16]
    ensures { result ≡ rows 4 4 (sub_vr e) }
{
    let line = [
        avg3p(e, 2),
        avg3p(e, 3),
        avg3p(e, 4),
        avg2p(e, 4),
        avg3p(e, 5),
        avg2p(e, 5),
        avg3p(e, 6),
        avg2p(e, 6),
        avg3p(e, 7),
        avg2p(e, 7),
    ];
    drawn(&line, [3, 2, 1, 0], 2)
}

// Down from A, one to the left in two rows: number 2c + r. The last two leave the turn of avg2 and avg3; avg2 at A4 and avg3
// at A5 would keep it.
//
//        A0 A1 A2 A3 A4 A5 A6 A7
//        0  2  4  6
//        1  3  5  7
//        2  4  6  8
//        3  5  7  9
//
//        number  0   1   2   3   4   5   6   7   8   9
//        avg2    A0      A1      A2      A3
//        avg3        A1      A2      A3      A4  A5  A6
fn vl(a: [u8; 8]) -> [u8; 16]
    ensures { result ≡ rows 4 4 (sub_vl a) }
{
    let line = steps(edge_a(a), avg3(a[4], a[5], a[6]), avg3(a[5], a[6], a[7]));
    drawn(&line, [0, 1, 2, 3], 2)
}

// Right from E, one down in two columns: number 6 - z, z = 2r - c.
//
//        E4 E5 E6 E7 E8
//        E3  6  7  8  9
//        E2  4  5  6  7
//        E1  2  3  4  5
//        E0  0  1  2  3
//
//        number  0   1   2   3   4   5   6   7   8   9
//        avg2    E0      E1      E2      E3
//        avg3        E1      E2      E3      E4  E5  E6
fn hd(e: [u8; 9]) -> [u8; 16]
    ensures { result ≡ rows 4 4 (sub_hd e) }
{
    let line = steps(e, avg3p(e, 5), avg3p(e, 6));
    drawn(&line, [6, 4, 2, 0], 1)
}

// Right from L, one up in two columns: number z = c + 2r. L3 is repeated after itself; from 6 on it is the value.
//
//        L0  0  1  2  3
//        L1  2  3  4  5
//        L2  4  5  6  7
//        L3  6  7  8  9
//        L3
//
//        number  0   1   2   3   4   5   6   7   8   9
//        avg2    L0      L1      L2
//        avg3        L1      L2      L3
//        pixel                           L3  L3  L3  L3
fn hu(l: [u8; 4]) -> [u8; 16]
    ensures { result ≡ rows 4 4 (sub_hu l) }
{
    let last = l[3];
    let l = [l[0], l[1], l[2], last, last, last, last, last, last];
    let line = [
        avg2p(l, 0),
        avg3p(l, 1),
        avg2p(l, 1),
        avg3p(l, 2),
        avg2p(l, 2),
        avg3p(l, 3),
        last,
        last,
        last,
        last,
    ];
    drawn(&line, [0, 2, 4, 6], 1)
}
