// The inverse DCT, RFC 6386, 14.4: of one 4x4 block, and of four blocks at once. Columns first, then rows.
// Both work on rows of w numbers: w is 4 for one block, and 16 for four blocks that lie side by side. The two loops are flat,
// of 4 or of 16 turns, and of the 16 the compiler makes vector code.
#![tactic(auto)]

ghost use Rattle.std.specs.Prelude.{◌≡◌, ◌+◌, ◌*◌, ◌<◌, ◌≤◌, length};
ghost use Rattle.lists.specs.Lists.{turns};
ghost use Rattle.rfc6386.specs.Dct.{idct, idct_four};
ghost use Rattle.dct.specs.Turns.{column_turn, row_turn, widened, besides};

use std::array;

// Column j of the four rows of w numbers of s, transformed into column j of t.
fn column_into(t: &mut [i32], s: &[i32], w: usize, j: usize)
    requires { (j < w) × (w ≤ 16) × (4 * w ≤ length s.now) × (4 * w ≤ length t.old) }
    ensures { t.new ≡ column_turn w s.now j t.old }
{
    let j1 = j + w;
    let j2 = j1 + w;
    let j3 = j2 + w;
    let [x0, x1, x2, x3] = dct_line::line(s[j], s[j1], s[j2], s[j3]);
    t[j] = x0;
    t[j1] = x1;
    t[j2] = x2;
    t[j3] = x3;
}

fn columns(t: &mut [i32], s: &[i32], w: usize)
    requires { (w ≤ 16) × (4 * w ≤ length s.now) × (4 * w ≤ length t.old) }
    ensures { t.new ≡ turns w (column_turn w s.now) t.old }
{
    // Kept: no plainer, since a column's four numbers lie w apart.
    for j in 0..w {
        column_into(t, s, w, j);
    }
}

// The four numbers of t from 4 q on, a row of a block, transformed into the same four of o.
fn row_into(o: &mut [i16], t: &[i32], q: usize)
    requires { (q < 16) × (4 * q + 4 ≤ length t.now) × (4 * q + 4 ≤ length o.old) }
    ensures { o.new ≡ row_turn t.now q o.old }
{
    let q0 = 4 * q;
    let q1 = q0 + 1;
    let q2 = q0 + 2;
    let q3 = q0 + 3;
    let [y0, y1, y2, y3] = dct_line::row(t[q0], t[q1], t[q2], t[q3]);
    o[q0] = y0;
    o[q1] = y1;
    o[q2] = y2;
    o[q3] = y3;
}

fn rows(o: &mut [i16], t: &[i32], n: usize)
    requires { (n ≤ 16) × (4 * n ≤ length t.now) × (4 * n ≤ length o.old) }
    ensures { o.new ≡ turns n (row_turn t.now) o.old }
{
    // Kept: no contract says what was written through `chunks_exact_mut`.
    for q in 0..n {
        row_into(o, t, q);
    }
}

// The inverse DCT of a block of 16 coefficients in raster order: its 16 residues. RFC 6386, 14.4.
pub fn inverse_dct_4x4(input: [i16; 16]) -> [i16; 16]
    ensures { result ≡ idct input }
{
    let s: [i32; 16] = array::from_fn(|k| i32::from(input[k]));
    let mut t = [0i32; 16];
    columns(&mut t, &s, 4);
    let mut o = [0i16; 16];
    rows(&mut o, &t, 4);
    o
}

// n numbers of l from `from` on, put into s from `to` on.
fn widen_into(s: &mut [i32], to: usize, l: &[i16], from: usize, n: usize)
    requires { (to + n ≤ length s.old) × (from + n ≤ length l.now) }
    ensures { s.new ≡ widened n to from l.now s.old }
{
    for (i, x) in s[to..to + n].iter_mut().enumerate() {
        *x = i32::from(l[from + i]);
    }
}

// Four blocks, one after another, as four rows of 16: row k % 4 of block k / 4 goes beside the same row of the other blocks.
fn beside(blocks: [i16; 64]) -> [i32; 64]
    ensures { result ≡ besides blocks }
{
    let mut s = [0i32; 64];
    // Kept: `from_fn` over the 64 places takes 1,826 instructions for the four blocks in place of 1,250.
    for k in 0..16 {
        widen_into(&mut s, 16 * (k % 4) + 4 * (k / 4), &blocks, 4 * k, 4);
    }
    s
}

// The inverse DCT of four blocks that follow one another: four rows of 16 residues, those of block b from column 4 b on.
pub fn inverse_dct_four(blocks: [i16; 64]) -> [i16; 64]
    ensures { result ≡ idct_four blocks }
{
    let s = beside(blocks);
    let mut t = [0i32; 64];
    columns(&mut t, &s, 16);
    let mut o = [0i16; 64];
    rows(&mut o, &t, 16);
    o
}
