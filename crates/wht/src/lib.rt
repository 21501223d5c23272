// RFC 6386, 14.3: the inverse Walsh-Hadamard transform of the Y2 block, whose sixteen results are the DC of the sixteen
// luma blocks. Columns first, then rows, then (x + 3) >> 3. The sums are plain 32-bit sums: none of them leaves 20 bits.
//
// A pass takes each column and writes its four results as a row:
//
//      x0  x1  x2  x3          the pass of x0 x4 x8  x12
//      x4  x5  x6  x7          the pass of x1 x5 x9  x13
//      x8  x9  x10 x11   -->   the pass of x2 x6 x10 x14
//      x12 x13 x14 x15         the pass of x3 x7 x11 x15
//
// So the rows of the block are columns for the second pass, and after it the results stand in the block's own order.
#![tactic(auto)]

ghost use Rattle.std.specs.Prelude.{◌≡◌, ◌≤◌, nat_abs};
ghost use Rattle.rfc6386.specs.Wht.{wht_round, iwht, iwht_dc};
ghost use Rattle.wht.specs.Pass.{Small, Within, line_of, passed, rounded_of};

use std::array;

// The four results of a column.
fn line(i0: i32, i1: i32, i2: i32, i3: i32) -> [i32; 4]
    requires { Small 131072 i0 i1 i2 i3 }
    ensures { result ≡ line_of i0 i1 i2 i3 }
{
    let a = i0 + i3;
    let b = i1 + i2;
    let c = i1 - i2;
    let d = i0 - i3;
    [a + b, c + d, a - b, d - c]
}

fn pass(x: [i32; 16]) -> [i32; 16]
    requires { Within 131072 x }
    ensures { result ≡ passed x }
{
    let mut t = [0i32; 16];
    // Kept: no plainer, since each turn reads a column and writes a row.
    for c in 0..4 {
        let [v0, v1, v2, v3] = line(x[c], x[4 + c], x[8 + c], x[12 + c]);
        t[4 * c] = v0;
        t[4 * c + 1] = v1;
        t[4 * c + 2] = v2;
        t[4 * c + 3] = v3;
    }
    t
}

// The same sixteen numbers in 32 bits.
fn widened(input: [i16; 16]) -> [i32; 16]
    ensures { result ≡ input }
{
    array::from_fn(|k| i32::from(input[k]))
}

// An eighth, rounded, kept in 16 bits.
fn round(x: i32) -> i16
    requires { nat_abs x ≤ 524288 }
    ensures { result ≡ wht_round x }
{
    whole::narrow((x + 3) >> 3)
}

fn rounded(x: [i32; 16]) -> [i16; 16]
    requires { Within 524288 x }
    ensures { result ≡ rounded_of x }
{
    array::from_fn(|k| round(x[k]))
}

// The inverse WHT of a block in raster order.
pub fn inverse_wht_4x4(input: [i16; 16]) -> [i16; 16]
    ensures { result ≡ iwht input }
{
    rounded(pass(pass(widened(input))))
}

// The inverse WHT of a block whose only coefficient that is not 0 is its first.
pub fn inverse_wht_4x4_dc_only(dc: i16) -> [i16; 16]
    ensures { result ≡ iwht_dc dc }
{
    let v = round(i32::from(dc));
    [v; 16]
}
