// One pass of the inverse DCT, RFC 6386, 14.4, on the four numbers of a column or of a row, and the closing rounding of a row's
// results. Every sum and product wraps in 32 bits, and a residue is kept in 16.
#![tactic(auto)]

ghost use Rattle.std.specs.Prelude.{◌≡◌};
ghost use Rattle.rfc6386.specs.Dct.{by_sin, by_cos, rounded};
ghost use Rattle.dct_line.specs.Lines.{odd_sum, odd_difference, line_of, row_of};

// sqrt 2 * sin (pi / 8) and sqrt 2 * cos (pi / 8) - 1, in 65536ths
const SINPI8_SQRT2: i32 = 35468;

const COSPI8_SQRT2_MINUS1: i32 = 20091;

fn by_sin(x: i32) -> i32
    ensures { result ≡ by_sin x }
{
    whole::high_half(whole::wrapping_mul(x, SINPI8_SQRT2))
}

fn by_cos(x: i32) -> i32
    ensures { result ≡ by_cos x }
{
    whole::wrapping_add(
        x,
        whole::high_half(whole::wrapping_mul(x, COSPI8_SQRT2_MINUS1)),
    )
}

// Kept: the RFC's two formulas, which differ in more than a name: no plainer as one.
// The RFC's c1 and d1: what the two odd numbers of a line give.
fn odd_difference(i4: i32, i12: i32) -> i32
    ensures { result ≡ odd_difference i4 i12 }
{
    whole::wrapping_sub(by_sin(i4), by_cos(i12))
}

fn odd_sum(i4: i32, i12: i32) -> i32
    ensures { result ≡ odd_sum i4 i12 }
{
    whole::wrapping_add(by_cos(i4), by_sin(i12))
}

// One pass on four numbers of a column, or of a row. RFC 6386, 14.4.
pub fn line(i0: i32, i4: i32, i8: i32, i12: i32) -> [i32; 4]
    ensures { result ≡ line_of i0 i4 i8 i12 }
{
    let a = whole::wrapping_add(i0, i8);
    let b = whole::wrapping_sub(i0, i8);
    let c = odd_difference(i4, i12);
    let d = odd_sum(i4, i12);
    [
        whole::wrapping_add(a, d),
        whole::wrapping_add(b, c),
        whole::wrapping_sub(b, c),
        whole::wrapping_sub(a, d),
    ]
}

// The closing rounding: an eighth, in 16 bits.
fn rounded(x: i32) -> i16
    ensures { result ≡ rounded x }
{
    whole::narrow(whole::wrapping_add(x, 4) >> 3)
}

// A row of a block, after the columns: one pass, and each result rounded.
pub fn row(i0: i32, i1: i32, i2: i32, i3: i32) -> [i16; 4]
    ensures { result ≡ row_of i0 i1 i2 i3 }
{
    let [x0, x1, x2, x3] = line(i0, i1, i2, i3);
    [rounded(x0), rounded(x1), rounded(x2), rounded(x3)]
}
