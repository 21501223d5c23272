// The tokens of one block: RFC 6386, section 13.3.
ghost use Rattle.std.specs.Prelude.{◌≡◌, true, false, ◌+◌, ◌-◌, ◌*◌, ◌≤◌, ◌<◌, take, drop};
ghost use Rattle.tokens.specs.Tokens.{zigzag_of, signed_of, class_of, positions};
ghost use Rattle.tokens.specs.Walks.{Band, Puts, Draws, drawn};

use crate::tree::nonzero;
use bool_decoder::BoolDecoder;

// Where the probabilities of each position's band start, of 33 a band; one more for the end of a block, which is not used.
const BANDS: [usize; 17] = [
    0, 33, 66, 99, 198, 132, 165, 198, 198, 198, 198, 198, 198, 198, 198, 231, 231,
];

const ZIGZAG: [usize; 16] = [0, 1, 4, 8, 5, 2, 3, 6, 9, 12, 13, 10, 7, 11, 14, 15];

// Where the probabilities of a position's band start.
pub(crate) fn band(i: usize) -> usize
    requires { i ≤ 16 }
    ensures { Band i result }
{
    BANDS[i]
}

// Kept: as `above_slot` and `left_slot`, one look each into a table of its own, with an equation of its own.
fn zigzag(i: usize) -> usize
    requires { i < 16 }
    ensures { (result ≡ zigzag_of i) × (result < 16) }
{
    ZIGZAG[i]
}

fn signed(size: u32, minus: bool) -> i16
    requires { size ≤ 2114 }
    ensures { result ≡ signed_of size minus }
{
    let x = size as i16;
    if minus { -x } else { x }
}

// Where the probabilities after a coefficient of this size start, from those after a zero.
fn class_row(size: u32) -> usize
    ensures { (result ≡ 11 * class_of size) × (result ≤ 22) }
{
    if size == 1 { 11 } else { 22 }
}

// The eleven probabilities from `row` on.
fn row_at(probs: &[u8; 1056], row: usize) -> &[u8; 11]
    requires { row ≤ 1045 }
    ensures { result.now ≡ take 11 (drop row probs.now) }
{
    probs[row..].first_chunk().unwrap()
}

// A coefficient that is not 0: its size, its sign, and its place in the block.
fn coefficient(
    src: &[u8],
    probs: &[u8; 1056],
    row: usize,
    at: usize,
    i: usize,
    d: BoolDecoder,
    out: &mut [i16; 400],
) -> (u32, BoolDecoder)
    requires { (row ≤ 1045) × (at ≤ 384) × (i < 16) }
    ensures { Puts src.now probs.now row at i out.old d out.new result }
{
    let (size, e) = nonzero(src, row_at(probs, row), d);
    let (minus, next) = e.take(128);
    let slot = at + zigzag(i);
    out[slot] = signed(size, minus);
    (size, next)
}

// The tokens of a block from position `first` on, of whose first one node 0 is passed. `base` is where the probabilities of the
// block's plane start, `from` where those of its first token do; `zeros`: whether a zero counts for the block's flag. Answered
// are that flag, whether the block counts as one that has coefficients, and the decoder behind it.
pub(crate) fn decode_block(
    src: &[u8],
    probs: &[u8; 1056],
    base: usize,
    from: usize,
    at: usize,
    zeros: bool,
    first: usize,
    d: BoolDecoder,
    out: &mut [i16; 400],
) -> (bool, BoolDecoder)
    requires { (base ≤ 792) × (from ≤ 1045) × (at ≤ 384) × (first ≤ 16) }
    ensures { Draws src.now (positions probs.now base at zeros (16 - first) true first from (drawn out.old false)) d out.new result }
{
    let mut e = d;
    let mut row = from;
    let mut some = false;
    // Kept: no plainer: i is the position, by which bands, zigzag and the end of the block go.
    for i in first..16 {
        let f = e.ready(src);
        let p = probs[row + 1];
        if f.is_one(p) {
            let (size, next) = coefficient(src, probs, row, at, i, f.after_one(p), out);
            if i == 15 {
                return (true, next);
            }
            row = base + band(i + 1) + class_row(size);
            let q = probs[row];
            if next.is_one(q) {
                e = next.after_one(q);
                some = true;
            } else {
                return (true, next.after_zero(q));
            }
        } else {
            e = f.after_zero(p);
            row = base + band(i + 1);
            some = some | zeros;
        }
    }
    (some, e)
}
