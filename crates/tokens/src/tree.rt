// The size of a coefficient that is not 0: RFC 6386, section 13.2, coeff_tree from node 2 on, a function a node, with the extra
// bits of the six categories. `row` has the eleven probabilities of a band and a class.
//
// A bool shifts by at most seven and leaves eight bits: so after `ready`, which leaves 33, three bools can be read, or two, a
// sign and one more. Each function returns a decoder that has 19 bits, for the sign and the next token's first bool.
ghost use Rattle.std.specs.Prelude.{◌≡◌, ◌+◌, ◌≤◌, ◌<◌, [], length};
ghost use Rattle.tokens.specs.Tokens.{treed, value, three_four, small_tree, cat_one_two, cat_three_four, cat_five_six, cat_upper, cat_tree, large_tree, nonzero_tree};
ghost use Rattle.tokens.specs.Walks.{Walks};

use bool_decoder::BoolDecoder;

// A base value and its extra bits, the most significant first.
fn category(src: &[u8], base: u32, ps: &[u8], d: BoolDecoder) -> (u32, BoolDecoder)
    requires { (0 < base) × (base ≤ 67) × (length ps.now ≤ 11) }
    ensures { Walks src.now (treed [] 0 (value base ps.now)) 8 d result }
{
    let mut v: u32 = 0;
    let mut e = d;
    for p in ps {
        let (bit, next) = e.ready(src).take(*p);
        v = v + v + u32::from(bit);
        e = next;
    }
    (base + v, e.ready(src))
}

// Node 5.
fn three_four(src: &[u8], row: &[u8; 11], d: BoolDecoder) -> (u32, BoolDecoder)
    ensures { Walks src.now (treed row.now 0 three_four) 15 d result }
{
    let (bit, next) = d.take(row[5]);
    (3 + u32::from(bit), next.ready(src))
}

// Node 4.
fn small(src: &[u8], row: &[u8; 11], d: BoolDecoder) -> (u32, BoolDecoder)
    ensures { Walks src.now (treed row.now 0 small_tree) 26 d result }
{
    let p = row[4];
    if d.is_one(p) {
        three_four(src, row, d.after_one(p))
    } else {
        (2, d.after_zero(p))
    }
}

// Node 7.
fn cat_one_two(src: &[u8], row: &[u8; 11], d: BoolDecoder) -> (u32, BoolDecoder)
    ensures { Walks src.now (treed row.now 0 cat_one_two) 29 d result }
{
    let p = row[7];
    if d.is_one(p) {
        let (high, next) = d.after_one(p).take(165);
        let (low, next) = next.take(145);
        (7 + 2 * u32::from(high) + u32::from(low), next.ready(src))
    } else {
        let (low, next) = d.after_zero(p).take(159);
        (5 + u32::from(low), next.ready(src))
    }
}

// Node 9.
fn cat_three_four(src: &[u8], row: &[u8; 11], d: BoolDecoder) -> (u32, BoolDecoder)
    ensures { Walks src.now (treed row.now 0 cat_three_four) 15 d result }
{
    let p = row[9];
    if d.is_one(p) {
        category(src, 19, &[176, 155, 140, 135], d.after_one(p))
    } else {
        category(src, 11, &[173, 148, 140], d.after_zero(p))
    }
}

// Node 10.
fn cat_five_six(src: &[u8], row: &[u8; 11], d: BoolDecoder) -> (u32, BoolDecoder)
    ensures { Walks src.now (treed row.now 0 cat_five_six) 15 d result }
{
    let p = row[10];
    if d.is_one(p) {
        let ps = [254, 254, 243, 230, 196, 177, 153, 140, 133, 130, 129];
        category(src, 67, &ps, d.after_one(p))
    } else {
        category(src, 35, &[180, 157, 141, 134, 130], d.after_zero(p))
    }
}

// Node 8.
fn cat_upper(src: &[u8], row: &[u8; 11], d: BoolDecoder) -> (u32, BoolDecoder)
    ensures { Walks src.now (treed row.now 0 cat_upper) 22 d result }
{
    let p = row[8];
    if d.is_one(p) {
        cat_five_six(src, row, d.after_one(p))
    } else {
        cat_three_four(src, row, d.after_zero(p))
    }
}

// Node 6.
fn cats(src: &[u8], row: &[u8; 11], d: BoolDecoder) -> (u32, BoolDecoder)
    ensures { Walks src.now (treed row.now 0 cat_tree) 15 d result }
{
    let p = row[6];
    if d.is_one(p) {
        cat_upper(src, row, d.after_one(p).ready(src))
    } else {
        cat_one_two(src, row, d.after_zero(p).ready(src))
    }
}

// Node 3.
fn large(src: &[u8], row: &[u8; 11], d: BoolDecoder) -> (u32, BoolDecoder)
    ensures { Walks src.now (treed row.now 0 large_tree) 8 d result }
{
    let p = row[3];
    let e = d.ready(src);
    if e.is_one(p) {
        cats(src, row, e.after_one(p))
    } else {
        small(src, row, e.after_zero(p))
    }
}

// Node 2.
pub(crate) fn nonzero(src: &[u8], row: &[u8; 11], d: BoolDecoder) -> (u32, BoolDecoder)
    ensures { Walks src.now (treed row.now 0 nonzero_tree) 26 d result }
{
    let p = row[2];
    if d.is_one(p) {
        large(src, row, d.after_one(p))
    } else {
        (1, d.after_zero(p))
    }
}
