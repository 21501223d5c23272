// The tokens of one macroblock: RFC 6386, section 13, with the contexts from above and from the left.
//
//     block  0    1 .. 16   17 .. 20   21 .. 24        its coefficients stand from 16 times its number on
//     plane  Y2   Y         U          V
//     flag   8    0 .. 3    4, 5       6, 7            nine flags each way
#![tactic(auto)]

mod block;
mod tree;

ghost use Rattle.std.specs.Prelude.{◌≡◌, ◌+◌, ◌*◌, ◌≤◌, ◌<◌, length, true};
ghost use Rattle.bool_decoder.specs.BoolCoder.{bit_of};
ghost use Rattle.bool_decoder.specs.State.{stands_of};
ghost use Rattle.tokens.specs.Tokens.{above_slot, left_slot, base_of, first_of, one_block, all_blocks};
ghost use Rattle.tokens.specs.Walks.{Threads, thread_of};
ghost use Rattle.tokens.specs.Answers.{told, answered, walked, decoded};

use block::{band, decode_block};
use bool_decoder::{BoolDecoder, BoolState};
use macroblock::Refusal;

// What the tokens of a macroblock say: the coefficients of the 25 blocks in raster order, the contexts, the decoder's state.
#[derive(Clone, Copy)]
pub struct Macroblock {
    pub coeffs: [i16; 400],
    pub above: [bool; 9],
    pub left: [bool; 9],
    pub state: BoolState,
}

const ABOVE_SLOTS: [usize; 25] = [
    8, 0, 1, 2, 3, 0, 1, 2, 3, 0, 1, 2, 3, 0, 1, 2, 3, 4, 5, 4, 5, 6, 7, 6, 7,
];

const LEFT_SLOTS: [usize; 25] = [
    8, 0, 0, 0, 0, 1, 1, 1, 1, 2, 2, 2, 2, 3, 3, 3, 3, 4, 4, 5, 5, 6, 6, 7, 7,
];

fn above_slot(n: usize) -> usize
    // Kept: a block below 25, in three contracts, is a counter's range: a type would be opened at once, no plainer.
    requires { n < 25 }
    ensures { (result ≡ above_slot n) × (result < 9) }
{
    ABOVE_SLOTS[n]
}

fn left_slot(n: usize) -> usize
    requires { n < 25 }
    ensures { (result ≡ left_slot n) × (result < 9) }
{
    LEFT_SLOTS[n]
}

// Where the probabilities of a block's plane start, of 264 a plane: Y after Y2, Y2, U and V, Y without Y2.
fn base_of(n: usize, y2: bool) -> usize
    ensures { (result ≡ base_of y2 n) × (result ≤ 792) }
{
    if n == 0 {
        264
    } else if n < 17 {
        if y2 { 0 } else { 792 }
    } else {
        528
    }
}

fn first_of(n: usize, y2: bool) -> usize
    ensures { (result ≡ first_of y2 n) × (result ≤ 1) }
{
    if n == 0 {
        0
    } else if n < 17 {
        usize::from(y2)
    } else {
        0
    }
}

// Eleven probabilities for each neighbour that has coefficients.
fn count_row(a: bool, b: bool) -> usize
    ensures { (result ≡ 11 * (bit_of a + bit_of b)) × (result ≤ 22) }
{
    11 * (usize::from(a) + usize::from(b))
}

// Block n, with its two contexts. Node 0 of its first token is read here, since most blocks are empty.
// Kept: `src`, `probs`, `zeros`, `y2` side by side; of a struct with references a clause says `self.entry.src.now`: no plainer.
fn one_block(
    src: &[u8],
    probs: &[u8; 1056],
    zeros: bool,
    y2: bool,
    n: usize,
    d: BoolDecoder,
    above: &mut [bool; 9],
    left: &mut [bool; 9],
    out: &mut [i16; 400],
) -> BoolDecoder
    requires { n < 25 }
    ensures { Threads src.now (one_block probs.now zeros y2 n (thread_of above.old left.old out.old)) d
        (thread_of above.new left.new out.new) result }
{
    let a = above_slot(n);
    let l = left_slot(n);
    let base = base_of(n, y2);
    let first = first_of(n, y2);
    let row = base + band(first) + count_row(above[a], left[l]);
    let e = d.ready(src);
    let p = probs[row];
    if e.is_one(p) {
        let (some, next) = decode_block(
            src,
            probs,
            base,
            row,
            16 * n,
            zeros,
            first,
            e.after_one(p),
            out,
        );
        above[a] = some;
        left[l] = some;
        next
    } else {
        above[a] = false;
        left[l] = false;
        e.after_zero(p)
    }
}

// The blocks of a macroblock: Y2 where there is one, sixteen Y, four U, four V.
fn all_blocks(
    src: &[u8],
    probs: &[u8; 1056],
    zeros: bool,
    y2: bool,
    d: BoolDecoder,
    above: &mut [bool; 9],
    left: &mut [bool; 9],
    out: &mut [i16; 400],
) -> BoolDecoder
    ensures { Threads src.now (all_blocks probs.now zeros y2 (thread_of above.old left.old out.old)) d
        (thread_of above.new left.new out.new) result }
{
    let mut e = d;
    // Kept: no plainer: n is the block, and indexes nothing here.
    for n in usize::from(!y2)..25 {
        e = one_block(src, probs, zeros, y2, n, e, above, left, out);
    }
    e
}

// From a state that stands.
fn answer(
    src: &[u8],
    probs: &[u8; 1056],
    zeros: bool,
    y2: bool,
    above: [bool; 9],
    left: [bool; 9],
    s: BoolState,
) -> Result<Macroblock, Refusal>
    requires { stands_of src.now s ≡ true }
    ensures { told above left s result ≡ answered src.now probs.now zeros y2 above left s }
{
    let mut a = above;
    let mut l = left;
    let mut coeffs = [0; 400];
    let d = s.resume();
    let e = all_blocks(src, probs, zeros, y2, d, &mut a, &mut l, &mut coeffs);
    let state = e.save(src);
    if (src.len() as u64) < state.at {
        return Err(Refusal::PastEnd);
    }
    Ok(Macroblock {
        coeffs,
        above: a,
        left: l,
        state,
    })
}

// The tokens of one macroblock for any probabilities, 0 among them; `zeros`: whether a zero before its end counts for a block's
// flag, as in every decoder. Refused, in this order: WrongLength for other than 1,056 probabilities, PastEnd when the decoder
// needs a byte past the end or its state is none that a start or a read of this partition leaves.
pub fn walk_macroblock(
    src: &[u8],
    probs: &[u8],
    zeros: bool,
    y2: bool,
    above: [bool; 9],
    left: [bool; 9],
    s: BoolState,
) -> Result<Macroblock, Refusal>
    ensures { told above left s result ≡ walked src.now probs.now zeros y2 above left s }
{
    let probs = probs.as_array().ok_or(Refusal::WrongLength)?;
    if s.stands(src) {
        answer(src, probs, zeros, y2, above, left, s)
    } else {
        Err(Refusal::PastEnd)
    }
}

// The tokens of one macroblock with the Rust's rule for its flags: some coefficient is not 0. `y2`: it has a Y2 block. Refused:
// WrongLength for other than 1,056 probabilities, NoProbability when one is 0, PastEnd as in `walk_macroblock`.
pub fn decode_macroblock(
    src: &[u8],
    probs: &[u8],
    y2: bool,
    above: [bool; 9],
    left: [bool; 9],
    s: BoolState,
) -> Result<Macroblock, Refusal>
    ensures { told above left s result ≡ decoded src.now probs.now y2 above left s }
{
    if probs.len() != 1056 {
        return Err(Refusal::WrongLength);
    }
    if token_probs::no_zero(probs) {
        walk_macroblock(src, probs, false, y2, above, left, s)
    } else {
        Err(Refusal::NoProbability)
    }
}
