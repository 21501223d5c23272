// RFC 6386, 14.5: prediction plus residue is held within 0 and 255. How many sums of a block were outside before that.
#![tactic(auto)]

ghost use Rattle.std.specs.Prelude.{◌≡◌};
ghost use Rattle.clipping.specs.Clipped.{outside, over, block_clipped};

fn outside(v: i32) -> u32
    ensures { result ≡ outside v }
{
    let below = v < 0;
    let above = v > 255;
    u32::from(below || above)
}

// One pixel: 1 where the sum is below 0 or above 255, else 0.
pub fn over(p: u8, r: i16) -> u32
    ensures { result ≡ over p r }
{
    outside(i32::from(p) + i32::from(r))
}

// How many of the sixteen sums of a 4x4 block are.
pub fn block_clipped(prediction: [u8; 16], residue: [i16; 16]) -> u32
    ensures { result ≡ block_clipped 16 prediction residue }
{
    prediction
        .iter()
        .zip(&residue)
        .map(|(p, r)| over(*p, *r))
        .sum()
}
