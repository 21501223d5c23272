// RFC 6386, 14.5: prediction plus residue, held within 0 and 255. A block of a plane is in plane.rt.
#![tactic(auto)]

ghost use Rattle.std.specs.Prelude.{◌≡◌, length};
ghost use Rattle.macroblock.specs.Reply.{reply_of};
ghost use Rattle.rfc6386.specs.Residue.{sum, summed};
ghost use Rattle.residue.specs.Answer.{summed_block, same_lengths, residue_reply, residue_added};

mod plane;

use macroblock::Refusal;
pub use plane::inverse_dct_4x4_add_into;
use std::array;
pub use whole::clamp255;

// One pixel.
pub fn sum(p: u8, r: i16) -> u8
    ensures { result ≡ sum p r }
{
    clamp255(i32::from(p) + i32::from(r))
}

fn block_pixels(prediction: [u8; 16], residue: [i16; 16]) -> [u8; 16]
    ensures { result ≡ summed 16 prediction residue }
{
    array::from_fn(|i| sum(prediction[i], residue[i]))
}

// A 4x4 block, and how many of its sixteen sums were below 0 or above 255.
#[derive(Clone, Copy, Debug, PartialEq, Eq)]
pub struct Summed {
    pub pixels: [u8; 16],
    pub clipped: u32,
}

// The sixteen pixels of a 4x4 block.
pub fn add_residue_4x4(prediction: [u8; 16], residue: [i16; 16]) -> Summed
    ensures { result ≡ summed_block prediction residue }
{
    let clipped = clipping::block_clipped(prediction, residue);
    Summed {
        pixels: block_pixels(prediction, residue),
        clipped,
    }
}

fn same_lengths(prediction: usize, residue: usize, out: usize) -> bool
    ensures { result ≡ same_lengths prediction residue out }
{
    residue == prediction && out == prediction
}

fn add_all(prediction: &[u8], residue: &[i16], out: &mut [u8])
    requires { (length residue.now ≡ length prediction.now) × (length out.old ≡ length prediction.now) }
    ensures { out.new ≡ summed (length prediction.now) prediction.now residue.now }
{
    // Kept: a `zip` of the three takes 786 instructions for 256 pixels in place of 632.
    for (i, pixel) in out.iter_mut().enumerate() {
        *pixel = sum(prediction[i], residue[i]);
    }
}

// Any number of pixels. Refused (1), and nothing written, are lengths that are not all equal.
pub fn add_residue(prediction: &[u8], residue: &[i16], out: &mut [u8]) -> Result<(), Refusal>
    ensures { (reply_of result ≡ residue_reply (length prediction.now) (length residue.now) (length out.old))
        × (out.new ≡ residue_added prediction.now residue.now out.old) }
{
    if same_lengths(prediction.len(), residue.len(), out.len()) {
        add_all(prediction, residue, out);
        return Ok(());
    }
    Err(Refusal::WrongLength)
}
