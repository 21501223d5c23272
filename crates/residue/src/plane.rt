// RFC 6386, 14.4 and 14.5: the inverse DCT of a block, added to its four rows of a plane.
//
//      plane[at]              ....    the block's first row
//      plane[at + stride]     ....
//      plane[at + 2 * stride] ....
//      plane[at + 3 * stride] ....    at = 4 * sub_row * stride + 4 * sub_col
ghost use Rattle.std.specs.Prelude.{◌≡◌, ◌+◌, ◌*◌, ◌≤◌, length};
ghost use Rattle.rfc6386.specs.Dct.{idct_dc};
ghost use Rattle.rfc6386.specs.Residue.{lies, added_at};
ghost use Rattle.clipping.specs.Clipped.{clipped_at};
ghost use Rattle.residue.specs.Answer.{ac_free, added_reply, added_into, told};

use crate::sum;
use macroblock::Refusal;

// Whether the block lies in a plane of n bytes. No step wraps: where the rule multiplies, the code divides.
fn block_lies(n: usize, stride: usize, sub_row: usize, sub_col: usize) -> bool
    ensures { result ≡ lies n stride sub_row sub_col }
{
    if stride < 4 {
        return false;
    }
    if (stride - 4) / 4 < sub_col {
        return false;
    }
    let end = 4 * sub_col + 4;
    if n < end {
        return false;
    }
    let rows = (n - end) / stride;
    if rows < 3 {
        return false;
    }
    if (rows - 3) / 4 < sub_row {
        return false;
    }
    true
}

// Whether the fifteen coefficients after the first are all 0.
fn ac_free(input: [i16; 16]) -> bool
    ensures { result ≡ ac_free input }
{
    input[1..].iter().all(|x| *x == 0)
}

// The residue of a block whose only coefficient that is not 0 is its first.
fn dc_only(dc: i16) -> [i16; 16]
    ensures { result ≡ idct_dc dc }
{
    let v = whole::narrow((i32::from(dc) + 4) >> 3);
    [v; 16]
}

// The row writer: four rows of four from the part's start on, a stride apart.
fn add_rows(part: &mut [u8], stride: usize, residue: [i16; 16])
    requires { 3 * stride + 4 ≤ length part.old }
    ensures { part.new ≡ added_at 0 stride residue part.old }
{
    // Kept: no plainer, since pixel i lies at j.
    for i in 0..16 {
        let j = i / 4 * stride + i % 4;
        part[j] = sum(part[j], residue[i]);
    }
}

// How many of the sums that the row writer will make are below 0 or above 255.
fn clipped_rows(part: &[u8], stride: usize, residue: [i16; 16]) -> u32
    requires { 3 * stride + 4 ≤ length part.now }
    ensures { result ≡ clipped_at 0 stride residue part.now }
{
    let mut n = 0u32;
    // Kept: no plainer, as in the row writer. One loop for both would count sums of sums where the stride is below 4.
    for i in 0..16 {
        let j = i / 4 * stride + i % 4;
        n += clipping::over(part[j], residue[i]);
    }
    n
}

// The row writer, with its count, which is taken first: the sums replace the pixels that they are made of.
fn add_counted(part: &mut [u8], stride: usize, residue: [i16; 16]) -> u32
    requires { 3 * stride + 4 ≤ length part.old }
    ensures { (result ≡ clipped_at 0 stride residue part.old)
        × (part.new ≡ added_at 0 stride residue part.old) }
{
    let n = clipped_rows(part, stride, residue);
    add_rows(part, stride, residue);
    n
}

// The block of sub-block row sub_row and column sub_col, with its residue added, and how many of its sixteen sums were below
// 0 or above 255. Without AC coefficients the residue is one number and needs no transform. Refused (2), and the plane
// untouched, unless the block lies in the plane.
pub fn inverse_dct_4x4_add_into(
    input: [i16; 16],
    plane: &mut [u8],
    stride: usize,
    sub_row: usize,
    sub_col: usize,
) -> Result<u32, Refusal>
    ensures { (told result ≡ added_reply input stride sub_row sub_col plane.old)
        × (plane.new ≡ added_into input stride sub_row sub_col plane.old) }
{
    if block_lies(plane.len(), stride, sub_row, sub_col) {
        let at = 4 * sub_row * stride + 4 * sub_col;
        if ac_free(input) {
            let clipped = add_counted(&mut plane[at..], stride, dc_only(input[0]));
            return Ok(clipped);
        }
        let clipped = add_counted(&mut plane[at..], stride, dct::inverse_dct_4x4(input));
        return Ok(clipped);
    }
    Err(Refusal::OutsidePlane)
}
