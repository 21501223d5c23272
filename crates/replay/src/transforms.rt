// Records of the transforms.
ghost use Rattle.std.specs.Prelude.{◌≤◌};

use crate::answers::{FILL, FILL_SHORT, agree, agree_in_shorts};
use crate::numbers::{byte_at, first, first_mut, i16_at, i32_at, shorts, u16_at, u64_at};
use zopredil::transforms;

pub fn y1_factors(record: &[u8; 4096]) -> bool {
    let mut out = [FILL_SHORT; 2];
    let reply = transforms::zopredil_y1_factors(i32_at(record, 0), i32_at(record, 4), &mut out);
    agree_in_shorts(&record[8..13], reply, &out)
}

pub fn dequant_block(record: &[u8; 4096]) -> bool {
    let mut coeffs = [0; 16];
    shorts(&record[..32], &mut coeffs);
    let reply = transforms::zopredil_dequant_block(
        &mut coeffs,
        i16_at(record, 32),
        i16_at(record, 34),
    );
    agree_in_shorts(&record[36..69], reply, &coeffs)
}

pub fn inverse_wht_dc_only(record: &[u8; 4096]) -> bool {
    let mut out = [FILL_SHORT; 16];
    let reply = transforms::zopredil_inverse_wht_dc_only(i16_at(record, 0), &mut out);
    agree_in_shorts(&record[2..35], reply, &out)
}

// Kept: as `inverse_dct`, one call each of `inverted`.
pub fn inverse_wht(record: &[u8; 4096]) -> bool {
    inverted(record, |input, out| {
        transforms::zopredil_inverse_wht(input, out)
    })
}

pub fn inverse_dct(record: &[u8; 4096]) -> bool {
    inverted(record, |input, out| {
        transforms::zopredil_inverse_dct(input, out)
    })
}

fn inverted<F: FnOnce(&[i16], &mut [i16]) -> u32>(record: &[u8; 4096], invert: F) -> bool
    requires { F.IsAlwaysCallable invert }
{
    let mut input = [0; 16];
    shorts(&record[..32], &mut input);
    let mut out = [FILL_SHORT; 16];
    let reply = invert(&input, &mut out);
    agree_in_shorts(&record[32..65], reply, &out)
}

// A record of a plane of n bytes, of which it says how many are lent. It has no count of clipped sums.
pub(crate) fn add_into(record: &[u8; 4096], n: usize) -> bool
    requires { n ≤ 256 }
{
    let mut input = [0; 16];
    shorts(&record[..32], &mut input);
    let after = 58 + n;
    let mut plane = [0; 256];
    plane[..n].copy_from_slice(&record[58..after]);
    let mut clipped = [0; 1];
    let reply = transforms::zopredil_inverse_dct_add_into(
        &input,
        first_mut(&mut plane, u16_at(record, 56)),
        u64_at(record, 32),
        u64_at(record, 40),
        u64_at(record, 48),
        &mut clipped,
    );
    agree(&record[after..after + 1 + n], reply, &plane[..n])
}

pub fn add_residue(record: &[u8; 4096]) -> bool {
    let mut residue = [0; 24];
    shorts(&record[27..75], &mut residue);
    let mut out = [FILL; 24];
    let reply = transforms::zopredil_add_residue(
        &record[3..3 + byte_at(record, 0)],
        first(&residue, byte_at(record, 1)),
        first_mut(&mut out, byte_at(record, 2)),
    );
    agree(&record[75..100], reply, &out)
}
