// Records of macroblocks.
use crate::answers::{FILL, agree};
use crate::numbers::{byte_at, i16_at, put_each, shorts};

// The macroblock that the record's modes and edges make with the coefficients. No record has the count of clipped sums.
fn draw(record: &[u8; 4096], coeffs: &[i16; 400], out: &mut [u8; 384]) -> u32 {
    let mut clipped = [0; 1];
    zopredil::macroblocks::zopredil_macroblock(
        &record[..3],
        &record[4..4 + byte_at(record, 3)],
        &record[20..101],
        coeffs,
        out,
        &mut clipped,
    )
}

pub fn all_coefficients(record: &[u8; 4096]) -> bool {
    let mut coeffs = [0; 400];
    shorts(&record[101..901], &mut coeffs);
    let mut out = [FILL; 384];
    let reply = draw(record, &coeffs, &mut out);
    agree(&record[901..1286], reply, &out)
}

// One number everywhere, then sixteen places.
pub fn few_coefficients(record: &[u8; 4096]) -> bool {
    let mut coeffs = [i16_at(record, 101); 400];
    if !put_each(&record[103..167], &mut coeffs) {
        return false;
    }
    let mut out = [FILL; 384];
    let reply = draw(record, &coeffs, &mut out);
    agree(&record[167..552], reply, &out)
}
