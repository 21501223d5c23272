// Records of wrong lengths: the call is refused, and nothing is written. Slices that are read hold zeros.
use crate::answers::{FILL, FILL_SHORT, agree};
use crate::numbers::{first, first_mut, u16_at};
use zopredil::{macroblocks, neighbours, predictions, transforms};

// What stands for a reply where a record names no function, or where one writes.
const NO_REPLY: u32 = 255;

// The reply of the record's function, with slices as long as the record says: a length in two bytes each, in the order of the
// function's slices. The slice for the count has its one place.
fn reply(record: &[u8; 4096]) -> Option<u32> {
    let zeros = [0; 512];
    let short_zeros = [0; 512];
    let a = first(&zeros, u16_at(record, 1));
    let b = first(&zeros, u16_at(record, 3));
    let c = first(&zeros, u16_at(record, 5));
    let d = first(&zeros, u16_at(record, 7));
    let shorts = first(&short_zeros, u16_at(record, 1));
    let mut bytes_out = [FILL; 512];
    let mut shorts_out = [FILL_SHORT; 512];
    let mut clipped = [0; 1];
    // Kept: a function's number is looked at here alone; an enum of the thirteen would be this match twice.
    let reply = match record[0] {
        1 => transforms::zopredil_y1_factors(0, 0, first_mut(&mut shorts_out, u16_at(record, 1))),
        2 => {
            transforms::zopredil_dequant_block(first_mut(&mut shorts_out, u16_at(record, 1)), 1, 1)
        }
        3 => {
            transforms::zopredil_inverse_wht(shorts, first_mut(&mut shorts_out, u16_at(record, 3)))
        }
        4 => {
            transforms::zopredil_inverse_wht_dc_only(
                0,
                first_mut(&mut shorts_out, u16_at(record, 1)),
            )
        }
        5 => {
            transforms::zopredil_inverse_dct(shorts, first_mut(&mut shorts_out, u16_at(record, 3)))
        }
        6 => {
            let out = first_mut(&mut bytes_out, u16_at(record, 3));
            transforms::zopredil_inverse_dct_add_into(shorts, out, 4, 0, 0, &mut clipped)
        }
        7 => {
            let residue = first(&short_zeros, u16_at(record, 3));
            let out = first_mut(&mut bytes_out, u16_at(record, 5));
            transforms::zopredil_add_residue(a, residue, out)
        }
        8 => {
            let out = first_mut(&mut bytes_out, u16_at(record, 5));
            predictions::zopredil_predict_y16x16(0, a, b, 0, out)
        }
        9 => {
            let out = first_mut(&mut bytes_out, u16_at(record, 5));
            predictions::zopredil_predict_uv8x8(0, a, b, 0, out)
        }
        10 => {
            let out = first_mut(&mut bytes_out, u16_at(record, 5));
            predictions::zopredil_predict_b4x4(0, a, b, 0, out)
        }
        11 => {
            let coeffs = first(&short_zeros, u16_at(record, 7));
            let out = first_mut(&mut bytes_out, u16_at(record, 9));
            macroblocks::zopredil_macroblock(a, b, c, coeffs, out, &mut clipped)
        }
        12 => {
            let out = first_mut(&mut bytes_out, u16_at(record, 9));
            neighbours::zopredil_gather(a, b, c, 1, 1, 0, 0, d, out)
        }
        13 => {
            let out = first_mut(&mut bytes_out, u16_at(record, 3));
            neighbours::zopredil_right_pixels(a, 1, 2, 1, out)
        }
        _ => return None,
    };
    let kept = bytes_out.iter().all(|&x| x == FILL) && shorts_out.iter().all(|&x| x == FILL_SHORT);
    kept.then_some(reply)
}

pub fn refused(record: &[u8; 4096]) -> bool {
    agree(&record[11..12], reply(record).unwrap_or(NO_REPLY), b"")
}
