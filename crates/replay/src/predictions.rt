// Records of the predictors.
use crate::answers::{FILL, agree};
use crate::numbers::byte_at;
use zopredil::predictions;

pub fn predict_y16x16(record: &[u8; 4096]) -> bool {
    let mut out = [FILL; 256];
    let reply = predictions::zopredil_predict_y16x16(
        record[0],
        &record[2..2 + byte_at(record, 1)],
        &record[19..19 + byte_at(record, 18)],
        record[35],
        &mut out,
    );
    agree(&record[36..293], reply, &out)
}

// Kept: as `predict_y16x16` with the places of another kind of record, a call each.
pub fn predict_uv8x8(record: &[u8; 4096]) -> bool {
    let mut out = [FILL; 64];
    let reply = predictions::zopredil_predict_uv8x8(
        record[0],
        &record[2..2 + byte_at(record, 1)],
        &record[11..11 + byte_at(record, 10)],
        record[19],
        &mut out,
    );
    agree(&record[20..85], reply, &out)
}

pub fn predict_b4x4(record: &[u8; 4096]) -> bool {
    let mut out = [FILL; 16];
    let reply = predictions::zopredil_predict_b4x4(
        record[0],
        &record[1..9],
        &record[9..13],
        record[13],
        &mut out,
    );
    agree(&record[14..31], reply, &out)
}
