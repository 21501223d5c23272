// Records of a macroblock's neighbours in a picture. Its planes lie in `planes`: 1,536 bytes of Y, 384 of U, 384 of V.
use crate::answers::{FILL, agree};
use crate::numbers::{first, u16_at, u64_at};
use zopredil::neighbours;

// From the first bytes of each plane.
pub fn gather(record: &[u8; 4096], planes: &[u8; 4096]) -> bool {
    let mut gathered = [FILL; 81];
    let reply = neighbours::zopredil_gather(
        first(planes, u16_at(record, 0)),
        part(planes, 1536, u16_at(record, 2)),
        part(planes, 1920, u16_at(record, 4)),
        u64_at(record, 6),
        u64_at(record, 14),
        u64_at(record, 22),
        u64_at(record, 30),
        &record[38..42],
        &mut gathered,
    );
    agree(&record[42..124], reply, &gathered)
}

// n bytes from `at` on; all planes where they are shorter.
fn part(planes: &[u8; 4096], at: usize, n: usize) -> &[u8] {
    if at > 4096 || n > 4096 - at {
        return planes;
    }
    &planes[at..at + n]
}

pub fn right_pixels(record: &[u8; 4096], planes: &[u8; 4096]) -> bool {
    let mut out = [FILL; 4];
    let reply = neighbours::zopredil_right_pixels(
        first(planes, u16_at(record, 0)),
        u64_at(record, 2),
        u64_at(record, 10),
        u64_at(record, 18),
        &mut out,
    );
    agree(&record[26..31], reply, &out)
}
