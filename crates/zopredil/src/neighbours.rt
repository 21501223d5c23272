// The neighbours of a macroblock in a picture.
ghost use Rattle.std.specs.Prelude.{◌≡◌};
ghost use Rattle.lists.specs.Lists.{◌beside◌};
ghost use Rattle.gathering.specs.Answers.{gathered};
ghost use Rattle.zopredil.specs.Told.{told};
ghost use Rattle.zopredil.specs.Neighbours.{bytes_told, gather_answer, right_answer};

use crate::answers::answer;
use macroblock::Refusal;

// The neighbour record as 81 bytes. Refused first: a record of another length than 81 or right-hand pixels of another number than 4 (1, nothing written);
// then as `gathering::gather` refuses, the record all zeros: every edge absent.
pub fn zopredil_gather(
    y: &[u8],
    u: &[u8],
    v: &[u8],
    cols: usize,
    rows: usize,
    col: usize,
    row: usize,
    right: &[u8],
    record: &mut [u8],
) -> u32
    ensures { (result beside «record».new)
        ≡ gather_answer y.now u.now v.now cols rows col row right.now «record».old }
{
    if record.len() != 81 {
        return Refusal::WrongLength.number();
    }
    if right.len() != 4 {
        return Refusal::WrongLength.number();
    }
    let bytes = gathered(y, u, v, cols, rows, col, row, slices::array(right, 0));
    answer(record, &bytes, 0)
}

fn gathered(
    y: &[u8],
    u: &[u8],
    v: &[u8],
    cols: usize,
    rows: usize,
    col: usize,
    row: usize,
    right: [u8; 4],
) -> Result<[u8; 81], Refusal>
    ensures { told 0 81 result ≡ bytes_told (gathered y.now u.now v.now cols rows col row right) }
{
    let neighbors = gathering::gather(y, u, v, cols, rows, col, row, right)?;
    Ok(record_bytes::bytes_of(neighbors))
}

// The four pixels above right of the last column of macroblock row `row`. Refused first: a slice of another length than 4
// (1, nothing written); then as `right_pixels::right_pixels` refuses, the slice zeros.
pub fn zopredil_right_pixels(y: &[u8], cols: usize, rows: usize, row: usize, out: &mut [u8]) -> u32
    ensures { (result beside out.new) ≡ right_answer y.now cols rows row out.old }
{
    if out.len() != 4 {
        return Refusal::WrongLength.number();
    }
    answer(out, &right_pixels::right_pixels(y, cols, rows, row), 0)
}
