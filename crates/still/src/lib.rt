// A whole still (RFC 6386, 12 and 14): its macroblocks in raster order, each from the finished pixels around it.
#![tactic(auto)]

ghost use Rattle.std.specs.Prelude.{◌≡◌, ◌+◌, ◌*◌, ◌<◌, ◌≤◌, true, false, length};
ghost use Rattle.canvas.specs.Into.{told as canvas_told};
ghost use Rattle.still.specs.Picture.{told_at, drawing, right_at, right_from, comes_alone, pixels_given};
ghost use Rattle.still.specs.Fits.{Fits};
ghost use Rattle.still.specs.Answers.{lengths_ok, told, still_told, alone_told};

use macroblock::Refusal;

// Why a still is refused, the raster index of the macroblock that is refused, 0 where the still is, and how many sums of the
// finished macroblocks were below 0 or above 255.
#[derive(Clone, Copy, Debug, PartialEq, Eq)]
pub struct StillRefusal {
    pub refusal: Refusal,
    pub index: usize,
    pub clipped: u64,
}

// Before anything is drawn.
impl From<Refusal> for StillRefusal {
    ghost from_gives = { λ refusal r. r ≡ record { refusal = refusal; index = 0; clipped = 0 } };

    fn from(refusal: Refusal) -> StillRefusal {
        StillRefusal {
            refusal,
            index: 0,
            clipped: 0,
        }
    }
}

// The four pixels above right of the last column of macroblock row `row`, as given; zeros for the first row.
fn right_of(right: &[u8], row: usize) -> [u8; 4]
    requires { 4 * row ≤ length right.now }
    ensures { result ≡ right_at right.now row }
{
    if row == 0 {
        return [0; 4];
    }
    let at = 4 * (row - 1);
    slices::array(&right[at..at + 4], 0)
}

// The same; where none are given, read from the luma plane as it stands.
fn right_from(cols: usize, rows: usize, right: Option<&[u8]>, y: &[u8], row: usize) -> [u8; 4]
    requires { comes_alone right ≡ false → 4 * row ≤ length (pixels_given right) }
    ensures { result ≡ right_from cols rows (comes_alone right.entry) (pixels_given right.entry) row y.now }
{
    match right {
        Some(right) => right_of(right, row),
        None => right_pixels::right_pixels(y, cols, rows, row).unwrap_or([0; 4]),
    }
}

// Macroblock k of the picture.
fn draw_at(
    k: usize,
    cols: usize,
    rows: usize,
    modes: &[u8],
    sub_modes: &[u8],
    coeffs: &[i16],
    right: [u8; 4],
    y: &mut [u8],
    u: &mut [u8],
    v: &mut [u8],
) -> Result<u32, Refusal>
    requires { (0 < cols) × (3 * k + 3 ≤ length modes.now) × (16 * k + 16 ≤ length sub_modes.now) × (400 * k + 400 ≤ length coeffs.now) }
    ensures { canvas_told result y.new u.new v.new
        ≡ told_at cols rows modes.now sub_modes.now coeffs.now (λ r y. right) k
        y.old u.old v.old }
{
    let subs = slices::array(&sub_modes[16 * k..16 * k + 16], 0);
    canvas::draw_macroblock(
        cols,
        rows,
        k % cols,
        k / cols,
        modes[3 * k],
        modes[3 * k + 1],
        modes[3 * k + 2],
        subs,
        right,
        &coeffs[400 * k..400 * k + 400],
        y,
        u,
        v,
    )
}

// The macroblocks of a picture that fits its slices, the right-hand pixels as given; where none are, read.
fn draw_all(
    cols: usize,
    rows: usize,
    modes: &[u8],
    sub_modes: &[u8],
    coeffs: &[i16],
    right: Option<&[u8]>,
    y: &mut [u8],
    u: &mut [u8],
    v: &mut [u8],
) -> Result<u64, StillRefusal>
    requires { Fits cols rows (length modes.now) (length sub_modes.now) (length coeffs.now)
        × (comes_alone right ≡ false → 4 * rows ≡ length (pixels_given right) + 4) }
    ensures { told result y.new u.new v.new
        ≡ drawing cols rows modes.now sub_modes.now coeffs.now (right_from cols rows (comes_alone right.entry) (pixels_given right.entry))
        y.old u.old v.old }
{
    let mut clipped = 0;
    // Kept: no plainer: k is the macroblock, whose bytes, coefficients and pixels lie at five places.
    for k in 0..cols * rows {
        let pixels = right_from(cols, rows, right, y, k / cols);
        match draw_at(k, cols, rows, modes, sub_modes, coeffs, pixels, y, u, v) {
            Ok(count) => clipped += u64::from(count),
            Err(refusal) => {
                return Err(StillRefusal {
                    refusal,
                    index: k,
                    clipped,
                });
            }
        }
    }
    Ok(clipped)
}

fn lengths_ok(
    cols: usize,
    rows: usize,
    modes: usize,
    sub_modes: usize,
    coeffs: usize,
    y: usize,
    u: usize,
    v: usize,
) -> bool
    requires { (cols ≤ 1024) × (rows ≤ 1024) }
    ensures { result ≡ lengths_ok cols rows modes sub_modes coeffs y u v }
{
    let n = cols * rows;
    modes == 3 * n
        && sub_modes == 16 * n
        && coeffs == 400 * n
        && picture_limits::sizes_ok(y, u, v, cols, rows)
}

// A still of `cols` by `rows` macroblocks: three mode bytes, sixteen sub-block bytes and 400 coefficients a macroblock; the
// right-hand pixels, four for each macroblock row after the first; and the planes to fill. Refused: a side that is not 1 to
// 1,024 (reply 7), then any slice of another length (1), both before anything is drawn; then the first macroblock with an
// unknown mode, sub-block mode or skip byte (8), the finished ones kept and all other bytes as found. Answered is how many sums
// were below 0 or above 255.
pub fn still(
    cols: usize,
    rows: usize,
    modes: &[u8],
    sub_modes: &[u8],
    coeffs: &[i16],
    right: &[u8],
    y: &mut [u8],
    u: &mut [u8],
    v: &mut [u8],
) -> Result<u64, StillRefusal>
    ensures { told result y.new u.new v.new
        ≡ still_told cols rows modes.now sub_modes.now coeffs.now right.now
        y.old u.old v.old }
{
    if !picture_limits::size_ok(cols, rows) {
        return Err(Refusal::OutsidePicture.into());
    }
    let fit = lengths_ok(
        cols,
        rows,
        modes.len(),
        sub_modes.len(),
        coeffs.len(),
        y.len(),
        u.len(),
        v.len(),
    );
    if !fit {
        return Err(Refusal::WrongLength.into());
    }
    if right.len() != 4 * (rows - 1) {
        return Err(Refusal::WrongLength.into());
    }
    draw_all(cols, rows, modes, sub_modes, coeffs, Some(right), y, u, v)
}

// The same for a still that comes without right-hand pixels: they are four copies of the last pixel of the row above.
pub fn still_alone(
    cols: usize,
    rows: usize,
    modes: &[u8],
    sub_modes: &[u8],
    coeffs: &[i16],
    y: &mut [u8],
    u: &mut [u8],
    v: &mut [u8],
) -> Result<u64, StillRefusal>
    ensures { told result y.new u.new v.new
        ≡ alone_told cols rows modes.now sub_modes.now coeffs.now
        y.old u.old v.old }
{
    if !picture_limits::size_ok(cols, rows) {
        return Err(Refusal::OutsidePicture.into());
    }
    let fit = lengths_ok(
        cols,
        rows,
        modes.len(),
        sub_modes.len(),
        coeffs.len(),
        y.len(),
        u.len(),
        v.len(),
    );
    if !fit {
        return Err(Refusal::WrongLength.into());
    }
    draw_all(cols, rows, modes, sub_modes, coeffs, None, y, u, v)
}
