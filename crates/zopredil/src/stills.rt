// Whole stills, the answer as one number: the raster index times 256, plus the reply.
ghost use Rattle.std.specs.Prelude.{◌≡◌, ◌≤◌, length};
ghost use Rattle.lists.specs.Lists.{◌beside◌};
ghost use Rattle.zopredil.specs.Stills.{early, still_number, alone_number, number_of, index_of};

use macroblock::Refusal;
use still::StillRefusal;

// The count into its slice, and the number.
fn answer(clipped: &mut [u64], drawn: Result<u64, StillRefusal>) -> u64
    requires { (length clipped.old ≡ 1) × (index_of drawn ≤ 1048576) }
    ensures { (result beside clipped.new) ≡ number_of drawn }
{
    match drawn {
        Ok(count) => {
            slices::put_count(clipped, count);
            0
        }
        Err(stopped) => {
            slices::put_count(clipped, stopped.clipped);
            stopped.index as u64 * 256 + u64::from(stopped.refusal.number())
        }
    }
}

// The refusal of a call whose count has no place.
fn early(cols: usize, rows: usize) -> u64
    ensures { result ≡ early cols rows }
{
    if picture_limits::size_ok(cols, rows) {
        u64::from(Refusal::WrongLength.number())
    } else {
        u64::from(Refusal::OutsidePicture.number())
    }
}

// `still::still`; `clipped` has one place, for the count of the finished macroblocks' sums that were below 0 or above 255.
pub fn zopredil_still(
    cols: usize,
    rows: usize,
    modes: &[u8],
    sub_modes: &[u8],
    coeffs: &[i16],
    right: &[u8],
    y: &mut [u8],
    u: &mut [u8],
    v: &mut [u8],
    clipped: &mut [u64],
) -> u64
    ensures { (result beside y.new beside u.new beside v.new beside clipped.new)
        ≡ still_number cols rows modes.now sub_modes.now coeffs.now right.now
        y.old u.old v.old clipped.old }
{
    if clipped.len() != 1 {
        return early(cols, rows);
    }
    let drawn = still::still(cols, rows, modes, sub_modes, coeffs, right, y, u, v);
    answer(clipped, drawn)
}

// `still::still_alone`.
pub fn zopredil_still_alone(
    cols: usize,
    rows: usize,
    modes: &[u8],
    sub_modes: &[u8],
    coeffs: &[i16],
    y: &mut [u8],
    u: &mut [u8],
    v: &mut [u8],
    clipped: &mut [u64],
) -> u64
    ensures { (result beside y.new beside u.new beside v.new beside clipped.new)
        ≡ alone_number cols rows modes.now sub_modes.now coeffs.now
        y.old u.old v.old clipped.old }
{
    if clipped.len() != 1 {
        return early(cols, rows);
    }
    let drawn = still::still_alone(cols, rows, modes, sub_modes, coeffs, y, u, v);
    answer(clipped, drawn)
}
