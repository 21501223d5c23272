// A still drawn, then filtered (RFC 6386, section 15): prediction uses unfiltered pixels, so the filter starts when all of it is drawn.
#![tactic(auto)]

ghost use Rattle.std.specs.Prelude.{◌≡◌};
ghost use Rattle.still.specs.Answers.{told};
ghost use Rattle.filtered_still.specs.Answers.{filtered_told};

use still::StillRefusal;

// `still::still_alone`, and where it is drawn `loop_filter::filter_levels` over its planes. A refusal of the filter has index 0; the count is the
// still's.
pub fn still_filtered(
    cols: usize,
    rows: usize,
    modes: &[u8],
    sub_modes: &[u8],
    coeffs: &[i16],
    kind: u8,
    sharpness: u8,
    levels: &[u8],
    inner: &[u8],
    y: &mut [u8],
    u: &mut [u8],
    v: &mut [u8],
) -> Result<u64, StillRefusal>
    ensures { told result y.new u.new v.new
        ≡ filtered_told cols rows modes.now sub_modes.now coeffs.now kind sharpness levels.now inner.now
        y.old u.old v.old }
{
    let clipped = still::still_alone(cols, rows, modes, sub_modes, coeffs, y, u, v)?;
    match loop_filter::filter_levels(cols, rows, kind, sharpness, levels, inner, y, u, v) {
        Ok(()) => Ok(clipped),
        Err(refusal) => Err(StillRefusal {
            refusal,
            index: 0,
            clipped,
        }),
    }
}
