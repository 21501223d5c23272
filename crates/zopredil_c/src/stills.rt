// Whole stills, the answer as one number: the raster index times 256, plus the reply.
ghost use Rattle.std.specs.Prelude.{◌≡◌};
ghost use Rattle.lists.specs.Lists.{◌beside◌};
ghost use Rattle.zopredil.specs.Stills.{still_number, alone_number};

#[unsafe(no_mangle)]
pub extern "C" fn zopredil_still(
    cols: usize,
    rows: usize,
    modes: &[u8],
    sub_modes: &[u8],
    coeffs: &[i16],
    right: &[u8],
    y: &mut [u8],
    u: &mut [u8],
    v: &mut [u8],
    clipped: &mut [u64],
) -> u64
    ensures { (result beside y.new beside u.new beside v.new beside clipped.new)
        ≡ still_number cols rows modes.now sub_modes.now coeffs.now right.now
        y.old u.old v.old clipped.old }
{
    zopredil::stills::zopredil_still(
        cols, rows, modes, sub_modes, coeffs, right, y, u, v, clipped,
    )
}

#[unsafe(no_mangle)]
pub extern "C" fn zopredil_still_alone(
    cols: usize,
    rows: usize,
    modes: &[u8],
    sub_modes: &[u8],
    coeffs: &[i16],
    y: &mut [u8],
    u: &mut [u8],
    v: &mut [u8],
    clipped: &mut [u64],
) -> u64
    ensures { (result beside y.new beside u.new beside v.new beside clipped.new)
        ≡ alone_number cols rows modes.now sub_modes.now coeffs.now
        y.old u.old v.old clipped.old }
{
    zopredil::stills::zopredil_still_alone(cols, rows, modes, sub_modes, coeffs, y, u, v, clipped)
}
