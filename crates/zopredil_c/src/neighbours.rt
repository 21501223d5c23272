// The neighbours of a macroblock in a picture.
ghost use Rattle.std.specs.Prelude.{◌≡◌};
ghost use Rattle.lists.specs.Lists.{◌beside◌};
ghost use Rattle.zopredil.specs.Neighbours.{gather_answer, right_answer};

#[unsafe(no_mangle)]
pub extern "C" fn zopredil_gather(
    y: &[u8],
    u: &[u8],
    v: &[u8],
    cols: usize,
    rows: usize,
    col: usize,
    row: usize,
    right: &[u8],
    record: &mut [u8],
) -> u32
    ensures { (result beside «record».new)
        ≡ gather_answer y.now u.now v.now cols rows col row right.now «record».old }
{
    zopredil::neighbours::zopredil_gather(y, u, v, cols, rows, col, row, right, record)
}

#[unsafe(no_mangle)]
pub extern "C" fn zopredil_right_pixels(
    y: &[u8],
    cols: usize,
    rows: usize,
    row: usize,
    out: &mut [u8],
) -> u32
    ensures { (result beside out.new) ≡ right_answer y.now cols rows row out.old }
{
    zopredil::neighbours::zopredil_right_pixels(y, cols, rows, row, out)
}
