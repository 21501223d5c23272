// Macroblocks from their bytes, drawn one in a call and as a shelf; a neighbour record is 81 bytes.
ghost use Rattle.std.specs.Prelude.{◌≡◌};
ghost use Rattle.lists.specs.Lists.{◌beside◌};
ghost use Rattle.shelf_items.specs.Shelf.{bytes_answer};
ghost use Rattle.zopredil.specs.Macroblocks.{mb_answer};

#[unsafe(no_mangle)]
pub extern "C" fn zopredil_macroblock(
    modes: &[u8],
    sub_modes: &[u8],
    record: &[u8],
    coeffs: &[i16],
    out: &mut [u8],
    clipped: &mut [u64],
) -> u32
    ensures { (result beside out.new beside clipped.new)
        ≡ mb_answer modes.now sub_modes.now «record».now coeffs.now out.old clipped.old }
{
    zopredil::macroblocks::zopredil_macroblock(modes, sub_modes, record, coeffs, out, clipped)
}

#[unsafe(no_mangle)]
pub extern "C" fn zopredil_shelf(
    modes: &[u8],
    records: &[u8],
    sub_modes: &[u8],
    coeffs: &[i16],
    out: &mut [u8],
    replies: &mut [u8],
    clipped: &mut [u64],
) -> u32
    ensures { (result beside out.new beside replies.new beside clipped.new)
        ≡ bytes_answer modes.now records.now sub_modes.now coeffs.now
        out.old replies.old clipped.old }
{
    zopredil::macroblocks::zopredil_shelf(modes, records, sub_modes, coeffs, out, replies, clipped)
}
