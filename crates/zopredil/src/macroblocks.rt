// Macroblocks from their bytes, drawn one in a call and as a shelf; a neighbour record is 81 bytes.
ghost use Rattle.std.specs.Prelude.{◌≡◌, length, get_or};
ghost use Rattle.lists.specs.Lists.{sized, ◌beside◌};
ghost use Rattle.slices.specs.Copies.{or_zeros};
ghost use Rattle.reconstruct.specs.Answers.{told};
ghost use Rattle.drawing.specs.Drawn.{drawn_bytes};
ghost use Rattle.shelf_items.specs.Shelf.{bytes_answer};
ghost use Rattle.zopredil.specs.Macroblocks.{sub_modes_fit, lengths_fit, mb_answer};

use crate::answers::number;
use macroblock::{Refusal, reply};
use reconstruct::ReconstructedMb;

fn sub_modes_fit(sub_modes: usize) -> bool
    ensures { result ≡ sub_modes_fit sub_modes }
{
    sub_modes == 16 || sub_modes == 0
}

fn lengths_fit(
    modes: usize,
    sub_modes: usize,
    record: usize,
    coeffs: usize,
    out: usize,
    clipped: usize,
) -> bool
    ensures { result ≡ lengths_fit modes sub_modes «record» coeffs out clipped }
{
    sub_modes_fit(sub_modes) && (modes, record, coeffs, out, clipped) == (3, 81, 400, 384, 1)
}

// The macroblock that the bytes stand for, 384 pixels: Y, U, V; and into clipped, a slice of 1, how many sums were below 0 or
// above 255. Refused, in this order: a slice of another length (reply 1, nothing written), a mode, skip or mark byte that says
// nothing, in luma mode B a sub-block byte too (8, zeros written), luma mode B without sub-block modes (4, zeros written); the
// count is 0 then.
pub fn zopredil_macroblock(
    modes: &[u8],
    sub_modes: &[u8],
    record: &[u8],
    coeffs: &[i16],
    out: &mut [u8],
    clipped: &mut [u64],
) -> u32
    ensures { (result beside out.new beside clipped.new)
        ≡ mb_answer modes.now sub_modes.now «record».now coeffs.now out.old clipped.old }
{
    let fit = lengths_fit(
        modes.len(),
        sub_modes.len(),
        record.len(),
        coeffs.len(),
        out.len(),
        clipped.len(),
    );
    if !fit {
        return Refusal::WrongLength.number();
    }
    match drawn(modes, sub_modes, record, coeffs) {
        Ok(mb) => {
            slices::put_planes(out, &mb.y, &mb.u, &mb.v);
            slices::put_count(clipped, u64::from(mb.clipped));
            reply::DONE
        }
        Err(refusal) => {
            slices::clear(out);
            slices::put_count(clipped, 0);
            refusal.number()
        }
    }
}

// Of slices whose lengths fit.
fn drawn(
    modes: &[u8],
    sub_modes: &[u8],
    record: &[u8],
    coeffs: &[i16],
) -> Result<ReconstructedMb, Refusal>
    requires { (length modes.now ≡ 3) × (length «record».now ≡ 81) }
    ensures { told result
        ≡ drawn_bytes (get_or modes.now 0 0) (get_or modes.now 1 0) (get_or modes.now 2 0)
        (or_zeros 0 16 sub_modes.now) (sized 16 sub_modes.now) «record».now coeffs.now }
{
    let bytes = slices::array(record, 0);
    if !record_bytes::marks_known(bytes) {
        return Err(Refusal::UnknownByte);
    }
    drawing::draw(
        modes[0],
        modes[1],
        modes[2],
        slices::array(sub_modes, 0),
        sub_modes.len() == 16,
        record_bytes::neighbors_of(bytes),
        coeffs,
    )
}

// A shelf of loose macroblocks: `shelf_items::shelf_bytes`.
pub fn zopredil_shelf(
    modes: &[u8],
    records: &[u8],
    sub_modes: &[u8],
    coeffs: &[i16],
    out: &mut [u8],
    replies: &mut [u8],
    clipped: &mut [u64],
) -> u32
    ensures { (result beside out.new beside replies.new beside clipped.new)
        ≡ bytes_answer modes.now records.now sub_modes.now coeffs.now
        out.old replies.old clipped.old }
{
    number(shelf_items::shelf_bytes(modes, records, sub_modes, coeffs, out, replies, clipped))
}
