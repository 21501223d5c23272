// One macroblock from its bytes: three mode bytes (luma, chroma, skip), sixteen sub-block bytes and 400 coefficients, of
// which luma mode B skips the first 16.
#![tactic(auto)]

ghost use Rattle.std.specs.Prelude.{◌≡◌, ◌≤◌, length};
ghost use Rattle.lists.specs.Lists.{pick, within};
ghost use Rattle.reconstruct.specs.Answers.{told};
ghost use Rattle.drawing.specs.Drawn.{modes_known, modes_of, sub_modes_of, drawn_b, drawn_in, drawn_with, drawn, drawn_bytes};

use macroblock::{IntraBmode, IntraUvMode, IntraYMode, MbModes, MbNeighbors, Refusal};
use reconstruct::ReconstructedMb;

// What the three mode bytes say.
fn modes_of(luma: u8, chroma: u8, skip: u8) -> Result<MbModes, Refusal>
    ensures { result ≡ pick (modes_known luma chroma skip) (Ok (modes_of luma chroma skip)) (Err Refusal.UnknownByte) }
{
    let y = IntraYMode::try_from(luma)?;
    let uv = IntraUvMode::try_from(chroma)?;
    if skip > 1 {
        return Err(Refusal::UnknownByte);
    }
    Ok(MbModes {
        y,
        uv,
        skip: skip == 1,
    })
}

// What the sixteen sub-block bytes say.
fn sub_modes_of(bytes: [u8; 16]) -> Result<[IntraBmode; 16], Refusal>
    ensures { result ≡ pick (within 9 16 bytes) (Ok (sub_modes_of bytes)) (Err Refusal.UnknownByte) }
{
    let mut modes = [IntraBmode::Dc; 16];
    for (k, byte) in bytes.iter().enumerate() {
        modes[k] = IntraBmode::try_from(*byte)?;
    }
    Ok(modes)
}

// Kept: the sub-block bytes beside their mark, from here to the end, as the walker and the theorem drawn-unmarked have them.
fn draw_b(
    modes: MbModes,
    sub_modes: [u8; 16],
    sub_modes_there: bool,
    neighbors: MbNeighbors,
    coeffs: &[i16],
) -> Result<ReconstructedMb, Refusal>
    requires { 16 ≤ length coeffs.now }
    ensures { told result ≡ drawn_b modes sub_modes sub_modes_there neighbors coeffs.now }
{
    if !sub_modes_there {
        return Err(Refusal::NoSubModes);
    }
    let sub_modes = sub_modes_of(sub_modes)?;
    reconstruct::decode_keyframe_mb_bpred(modes, sub_modes, true, neighbors, &coeffs[16..])
}

fn draw_in(
    modes: MbModes,
    sub_modes: [u8; 16],
    sub_modes_there: bool,
    neighbors: MbNeighbors,
    coeffs: &[i16],
) -> Result<ReconstructedMb, Refusal>
    requires { 16 ≤ length coeffs.now }
    ensures { told result ≡ drawn_in modes sub_modes sub_modes_there neighbors coeffs.now }
{
    if reconstruct::is_b(modes.y) {
        return draw_b(modes, sub_modes, sub_modes_there, neighbors, coeffs);
    }
    reconstruct::decode_keyframe_mb_non_bpred(modes, neighbors, coeffs)
}

// The planes of a macroblock whose modes are known. Refused, in this order: another number of coefficients (reply 1), in luma
// mode B a sub-block byte that says nothing (8), luma mode B without sub-block modes (4).
pub fn draw_with(
    modes: MbModes,
    sub_modes: [u8; 16],
    sub_modes_there: bool,
    neighbors: MbNeighbors,
    coeffs: &[i16],
) -> Result<ReconstructedMb, Refusal>
    ensures { told result ≡ drawn_with modes sub_modes sub_modes_there neighbors coeffs.now }
{
    if coeffs.len() != 400 {
        return Err(Refusal::WrongLength);
    }
    draw_in(modes, sub_modes, sub_modes_there, neighbors, coeffs)
}

// The macroblock's planes. Refused, in this order: another number of coefficients (reply 1), a mode or skip byte that says
// nothing, in luma mode B a sub-block byte too (8), luma mode B without sub-block modes (4).
pub fn draw(
    luma: u8,
    chroma: u8,
    skip: u8,
    sub_modes: [u8; 16],
    sub_modes_there: bool,
    neighbors: MbNeighbors,
    coeffs: &[i16],
) -> Result<ReconstructedMb, Refusal>
    ensures { told result ≡ drawn luma chroma skip sub_modes sub_modes_there neighbors coeffs.now }
{
    if coeffs.len() != 400 {
        return Err(Refusal::WrongLength);
    }
    let modes = modes_of(luma, chroma, skip)?;
    draw_in(modes, sub_modes, sub_modes_there, neighbors, coeffs)
}

// The same from the neighbour record's 81 bytes. Refused: a mark that says nothing (reply 8), then what `draw` refuses.
pub fn draw_bytes(
    luma: u8,
    chroma: u8,
    skip: u8,
    sub_modes: [u8; 16],
    sub_modes_there: bool,
    record: [u8; 81],
    coeffs: &[i16],
) -> Result<ReconstructedMb, Refusal>
    ensures { told result ≡ drawn_bytes luma chroma skip sub_modes sub_modes_there «record» coeffs.now }
{
    if !record_bytes::marks_known(record) {
        return Err(Refusal::UnknownByte);
    }
    let neighbors = record_bytes::neighbors_of(record);
    draw(
        luma,
        chroma,
        skip,
        sub_modes,
        sub_modes_there,
        neighbors,
        coeffs,
    )
}
