// One macroblock of a key frame, from its modes, its neighbours and its dequantised coefficients (RFC 6386, 14.2 and 12.3):
// predict, and unless the coefficients are skipped, add the residues. Two walkers, as in reconstruct.rs: one for the four
// 16x16 luma modes, one for luma mode B.
#![tactic(auto)]

ghost use Rattle.std.specs.Prelude.{◌≡◌, ◌≤◌};
ghost use Rattle.reconstruct.specs.Answers.{drawn, told, macroblock_of, whole_of, parts_of, non_b, walk_b};
ghost use Rattle.rfc6386.specs.Edges.{is_b};

use macroblock::{IntraBmode, IntraUvMode, IntraYMode, MbModes, MbNeighbors, Refusal};

// The planes of a macroblock, row by row, and how many sums were below 0 or above 255 before they were held within them.
#[derive(Clone, Copy, Debug, PartialEq, Eq)]
pub struct ReconstructedMb {
    pub y: [u8; 256],
    pub u: [u8; 64],
    pub v: [u8; 64],
    pub clipped: u32,
}

// Kept: a name that the project promises, one `matches!`.
// Whether a luma mode is B.
pub fn is_b(mode: IntraYMode) -> bool
    ensures { result ≡ is_b mode }
{
    matches!(mode, IntraYMode::B)
}

// The macroblock of its luma, with the chroma whose coefficients begin at `base`: U's 64, then V's.
fn with_chroma(
    luma: ([u8; 256], u32),
    uv: IntraUvMode,
    skip: bool,
    neighbors: MbNeighbors,
    coeffs: &[i16],
    base: usize,
) -> ReconstructedMb
    requires { (luma.1 ≤ 256) × (base ≤ 400) }
    ensures { drawn result ≡ macroblock_of luma uv skip neighbors coeffs.now base }
{
    let (y, y_clipped) = luma;
    let (u, u_clipped) = planes::uv_plane(uv, skip, neighbors.u, coeffs, base);
    let (v, v_clipped) = planes::uv_plane(uv, skip, neighbors.v, coeffs, base + 64);
    ReconstructedMb {
        y,
        u,
        v,
        clipped: y_clipped + u_clipped + v_clipped,
    }
}

// After the Y2 block and the sixteen Y blocks, 272 coefficients, come U's and V's.
fn whole(
    y: IntraYMode,
    uv: IntraUvMode,
    skip: bool,
    neighbors: MbNeighbors,
    coeffs: &[i16],
) -> ReconstructedMb
    ensures { drawn result ≡ whole_of y uv skip neighbors coeffs.now }
{
    let luma = planes::y_whole(y, skip, neighbors.y, coeffs);
    with_chroma(luma, uv, skip, neighbors, coeffs, 272)
}

// A macroblock in one of the four 16x16 luma modes (14.2). It takes 400 coefficients, each block in raster order: Y2 16,
// Y 256, U 64, V 64. Refused, in this order: luma mode B (reply 3), another number of coefficients (1), skipped or not.
pub fn decode_keyframe_mb_non_bpred(
    modes: MbModes,
    neighbors: MbNeighbors,
    coeffs: &[i16],
) -> Result<ReconstructedMb, Refusal>
    ensures { told result ≡ non_b modes neighbors coeffs.now }
{
    match modes {
        MbModes { y, uv, skip } => {
            if is_b(y) {
                return Err(Refusal::BPred);
            }
            if coeffs.len() != 400 {
                return Err(Refusal::WrongLength);
            }
            Ok(whole(y, uv, skip, neighbors, coeffs))
        }
    }
}

// After the sixteen Y blocks, 256 coefficients, come U's and V's.
fn parts(
    sub_modes: [IntraBmode; 16],
    uv: IntraUvMode,
    skip: bool,
    neighbors: MbNeighbors,
    coeffs: &[i16],
) -> ReconstructedMb
    ensures { drawn result ≡ parts_of sub_modes uv skip neighbors coeffs.now }
{
    let luma = sub_blocks::luma_parts(sub_modes, skip, neighbors.y, coeffs);
    with_chroma(luma, uv, skip, neighbors, coeffs, 256)
}

// A macroblock in luma mode B (12.3), whatever luma mode its record names. It takes 384 coefficients, without Y2, and the
// modes of its sixteen sub-blocks, with a mark whether they are there. Refused, in this order: no sub-block modes (reply 4),
// another number of coefficients (1), skipped or not.
pub fn decode_keyframe_mb_bpred(
    modes: MbModes,
    sub_modes: [IntraBmode; 16],
    // Kept: an array beside its mark is the project's form for modes that may be missing, and what `walk_b` takes.
    sub_modes_there: bool,
    neighbors: MbNeighbors,
    coeffs: &[i16],
) -> Result<ReconstructedMb, Refusal>
    ensures { told result ≡ walk_b sub_modes sub_modes_there modes neighbors coeffs.now }
{
    match modes {
        MbModes { y: _, uv, skip } => {
            if !sub_modes_there {
                return Err(Refusal::NoSubModes);
            }
            if coeffs.len() != 384 {
                return Err(Refusal::WrongLength);
            }
            Ok(parts(sub_modes, uv, skip, neighbors, coeffs))
        }
    }
}
