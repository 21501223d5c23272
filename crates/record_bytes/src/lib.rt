// The neighbour record as 81 bytes, for interfaces that pass bytes: ten marks of 0 or 1, then the pixels, in the order
// drawn in specs/Bytes.antt.
#![tactic(auto)]

ghost use Rattle.std.specs.Prelude.{◌≡◌, ◌+◌, ◌≤◌};
ghost use Rattle.lists.specs.Lists.{part};
ghost use Rattle.record_bytes.specs.Bytes.{marks_known, luma_of, chroma_of, record_of, bytes_of};
ghost use Rattle.record_bytes.specs.Steps.{laid_at, luma_laid, chroma_laid};

use macroblock::{ChromaEdges, LumaEdges, MbNeighbors};

// Whether every mark is 0 or 1.
pub fn marks_known(bytes: [u8; 81]) -> bool
    ensures { result ≡ marks_known bytes }
{
    macroblock::all_within(&bytes[..10], 1)
}

// The N bytes from `at` on.
fn part<const N: usize>(bytes: &[u8; 81], at: usize) -> [u8; N]
    requires { at + N ≤ 81 }
    ensures { result ≡ part N bytes.now at }
{
    let mut to = [0; N];
    to.copy_from_slice(&bytes[at..at + N]);
    to
}

// The luma edges of the record.
#[tactic(auto, unfolding(crate::specs::Bytes::luma_of))]
fn luma_of(bytes: &[u8; 81]) -> LumaEdges
    ensures { result ≡ luma_of bytes.now }
{
    LumaEdges {
        row: part(bytes, 10),
        topleft_there: bytes[0] == 1,
        above_there: bytes[1] == 1,
        above_right_there: bytes[2] == 1,
        left: part(bytes, 31),
        left_there: bytes[3] == 1,
    }
}

// The edges of U or V, their marks from byte `mark` on, their pixels from byte `at` on.
#[tactic(auto, unfolding(crate::specs::Bytes::chroma_of))]
fn chroma_of(bytes: &[u8; 81], mark: usize, at: usize) -> ChromaEdges
    requires { (mark + 3 ≤ 81) × (at + 17 ≤ 81) }
    ensures { result ≡ chroma_of bytes.now mark at }
{
    ChromaEdges {
        row: part(bytes, at),
        topleft_there: bytes[mark] == 1,
        above_there: bytes[mark + 1] == 1,
        left: part(bytes, at + 9),
        left_there: bytes[mark + 2] == 1,
    }
}

// The record that the bytes stand for; a mark is there where its byte is 1.
#[tactic(auto, unfolding(crate::specs::Bytes::record_of))]
pub fn neighbors_of(bytes: [u8; 81]) -> MbNeighbors
    ensures { result ≡ record_of bytes }
{
    MbNeighbors {
        y: luma_of(&bytes),
        u: chroma_of(&bytes, 4, 47),
        v: chroma_of(&bytes, 7, 64),
    }
}

// N bytes put from `at` on.
fn lay<const N: usize>(bytes: &mut [u8; 81], at: usize, from: [u8; N])
    requires { at + N ≤ 81 }
    ensures { bytes.new ≡ laid_at N at from.entry bytes.old }
{
    bytes[at..at + N].copy_from_slice(&from);
}

#[tactic(auto, unfolding(crate::specs::Steps::luma_laid))]
fn lay_luma(bytes: &mut [u8; 81], edges: LumaEdges)
    ensures { bytes.new ≡ luma_laid edges bytes.old }
{
    bytes[0] = u8::from(edges.topleft_there);
    bytes[1] = u8::from(edges.above_there);
    bytes[2] = u8::from(edges.above_right_there);
    bytes[3] = u8::from(edges.left_there);
    lay(bytes, 10, edges.row);
    lay(bytes, 31, edges.left);
}

// The marks from byte `mark` on, the pixels from byte `at` on.
#[tactic(auto, unfolding(crate::specs::Steps::chroma_laid))]
fn lay_chroma(bytes: &mut [u8; 81], mark: usize, at: usize, edges: ChromaEdges)
    requires { (mark + 3 ≤ 81) × (at + 17 ≤ 81) }
    ensures { bytes.new ≡ chroma_laid mark at edges bytes.old }
{
    bytes[mark] = u8::from(edges.topleft_there);
    bytes[mark + 1] = u8::from(edges.above_there);
    bytes[mark + 2] = u8::from(edges.left_there);
    lay(bytes, at, edges.row);
    lay(bytes, at + 9, edges.left);
}

// The 81 bytes of a record.
pub fn bytes_of(n: MbNeighbors) -> [u8; 81]
    ensures { result ≡ bytes_of n }
{
    let mut bytes = [0; 81];
    lay_luma(&mut bytes, n.y);
    lay_chroma(&mut bytes, 4, 47, n.u);
    lay_chroma(&mut bytes, 7, 64, n.v);
    bytes
}
