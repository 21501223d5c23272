// The items of a shelf of loose macroblocks, each drawn by itself from its own modes, neighbour record, sub-block bytes and
// coefficients into its own 384 bytes (Y, U, V), with a reply of its own; and a shelf of them from bytes. A refused item
// writes zeros, and the others go on.
#![tactic(auto)]

ghost use Rattle.std.specs.Prelude.{◌≡◌, ◌+◌, ◌*◌, ◌<◌, ◌≤◌, eqb, length};
ghost use Rattle.lists.specs.Lists.{◌beside◌};
ghost use Rattle.shelf_items.specs.Shelf.{lengths_fit, job_drawn, bytes_at, bytes_answer};
ghost use Rattle.shelf_items.specs.Steps.{told, planned, begun, has_place, Ready, Put, PutIf};
ghost use Rattle.macroblock.specs.Reply.{reply_of};
ghost use Rattle.reconstruct.specs.Answers as drawn_mb;

use macroblock::{MbModes, MbNeighbors, Refusal};
use reconstruct::ReconstructedMb;

#[derive(Clone, Copy)]
pub struct Job {
    pub modes: MbModes,
    pub neighbors: MbNeighbors,
}

// Whether a list has `each` elements for each of `n` items: a product that passes the end of a machine word is no list's length.
fn has_items(length: usize, each: usize, n: usize) -> bool
    ensures { result ≡ eqb length (each * n) }
{
    each.checked_mul(n) == Some(length)
}

#[tactic(auto, unfolding(crate::specs::Shelf::lengths_fit))]
fn lengths_fit(
    n: usize,
    sub_modes: usize,
    coeffs: usize,
    out: usize,
    replies: usize,
    clipped: usize,
) -> bool
    ensures { result ≡ lengths_fit n sub_modes coeffs out replies clipped }
{
    has_items(sub_modes, 16, n)
        && has_items(coeffs, 400, n)
        && has_items(out, 384, n)
        && replies == n
        && clipped == 1
}

// A count of 0 before the first of `n` items, where every list fits them; else a refusal, and nothing written.
#[tactic(auto, unfolding(crate::specs::Steps::planned, crate::specs::Steps::begun))]
pub fn begin(
    n: usize,
    sub_modes: usize,
    coeffs: usize,
    out: usize,
    replies: usize,
    clipped: &mut [u64],
) -> Result<(), Refusal>
    ensures { (told n result ≡ planned n sub_modes coeffs out replies (length clipped.old))
        × (clipped.new ≡ begun n sub_modes coeffs out replies clipped.old) }
{
    if !lengths_fit(n, sub_modes, coeffs, out, replies, clipped.len()) {
        return Err(Refusal::WrongLength);
    }
    slices::put_count(clipped, 0);
    Ok(())
}

// Item `i` as it was drawn: its planes, its reply, and its count added to that of the items before it.
fn put_item(
    drawn: Result<ReconstructedMb, Refusal>,
    out: &mut [u8],
    replies: &mut [u8],
    clipped: &mut [u64],
    i: usize,
)
    // Kept: `Ready`, in three contracts, is of three lent slices; a type would hold them, and its clauses read two moments of each: no plainer.
    requires { ((drawn_mb.told drawn).clipped ≤ 384) × Ready i (length out.old) (length replies.old) clipped.old }
    ensures { Put i (drawn_mb.told drawn)
        out.old replies.old clipped.old out.new replies.new clipped.new }
{
    let planes = &mut out[384 * i..384 * i + 384];
    match drawn {
        Ok(mb) => {
            slices::put_planes(planes, &mb.y, &mb.u, &mb.v);
            replies[i] = 0;
            clipped[0] += u64::from(mb.clipped);
        }
        Err(refusal) => {
            slices::clear(planes);
            replies[i] = refusal.number() as u8;
        }
    }
}

fn draw_job(
    job: Job,
    sub_modes: &[u8],
    coeffs: &[i16],
    out: &mut [u8],
    replies: &mut [u8],
    clipped: &mut [u64],
    i: usize,
)
    requires { (16 * i + 16 ≤ length sub_modes.now) × (400 * i + 400 ≤ length coeffs.now)
        × Ready i (length out.old) (length replies.old) clipped.old }
    ensures { Put i (job_drawn job sub_modes.now coeffs.now i)
        out.old replies.old clipped.old out.new replies.new clipped.new }
{
    let subs = slices::array(&sub_modes[16 * i..16 * i + 16], 0);
    let numbers = &coeffs[400 * i..400 * i + 400];
    let drawn = drawing::draw_with(job.modes, subs, true, job.neighbors, numbers);
    put_item(drawn, out, replies, clipped, i);
}

// Whether item `i` has its place in every list, and the count before it is one that `i` items can have.
#[tactic(auto, unfolding(crate::specs::Steps::has_place))]
fn has_place(
    i: usize,
    sub_modes: usize,
    coeffs: usize,
    out: usize,
    replies: usize,
    clipped: &[u64],
) -> bool
    ensures { result ≡ has_place i sub_modes coeffs out replies clipped.now }
{
    i < sub_modes / 16
        && i < coeffs / 400
        && i < out / 384
        && i < replies
        && clipped.len() == 1
        && clipped[0] <= 384 * i as u64
}

// Job `i` of a shelf, drawn into its places; nothing written where a list has none for it.
pub fn put_job(
    job: Job,
    sub_modes: &[u8],
    coeffs: &[i16],
    out: &mut [u8],
    replies: &mut [u8],
    clipped: &mut [u64],
    i: usize,
)
    ensures { PutIf (has_place i (length sub_modes.now) (length coeffs.now) (length out.old) (length replies.old) clipped.old)
        i (job_drawn job sub_modes.now coeffs.now i)
        out.old replies.old clipped.old out.new replies.new clipped.new }
{
    if has_place(
        i,
        sub_modes.len(),
        coeffs.len(),
        out.len(),
        replies.len(),
        clipped,
    ) {
        draw_job(job, sub_modes, coeffs, out, replies, clipped, i);
    }
}

fn put_bytes(
    modes: &[u8],
    records: &[u8],
    sub_modes: &[u8],
    coeffs: &[i16],
    out: &mut [u8],
    replies: &mut [u8],
    clipped: &mut [u64],
    i: usize,
)
    requires { (3 * i + 3 ≤ length modes.now) × (81 * i + 81 ≤ length records.now) × (16 * i + 16 ≤ length sub_modes.now)
        × (400 * i + 400 ≤ length coeffs.now) × Ready i (length out.old) (length replies.old) clipped.old }
    ensures { Put i (bytes_at modes.now records.now sub_modes.now coeffs.now i)
        out.old replies.old clipped.old out.new replies.new clipped.new }
{
    let luma = modes[3 * i];
    let chroma = modes[3 * i + 1];
    let skip = modes[3 * i + 2];
    let edges = slices::array(&records[81 * i..81 * i + 81], 0);
    let subs = slices::array(&sub_modes[16 * i..16 * i + 16], 0);
    let levels = &coeffs[400 * i..400 * i + 400];
    let drawn = drawing::draw_bytes(luma, chroma, skip, subs, true, edges, levels);
    put_item(drawn, out, replies, clipped, i);
}

// A shelf from bytes: three mode bytes, 81 record bytes, sixteen sub-block bytes and 400 coefficients an item, as many items as
// there are replies; 384 bytes and a reply an item, and into `clipped`, a slice of 1, how many sums of all of them were below 0
// or above 255. Refused: any list whose length does not fit the items (reply 1, nothing written). An item refuses by its own
// reply and 384 zeros: 8 for a mode, skip or mark byte, and in luma mode B for a sub-block byte, that says nothing.
// Kept: the lists are parameters one by one, as the C call lends them.
pub fn shelf_bytes(
    modes: &[u8],
    records: &[u8],
    sub_modes: &[u8],
    coeffs: &[i16],
    out: &mut [u8],
    replies: &mut [u8],
    clipped: &mut [u64],
) -> Result<(), Refusal>
    ensures { (reply_of result beside out.new beside replies.new beside clipped.new)
        ≡ bytes_answer modes.now records.now sub_modes.now coeffs.now
        out.old replies.old clipped.old }
{
    let n = replies.len();
    if !has_items(modes.len(), 3, n) || !has_items(records.len(), 81, n) {
        return Err(Refusal::WrongLength);
    }
    begin(n, sub_modes.len(), coeffs.len(), out.len(), n, clipped)?;
    // Kept: an item is a part of six lists, each of another width; a zip of six iterators of parts is no plainer.
    for i in 0..n {
        put_bytes(modes, records, sub_modes, coeffs, out, replies, clipped, i);
    }
    Ok(())
}
