// A shelf of loose macroblocks from a lent list of jobs, each a mode record with its neighbour record. An item is drawn by
// `put_job`, by itself.
#![tactic(auto)]

ghost use Rattle.std.specs.Prelude.{◌≡◌};
ghost use Rattle.lists.specs.Lists.{◌beside◌};
ghost use Rattle.shelf_items.specs.Shelf.{shelf_answer, few_answer};
ghost use Rattle.macroblock.specs.Reply.{reply_of};

use macroblock::Refusal;
use shelf_items::{Job, begin, put_job};

// Each job with its sixteen sub-block bytes and its 400 coefficients, of which luma mode B skips the first 16: 384 bytes and a
// reply an item, and into `clipped`, a slice of 1, how many sums of all of them were below 0 or above 255. Refused: any list
// whose length does not fit the jobs (reply 1, nothing written). An item refuses by its own reply and 384 zeros: 8, in luma
// mode B, for a sub-block byte that says nothing.
// Kept: lists beside the jobs, as `shelf_answer` has them and `bytes-are-jobs` compares them with those of the C call.
pub fn shelf(
    jobs: &[Job],
    sub_modes: &[u8],
    coeffs: &[i16],
    out: &mut [u8],
    replies: &mut [u8],
    clipped: &mut [u64],
) -> Result<(), Refusal>
    ensures { (reply_of result beside out.new beside replies.new beside clipped.new)
        ≡ shelf_answer jobs.now sub_modes.now coeffs.now out.old replies.old clipped.old }
{
    begin(
        jobs.len(),
        sub_modes.len(),
        coeffs.len(),
        out.len(),
        replies.len(),
        clipped,
    )?;
    for (i, job) in jobs.iter().enumerate() {
        put_job(*job, sub_modes, coeffs, out, replies, clipped, i);
    }
    Ok(())
}

// The same for the first `count` of 32 jobs, by value; for all of them where `count` is more.
// Kept: an array with a count beside it, as docs/PROMISES.md promises; `shelf` takes a slice.
pub fn shelf_few(
    jobs: [Job; 32],
    count: usize,
    sub_modes: &[u8],
    coeffs: &[i16],
    out: &mut [u8],
    replies: &mut [u8],
    clipped: &mut [u64],
) -> Result<(), Refusal>
    ensures { (reply_of result beside out.new beside replies.new beside clipped.new)
        ≡ few_answer jobs count sub_modes.now coeffs.now out.old replies.old clipped.old }
{
    shelf(
        &jobs[..count.min(32)],
        sub_modes,
        coeffs,
        out,
        replies,
        clipped,
    )
}
