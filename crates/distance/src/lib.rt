// How far drawn stills are from measured ones, for a list of pictures: a report for each, and the same over the list. The
// luma planes of all stills stand one behind another in one slice:
//
//      sizes      w0 h0     w1 h1  ..       two numbers a still, in macroblocks
//      drawn      |still 0 |still 1  |..    256 * w * h pixels each
//      measured   |still 0 |still 1  |..
//      reports    s l e     s l e    ..     sum of squares, largest difference, equal pixels
//      totals     s l e                     the sum, the largest, the sum
#![tactic(auto)]

ghost use Rattle.std.specs.Prelude.{◌≡◌, true, ℕ, ◌+◌, ◌-◌, ◌*◌, ◌/◌, ◌≤◌, ◌<◌, length};
ghost use Rattle.lists.specs.Lists.{◌beside◌};
ghost use Rattle.macroblock.specs.Reply.{reply_of};
ghost use Rattle.plane_distance.specs.Apart.{distance_from};
ghost use Rattle.distance.specs.Stills.{pixels_of, start_of, report_of, put_report, reported, summed};
ghost use Rattle.distance.specs.Answer.{side_ok, sides_ok, lengths_ok, refusal, Accepted, Plane, distance_answer};

use macroblock::Refusal;
use plane_distance::Distance;

// From 1 to 1,024.
fn side_ok(side: u32) -> bool
    ensures { result ≡ side_ok side }
{
    1 <= side && side <= 1024
}

fn sides_ok(sizes: &[u32]) -> bool
    ensures { result ≡ sides_ok sizes.now (length sizes.now) }
{
    sizes.iter().all(|&side| side_ok(side))
}

// The pixels of still k.
// Kept: that every side is known stands in three contracts; a type of known sizes holds a slice, and its clauses would read `self.entry`: no plainer.
fn pixels(sizes: &[u32], k: usize) -> usize
    requires { (2 * k + 1 < length sizes.now) × (sides_ok sizes.now (length sizes.now) ≡ true) }
    ensures { result ≡ pixels_of sizes.now k }
{
    let cols = sizes[2 * k] as usize;
    let rows = sizes[2 * k + 1] as usize;
    256 * (cols * rows)
}

// The pixels of all stills.
fn all_pixels(sizes: &[u32]) -> usize
    requires { (length sizes.now ≤ 8192) × (sides_ok sizes.now (length sizes.now) ≡ true) }
    ensures { result ≡ start_of sizes.now (length sizes.now / 2) }
{
    // Kept: as a range's `map` and `sum` the goal sum-requires-clause-fits did not close.
    let mut at = 0;
    for k in 0..sizes.len() / 2 {
        at += pixels(sizes, k);
    }
    at
}

fn lengths_ok(sizes: &[u32], drawn: usize, measured: usize, reports: usize) -> bool
    requires { (length sizes.now ≤ 8192) × (sides_ok sizes.now (length sizes.now) ≡ true) }
    ensures { result ≡ lengths_ok sizes.now drawn measured reports }
{
    let n = all_pixels(sizes);
    (sizes.len() % 2, drawn, measured, reports) == (0, n, n, 3 * (sizes.len() / 2))
}

fn test(sizes: &[u32], drawn: usize, measured: usize, reports: usize) -> Result<(), Refusal>
    ensures { reply_of result ≡ refusal sizes.now drawn measured reports }
{
    if sizes.len() > 8192 {
        return Err(Refusal::TooManyStills);
    }
    if !sides_ok(sizes) {
        return Err(Refusal::OutsidePicture);
    }
    if !lengths_ok(sizes, drawn, measured, reports) {
        return Err(Refusal::WrongLength);
    }
    Ok(())
}

// The still whose planes stand from `at` to `end` in both slices.
fn still(drawn: &[u8], measured: &[u8], at: usize, end: usize) -> Distance
    requires { Plane at end (length drawn.now) (length measured.now) }
    ensures { result ≡ distance_from drawn.now measured.now at (end - at) }
{
    plane_distance::plane_distance(&drawn[at..end], &measured[at..end])
}

fn report(d: Distance) -> [u64; 3]
    ensures { result ≡ report_of d }
{
    [d.squares, d.largest, d.equal]
}

fn put_report(reports: &mut [u64], k: usize, d: Distance)
    requires { 3 * k + 3 ≤ length reports.old }
    ensures { reports.new ≡ put_report k d reports.old }
{
    reports[3 * k..3 * k + 3].copy_from_slice(&report(d));
}

// The report of each still, and all of them together.
fn report_each(sizes: &[u32], drawn: &[u8], measured: &[u8], reports: &mut [u64]) -> Distance
    requires { Accepted sizes.now (length drawn.now) (length measured.now) (length reports.old) }
    ensures { (result ≡ summed sizes.now drawn.now measured.now (length sizes.now / 2))
        × (reports.new ≡ reported sizes.now drawn.now measured.now (length sizes.now / 2)) }
{
    let mut sum = Distance::none();
    let mut at = 0;
    // Kept: no plainer, since still k has two sizes, two planes and a report, each at a place of its own.
    for k in 0..sizes.len() / 2 {
        let end = at + pixels(sizes, k);
        let d = still(drawn, measured, at, end);
        put_report(reports, k, d);
        sum = sum.together(d);
        at = end;
    }
    sum
}

// The reports of a list of stills, and the same over the list. Refused: totals of another length than 3 (1, nothing written);
// more than 4,096 stills (12); a side outside 1 to 1,024 (7); an odd number of sides, planes of other lengths than the
// stills', reports of another length than three numbers a still (1). Reports then stay as found, and the totals are zeros.
pub fn distance(
    sizes: &[u32],
    drawn: &[u8],
    measured: &[u8],
    reports: &mut [u64],
    totals: &mut [u64],
) -> Result<(), Refusal>
    ensures { (reply_of result beside reports.new beside totals.new)
        ≡ distance_answer sizes.now drawn.now measured.now reports.old totals.old }
{
    if totals.len() != 3 {
        return Err(Refusal::WrongLength);
    }
    totals.fill(0);
    test(sizes, drawn.len(), measured.len(), reports.len())?;
    let sum = report_each(sizes, drawn, measured, reports);
    totals.copy_from_slice(&report(sum));
    Ok(())
}
