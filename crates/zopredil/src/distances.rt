// How far drawn stills are from measured ones.
ghost use Rattle.std.specs.Prelude.{◌≡◌};
ghost use Rattle.lists.specs.Lists.{◌beside◌};
ghost use Rattle.distance.specs.Answer.{distance_answer};

use crate::answers::number;

pub fn zopredil_distance(
    sizes: &[u32],
    drawn: &[u8],
    measured: &[u8],
    reports: &mut [u64],
    totals: &mut [u64],
) -> u32
    ensures { (result beside reports.new beside totals.new)
        ≡ distance_answer sizes.now drawn.now measured.now reports.old totals.old }
{
    number(distance::distance(sizes, drawn, measured, reports, totals))
}
