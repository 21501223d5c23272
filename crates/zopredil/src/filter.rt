// The loop filter's calls.
ghost use Rattle.std.specs.Prelude.{◌≡◌};
ghost use Rattle.loop_filter.specs.Answers.{filter_answer, levels_answer};

use crate::answers::number;

pub fn zopredil_filter(
    cols: usize,
    rows: usize,
    kind: u8,
    level: u8,
    sharpness: u8,
    inner: &[u8],
    y: &mut [u8],
    u: &mut [u8],
    v: &mut [u8],
) -> u32
    ensures { (result, y.new, u.new, v.new)
        ≡ filter_answer cols rows kind level sharpness inner.now y.old u.old v.old }
{
    number(loop_filter::filter(cols, rows, kind, level, sharpness, inner, y, u, v))
}

pub fn zopredil_filter_levels(
    cols: usize,
    rows: usize,
    kind: u8,
    sharpness: u8,
    levels: &[u8],
    inner: &[u8],
    y: &mut [u8],
    u: &mut [u8],
    v: &mut [u8],
) -> u32
    ensures { (result, y.new, u.new, v.new)
        ≡ levels_answer cols rows kind sharpness levels.now inner.now y.old u.old v.old }
{
    number(loop_filter::filter_levels(cols, rows, kind, sharpness, levels, inner, y, u, v))
}
