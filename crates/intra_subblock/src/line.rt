// Means along an edge of nine pixels, lines of them, and a sub-block drawn from a line.
ghost use Rattle.std.specs.Prelude.{◌≡◌, ◌+◌, ◌/◌, ◌%◌, ◌<◌, length};
ghost use Rattle.lists.specs.Lists.{table, rows};
ghost use Rattle.rfc6386.specs.Subblock.{avg2, avg3, avg2_at, avg3_at};
ghost use Rattle.intra_subblock.specs.Line.{steps_line, OnLine, line_pixel};

// (x + y + 1) >> 1
pub(crate) fn avg2(x: u8, y: u8) -> u8
    ensures { result ≡ avg2 x y }
{
    ((u16::from(x) + u16::from(y) + 1) / 2) as u8
}

// (x + 2 y + z + 2) >> 2
pub(crate) fn avg3(x: u8, y: u8, z: u8) -> u8
    ensures { result ≡ avg3 x y z }
{
    ((u16::from(x) + 2 * u16::from(y) + u16::from(z) + 2) / 4) as u8
}

// avg2 at i, of pixels i and i + 1.
pub(crate) fn avg2p(e: [u8; 9], i: usize) -> u8
    requires { i < 8 }
    ensures { result ≡ avg2_at e i }
{
    avg2(e[i], e[i + 1])
}

// avg3 at i, of pixels i - 1, i and i + 1.
pub(crate) fn avg3p(e: [u8; 9], i: usize) -> u8
    requires { (0 < i) × (i < 8) }
    ensures { result ≡ avg3_at e i }
{
    avg3(e[i - 1], e[i], e[i + 1])
}

// avg3 at 1 to 7.
pub(crate) fn slope(e: [u8; 9]) -> [u8; 7]
    ensures { result ≡ table 7 (λ k. avg3_at e (k + 1)) }
{
    std::array::from_fn(|k| avg3p(e, k + 1))
}

// avg2 and avg3 in turn from the edge's start, and two values more.
pub(crate) fn steps(e: [u8; 9], next: u8, last: u8) -> [u8; 10]
    ensures { result ≡ steps_line e next last }
{
    [
        avg2p(e, 0),
        avg3p(e, 1),
        avg2p(e, 1),
        avg3p(e, 2),
        avg2p(e, 2),
        avg3p(e, 3),
        avg2p(e, 3),
        avg3p(e, 4),
        next,
        last,
    ]
}

// Row r has four values of the line from starts[r] on, each a step further.
pub(crate) fn drawn(line: &[u8], starts: [usize; 4], step: usize) -> [u8; 16]
    requires { OnLine starts step (length line.now) }
    ensures { result ≡ rows 4 4 (line_pixel line.now starts step) }
{
    std::array::from_fn(
        |i| -> u8
            requires { (i < 16) × OnLine starts step (length line.now) }
            ensures { result ≡ line_pixel line.entry.now starts step (i / 4) (i % 4) }
        { line[starts[i / 4] + i % 4 * step] },
    )
}
