// A run of pixels side by side, whose residues stand side by side too, from `start` on.
ghost use Rattle.std.specs.Prelude.{◌≡◌, ◌+◌, ◌≤◌, length};
ghost use Rattle.clipping.specs.Clipped.{over};
ghost use Rattle.planes.specs.Steps.{all_added, run_added, run_clipped};

fn add_all(px: &mut [u8], o: &[i16; 64], start: usize)
    requires { start + length px.old ≤ 64 }
    ensures { px.new ≡ all_added o.now start px.old }
{
    for (k, pixel) in px.iter_mut().enumerate() {
        *pixel = residue::sum(*pixel, o[start + k]);
    }
}

// n pixels from `at` on.
pub(crate) fn add_run(px: &mut [u8], at: usize, o: &[i16; 64], start: usize, n: usize)
    requires { (at + n ≤ length px.old) × (start + n ≤ 64) }
    ensures { px.new ≡ run_added o.now at start n px.old }
{
    add_all(&mut px[at..at + n], o, start);
}

// How many of those sums are outside 0 and 255.
pub(crate) fn run_clipped(px: &[u8], at: usize, o: &[i16; 64], start: usize, n: usize) -> u32
    requires { (at + n ≤ length px.now) × (n ≤ 64) × (start + n ≤ 64) }
    ensures { result ≡ run_clipped px.now o.now at start n }
{
    px[at..at + n]
        .iter()
        .zip(&o[start..start + n])
        .map(
            |(p, r)| -> u32
                ensures { result ≡ over p.entry.now r.entry.now }
            { clipping::over(*p, *r) },
        )
        .sum()
}
