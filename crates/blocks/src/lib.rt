// What the luma and the chroma of a macroblock share: the caller's coefficients, taken and transformed four blocks side by
// side (RFC 6386, 14.4).
#![tactic(auto)]

ghost use Rattle.std.specs.Prelude.{◌≡◌, ◌+◌, ◌≤◌, pos, length, get_or};
ghost use Rattle.blocks.specs.Taken.{taken, residues_from};

// Coefficient at + k, or 0 where the slice has ended.
fn coefficient(coeffs: &[i16], at: usize, k: usize) -> i16
    ensures { result ≡ get_or coeffs.now (at + k) (pos 0) }
{
    coeffs.get(at.saturating_add(k)).copied().unwrap_or(0)
}

// As many as `out` has, of which some may lie past the slice's end.
// Kept: written into an array that `taken` hands out, here and below: with a slice that may end, the two ways are told apart once.
fn take_padded(out: &mut [i16], coeffs: &[i16], at: usize)
    ensures { out.new ≡ taken (length out.old) coeffs.now at }
{
    for (k, x) in out.iter_mut().enumerate() {
        *x = coefficient(coeffs, at, k);
    }
}

// As many as `out` has, all of which lie in the slice.
fn take_all(out: &mut [i16], coeffs: &[i16], at: usize)
    requires { at + length out.old ≤ length coeffs.now }
    ensures { out.new ≡ taken (length out.old) coeffs.now at }
{
    let n = out.len();
    out.copy_from_slice(&coeffs[at..at + n]);
}

fn take(out: &mut [i16], coeffs: &[i16], at: usize)
    ensures { out.new ≡ taken (length out.old) coeffs.now at }
{
    if coeffs.len() < at || coeffs.len() - at < out.len() {
        take_padded(out, coeffs, at);
    } else {
        take_all(out, coeffs, at);
    }
}

// The N from `at` on; 0 where the slice has ended.
fn taken<const N: usize>(coeffs: &[i16], at: usize) -> [i16; N]
    ensures { result ≡ taken N coeffs.now at }
{
    let mut out = [0i16; N];
    take(&mut out, coeffs, at);
    out
}

// The block at the start; 0 where the slice has ended.
pub fn first(coeffs: &[i16]) -> [i16; 16]
    ensures { result ≡ taken 16 coeffs.now 0 }
{
    taken(coeffs, 0)
}

// The four blocks from `at` on; 0 where the slice has ended.
pub fn four(coeffs: &[i16], at: usize) -> [i16; 64]
    ensures { result ≡ taken 64 coeffs.now at }
{
    taken(coeffs, at)
}

// The residues of the four blocks from `at` on, side by side.
pub fn residues(coeffs: &[i16], at: usize) -> [i16; 64]
    ensures { result ≡ residues_from coeffs.now at }
{
    dct::inverse_dct_four(four(coeffs, at))
}
