// Copies between lent slices and arrays, for interfaces that are handed slices. Nothing is copied between unequal lengths.
#![tactic(auto)]

ghost use Rattle.std.specs.Prelude.{◌≡◌, ◌++◌, ◌∷◌, [], length};
ghost use Rattle.slices.specs.Copies.{copied, cleared, or_zeros, put_in};

// One slice into another of the same length.
pub fn copy<T: Copy>(to: &mut [T], from: &[T])
    ensures { to.new ≡ copied from.now to.old }
{
    if to.len() == from.len() {
        // Kept: a loop that LLVM makes one move of; `copy_from_slice` goes by pointers, of which it tests whether they
        // overlap: 28 instructions a call of `zopredil_inverse_wht_dc_only` for 17.
        for i in 0..to.len() {
            to[i] = from[i];
        }
    }
}

// Kept: a name that the project promises, one call of the library's.
// Every pixel 0.
pub fn clear(to: &mut [u8])
    ensures { to.new ≡ cleared to.old }
{
    to.fill(0);
}

// A slice's N elements, or `other` N times for a slice of another length.
pub fn array<T: Copy, const N: usize>(from: &[T], other: T) -> [T; N]
    ensures { result ≡ or_zeros other N from.now }
{
    let mut elements = [other; N];
    copy(&mut elements, from);
    elements
}

// N elements into a slice of that length; nothing into a slice of another.
pub fn put<T: Copy, const N: usize>(to: &mut [T], elements: &[T; N])
    ensures { to.new ≡ put_in N elements.now to.old }
{
    copy(to, elements);
}

// Kept: three parts of one lent slice; no plainer by value.
#[inline(always)]
fn lay(to: &mut [u8], y: &[u8; 256], u: &[u8; 64], v: &[u8; 64])
    requires { length to.old ≡ 384 }
    ensures { to.new ≡ y.now ++ (u.now ++ v.now) }
{
    put(&mut to[0..256], y);
    put(&mut to[256..320], u);
    put(&mut to[320..384], v);
}

// Y, U and V of a macroblock, one after another; nothing into a slice of another length than 384. Inlined, so
// that LLVM sees that the caller's planes lie apart from `to`.
#[inline(always)]
pub fn put_planes(to: &mut [u8], y: &[u8; 256], u: &[u8; 64], v: &[u8; 64])
    ensures { to.new ≡ put_in 384 (y.now ++ (u.now ++ v.now)) to.old }
{
    if to.len() == 384 {
        lay(to, y, u, v);
    }
}

// A count; nothing into a slice of another length than 1.
pub fn put_count(to: &mut [u64], n: u64)
    ensures { to.new ≡ put_in 1 (n ∷ []) to.old }
{
    put(to, &[n]);
}
