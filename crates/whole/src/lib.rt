// Arithmetic on signed machine integers, for all values and with exact promises: the 32-bit sums and products of the
// transforms wrap, their results narrow to 16 bits, `>>` rounds down.
// Kept: helpers of the project's own for these are a rule of it; the edit `narrow_to_15_bits` is an edit of their shifts.
#![tactic(auto)]

ghost use Rattle.std.specs.Prelude.{◌≡◌, pos, ◌+ℤ◌, ◌-ℤ◌, ◌*ℤ◌};
ghost use Rattle.std.specs.Int.Signed.{shr_z};
ghost use Rattle.whole.specs.Whole.{wrap, narrow, clamp};

// The number modulo 2^32, read as signed 32 bits.
pub fn wrap(x: i64) -> i32
    ensures { result ≡ wrap x }
{
    ((x << 32) >> 32) as i32
}

// The number modulo 2^16, read as signed 16 bits.
pub fn narrow(x: i32) -> i16
    ensures { result ≡ narrow x }
{
    ((x << 16) >> 16) as i16
}

// The same number in 32 bits.
pub fn widen(x: i16) -> i32
    ensures { result ≡ x }
{
    i32::from(x)
}

// An eighth, rounded down.
pub fn eighth(x: i32) -> i32
    ensures { result ≡ shr_z x 8 }
{
    x >> 3
}

// A 65536th, rounded down.
pub fn high_half(x: i32) -> i32
    ensures { result ≡ shr_z x 65536 }
{
    x >> 16
}

pub fn wrapping_mul(x: i32, y: i32) -> i32
    ensures { result ≡ wrap (x *ℤ y) }
{
    wrap((x as i64) * (y as i64))
}

pub fn wrapping_add(x: i32, y: i32) -> i32
    ensures { result ≡ wrap (x +ℤ y) }
{
    wrap((x as i64) + (y as i64))
}

pub fn wrapping_sub(x: i32, y: i32) -> i32
    ensures { result ≡ wrap (x -ℤ y) }
{
    wrap((x as i64) - (y as i64))
}

// The number held within 0 and 255, before it is made a byte: in this form the compiler sees a minimum of a maximum.
pub fn within_byte(v: i32) -> i32
    ensures { result ≡ pos (clamp v) }
{
    v.clamp(0, 255)
}

// The number held within 0 and 255.
pub fn clamp255(v: i32) -> u8
    ensures { result ≡ clamp v }
{
    within_byte(v) as u8
}
