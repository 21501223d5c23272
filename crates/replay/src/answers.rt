// An answer held to a record's expected bytes: the reply, then what stands in the written slice.
ghost use Rattle.std.specs.Prelude.{◌≡◌, true, ◌∷◌};

// What is in a slice before a function writes it.
pub const FILL: u8 = 0xA5;

pub const FILL_SHORT: i16 = -23131;

pub fn agree(expected: &[u8], reply: u32, out: &[u8]) -> bool
    ensures { result ≡ true → (reply ∷ out.now) ≡ expected.now }
{
    if expected.is_empty() {
        return false;
    }
    let first = expected[0];
    if u32::from(first) != reply {
        return false;
    }
    check::same(&expected[1..], out)
}

// The same for a slice of shorts, each of them two expected bytes.
pub fn agree_in_shorts(expected: &[u8], reply: u32, out: &[i16]) -> bool {
    let Some((&first, rest)) = expected.split_first() else {
        return false;
    };
    let (pairs, odd) = rest.as_chunks::<2>();
    u32::from(first) == reply
        && odd.is_empty()
        && pairs.len() == out.len()
        && pairs
            .iter()
            .zip(out)
            .all(|(pair, &x)| i16::from_le_bytes(*pair) == x)
}
