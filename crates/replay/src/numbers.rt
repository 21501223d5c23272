// Numbers among bytes, low byte first.
ghost use Rattle.std.specs.Prelude.{◌+◌, ◌≤◌, ◌<◌, length};

// One byte.
pub(crate) fn byte_at(bytes: &[u8], at: usize) -> usize
    requires { at < length bytes.now }
    ensures { result ≤ 255 }
{
    usize::from(bytes[at])
}

// Two bytes.
pub(crate) fn u16_at(bytes: &[u8], at: usize) -> usize
    requires { at + 2 ≤ length bytes.now }
    ensures { result ≤ 65535 }
{
    usize::from(u16::from_le_bytes([bytes[at], bytes[at + 1]]))
}

// Eight bytes.
pub(crate) fn u64_at(bytes: &[u8], at: usize) -> usize
    requires { at + 8 ≤ length bytes.now }
{
    usize::from_le_bytes([
        bytes[at],
        bytes[at + 1],
        bytes[at + 2],
        bytes[at + 3],
        bytes[at + 4],
        bytes[at + 5],
        bytes[at + 6],
        bytes[at + 7],
    ])
}

// Two bytes, two's complement.
pub(crate) fn i16_at(bytes: &[u8], at: usize) -> i16
    requires { at + 2 ≤ length bytes.now }
{
    i16::from_le_bytes([bytes[at], bytes[at + 1]])
}

// Four bytes, two's complement.
pub(crate) fn i32_at(bytes: &[u8], at: usize) -> i32
    requires { at + 4 ≤ length bytes.now }
{
    i32::from_le_bytes([bytes[at], bytes[at + 1], bytes[at + 2], bytes[at + 3]])
}

// As many shorts as out has room for.
pub fn shorts(bytes: &[u8], out: &mut [i16]) {
    for (number, pair) in out.iter_mut().zip(bytes.as_chunks::<2>().0) {
        *number = i16::from_le_bytes(*pair);
    }
}

// In each four bytes a place and the number to put there. Whether each place is in out.
pub fn put_each(bytes: &[u8], out: &mut [i16]) -> bool {
    for &[a, b, c, d] in bytes.as_chunks::<4>().0 {
        let place = usize::from(u16::from_le_bytes([a, b]));
        if place >= out.len() {
            return false;
        }
        out[place] = i16::from_le_bytes([c, d]);
    }
    true
}

// The first n of a slice, all of it where it is shorter.
pub fn first<T>(items: &[T], n: usize) -> &[T] {
    &items[..n.min(items.len())]
}

pub fn first_mut<T>(items: &mut [T], n: usize) -> &mut [T] {
    let n = n.min(items.len());
    &mut items[..n]
}
