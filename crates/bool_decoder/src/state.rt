// The decoder between two calls, as RFC 6386, 7.3, keeps it: the place of the next byte, the range, two bytes of value, and
// how many bits were shifted out of them since the last byte was loaded.
ghost use Rattle.std.specs.Prelude.{◌≡◌, ◌*◌, ◌%◌, ◌^◌};
ghost use Rattle.bool_decoder.specs.BoolCoder.{opened};

use crate::{BoolDecoder, byte_or_none};

#[derive(Clone, Copy)]
pub struct BoolState {
    pub at: u64,
    pub range: u64,
    pub value: u64,
    pub bit_count: u64,
}

// What a byte shows below the eight bits that are compared, when some of its bits are shifted out.
fn shown(byte: u8, count: u64) -> u64
    ensures { result ≡ byte * 2 ^ (count % 8) % 256 }
{
    (u64::from(byte) << (count % 8)) % 256
}

impl BoolState {
    ghost use Rattle.bool_decoder.specs.State.{state_of, stands_of, in_range, Resumes};

    // The start of a partition.
    pub fn begin(src: &[u8]) -> BoolState
        ensures { result ≡ state_of src.now (opened src.now) }
    {
        BoolState {
            at: 2,
            range: 255,
            value: 256 * u64::from(byte_or_none(src, 0)) + u64::from(byte_or_none(src, 1)),
            bit_count: 0,
        }
    }

    fn in_range(self) -> bool
        ensures { result ≡ in_range self }
    {
        (128 <= self.range) & (self.range <= 255) & (self.bit_count <= 7) & (self.value <= 65535)
    }

    // Whether a start or a read of this partition can have left the state, without passing the end.
    pub fn stands(self, src: &[u8]) -> bool
        ensures { result ≡ stands_of src.now self }
    {
        if self.at < 2 {
            return false;
        }
        if (src.len() as u64) < self.at {
            return false;
        }
        let first = byte_or_none(src, 0);
        let last = byte_or_none(src, (self.at as usize) - 1);
        let low = shown(last, self.bit_count);
        self.in_range()
            & (self.value % 256 == low)
            & ((self.value / 256 < self.range) | (first == 255))
    }

    // The decoder of a state.
    pub fn resume(self) -> BoolDecoder
        ensures { Resumes self result }
    {
        BoolDecoder {
            value: self.value << 48,
            range: (self.range % 256) as u32,
            held: 16 - ((self.bit_count % 8) as u32),
            at: self.at as usize,
        }
    }
}

impl BoolDecoder {
    ghost use Rattle.bool_decoder.specs.State.{Saves};

    // The state of a decoder. One that has passed the end of its partition has its place past it.
    pub fn save(self, src: &[u8]) -> BoolState
        ensures { Saves src.now self result }
    {
        let e = self.ready(src);
        let count = (64 - (e.held % 64)) % 8;
        let ahead = u64::from(e.held.wrapping_sub(16)) + u64::from(count);
        BoolState {
            at: (e.at as u64).wrapping_sub(ahead / 8),
            range: u64::from(e.range),
            value: (e.value >> (48 + count)) << count,
            bit_count: u64::from(count),
        }
    }
}
