// The bool decoder of RFC 6386, section 7, by value.
//
//     value, 64 bits:   | 8 bits, against the split | held - 8 bits read ahead | zeros |
//
// The RFC compares the first eight bits with the split, and what it loads behind them changes no bool. Here four bytes are
// loaded at a time, so that several bools can be read between two looks at `held`. A byte past the end of the partition is 0,
// and `at` counts it: so whether the RFC's own loading has passed the end can be told at any time after (`state`).
//
// No function asks anything of its caller: a decoder that was not made here is read safely, and nothing is said of what it
// gives.
#![tactic(auto)]

mod state;

ghost use Rattle.std.specs.Prelude.{◌≡◌, ◌+◌, ◌*◌, ◌<◌, ◌≤◌, true, false, length, slice_index};
ghost use Rattle.lists.specs.Lists.{pick};
ghost use Rattle.bool_decoder.specs.Held.{bits};
ghost use Rattle.bool_decoder.specs.Inside.{Shift, Split, four_of};

pub use state::BoolState;

#[derive(Clone, Copy)]
pub struct BoolDecoder {
    pub value: u64,
    pub range: u32,
    pub held: u32,
    pub at: usize,
}

// How many shifts bring a range to 128 or more.
fn shifts(range: u32) -> u32
    ensures { Shift range result }
{
    range.leading_zeros() % 8
}

// Where the range is split, 1 + (range - 1) * prob / 256: from 1 to range - 1.
fn split_of(range: u32, prob: u8) -> u32
    ensures { Split range prob result }
{
    1 + ((u64::from(range.wrapping_sub(1)) * u64::from(prob)) >> 8) as u32
}

// Four bytes, the first one highest.
fn four_at(src: &[u8], at: usize) -> u64
    requires { at + 4 ≤ length src.now }
    ensures { result ≡ four_of src.now at }
{
    u64::from(u32::from_be_bytes([src[at], src[at + 1], src[at + 2], src[at + 3]]))
}

// A byte, 0 past the end.
fn byte_or_none(src: &[u8], at: usize) -> u8
    ensures { result ≡ slice_index src.now at }
{
    src.get(at).copied().unwrap_or(0)
}

// Four bytes that may pass the end.
fn last_four(src: &[u8], at: usize) -> u64
    requires { at < length src.now }
    ensures { result ≡ four_of src.now at }
{
    u64::from(u32::from_be_bytes([
        src[at],
        byte_or_none(src, at + 1),
        byte_or_none(src, at + 2),
        byte_or_none(src, at + 3),
    ]))
}

fn four_from(src: &[u8], at: usize) -> u64
    requires { at < length src.now }
    ensures { result ≡ bits src.now (8 * at) 32 }
{
    if 4 <= src.len() - at {
        four_at(src, at)
    } else {
        last_four(src, at)
    }
}

// One of two, without a branch.
fn either<T: Copy>(first: bool, x: T, y: T) -> T
    ensures { result ≡ pick first x y }
{
    if first { x } else { y }
}

impl BoolDecoder {
    ghost use Rattle.bool_decoder.specs.Held.{Ready, IsOne, After, Takes};
    ghost use Rattle.bool_decoder.specs.Inside.{Renews, Loads};

    // Four bytes more, at the low end of what is held.
    fn more(self, src: &[u8]) -> BoolDecoder
        requires { self.held ≤ 32 }
        ensures { Loads src.now self result }
    {
        let held = self.held + 32;
        if self.at < src.len() {
            let value = self.value | (four_from(src, self.at) << (32 - self.held));
            return BoolDecoder {
                value,
                held,
                at: self.at + 4,
                ..self
            };
        }
        if self.at - src.len() < 8 {
            return BoolDecoder {
                held,
                at: self.at + 4,
                ..self
            };
        }
        BoolDecoder { held, ..self }
    }

    // The same decoder with 33 bits or more held.
    pub fn ready(self, src: &[u8]) -> BoolDecoder
        ensures { Ready src.now self result }
    {
        if 32 < self.held { self } else { self.more(src) }
    }

    // The next bool, at probability `prob` / 256 of being 0, where fifteen bits or more are held. A caller goes one way or the
    // other by it, and takes the decoder after a one or after a zero there: so neither waits for the comparison.
    pub fn is_one(self, prob: u8) -> bool
        ensures { IsOne prob self result }
    {
        u64::from(split_of(self.range, prob)) << 56 <= self.value
    }

    // The RFC's loop `while range < 128`, all its shifts at once.
    fn renewed(self) -> BoolDecoder
        ensures { Renews self.value self.range self.held self.at result }
    {
        let s = shifts(self.range);
        BoolDecoder {
            value: self.value << s,
            range: self.range << s,
            held: self.held.wrapping_sub(s),
            ..self
        }
    }

    // The decoder after a bool that is 1.
    pub fn after_one(self, prob: u8) -> BoolDecoder
        ensures { After true prob self result }
    {
        let split = split_of(self.range, prob);
        let rest = BoolDecoder {
            value: self.value.wrapping_sub(u64::from(split) << 56),
            range: self.range.wrapping_sub(split),
            ..self
        };
        rest.renewed()
    }

    // The decoder after a bool that is 0.
    pub fn after_zero(self, prob: u8) -> BoolDecoder
        ensures { After false prob self result }
    {
        let rest = BoolDecoder {
            range: split_of(self.range, prob),
            ..self
        };
        rest.renewed()
    }

    // Both at once and without a branch, for bools that are as good as random: signs and extra bits.
    pub fn take(self, prob: u8) -> (bool, BoolDecoder)
        ensures { Takes prob self result }
    {
        let split = split_of(self.range, prob);
        let big = u64::from(split) << 56;
        let bit = big <= self.value;
        let rest = BoolDecoder {
            value: self.value.wrapping_sub(either(bit, big, 0)),
            range: either(bit, self.range.wrapping_sub(split), split),
            ..self
        };
        (bit, rest.renewed())
    }
}
