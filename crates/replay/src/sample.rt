// The sample, from its first record to its end.
use crate::kinds::Kind;
use crate::numbers;
use crate::report::{self, Outcome, Progress};
use checksum::Checksum;
use reading::read_full;
use std::io;
use std::io::Read;

// After kind 0: the checksum's two sums, and then nothing.
fn end_follows(input: &mut impl Read, sum: Checksum) -> io::Result<bool> {
    let mut bytes = [0; 5];
    let n = read_full(input, &mut bytes)?;
    let read = Checksum {
        a: numbers::u16_at(&bytes, 0),
        b: numbers::u16_at(&bytes, 2),
    };
    Ok(n == 4 && read == sum)
}

// The rest of a record, after the byte of its kind.
fn record_follows(
    input: &mut impl Read,
    planes: &mut [u8; 4096],
    before: Progress,
) -> io::Result<Progress> {
    let Ok(kind) = Kind::try_from(before.kind) else {
        return Ok(before.stopped(Outcome::NoFormat));
    };
    let n = kind.length();
    let mut record = [0; 4096];
    if read_full(input, &mut record[..n])? != n {
        return Ok(before.stopped(Outcome::NoFormat));
    }
    if !kind.agrees(&record, planes) {
        return Ok(before.stopped(Outcome::Differs));
    }
    Ok(before.agreed(&record[..n]))
}

// One record, or the end.
fn turn(input: &mut impl Read, planes: &mut [u8; 4096], before: Progress) -> io::Result<Progress> {
    let mut kind = [0; 1];
    if read_full(input, &mut kind)? != 1 {
        return Ok(before.stopped(Outcome::NoFormat));
    }
    let at = before.with_kind(kind[0]);
    if kind[0] != 0 {
        return record_follows(input, planes, at);
    }
    if end_follows(input, at.sum)? {
        return Ok(at.stopped(Outcome::Whole));
    }
    Ok(at.stopped(Outcome::NoFormat))
}

// A proved loop has to end, and nothing says that a file does: this one takes a million records at most. Inlined, it has its buffers
// in the place of those that `main` prints an error with, and not beside them: 8 KiB of stack.
#[inline(always)]
pub fn replay(rt: &impl Print, input: &mut impl Read) -> io::Result<()> {
    let mut planes = [0; 4096];
    let mut counts = [0u64; 18];
    let mut at = Progress::start();
    // Kept: no plainer: nothing says that a file ends, and the number of turns is what makes the loop end.
    for _ in 0..1000000usize {
        at = turn(input, &mut planes, at)?;
        if at.outcome != Outcome::Going {
            break;
        }
        if let Some(count) = counts.get_mut(usize::from(at.kind)) {
            *count = count.wrapping_add(1);
        }
    }
    report::print(rt, &counts, at)
}
