// How far the replay came, and what is printed of it.
use checksum::Checksum;
use std::{fmt, io};

#[derive(Clone, Copy, Debug, PartialEq, Eq)]
pub enum Outcome {
    Going,
    Whole,
    Differs,
    NoFormat,
}

impl fmt::Display for Outcome {
    fn fmt<W: fmt::Write>(&self, f: &mut fmt::Formatter<W>) -> fmt::Result {
        f.write_str(match self {
            Outcome::Whole => "the end, and the checksum is right",
            Outcome::Differs => "another answer",
            // A replay that still goes has taken the most records that it takes, and saw no end.
            Outcome::Going | Outcome::NoFormat => "not of the format, or the checksum is wrong",
        })
    }
}

// The checksum of what was read, the number of records that agreed, and the number of the kind that was read last.
#[derive(Clone, Copy, Debug, PartialEq, Eq)]
pub struct Progress {
    pub sum: Checksum,
    pub records: u64,
    pub kind: u8,
    pub outcome: Outcome,
}

impl Progress {
    pub fn start() -> Self {
        Progress {
            sum: Checksum::start(),
            records: 0,
            kind: 0,
            outcome: Outcome::Going,
        }
    }

    // The same progress, come to an end.
    pub fn stopped(self, outcome: Outcome) -> Self {
        Progress { outcome, ..self }
    }

    // The byte that says a record's kind was read.
    pub fn with_kind(self, kind: u8) -> Self {
        Progress {
            sum: self.sum.with_byte(kind),
            kind,
            ..self
        }
    }

    // The record's bytes agree.
    pub fn agreed(self, bytes: &[u8]) -> Self {
        Progress {
            sum: self.sum.with_bytes(bytes),
            records: self.records.wrapping_add(1),
            ..self
        }
    }
}

// How many records of each kind agreed, at the place of the kind's number, and where the replay stopped: records are numbered
// from 0.
pub fn print(rt: &impl Print, counts: &[u64; 18], at: Progress) -> io::Result<()> {
    for (kind, n) in counts.iter().enumerate().skip(1) {
        println!(rt; "kind {kind}: {n}")?;
    }
    let Progress {
        records,
        kind,
        outcome,
        ..
    } = at;
    println!(rt; "record {records}, kind {kind}: {outcome}")
}
