// What becomes of a still: its planes are held to those of the decoder, then its macroblocks are drawn once more by themselves.
use crate::loose::Shelf;
use crate::still_file::{Planes, Still};
use std::fmt;

// Whether all pixels are equal, whether all loose macroblocks are, and whether they are with one of them damaged.
#[derive(Clone, Copy, Debug, PartialEq, Eq)]
pub struct Verdict {
    drawn: bool,
    loose: bool,
    damaged: bool,
}

impl Verdict {
    // Of a still whose planes are those in the bytes.
    pub fn of(still: &Still, bytes: &[u8; 65536]) -> Self {
        let mut planes = Planes::blank();
        let drawn = planes.draw(still);
        let mut shelf = Shelf::blank(still, &planes);
        let jobs = shelf.lay_all(still, &planes);
        let loose = shelf.agrees_of_jobs(jobs) && shelf.agrees_of_bytes();
        let damaged = shelf.agrees_damaged();
        Verdict {
            drawn: drawn && planes.are(still, bytes),
            loose,
            damaged,
        }
    }
}

fn word(equal: bool) -> &'static str {
    if equal { "equal" } else { "DIFFERENT" }
}

impl fmt::Display for Verdict {
    fn fmt<W: fmt::Write>(&self, f: &mut fmt::Formatter<W>) -> fmt::Result {
        write!(
            f,
            "{}; loose: {}; one damaged: {}",
            word(self.drawn),
            word(self.loose),
            word(self.damaged)
        )
    }
}
