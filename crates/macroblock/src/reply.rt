// The numbers of the replies, and why a call is refused; 6 is not used. specs/Reply.antt has the same numbers under the same
// names. 0 is done: what is answered is then the result.
ghost use Rattle.std.specs.Prelude.{◌≡◌};
ghost use Rattle.macroblock.specs.Reply.{number, replies};

use std::error::Error;
use std::fmt;

// Done: the result.
pub const DONE: u32 = 0;

// Why a call is refused.
#[derive(Clone, Copy, Debug, PartialEq, Eq)]
pub enum Refusal {
    // A lent slice has the wrong length.
    WrongLength,
    // A 4x4 block does not lie in its plane.
    OutsidePlane,
    // Luma mode B where a 16x16 mode is wanted.
    BPred,
    // No sub-block modes where mode B wants them.
    NoSubModes,
    // A sum of quantiser indices is outside signed 32 bits.
    IndexSum,
    // The picture's size or the macroblock's place is outside its limits.
    OutsidePicture,
    // A byte is no mode's number.
    UnknownByte,
    // The bool decoder needs a byte past the end of its partition.
    PastEnd,
    // A token probability is 0.
    NoProbability,
    // A filter level is above 63, or a sharpness above 7.
    OutsideLevels,
    // More stills than 4,096 in one list.
    TooManyStills,
}

impl Refusal {
    // Kept: the number that the C interface answers.
    pub fn number(self) -> u32
        ensures { result ≡ number self }
    {
        match self {
            Refusal::WrongLength => 1,
            Refusal::OutsidePlane => 2,
            Refusal::BPred => 3,
            Refusal::NoSubModes => 4,
            Refusal::IndexSum => 5,
            Refusal::OutsidePicture => 7,
            Refusal::UnknownByte => 8,
            Refusal::PastEnd => 9,
            Refusal::NoProbability => 10,
            Refusal::OutsideLevels => 11,
            Refusal::TooManyStills => 12,
        }
    }
}

impl fmt::Display for Refusal {
    fn fmt<W: fmt::Write>(&self, f: &mut fmt::Formatter<W>) -> fmt::Result {
        f.write_str(match self {
            Refusal::WrongLength => "a slice has the wrong length",
            Refusal::OutsidePlane => "the block does not lie in its plane",
            Refusal::BPred => "luma mode B has no 16x16 prediction",
            Refusal::NoSubModes => "luma mode B without sub-block modes",
            Refusal::IndexSum => "a sum of quantiser indices is outside 32 bits",
            Refusal::OutsidePicture => "a size or a place is outside its limits",
            Refusal::UnknownByte => "a byte says nothing",
            Refusal::PastEnd => "the partition ends too early",
            Refusal::NoProbability => "a token probability is 0",
            Refusal::OutsideLevels => "a filter level or sharpness is outside its limits",
            Refusal::TooManyStills => "more than 4,096 stills",
        })
    }
}

impl Error for Refusal {}

// The numbers that a call on pictures answers, in order.
pub fn numbers() -> [u32; 9]
    ensures { result ≡ replies }
{
    [
        DONE,
        Refusal::WrongLength.number(),
        Refusal::OutsidePlane.number(),
        Refusal::BPred.number(),
        Refusal::NoSubModes.number(),
        Refusal::IndexSum.number(),
        Refusal::OutsidePicture.number(),
        Refusal::UnknownByte.number(),
        Refusal::OutsideLevels.number(),
    ]
}
