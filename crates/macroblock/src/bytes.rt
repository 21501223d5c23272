// What the bytes of a macroblock say of its modes. `try_from` has the mode or the refusal; here are its two halves for a caller
// that goes on with any byte, the mode, or the first one where the byte numbers none, and the reply, 0 or 8.
ghost use Rattle.std.specs.Prelude.{◌≡◌, length};
ghost use Rattle.lists.specs.Lists.{within};
ghost use Rattle.macroblock.specs.Reply.{reply_of};
ghost use Rattle.macroblock.specs.Says.{y_reply, y_mode, uv_reply, uv_mode, b_reply, b_mode};

use crate::modes::{IntraBmode, IntraUvMode, IntraYMode};
use crate::reply::{DONE, Refusal};

// The number of an answer's reply.
fn reply_of<T: Copy>(answer: Result<T, Refusal>) -> u32
    ensures { result ≡ reply_of answer }
{
    match answer {
        Ok(_) => DONE,
        Err(refusal) => refusal.number(),
    }
}

// Kept: six names, here and below, that the project promises, each one call with an equation of its own.
pub fn y_mode(byte: u8) -> IntraYMode
    ensures { result ≡ y_mode byte }
{
    IntraYMode::try_from(byte).unwrap_or(IntraYMode::Dc)
}

pub fn y_reply(byte: u8) -> u32
    ensures { result ≡ y_reply byte }
{
    reply_of(IntraYMode::try_from(byte))
}

pub fn uv_mode(byte: u8) -> IntraUvMode
    ensures { result ≡ uv_mode byte }
{
    IntraUvMode::try_from(byte).unwrap_or(IntraUvMode::Dc)
}

pub fn uv_reply(byte: u8) -> u32
    ensures { result ≡ uv_reply byte }
{
    reply_of(IntraUvMode::try_from(byte))
}

pub fn b_mode(byte: u8) -> IntraBmode
    ensures { result ≡ b_mode byte }
{
    IntraBmode::try_from(byte).unwrap_or(IntraBmode::Dc)
}

pub fn b_reply(byte: u8) -> u32
    ensures { result ≡ b_reply byte }
{
    reply_of(IntraBmode::try_from(byte))
}

// Whether every byte is at most `most`.
pub fn all_within(bytes: &[u8], most: u8) -> bool
    ensures { result ≡ within most (length bytes.now) bytes.now }
{
    bytes.iter().all(|byte| *byte <= most)
}

// Whether each of sixteen bytes numbers a sub-block's mode.
pub fn b_modes_known(bytes: [u8; 16]) -> bool
    ensures { result ≡ within 9 16 bytes }
{
    all_within(&bytes, 9)
}
