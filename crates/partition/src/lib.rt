// Partition bytes as stored, over lent slices: RFC 6386, sections 7 and 13. A bool decoder's state is four numbers, as 7.3 keeps
// it: the place of the next byte, the range, two bytes of value, and how many bits were shifted out of them.
#![tactic(auto)]

ghost use Rattle.std.specs.Prelude.{◌≡◌, ◌<◌, ◌↔◌, IsTrue, EachIndex, slice_index};
ghost use Rattle.macroblock.specs.Reply.{reply_of};
ghost use Rattle.partition.specs.Answers.{numbers_of, state_in, flags_of, bytes_of, put_told, start_answer, flagged_answer, tokens_answer};

use bool_decoder::BoolState;
use macroblock::Refusal;
use tokens::{Macroblock, decode_macroblock};

fn numbers_of(s: BoolState) -> [u64; 4]
    ensures { result ≡ numbers_of s }
{
    [s.at, s.range, s.value, s.bit_count]
}

fn state_of(state: [u64; 4]) -> BoolState
    ensures { result ≡ state_in state }
{
    let [at, range, value, bit_count] = state;
    BoolState {
        at,
        range,
        value,
        bit_count,
    }
}

// The state at the start of a partition. Refused: WrongLength for other than four numbers, and nothing is written.
pub fn bool_start(partition: &[u8], state: &mut [u64]) -> Result<(), Refusal>
    ensures { (reply_of result, state.new) ≡ start_answer partition.now state.old }
{
    if state.len() != 4 {
        return Err(Refusal::WrongLength);
    }
    let s = BoolState::begin(partition);
    state.copy_from_slice(&numbers_of(s));
    Ok(())
}

// Nine bytes of 0 or 1 as flags, and back.
fn flags_of(from: [u8; 9]) -> [bool; 9]
    ensures { result ≡ flags_of from }
{
    from.map(|b| b == 1)
}

fn bytes_of(flags: [bool; 9]) -> [u8; 9]
    ensures { result ≡ bytes_of flags }
{
    flags.map(|f| u8::from(f))
}

// Whether each is 0 or 1.
fn all_flags(from: [u8; 9]) -> bool
    ensures { IsTrue result ↔ EachIndex from (λ k. slice_index from k < 2) }
{
    from.iter().all(|b| *b < 2)
}

// The macroblock's tokens, where y2 and the flags are each 0 or 1.
fn flagged(
    partition: &[u8],
    probabilities: &[u8],
    y2: u8,
    above: [u8; 9],
    left: [u8; 9],
    state: [u64; 4],
) -> Result<Macroblock, Refusal>
    ensures { put_told result above left state ≡ flagged_answer partition.now probabilities.now y2 above left state }
{
    if !((y2 < 2) & all_flags(above) & all_flags(left)) {
        return Err(Refusal::UnknownByte);
    }
    decode_macroblock(
        partition,
        probabilities,
        y2 == 1,
        flags_of(above),
        flags_of(left),
        state_of(state),
    )
}

// The tokens of one macroblock; `y2`: 1 where it has a Y2 block. Refused, in this order: WrongLength for lengths other than 1,056
// probabilities, 9 flags each way, 4 numbers of state and 400 coefficients, and nothing is written; then UnknownByte where y2 or
// a flag is neither 0 nor 1, NoProbability where a probability is 0, PastEnd where the bool decoder needs a byte past the end:
// the coefficients are then 0, and flags and state as they came.
pub fn tokens(
    partition: &[u8],
    probabilities: &[u8],
    y2: u8,
    above: &mut [u8],
    left: &mut [u8],
    state: &mut [u64],
    coeffs: &mut [i16],
) -> Result<(), Refusal>
    ensures { (reply_of result, above.new, left.new, state.new, coeffs.new)
        ≡ tokens_answer partition.now probabilities.now y2 above.old left.old state.old coeffs.old }
{
    if probabilities.len() != 1056 {
        return Err(Refusal::WrongLength);
    }
    let a = above.as_array().ok_or(Refusal::WrongLength)?;
    let l = left.as_array().ok_or(Refusal::WrongLength)?;
    let s = state.as_array().ok_or(Refusal::WrongLength)?;
    if coeffs.len() != 400 {
        return Err(Refusal::WrongLength);
    }
    coeffs.fill(0);
    let m = flagged(partition, probabilities, y2, *a, *l, *s)?;
    coeffs.copy_from_slice(&m.coeffs);
    above.copy_from_slice(&bytes_of(m.above));
    left.copy_from_slice(&bytes_of(m.left));
    state.copy_from_slice(&numbers_of(m.state));
    Ok(())
}
