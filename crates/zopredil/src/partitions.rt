// Partition bytes as stored: the bool decoder's state at the start, and the tokens of a macroblock.
ghost use Rattle.std.specs.Prelude.{◌≡◌};
ghost use Rattle.partition.specs.Answers.{start_answer, tokens_answer};

use crate::answers::number;

pub fn zopredil_bool_start(partition: &[u8], state: &mut [u64]) -> u32
    ensures { (result, state.new) ≡ start_answer partition.now state.old }
{
    number(partition::bool_start(partition, state))
}

pub fn zopredil_tokens(
    partition: &[u8],
    probabilities: &[u8],
    y2: u8,
    above: &mut [u8],
    left: &mut [u8],
    state: &mut [u64],
    coeffs: &mut [i16],
) -> u32
    ensures { (result, above.new, left.new, state.new, coeffs.new)
        ≡ tokens_answer partition.now probabilities.now y2 above.old left.old state.old coeffs.old }
{
    number(partition::tokens(partition, probabilities, y2, above, left, state, coeffs))
}
